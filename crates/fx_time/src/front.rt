//! Readers of what stands at the front of a text. Each gives the value and the rest.
ghost use Rattle.std.specs.Prelude.{◌≡◌, ◌<◌, ◌≤◌, ℕ, length, slice_index, IfSome};
ghost use Rattle.std.specs.List.{prefix_len};
ghost use Rattle.std.specs.Char.{IsAsciiDigit, is_ascii_digit};
ghost use Rattle.jiff_fmt.specs.Reader.{option_view, two_digits, four_digits};
ghost use Rattle.fx_time.specs.Front.{two_past, date_front, clock_front, billionths, fraction_front, offset_front, zone_front};

#[tactic(auto, unfolding(jiff_fmt::specs::Reader::two_digits))]
fn two(s: &[u8]) -> Option<(u8, &[u8])>
    ensures value { option_view result ≡ two_digits s.now }
    ensures bound { IfSome result (λ p. p.0 < 100) }
{
    match s {
        [tens @ b'0'..=b'9', ones @ b'0'..=b'9', rest @ ..] => {
            Some(((*tens - b'0') * 10 + (*ones - b'0'), rest))
        }
        _ => None,
    }
}

#[tactic(auto, unfolding(jiff_fmt::specs::Reader::four_digits))]
fn four(s: &[u8]) -> Option<(u16, &[u8])>
    ensures value { option_view result ≡ four_digits s.now }
    ensures bound { IfSome result (λ p. p.0 < 10_000) }
{
    let (century, rest) = two(s)?;
    let (year, rest) = two(rest)?;
    Some((century as u16 * 100 + year as u16, rest))
}

/// The byte and then two digits.
#[tactic(auto, unfolding(crate::specs::Front::two_past))]
fn two_past(byte: u8, s: &[u8]) -> Option<(u8, &[u8])>
    ensures value { option_view result ≡ two_past byte s.now }
    ensures bound { IfSome result (λ p. p.0 < 100) }
{
    let [first, rest @ ..] = s else {
        return None;
    };
    if *first != byte {
        return None;
    }
    two(rest)
}

/// `2024-06-19`: year, month and day.
#[tactic(auto, unfolding(crate::specs::Front::date_front))]
pub(crate) fn date(s: &[u8]) -> Option<((u16, u8, u8), &[u8])>
    ensures value { option_view result ≡ date_front s.now }
    ensures bound { IfSome result (λ p. p.0.0 < 10_000) }
    ensures month { IfSome result (λ p. p.0.1 < 100) }
    ensures day { IfSome result (λ p. p.0.2 < 100) }
{
    let (year, rest) = four(s)?;
    let (month, rest) = two_past(b'-', rest)?;
    let (day, rest) = two_past(b'-', rest)?;
    Some(((year, month, day), rest))
}

/// `T17:30:05`, as seconds from midnight.
#[tactic(auto, unfolding(crate::specs::Front::clock_front))]
pub(crate) fn clock(s: &[u8]) -> Option<(u32, &[u8])>
    ensures value { option_view result ≡ clock_front s.now }
    ensures bound { IfSome result (λ p. p.0 < 86_400) }
{
    let (hour, rest) = two_past(b'T', s)?;
    let (minute, rest) = two_past(b':', rest)?;
    let (second, rest) = two_past(b':', rest)?;
    if hour > 23 || minute > 59 || second > 59 {
        return None;
    }
    Some((
        hour as u32 * 3600 + minute as u32 * 60 + second as u32,
        rest,
    ))
}

fn digits_len(s: &[u8]) -> usize
    ensures len { result ≡ prefix_len is_ascii_digit s.now }
    ensures within { result ≤ length s.now }
    ensures digits { (k : ℕ) → k < result → IsAsciiDigit (slice_index s.now k) }
{
    s.iter().take_while(|b| b.is_ascii_digit()).count()
}

/// One to nine digits, as billionths.
#[tactic(auto, unfolding(crate::specs::Front::billionths))]
fn billionths(s: &[u8]) -> Option<(u32, &[u8])>
    ensures value { option_view result ≡ billionths s.now }
    ensures bound { IfSome result (λ p. p.0 < 1_000_000_000) }
{
    let len = digits_len(s);
    if len == 0 || len > 9 {
        return None;
    }
    let (digits, rest) = s.split_at(len);
    let mut value = 0;
    let mut place = 1_000_000_000;
    'digits: for digit in digits {
        place /= 10;
        value += (digit - b'0') as u32 * place;
    }
    Some((value, rest))
}

/// A dot and a fraction, as billionths, or 0 where there is no dot.
#[tactic(auto, unfolding(crate::specs::Front::fraction_front))]
pub(crate) fn fraction(s: &[u8]) -> Option<(u32, &[u8])>
    ensures value { option_view result ≡ fraction_front s.now }
    ensures bound { IfSome result (λ p. p.0 < 1_000_000_000) }
{
    let [first, rest @ ..] = s else {
        return Some((0, s));
    };
    if *first != b'.' {
        return Some((0, s));
    }
    billionths(rest)
}

/// `05:30`, as minutes.
#[tactic(auto, unfolding(crate::specs::Front::offset_front))]
fn offset(s: &[u8]) -> Option<(u16, &[u8])>
    ensures value { option_view result ≡ offset_front s.now }
    ensures bound { IfSome result (λ p. p.0 < 1_440) }
{
    let (hour, rest) = two(s)?;
    let (minute, rest) = two_past(b':', rest)?;
    if hour > 23 || minute > 59 {
        return None;
    }
    Some((hour as u16 * 60 + minute as u16, rest))
}

/// `Z`, or a sign and an offset: whether the clock is behind UTC, and by how many minutes.
#[tactic(auto, unfolding(crate::specs::Front::zone_front, crate::specs::Front::behind_front))]
pub(crate) fn zone(s: &[u8]) -> Option<((bool, u16), &[u8])>
    ensures value { option_view result ≡ zone_front s.now }
    ensures bound { IfSome result (λ p. p.0.1 < 1_440) }
{
    let [first, rest @ ..] = s else {
        return None;
    };
    if *first == b'Z' {
        return Some(((false, 0), rest));
    }
    if *first != b'+' && *first != b'-' {
        return None;
    }
    let (minutes, rest) = offset(rest)?;
    Some(((*first == b'-', minutes), rest))
}
