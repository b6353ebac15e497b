//! Tests of a byte, and of the bytes at the front of a text.
ghost use Rattle.std.specs.Prelude.{◌≡◌, ◌==◌, ◌≤◌, not, length, take, drop};
ghost use Rattle.std.specs.List.{prefix_len};
ghost use Rattle.fx_scan.specs.Forms as form;
ghost use Rattle.fx_scan.specs.Readers as reader;
ghost use Rattle.fx_scan.specs.Tokens as token;

#[tactic(auto, unfolding(crate::specs::Forms::is_letter))]
pub(crate) fn is_letter(b: u8) -> bool
    ensures { result ≡ form.is_letter b }
{
    (b'A' <= b && b <= b'Z') || (b'a' <= b && b <= b'z')
}

#[tactic(auto, unfolding(crate::specs::Forms::is_digit))]
pub(crate) fn is_digit(b: u8) -> bool
    ensures { result ≡ form.is_digit b }
{
    b'0' <= b && b <= b'9'
}

#[tactic(auto, unfolding(crate::specs::Forms::is_name_start))]
pub(crate) fn is_name_start(b: u8) -> bool
    ensures { result ≡ form.is_name_start b }
{
    is_letter(b) || b == b'_'
}

#[tactic(auto, unfolding(crate::specs::Forms::is_name_byte))]
pub(crate) fn is_name_byte(b: u8) -> bool
    ensures { result ≡ form.is_name_byte b }
{
    is_letter(b) || is_digit(b) || b == b'_'
}

#[tactic(auto, unfolding(crate::specs::Tokens::is_blank))]
fn is_blank(b: u8) -> bool
    ensures { result ≡ token.is_blank b }
{
    b == b' ' || b == b'\t' || b == b'\r' || b == b'\n'
}

#[tactic(auto, unfolding(crate::specs::Forms::is_line_feed))]
fn is_line_feed(b: u8) -> bool
    ensures { result ≡ form.is_line_feed b }
{
    b == b'\n'
}

/// How many digits stand at the front.
pub(crate) fn digits_len(s: &[u8]) -> usize
    ensures value { result ≡ prefix_len form.is_digit s.now }
    ensures within { result ≤ length s.now }
{
    s.iter().take_while(|b| is_digit(**b)).count()
}

/// How many bytes of a name stand at the front.
pub(crate) fn name_len(s: &[u8]) -> usize
    ensures value { result ≡ prefix_len form.is_name_byte s.now }
    ensures within { result ≤ length s.now }
{
    s.iter().take_while(|b| is_name_byte(**b)).count()
}

/// How many bytes stand before the end of the line.
pub(crate) fn line_len(s: &[u8]) -> usize
    ensures value { result ≡ prefix_len (λ b. not (form.is_line_feed b)) s.now }
    ensures within { result ≤ length s.now }
{
    s.iter().take_while(|b| !is_line_feed(**b)).count()
}

/// The first bytes, as many as there are up to `len`.
pub(crate) fn front(s: &[u8], len: usize) -> &[u8]
    ensures { result.now ≡ take len s.now }
{
    if len < s.len() { &s[..len] } else { s }
}

/// What stands after the first `len` bytes; nothing where there are no more.
pub(crate) fn past(s: &[u8], len: usize) -> &[u8]
    ensures { result.now ≡ drop len s.now }
{
    if len < s.len() { &s[len..] } else { &[] }
}

pub(crate) fn begins_byte(byte: u8, s: &[u8]) -> bool
    ensures { result ≡ form.begins (λ b. b == byte) s.now }
{
    match s {
        [b, ..] => *b == byte,
        [] => false,
    }
}

pub(crate) fn begins_digit(s: &[u8]) -> bool
    ensures { result ≡ form.begins form.is_digit s.now }
{
    match s {
        [b, ..] => is_digit(*b),
        [] => false,
    }
}

pub(crate) fn begins_name_byte(s: &[u8]) -> bool
    ensures { result ≡ form.begins form.is_name_byte s.now }
{
    match s {
        [b, ..] => is_name_byte(*b),
        [] => false,
    }
}

/// `µ`, in UTF-8.
pub(crate) fn begins_micro(s: &[u8]) -> bool
    ensures { result ≡ token.begins_micro s.now }
{
    match s {
        [b, rest @ ..] => *b == 0xc2 && begins_byte(0xb5, rest),
        [] => false,
    }
}

/// An ASCII letter or `µ`.
pub(crate) fn begins_letter(s: &[u8]) -> bool
    ensures { result ≡ token.begins_letter s.now }
{
    begins_ascii_letter(s) || begins_micro(s)
}

fn begins_ascii_letter(s: &[u8]) -> bool
    ensures { result ≡ form.begins form.is_letter s.now }
{
    match s {
        [b, ..] => is_letter(*b),
        [] => false,
    }
}

/// `//`
pub(crate) fn begins_comment(s: &[u8]) -> bool
    ensures { result ≡ token.begins_comment s.now }
{
    match s {
        [b, rest @ ..] => is_slash(*b) && begins_slash(rest),
        [] => false,
    }
}

pub(crate) fn begins_slash(s: &[u8]) -> bool
    ensures { result ≡ form.begins form.is_slash s.now }
{
    match s {
        [b, ..] => is_slash(*b),
        [] => false,
    }
}

pub(crate) fn begins_blank(s: &[u8]) -> bool
    ensures { result ≡ form.begins token.is_blank s.now }
{
    match s {
        [b, ..] => is_blank(*b),
        [] => false,
    }
}

/// A byte that is second in a symbol.
pub(crate) fn begins_second(s: &[u8]) -> bool
    ensures { result ≡ form.begins reader.is_second s.now }
{
    match s {
        [b, ..] => is_second(*b),
        [] => false,
    }
}

#[tactic(auto, unfolding(crate::specs::Readers::is_second))]
fn is_second(b: u8) -> bool
    ensures { result ≡ reader.is_second b }
{
    b == b'=' || b == b'~' || b == b'>' || b == b'-'
}

/// A bracket, a brace or a parenthesis that closes.
pub(crate) fn begins_closing(s: &[u8]) -> bool
    ensures { result ≡ form.begins token.is_closing s.now }
{
    match s {
        [b, ..] => is_closing(*b),
        [] => false,
    }
}

#[tactic(auto, unfolding(crate::specs::Tokens::is_closing))]
fn is_closing(b: u8) -> bool
    ensures { result ≡ token.is_closing b }
{
    b == b')' || b == b']' || b == b'}'
}

#[tactic(auto, unfolding(crate::specs::Forms::is_slash))]
fn is_slash(b: u8) -> bool
    ensures { result ≡ form.is_slash b }
{
    b == b'/'
}
