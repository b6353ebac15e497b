ghost use Rattle.std.specs.Prelude.{◌≡◌, ◌+◌, ◌-◌, ◌*◌, ◌^◌, ◌==◌, min, IfSome, is_some};
ghost use Rattle.std.specs.List.{list_all};
ghost use Rattle.fx_line.specs.Value.{is_digit, is_digits, without_minus, without_sign, behind_digits, natural, integer_of, is_int, is_stamp};
ghost use Rattle.fx_line.specs.Word.{begins};

fn is_digit(byte: u8) -> bool
    ensures { result ≡ is_digit byte }
{
    byte.is_ascii_digit()
}

fn all_digits(bytes: &[u8]) -> bool
    ensures { result ≡ list_all is_digit bytes.now }
{
    bytes.iter().all(|b| is_digit(*b))
}

/// Whether the bytes are one digit or more, and nothing else.
pub fn is_digits(bytes: &[u8]) -> bool
    ensures { result ≡ is_digits bytes.now }
{
    match bytes {
        [] => false,
        [_, ..] => all_digits(bytes),
    }
}

pub fn begins_with_digit(bytes: &[u8]) -> bool
    ensures { result ≡ begins is_digit bytes.now }
{
    match bytes {
        [first, ..] => is_digit(*first),
        [] => false,
    }
}

/// The bytes with a `-` that they begin with taken off.
pub fn without_minus(bytes: &[u8]) -> &[u8]
    ensures { result.now ≡ without_minus bytes.now }
{
    match bytes {
        [b'-', rest @ ..] => rest,
        _ => bytes,
    }
}

/// The bytes with a sign that they begin with taken off.
pub fn without_sign(bytes: &[u8]) -> &[u8]
    ensures { result.now ≡ without_sign bytes.now }
{
    match bytes {
        [b'-' | b'+', rest @ ..] => rest,
        _ => bytes,
    }
}

/// What stands behind the digits that the bytes begin with.
pub fn behind_digits(bytes: &[u8]) -> &[u8]
    ensures { result.now ≡ behind_digits bytes.now }
{
    let mut rest = bytes;
    while let [byte, after @ ..] = rest {
        if !is_digit(*byte) {
            return rest;
        }
        rest = after;
    }
    rest
}

/// Whether the bytes are a timestamp.
pub fn is_stamp(bytes: &[u8]) -> bool
    ensures { result ≡ is_stamp bytes.now }
{
    is_digits(without_minus(bytes))
}

/// Below this a number has room for another digit.
const ROOMY: u64 = 1 << 60;

/// The number with another digit, or the greatest of the type where that is less.
fn with_digit(number: u64, digit: u8) -> u64
    ensures { result ≡ min (10 * number + (digit - 48)) (2 ^ 64 - 1) }
{
    let digit = u64::from(digit.saturating_sub(b'0'));
    if number < ROOMY {
        10 * number + digit
    } else {
        number.saturating_mul(10).saturating_add(digit)
    }
}

/// What the digits say that the bytes begin with, or the greatest number of the type where that is
/// less.
pub fn natural(bytes: &[u8]) -> u64
    ensures { result ≡ min (natural 0 bytes.now) (2 ^ 64 - 1) }
{
    let mut number = 0;
    let mut rest = bytes;
    while let [byte, after @ ..] = rest {
        if !is_digit(*byte) {
            return number;
        }
        number = with_digit(number, *byte);
        rest = after;
    }
    number
}

/// Whether a `-` stands first.
pub fn is_negative(bytes: &[u8]) -> bool
    ensures { result ≡ begins (λ b. b == 45) bytes.now }
{
    matches!(bytes, [b'-', ..])
}

/// The value of an integer, where it is one of 64 bits with a sign.
pub fn to_int(bytes: &[u8]) -> Option<i64>
    ensures exact { IfSome result (λ v. v ≡ integer_of bytes.now) }
    ensures fits { is_some result ≡ is_int (integer_of bytes.now) }
{
    let magnitude = i128::from(natural(without_minus(bytes)));
    i64::try_from(if is_negative(bytes) {
        -magnitude
    } else {
        magnitude
    })
    .ok()
}
