ghost use Rattle.std.specs.Prelude.{◌≡◌};
ghost use Rattle.std.specs.List.{list_all};
ghost use Rattle.fx_base.specs.Text.{same_text};
ghost use Rattle.fx_line.specs.Value.{is_count, is_integer, is_unsigned, behind_point, is_exponent, is_float, is_true, is_false, is_text, is_bare, is_value};

use crate::number::{begins_with_digit, behind_digits, is_digits, without_minus, without_sign};
use crate::word::Word;

fn is(value: &[u8], word: &[u8]) -> bool
    ensures { result ≡ same_text value.now word.now }
{
    value == word
}

/// Whether the bytes are one digit or more, and then this byte.
fn is_count(last: u8, bytes: &[u8]) -> bool
    ensures { result ≡ is_count last bytes.now }
{
    begins_with_digit(bytes) && is(behind_digits(bytes), &[last])
}

/// Whether a value is an integer.
pub fn is_integer(value: &[u8]) -> bool
    ensures { result ≡ is_integer value.now }
{
    is_count(b'i', without_minus(value))
}

/// Whether a value is an unsigned integer.
pub fn is_unsigned(value: &[u8]) -> bool
    ensures { result ≡ is_unsigned value.now }
{
    is_count(b'u', value)
}

fn behind_point(bytes: &[u8]) -> &[u8]
    ensures { result.now ≡ behind_point bytes.now }
{
    match bytes {
        [b'.', rest @ ..] => behind_digits(rest),
        _ => bytes,
    }
}

fn is_exponent(bytes: &[u8]) -> bool
    ensures { result ≡ is_exponent bytes.now }
{
    match bytes {
        [] => true,
        [b'e' | b'E', rest @ ..] => is_digits(without_sign(rest)),
        _ => false,
    }
}

/// Whether a value is a float.
pub fn is_float(value: &[u8]) -> bool
    ensures { result ≡ is_float value.now }
{
    let digits = without_sign(value);
    begins_with_digit(digits) && is_exponent(behind_point(behind_digits(digits)))
}

/// Whether a value is a word for true.
pub fn is_true(value: &[u8]) -> bool
    ensures { result ≡ is_true value.now }
{
    is(value, b"t")
        || is(value, b"T")
        || is(value, b"true")
        || is(value, b"True")
        || is(value, b"TRUE")
}

fn is_false(value: &[u8]) -> bool
    ensures { result ≡ is_false value.now }
{
    is(value, b"f")
        || is(value, b"F")
        || is(value, b"false")
        || is(value, b"False")
        || is(value, b"FALSE")
}

/// Whether a value is a text between quotes.
pub fn is_text(value: &[u8]) -> bool
    ensures { result ≡ is_text value.now }
{
    match value {
        [b'"', rest @ ..] => is(Word::Quoted.cut(rest).1, b"\""),
        _ => false,
    }
}

/// Whether a byte is one of a value that is no text.
pub fn is_bare(byte: u8) -> bool
    ensures { result ≡ is_bare byte }
{
    !(byte == b',' || byte == b' ' || byte == b'"')
}

fn all_bare(value: &[u8]) -> bool
    ensures { result ≡ list_all is_bare value.now }
{
    value.iter().all(|b| is_bare(*b))
}

/// Whether the bytes are a field's value.
pub fn is_value(value: &[u8]) -> bool
    ensures { result ≡ is_value value.now }
{
    is_text(value)
        || all_bare(value)
            && (is_integer(value)
                || is_unsigned(value)
                || is_float(value)
                || is_true(value)
                || is_false(value))
}
