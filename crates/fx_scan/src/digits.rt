//! Numbers, and the integer at the front of a text.
ghost use Rattle.std.specs.Prelude.{◌≡◌, true, IfSome, ◌≤◌, length};
ghost use Rattle.std.specs.List.{list_all};
ghost use Rattle.fx_scan.specs.Forms.{is_digit, is_digits, greatest};
ghost use Rattle.fx_scan.specs.Tokens as token;
ghost use Rattle.fx_scan.specs.Readers as spec;

use crate::bytes::{begins_byte, begins_digit, begins_micro, begins_name_byte, past};

/// The greatest integer of 64 bits with a sign.
pub(crate) const GREATEST: u128 = 9_223_372_036_854_775_807;

/// The number that digits say, or None where it is greater than `GREATEST`.
pub(crate) fn number_of(digits: &[u8]) -> Option<u64>
    requires { list_all is_digit digits.now ≡ true }
    ensures value { result ≡ spec.number_within digits.now }
    ensures bound { IfSome result (λ n. n ≤ greatest) }
{
    let mut number: u128 = 0;
    'digits: for digit in digits {
        number = 10 * number + (*digit - b'0') as u128;
        if number > GREATEST {
            return None;
        }
    }
    Some(number as u64)
}

/// A point and a digit.
fn begins_fraction(s: &[u8]) -> bool
    ensures { result ≡ token.begins_fraction s.now }
{
    begins_byte(b'.', s) && begins_digit(past(s, 1))
}

/// What can't stand directly after an integer.
fn spoils_int(s: &[u8]) -> bool
    ensures { result ≡ token.spoils_int s.now }
{
    begins_name_byte(s) || begins_micro(s) || begins_fraction(s)
}

/// Whether digits begin with a 0 before others.
#[tactic(auto, unfolding(crate::specs::Forms::is_zero))]
fn leads_by_zero(digits: &[u8]) -> bool
    ensures { result ≡ spec.leads_by_zero digits.now }
{
    begins_byte(b'0', digits) && digits.len() != 1
}

/// Whether digits are an integer, before what follows them.
pub(crate) fn is_int(digits: &[u8], rest: &[u8]) -> bool
    requires { list_all is_digit digits.now ≡ true }
    ensures { result ≡ spec.int_fits digits.now rest.now }
{
    if spoils_int(rest) || leads_by_zero(digits) {
        return false;
    }
    number_of(digits).is_some()
}
