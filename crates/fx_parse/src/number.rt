ghost use Rattle.std.specs.Prelude.{◌≡◌, ◌+◌, ◌-◌, ◌*◌, ◌^◌, min};
ghost use Rattle.fx_scan.specs.Forms.{number_of};

/// Below this a number has room for another digit.
const ROOMY: u64 = 1 << 60;

/// The number with another digit, or the greatest of the type where that is less.
fn with_digit(number: u64, digit: u8) -> u64
    ensures { result ≡ min (10 * number + (digit - 48)) (2 ^ 64 - 1) }
{
    let digit = u64::from(digit.saturating_sub(b'0'));
    if number < ROOMY {
        10 * number + digit
    } else {
        number.saturating_mul(10).saturating_add(digit)
    }
}

/// What digits say, or the greatest number of the type where that is less.
pub(crate) fn number_of(digits: &[u8]) -> u64
    ensures { result ≡ min (number_of digits.now) (2 ^ 64 - 1) }
{
    let mut number = 0;
    for digit in digits {
        number = with_digit(number, *digit);
    }
    number
}
