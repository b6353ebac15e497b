ghost use Rattle.std.specs.Prelude.{◌≡◌, ℕ, pos, length, min, ◌<◌, ◌≤◌};
ghost use Rattle.std.specs.List.{prefix_len};
ghost use Rattle.fx_scan.specs.Forms.{greatest, is_digit, unit_months, unit_nanos, IsSpan};
ghost use Rattle.fx_parse.specs.Spans.{IsCutOf, is_no_digit, raised};

use crate::number;
use fx_scan::{Unit, unit_of};
use fx_time::Span;

/// The number and the unit that a text begins with, and what stands after them.
#[derive(Drop)]
struct Cut<'a> {
    number: u64,
    unit: Option<Unit>,
    rest: &'a [u8],
}

#[tactic(auto, unfolding(fx_scan::specs::Forms::is_digit))]
fn is_digit(byte: u8) -> bool
    ensures { result ≡ is_digit byte }
{
    byte.is_ascii_digit()
}

fn digits_len(text: &[u8]) -> usize
    ensures value { result ≡ prefix_len is_digit text.now }
    ensures within { result ≤ length text.now }
{
    text.iter().take_while(|b| is_digit(**b)).count()
}

fn unit_len(text: &[u8]) -> usize
    ensures value { result ≡ prefix_len is_no_digit text.now }
    ensures within { result ≤ length text.now }
{
    text.iter().take_while(|b| !is_digit(**b)).count()
}

fn first_pair(text: &[u8]) -> Cut<'_>
    ensures pair { IsCutOf text.now result.number result.unit result.rest.now }
    ensures shorter { 0 < length text.now → length result.rest.now < length text.now }
{
    let (digits, after) = text.split_at(digits_len(text));
    let (unit, rest) = after.split_at(unit_len(after));
    Cut {
        number: number::number_of(digits),
        unit: unit_of(unit),
        rest,
    }
}

fn months_of(unit: Option<Unit>) -> u64
    ensures { result ≡ unit_months unit }
{
    match unit {
        Some(Unit::Months(months)) => months,
        _ => 0,
    }
}

fn nanos_of(unit: Option<Unit>) -> u64
    ensures { result ≡ unit_nanos unit }
{
    match unit {
        Some(Unit::Nanos(nanos)) => nanos,
        _ => 0,
    }
}

/// The total with so many of a size added, or the greatest number of the type where that is less.
fn raised(total: u64, number: u64, size: u64) -> u64
    ensures { result ≡ raised total number size }
{
    total.saturating_add(number.saturating_mul(size))
}

/// The number, or the greatest of the type where that is less.
fn in_63_bits(number: u64) -> i64
    ensures { result ≡ pos (min number greatest) }
{
    i64::try_from(number).unwrap_or(i64::MAX)
}

/// The span that pairs of digits and units spell.
pub(crate) fn span_of(text: &[u8]) -> Span
    ensures { (months nanos : ℕ) → IsSpan text.now months nanos
        → result ≡ record { months = pos months; nanos = pos nanos } }
{
    let mut months = 0;
    let mut nanos = 0;
    let mut rest = text;
    while !rest.is_empty() {
        let pair = first_pair(rest);
        months = raised(months, pair.number, months_of(pair.unit));
        nanos = raised(nanos, pair.number, nanos_of(pair.unit));
        rest = pair.rest;
    }
    Span {
        months: in_63_bits(months),
        nanos: in_63_bits(nanos),
    }
}
