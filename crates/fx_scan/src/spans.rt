//! The span at the front of a text.
ghost use Rattle.std.specs.Prelude.{◌≡◌, ◌<◌, ◌≤◌, ◌^◌, IfSome, length, drop};
ghost use Rattle.fx_scan.specs.Forms.{greatest};
ghost use Rattle.fx_scan.specs.Readers as spec;

use crate::bytes::{begins_letter, digits_len, front, past};
use crate::digits::{GREATEST, number_of};
use crate::units::{Unit, unit_of};

/// A unit, and how many bytes spell it.
#[derive(Clone, Copy)]
struct UnitRead {
    unit: Unit,
    len: usize,
}

/// What one pair of digits and a unit is worth, and how many bytes spell it.
#[derive(Clone, Copy)]
struct Amount {
    months: u128,
    nanos: u128,
    len: usize,
}

/// The unit that is the first `len` bytes, before what is no letter.
fn unit_of_len(len: usize, s: &[u8]) -> Option<UnitRead>
    ensures value { result ≡ spec.unit_of_len len s.now }
    ensures within { IfSome result (λ r. r.len ≤ length s.now) }
{
    if begins_letter(past(s, len)) {
        return None;
    }
    let text = front(s, len);
    let unit = unit_of(text)?;
    Some(UnitRead {
        unit,
        len: text.len(),
    })
}

/// The unit that is the whole run of letters at the front. No unit has more than three bytes.
#[tactic(auto, unfolding(crate::specs::Readers::unit_at))]
fn unit_at(s: &[u8]) -> Option<UnitRead>
    ensures value { result ≡ spec.unit_at s.now }
    ensures within { IfSome result (λ r. r.len ≤ length s.now) }
{
    if begins_letter(s) {
        unit_of_len(3, s)
            .or(unit_of_len(2, s))
            .or(unit_of_len(1, s))
    } else {
        None
    }
}

/// So many times a unit.
fn amount_of(number: u64, unit: Unit, len: usize) -> Amount
    requires { number ≤ greatest }
    ensures value { result ≡ spec.amount_of number unit len }
    ensures months { result.months < 2 ^ 127 }
    ensures nanos { result.nanos < 2 ^ 127 }
{
    match unit {
        Unit::Months(size) => Amount {
            months: number as u128 * size as u128,
            nanos: 0,
            len,
        },
        Unit::Nanos(size) => Amount {
            months: 0,
            nanos: number as u128 * size as u128,
            len,
        },
    }
}

/// The digits and the unit at the front.
#[tactic(auto, unfolding(crate::specs::Readers::amount_at))]
fn amount_at(s: &[u8]) -> Option<Amount>
    ensures value { result ≡ spec.amount_at s.now }
    ensures within { IfSome result (λ a. a.len ≤ length s.now) }
    ensures months { IfSome result (λ a. a.months < 2 ^ 127) }
    ensures nanos { IfSome result (λ a. a.nanos < 2 ^ 127) }
{
    let len = digits_len(s);
    if len == 0 {
        return None;
    }
    let number = number_of(front(s, len))?;
    let read = unit_at(past(s, len))?;
    Some(amount_of(number, read.unit, len + read.len))
}

/// The length of the span at the front, or 0 where none stands there. A pair that would pass the
/// limit on months or nanoseconds isn't taken.
pub(crate) fn span_len(s: &[u8]) -> usize
    ensures { result ≡ spec.span_len s.now }
{
    let mut span = Amount {
        months: 0,
        nanos: 0,
        len: 0,
    };
    for _turn in 0..s.len() {
        match longer(span, s) {
            Some(more) => span = more,
            None => return span.len,
        }
    }
    span.len
}

/// The span with the next pair, or None where the span ends.
#[tactic(auto, unfolding(crate::specs::Readers::longer))]
fn longer(span: Amount, s: &[u8]) -> Option<Amount>
    requires months { span.months ≤ greatest }
    requires nanos { span.nanos ≤ greatest }
    requires within { span.len ≤ length s.now }
    ensures value { result ≡ spec.longer span (drop span.len s.now) }
    ensures months_after { IfSome result (λ a. a.months ≤ greatest) }
    ensures nanos_after { IfSome result (λ a. a.nanos ≤ greatest) }
    ensures within_after { IfSome result (λ a. a.len ≤ length s.now) }
{
    let amount = amount_at(past(s, span.len))?;
    let months = span.months + amount.months;
    let nanos = span.nanos + amount.nanos;
    if months > GREATEST || nanos > GREATEST {
        return None;
    }
    Some(Amount {
        months,
        nanos,
        len: span.len + amount.len,
    })
}
