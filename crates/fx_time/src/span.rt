ghost use Rattle.std.specs.Prelude.{◌≡◌, ℤ, pos, neg_ℤ, ◌+ℤ◌, ◌*ℤ◌, unsigned_abs, if◌then◌else◌, Some, None, IfSome};
ghost use Rattle.jiff_core.specs.Calendar.{IsBetween, IsWithin};
ghost use Rattle.fx_time.specs.Calendar.{nanos_of_day};
ghost use Rattle.fx_time.specs.Months.{year_of, first_day, HoldsDay};
ghost use Rattle.fx_time.specs.Spans.{day_in, is_year, moment, span_after};

use crate::calendar::{NANOS_OF_DAY, first_day, month_of_day};

/// A calendar span: so many months, and then so many nanoseconds.
#[derive(Clone, Copy, Debug, PartialEq, Eq)]
pub struct Span {
    pub months: i64,
    pub nanos: i64,
}

/// The first month of the year -9999, and the last of the year 9999.
const MONTHS: (i128, i128) = (-143_628, 96_359);

/// The time moved by the span's months in UTC, to the last day of the month where it doesn't have
/// the day, and then by its nanoseconds. It is None exactly where the date after the months lies
/// outside the years -9999 to 9999, or the time outside 64 bits.
pub fn add_span(t: i64, span: Span) -> Option<i64>
    ensures { result ≡ span_after t span }
{
    let day = t.div_euclid(NANOS_OF_DAY);
    let month = month_of_day(day);
    let later = month_later(month, span.months)?;
    let moved = day_in(later, day_of_month(day, month));
    moment_on(moved, t.rem_euclid(NANOS_OF_DAY), span.nanos)
}

/// The month so many months later, where its year is one from -9999 to 9999.
fn month_later(month: i64, months: i64) -> Option<i64>
    requires { IsWithin 40_000 month }
    ensures value { result ≡ (if is_year (year_of (month +ℤ months)) then Some (month +ℤ months) else None) }
    ensures bound { IfSome result (IsBetween (neg_ℤ (pos 143_628)) (pos 96_359)) }
{
    let later = month as i128 + months as i128;
    if later < MONTHS.0 || later > MONTHS.1 {
        return None;
    }
    Some(later as i64)
}

/// Which day of the month a day is, from 1.
fn day_of_month(day: i64, month: i64) -> i64
    requires holds { HoldsDay month day }
    requires near { IsWithin 40_000 month }
    ensures value { first_day month +ℤ result ≡ day +ℤ pos 1 }
    ensures bound { IsBetween (pos 1) (pos 31) result }
{
    day - first_day(month) + 1
}

/// That day of the month, or its last day where it has no such day.
fn day_in(month: i64, day: i64) -> i64
    requires month { IsBetween (neg_ℤ (pos 143_638)) (pos 149_999) month }
    requires day { IsBetween (pos 1) (pos 31) day }
    ensures value { result ≡ day_in month (unsigned_abs day) }
    ensures bound { IsWithin 5_000_000 result }
{
    let wanted = first_day(month) + (day - 1);
    let next = first_day(month + 1);
    if wanted < next { wanted } else { next - 1 }
}

/// The time on a day, so many nanoseconds after midnight and then so many later.
fn moment_on(day: i64, clock: i64, nanos: i64) -> Option<i64>
    requires day { IsWithin 5_000_000 day }
    requires clock { IsWithin 86_400_000_000_000 clock }
    ensures { result ≡ moment (day *ℤ pos nanos_of_day +ℤ clock +ℤ nanos) }
{
    let midnight = day as i128 * NANOS_OF_DAY as i128;
    match i64::try_from(midnight + clock as i128 + nanos as i128) {
        Ok(t) => Some(t),
        Err(_) => None,
    }
}
