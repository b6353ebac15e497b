//! Windows: spans of time that begin again and again, before 1970 too.
ghost use Rattle.std.specs.Prelude.{◌≡◌, ◌↔◌, ◌^◌, ◌-◌, ℕ, ℤ, pos, neg_ℤ, ◌+ℤ◌, ◌*ℤ◌, ◌≤ℤ◌, ◌<ℤ◌, if◌then◌else◌, IsTrue};
ghost use Rattle.std.specs.Int.{int_div_euclid};
ghost use Rattle.jiff_core.specs.Calendar.{IsBetween, IsWithin};
ghost use Rattle.fx_time.specs.Months.{month_start};
ghost use Rattle.fx_time.specs.Windows.{IsWindow, IsWindowPair, has_months, window_start, window_stop, Holds, AreBounds, IsLeast, IsNear, month_at, last_started, last_stopped};

use crate::calendar::{NANOS_OF_DAY, first_day, month_of_day};
use crate::span::Span;

/// Whether one part of the span is 0 and the other greater than 0, with at most 12,000 months.
pub fn is_window(span: Span) -> bool
    ensures { IsTrue result ↔ IsWindow span }
{
    (span.months == 0 && span.nanos > 0)
        || (span.nanos == 0 && span.months > 0 && span.months <= 12_000)
}

/// Whether both spans are windows, and a period in months follows a span in months.
pub fn is_window_pair(every: Span, period: Span) -> bool
    ensures { IsTrue result ↔ IsWindowPair every period }
{
    is_window(every) && is_window(period) && (period.months <= 0 || every.months > 0)
}

/// The start and the stop of the window that holds `t`, in nanoseconds since 1970.
pub fn window_of(t: i64, every: Span) -> (i128, i128)
    requires { IsWindow every }
    ensures { AreBounds every t result }
{
    window_bounds(last_started(t as i128, every), every, every)
}

/// The least number whose window stops after `t`, and the least number whose window starts after
/// `t`. The windows that hold `t` are those from the first on and below the second.
pub fn windows_at(t: i64, every: Span, period: Span) -> (i128, i128)
    requires { IsWindowPair every period }
    ensures first { IsLeast (λ k. t <ℤ window_stop every period k) result.0 }
    ensures second { IsLeast (λ k. t <ℤ window_start every k) result.1 }
    ensures stopped { result.0 ≡ last_stopped every period t +ℤ pos 1 }
    ensures started { result.1 ≡ last_started every t +ℤ pos 1 }
    ensures holding { (k : ℤ) → ((result.0 ≤ℤ k) × (k <ℤ result.1)) ↔ Holds every period t k }
{
    let stopped = last_stopped(t, every, period);
    let started = last_started(t as i128, every);
    (stopped + 1, started + 1)
}

/// The start and the stop of window `k`, in nanoseconds since 1970. The window stops after the
/// least time and doesn't start after the greatest.
pub fn window_bounds(k: i128, every: Span, period: Span) -> (i128, i128)
    requires pair { IsWindowPair every period }
    requires near { IsNear every period k }
    ensures start { result.0 ≡ window_start every k }
    ensures stop { result.1 ≡ window_stop every period k }
{
    if every.months > 0 {
        month_bounds(k * every.months as i128, period)
    } else {
        let start = k * every.nanos as i128;
        (start, start + period.nanos as i128)
    }
}

/// The bounds of a window that starts with a month.
fn month_bounds(month: i128, period: Span) -> (i128, i128)
    requires period { IsWindow period }
    requires month { IsWithin 20_000 month }
    ensures start { result.0 ≡ month_start month }
    ensures stop { result.1 ≡ (if has_months period then month_start (month +ℤ period.months) else month_start month +ℤ period.nanos) }
{
    let start = month_start(month);
    if period.months > 0 {
        (start, month_start(month + period.months as i128))
    } else {
        (start, start + period.nanos as i128)
    }
}

/// The first moment of a month.
fn month_start(month: i128) -> i128
    requires { IsWithin 140_000 month }
    ensures value { result ≡ month_start month }
    ensures bound { IsWithin (2 ^ 69) result }
{
    first_day(month as i64) as i128 * NANOS_OF_DAY as i128
}

/// The number of the last window that stopped at `t` or before.
fn last_stopped(t: i64, every: Span, period: Span) -> i128
    requires { IsWindowPair every period }
    ensures last { (k : ℤ) → (t <ℤ window_stop every period k) ↔ (result <ℤ k) }
    ensures value { result ≡ last_stopped every period t }
    ensures bound { IsWithin (2 ^ 66) result }
{
    if period.months > 0 {
        let month = month_at(t as i128);
        quotient(month as i128 - period.months as i128, every.months)
    } else {
        last_started(t as i128 - period.nanos as i128, every)
    }
}

/// The number of the last window that started at `t` or before.
fn last_started(t: i128, every: Span) -> i128
    requires window { IsWindow every }
    requires near { IsWithin (2 ^ 65) t }
    ensures last { (k : ℤ) → (t <ℤ window_start every k) ↔ (result <ℤ k) }
    ensures value { result ≡ last_started every t }
    ensures bound { IsWithin (2 ^ 66) result }
{
    if every.months > 0 {
        quotient(month_at(t) as i128, every.months)
    } else {
        quotient(t, every.nanos)
    }
}

/// The month that holds `t`.
fn month_at(t: i128) -> i64
    requires { IsWithin (2 ^ 65) t }
    ensures last { (k : ℤ) → (t <ℤ month_start k) ↔ (result <ℤ k) }
    ensures value { result ≡ month_at t }
    ensures bound { IsWithin 40_000 result }
{
    month_of_day(quotient(t, NANOS_OF_DAY) as i64)
}

/// The quotient rounded down. Where 64 bits do, it is computed in them.
fn quotient(a: i128, n: i64) -> i128
    requires some { pos 0 <ℤ n }
    requires near { IsWithin (2 ^ 65) a }
    ensures value { result ≡ int_div_euclid a n }
    ensures bound { IsWithin (2 ^ 66) result }
{
    match i64::try_from(a) {
        Ok(a) => a.div_euclid(n) as i128,
        Err(_) => a.div_euclid(n as i128),
    }
}
