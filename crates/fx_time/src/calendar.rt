//! Months and days by closed formulas, over years that begin on 1 March. Month 0 is January 1970,
//! and day 0 its first day.
ghost use Rattle.std.specs.Prelude.{◌≡◌, ◌+◌, ◌<◌, ◌≤◌, ℕ, ℤ, pos, neg_ℤ};
ghost use Rattle.jiff_core.specs.Calendar.{IsBetween, IsWithin};
ghost use Rattle.fx_time.specs.March.{march_days};
ghost use Rattle.fx_time.specs.Months.{first_day, HoldsDay};

/// A day has 86,400 seconds.
pub(crate) const NANOS_OF_DAY: i64 = 86_400_000_000_000;

/// The days of the first so many months from March of the year -10000 on.
fn march_days(months: u64) -> u64
    requires { months ≤ 300_000 }
    ensures { result ≡ march_days months }
{
    let year = months / 12;
    365 * year + year / 4 - year / 100 + year / 400 + (153 * (months % 12) + 2) / 5
}

/// The first day of a month.
pub(crate) fn first_day(month: i64) -> i64
    requires { IsBetween (neg_ℤ (pos 143_638)) (pos 150_000) month }
    ensures value { result ≡ first_day month }
    ensures bound { IsWithin 5_000_000 result }
{
    march_days((month + 143_638) as u64) as i64 - 4_371_893
}

/// The month that holds a day, counted like the day from March of the year -10000.
fn march_month(days: u64) -> u64
    requires low { 1_000 ≤ days }
    requires high { days ≤ 6_000_000 }
    ensures from { march_days result ≤ days }
    ensures to { days < march_days (result + 1) }
{
    // The month that holds the day, or the next one.
    let near = (4800 * days + 10_308) / 146_097;
    if march_days(near) > days {
        near - 1
    } else {
        near
    }
}

/// The month that holds a day.
pub(crate) fn month_of_day(day: i64) -> i64
    requires { IsWithin 1_000_000 day }
    ensures month { HoldsDay result day }
    ensures bound { IsWithin 40_000 result }
{
    march_month((day + 4_371_893) as u64) as i64 - 143_638
}
