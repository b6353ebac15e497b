ghost use Rattle.std.specs.Prelude.{◌≡◌, ◌↔◌, ◌<◌, ◌+ℤ◌, ◌-ℤ◌, ◌*ℤ◌, ◌*◌, ℕ, ℤ, pos, Some, IfSome, FitsSigned, option_map};
ghost use Rattle.std.specs.Int.{w64};
ghost use Rattle.jiff_core.specs.Calendar.{IsWithin};
ghost use Rattle.jiff_core.specs.Sign.{signed};
ghost use Rattle.fx_time.specs.Calendar.{Date, date_after};
ghost use Rattle.fx_time.specs.Front.{moment_front};
ghost use Rattle.fx_time.specs.Time.{IsTime, instant};
ghost use Rattle.fx_time.specs.Value.{time_value};

use crate::front;
use jiff_core::civil::Date;

/// A time as its text spells it: the date, the nanoseconds from midnight, and by how many minutes
/// the clock is ahead of UTC, or behind it.
#[derive(Clone, Copy)]
struct Moment {
    year: u16,
    month: u8,
    day: u8,
    nanos: u64,
    behind: bool,
    minutes: u16,
}

/// The time that a text spells, or None where it spells none.
pub fn read_time(text: &[u8]) -> Option<i64>
    ensures is { (t : ℤ) → IsTime text.now t ↔ (result ≡ Some t) }
    ensures value { result ≡ time_value text.now }
{
    let moment = read_moment(text)?;
    let days = days_of(moment.year, moment.month, moment.day)?;
    let instant = instant_at(days, moment.nanos, moment.behind, moment.minutes);
    in_64_bits(instant)
}

fn in_64_bits(instant: i128) -> Option<i64>
    ensures { (t : ℤ) → (FitsSigned w64 t × (t ≡ instant)) ↔ (result ≡ Some t) }
{
    match i64::try_from(instant) {
        Ok(t) => Some(t),
        Err(_) => None,
    }
}

/// The whole text, as a date or as a date with a clock's time and zone.
#[tactic(auto, unfolding(crate::specs::Front::moment_front, crate::specs::Front::clock_after))]
fn read_moment(text: &[u8]) -> Option<Moment>
    ensures value { result ≡ moment_front text.now }
    ensures year { IfSome result (λ m. m.year < 10_000) }
    ensures month { IfSome result (λ m. m.month < 100) }
    ensures day { IfSome result (λ m. m.day < 100) }
    ensures nanos { IfSome result (λ m. m.nanos < 86_400_000_000_000) }
    ensures minutes { IfSome result (λ m. m.minutes < 1_440) }
{
    let ((year, month, day), rest) = front::date(text)?;
    if rest.is_empty() {
        return Some(Moment {
            year,
            month,
            day,
            nanos: 0,
            behind: false,
            minutes: 0,
        });
    }
    let (seconds, rest) = front::clock(rest)?;
    let (billionths, rest) = front::fraction(rest)?;
    let ((behind, minutes), rest) = front::zone(rest)?;
    if !rest.is_empty() {
        return None;
    }
    Some(Moment {
        year,
        month,
        day,
        nanos: seconds as u64 * 1_000_000_000 + billionths as u64,
        behind,
        minutes,
    })
}

/// The days from 1 January of the year 0 to a date, or None where the calendar has no such date.
fn days_of(year: u16, month: u8, day: u8) -> Option<u32>
    requires year_in { year < 10_000 }
    requires month_in { month < 100 }
    requires day_in { day < 100 }
    ensures value { (n : ℕ) → (date_after n ≡ record { year = year; month = month; day = day }) ↔ (result ≡ Some n) }
    ensures bound { IfSome result (λ n. n < 3_652_425) }
{
    let Ok(date) = Date::new(year as i16, month as i8, day as i8) else {
        return None;
    };
    Some((date.to_unix_epoch_day() + 719_528) as u32)
}

/// The instant of a clock that is so many minutes ahead of UTC, or behind it.
fn instant_at(days: u32, nanos: u64, behind: bool, minutes: u16) -> i128
    requires days_in { days < 3_652_425 }
    requires nanos_in { nanos < 86_400_000_000_000 }
    requires minutes_in { minutes < 1_440 }
    ensures { result ≡ instant days nanos -ℤ signed behind (minutes * 60_000_000_000) }
{
    (days as i128 - 719_528) * 86_400_000_000_000 + nanos as i128 - ahead(behind, minutes)
}

/// The nanoseconds by which a clock is ahead of UTC; fewer than 0 where it is behind.
fn ahead(behind: bool, minutes: u16) -> i128
    requires { minutes < 1_440 }
    ensures value { result ≡ signed behind (minutes * 60_000_000_000) }
    ensures bound { IsWithin 86_400_000_000_000 result }
{
    let nanos = minutes as i128 * 60_000_000_000;
    if behind { -nanos } else { nanos }
}
