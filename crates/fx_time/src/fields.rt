ghost use Rattle.std.specs.Prelude.{◌≡◌};
ghost use Rattle.jiff_core.specs.DateTime.{civil_nanos};
ghost use Rattle.fx_time.specs.Fields.{fields_of};

use jiff_core::civil::DateTime;
use jiff_core::{Offset, Timestamp};

/// What a calendar and a clock at UTC show. Months and days count from 1, a year's days too; the
/// week's days count from 0, which is Sunday.
#[derive(Clone, Copy, Debug, PartialEq, Eq)]
pub struct TimeFields {
    pub year: u16,
    pub month: u8,
    pub day: u8,
    pub year_day: u16,
    pub week_day: u8,
    pub hour: u8,
    pub minute: u8,
    pub second: u8,
    pub nanosecond: u32,
}

/// The fields of a time. No time in 64 bits lies outside the years 1677 to 2262.
pub fn fields_of(t: i64) -> TimeFields
    ensures { result ≡ fields_of t }
{
    let shown = shown_at(t);
    TimeFields {
        year: shown.date.year as u16,
        month: shown.date.month,
        day: shown.date.day,
        year_day: shown.date.day_of_year(),
        week_day: (shown.date.weekday().index() + 1) % 7,
        hour: shown.time.hour,
        minute: shown.time.minute,
        second: shown.time.second,
        nanosecond: shown.time.subsec_nanosecond,
    }
}

fn shown_at(t: i64) -> DateTime
    ensures { civil_nanos result ≡ t }
{
    let stamp = Timestamp::from_nanosecond(t as i128).unwrap();
    Offset::UTC.to_datetime(stamp)
}
