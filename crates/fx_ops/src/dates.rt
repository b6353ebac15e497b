ghost use Rattle.std.specs.Prelude.{◌≡◌, ◌≢◌, Ok, Err, pos};
ghost use Rattle.fx_time.specs.Fields.{fields_of};
ghost use Rattle.fx_ops.specs.Answer.{Gives};
ghost use Rattle.fx_ops.specs.Call.{told, shown_in};
ghost use Rattle.fx_ops.specs.Dates.{shown, truncated, added, subtracted, time_from};
ghost use Rattle.fx_ops.specs.declared.fault.OpFault.TheVariants.{Memory};

use crate::arguments::time_at;
use crate::fault::OpFault;
use fx_base::FaultKind;
use fx_time::{Span, TimeFields, add_span, fields_of, is_window, window_of};
use fx_value::Scalar;

/// A field of a time.
#[derive(Clone, Copy, Debug, PartialEq, Eq)]
pub enum Field {
    Year,
    Month,
    MonthDay,
    YearDay,
    WeekDay,
    Hour,
    Minute,
    Second,
    Nanosecond,
}

fn shown(field: Field, fields: TimeFields) -> i64
    ensures { result ≡ shown field fields }
{
    match field {
        Field::Year => fields.year as i64,
        Field::Month => fields.month as i64,
        Field::MonthDay => fields.day as i64,
        Field::YearDay => fields.year_day as i64,
        Field::WeekDay => fields.week_day as i64,
        Field::Hour => fields.hour as i64,
        Field::Minute => fields.minute as i64,
        Field::Second => fields.second as i64,
        Field::Nanosecond => fields.nanosecond as i64,
    }
}

/// The field of a time, in UTC.
pub fn field_of(args: &[Scalar], field: Field) -> Result<Scalar, OpFault>
    ensures answer { Gives (shown_in field args.now) result }
    ensures memory { result ≢ Err Memory }
{
    match time_at(args, 0) {
        Some(t) => Ok(Scalar::Int(shown(field, fields_of(t)))),
        None => Ok(Scalar::Null),
    }
}

/// The start of the time's window of this length, TimeRange where times begin later, and BadWindow
/// where windows have no such length.
pub fn truncate(args: &[Scalar], unit: Span) -> Result<Scalar, OpFault>
    ensures answer { Gives (told (λ t. truncated t unit) args.now) result }
    ensures memory { result ≢ Err Memory }
{
    match time_at(args, 0) {
        Some(t) => truncated(t, unit),
        None => Ok(Scalar::Null),
    }
}

fn truncated(t: i64, unit: Span) -> Result<Scalar, OpFault>
    ensures answer { Gives (truncated t unit) result }
    ensures memory { result ≢ Err Memory }
{
    if !is_window(unit) {
        return Err(OpFault::Kind(FaultKind::BadWindow));
    }
    match i64::try_from(window_of(t, unit).0) {
        Ok(start) => Ok(Scalar::Time(start)),
        Err(_) => Err(OpFault::Kind(FaultKind::TimeRange)),
    }
}

/// The time after a span, or TimeRange where there is none.
pub fn add(args: &[Scalar], span: Span) -> Result<Scalar, OpFault>
    ensures answer { Gives (told (λ t. added t span) args.now) result }
    ensures memory { result ≢ Err Memory }
{
    match time_at(args, 0) {
        Some(t) => time_from(add_span(t, span)),
        None => Ok(Scalar::Null),
    }
}

/// The time before a span, or TimeRange where there is none or the span has no opposite.
pub fn sub(args: &[Scalar], span: Span) -> Result<Scalar, OpFault>
    ensures answer { Gives (told (λ t. subtracted t span) args.now) result }
    ensures memory { result ≢ Err Memory }
{
    match time_at(args, 0) {
        Some(t) => subtracted(t, span),
        None => Ok(Scalar::Null),
    }
}

fn subtracted(t: i64, span: Span) -> Result<Scalar, OpFault>
    ensures answer { Gives (subtracted t span) result }
    ensures memory { result ≢ Err Memory }
{
    let Some(months) = span.months.checked_neg() else {
        return Err(OpFault::Kind(FaultKind::TimeRange));
    };
    let Some(nanos) = span.nanos.checked_neg() else {
        return Err(OpFault::Kind(FaultKind::TimeRange));
    };
    time_from(add_span(t, Span { months, nanos }))
}

fn time_from(t: Option<i64>) -> Result<Scalar, OpFault>
    ensures answer { Gives (time_from t) result }
    ensures memory { result ≢ Err Memory }
{
    match t {
        Some(t) => Ok(Scalar::Time(t)),
        None => Err(OpFault::Kind(FaultKind::TimeRange)),
    }
}
