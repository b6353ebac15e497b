ghost use Rattle.std.specs.Prelude.{◌≡◌, Option, None, Some, IfOk, IfErr, IfSome, is_some, IsTrue, ◌==◌, ◌≤ℤ◌, pos, neg_ℤ, if◌then◌else◌};
ghost use Rattle.std.specs.List.{list_any};
ghost use Rattle.fx_line.specs.Line.{is_time, time_of, is_reserved, has_reserved, is_wide, error_of, is_factor};
ghost use Rattle.fx_line.specs.Reading.{stamp_nanos};
ghost use Rattle.fx_line.specs.Word.{begins};
ghost use Rattle.fx_line.specs.Value.{is_float, is_unsigned};

use crate::line::{LineError, LineMode};
use crate::number::{is_negative, natural, to_int, without_minus};
use crate::pair::PairBytes;
use crate::parts::LineParts;
use crate::value::{is_float, is_integer, is_unsigned};

/// The most tags that a line may have.
const MAX_TAGS: usize = 64;

/// The least and the greatest time of a point.
const MIN_TIME: i64 = i64::MIN + 2;

const MAX_TIME: i64 = i64::MAX - 1;

/// The time, where it is one of a point.
fn point_time(time: i128) -> Option<i64>
    ensures exact { IfSome result (λ t. t ≡ time) }
    ensures fits { is_some result ≡ is_time time }
{
    match i64::try_from(time) {
        Ok(time) if MIN_TIME <= time && time <= MAX_TIME => Some(time),
        _ => None,
    }
}

/// How many nanoseconds the digits of a timestamp say, or a number that no time of a point reaches.
fn stamp_nanos(stamp: &[u8], factor: i64) -> i128
    requires { IsTrue (is_factor factor) }
    ensures { result ≡ stamp_nanos stamp.now factor }
{
    i128::from(natural(without_minus(stamp))) * i128::from(factor)
}

/// The number with the sign that stands before the digits.
fn with_sign(stamp: &[u8], nanos: i128) -> i128
    requires { pos 0 ≤ℤ nanos }
    ensures { result ≡ (if begins (λ b. b == 45) stamp.now then neg_ℤ nanos else nanos) }
{
    if is_negative(stamp) { -nanos } else { nanos }
}

/// The time of a timestamp, where it is one of a point.
pub fn stamp_time(stamp: &[u8], mode: LineMode) -> Option<i64>
    requires { IsTrue (is_factor mode.factor) }
    ensures exact { IfSome result (λ t. t ≡ time_of mode (Some stamp.now)) }
    ensures fits { is_some result ≡ is_time (time_of mode (Some stamp.now)) }
{
    point_time(with_sign(stamp, stamp_nanos(stamp, mode.factor)))
}

fn is_reserved(name: &[u8]) -> bool
    ensures { result ≡ is_reserved name.now }
{
    matches!(name, [b'_', ..])
}

fn is_wide(field: &PairBytes<'_>) -> bool
    ensures { result ≡ is_wide field.now }
{
    is_integer(field.value) && to_int(field.value).is_none()
}

fn any_reserved(pairs: &[PairBytes<'_>]) -> bool
    ensures { result ≡ list_any (λ p. is_reserved p.key) pairs.now }
{
    pairs.iter().any(|p| is_reserved(p.key))
}

fn any_float(fields: &[PairBytes<'_>]) -> bool
    ensures { result ≡ list_any (λ f. is_float f.value) fields.now }
{
    fields.iter().any(|f| is_float(f.value))
}

fn any_unsigned(fields: &[PairBytes<'_>]) -> bool
    ensures { result ≡ list_any (λ f. is_unsigned f.value) fields.now }
{
    fields.iter().any(|f| is_unsigned(f.value))
}

fn any_wide(fields: &[PairBytes<'_>]) -> bool
    ensures { result ≡ list_any is_wide fields.now }
{
    fields.iter().any(|f| is_wide(f))
}

impl<'a> LineParts<'a> {
    fn has_reserved(&self) -> bool
        ensures { result ≡ has_reserved self.now }
    {
        is_reserved(self.measurement)
            || any_reserved(self.tags.as_slice())
            || any_reserved(self.fields.as_slice())
    }

    fn time(&self, mode: LineMode) -> Option<i64>
        requires { IsTrue (is_factor mode.factor) }
        ensures exact { IfSome result (λ t. t ≡ time_of mode self.now.time) }
        ensures fits { is_some result ≡ is_time (time_of mode self.now.time) }
    {
        match self.time {
            Some(stamp) => stamp_time(stamp, mode),
            None => point_time(i128::from(mode.moment)),
        }
    }

    /// The line's time, or why the line is refused.
    pub fn check(&self, mode: LineMode) -> Result<i64, LineError>
        requires { IsTrue (is_factor mode.factor) }
        ensures ok { IfOk result (λ t. (error_of mode self.now ≡ None) × (t ≡ time_of mode self.now.time)) }
        ensures err { IfErr result (λ e. error_of mode self.now ≡ Some e) }
    {
        let fields = self.fields.as_slice();
        if self.tags.len() > MAX_TAGS {
            return Err(LineError::TooManyTags);
        }
        if self.has_reserved() {
            return Err(LineError::NameReserved);
        }
        if !mode.skip_floats && any_float(fields) {
            return Err(LineError::FloatField);
        }
        if any_unsigned(fields) {
            return Err(LineError::UintField);
        }
        if any_wide(fields) {
            return Err(LineError::IntRange);
        }
        self.time(mode).ok_or(LineError::TimeRange)
    }
}
