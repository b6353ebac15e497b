//! What values are to a rule.
ghost use Rattle.std.specs.Prelude.{◌≡◌, map, option_map};
ghost use Rattle.fx_meaning.specs.Forms.{argument, cell_in, fields_in, flag_in, flag_of, items_in, pattern_in, span_in, stream_in, truth_in};
ghost use Rattle.fx_meaning.specs.Value.{look};
ghost use Rattle.fx_values.specs.Shape.{call, slot, slots_of, val, vals_of};
ghost use Rattle.fx_values.specs.Told.{Tells};

use crate::stop::Stop;
use crate::value::{Slot, StreamCall, Value};
use fx_base::List;
use fx_time::Span;
use fx_value::Scalar;
use std::rc::Rc;

/// The scalar that a value is.
pub fn cell_in(value: &Value) -> Result<&Scalar, Stop>
    ensures { Tells (λ a. a.now) (cell_in (val value.now)) result }
{
    match value {
        Value::Cell(a) => Ok(a),
        _ => Err(Stop::Stuck),
    }
}

/// The items of an array.
pub fn items_in(value: &Value) -> Result<&List<Value>, Stop>
    ensures { Tells (λ items. vals_of (map val items.now)) (items_in (val value.now)) result }
{
    match value {
        Value::List(items) => Ok(items.as_ref()),
        _ => Err(Stop::Stuck),
    }
}

/// The fields of a record.
pub fn fields_in(value: &Value) -> Result<&List<Slot>, Stop>
    ensures { Tells (λ fields. slots_of (map slot fields.now)) (fields_in (val value.now)) result }
{
    match value {
        Value::Rec(fields) => Ok(fields.as_ref()),
        _ => Err(Stop::Stuck),
    }
}

/// The duration that a value is.
pub fn span_in(value: &Value) -> Result<Span, Stop>
    ensures { Tells (λ d. d) (span_in (val value.now)) result }
{
    match value {
        Value::Span(d) => Ok(*d),
        _ => Err(Stop::Stuck),
    }
}

/// The number of the pattern that a value is.
pub fn pattern_in(value: &Value) -> Result<u32, Stop>
    ensures { Tells (λ number. number) (pattern_in (val value.now)) result }
{
    match value {
        Value::Pattern(number) => Ok(*number),
        _ => Err(Stop::Stuck),
    }
}

/// The stream that a value is.
pub fn stream_in(value: &Value) -> Result<Rc<StreamCall>, Stop>
    ensures { Tells (λ c. call c.value) (stream_in (val value.now)) result }
{
    match value {
        Value::Stream(call) => Ok(call.clone()?),
        _ => Err(Stop::Stuck),
    }
}

fn flag_of(a: &Scalar) -> Result<Option<bool>, Stop>
    ensures { Tells (λ flag. flag) (flag_of a.now) result }
{
    match a {
        Scalar::Bool(b) => Ok(Some(*b)),
        Scalar::Null => Ok(None),
        _ => Err(Stop::Stuck),
    }
}

/// The Boolean that a value is, or None for null.
pub fn flag_in(value: &Value) -> Result<Option<bool>, Stop>
    ensures { Tells (λ flag. flag) (flag_in (val value.now)) result }
{
    flag_of(cell_in(value)?)
}

/// Whether the test of an `if` is true.
pub fn truth_in(value: &Value) -> Result<bool, Stop>
    ensures { Tells (λ b. b) (truth_in (val value.now)) result }
{
    match flag_in(value)? {
        Some(b) => Ok(b),
        None => Ok(false),
    }
}

/// The last value at the label, or None where no slot has it.
pub fn look<'a>(label: &str, slots: &'a [Slot]) -> Option<&'a Value>
    ensures { option_map (λ v. val v.now) result ≡ look label.now (slots_of (map slot slots.now)) }
{
    let mut found = None;
    for slot in slots {
        if label == slot.label.as_str() {
            found = Some(&slot.value);
        }
    }
    found
}

/// The argument at the label.
pub fn argument<'a>(label: &str, args: &'a [Slot]) -> Result<&'a Value, Stop>
    ensures { Tells (λ v. val v.now) (argument label.now (slots_of (map slot args.now))) result }
{
    match look(label, args) {
        Some(value) => Ok(value),
        None => Err(Stop::Stuck),
    }
}
