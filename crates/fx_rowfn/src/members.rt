//! Members of records and packages, and items of arrays.
ghost use Rattle.std.specs.Prelude.{◌≡◌, map, pos, IfOk};
ghost use Rattle.fx_meaning.specs.Forms.{cell_in, items_in};
ghost use Rattle.fx_meaning.specs.Operators.{indexed, member_of, or_null};
ghost use Rattle.fx_meaning.specs.Ends.{answered};
ghost use Rattle.fx_meaning.specs.Operators as plain;
ghost use Rattle.fx_meaning.specs.Value.{look};
ghost use Rattle.fx_value.specs.Ends.{and_then};
ghost use Rattle.fx_values.specs.Shape.{slot, slots_of, val, vals_of};
ghost use Rattle.fx_values.specs.Told.{Tells};

use crate::names::built_value;
use fx_base::{FaultKind, Memory, Place, Text};
use fx_value::Scalar;
use fx_values::{Slot, Stop, Value, cell_in, items_in, look};
use std::alloc::Global;

/// The member of a value. What a record lacks reads as null.
pub(crate) fn member_of(alloc: Global, value: &Value, label: &Text) -> Result<Value, Stop>
    ensures { Tells val (member_of (val value.now) label.now) result }
{
    match value {
        Value::Rec(fields) => Ok(field_or_null(fields.as_slice(), label)?),
        Value::Package(which) => built_value(fx_meaning::member(alloc, *which, label)?),
        _ => Err(Stop::Stuck),
    }
}

fn field_or_null(fields: &[Slot], label: &Text) -> Result<Value, Memory>
    ensures { IfOk result (λ v. val v ≡ or_null (look label.now (slots_of (map slot fields.now)))) }
{
    match look(label.as_str(), fields) {
        Some(value) => value.copy(),
        None => Ok(Value::Cell(Scalar::Null)),
    }
}

/// The item of a value at an index.
pub(crate) fn item_of(place: Place, items: &Value, at: &Value) -> Result<Value, Stop>
    ensures { Tells val (and_then (items_in (val items.now)) (λ vs. and_then (cell_in (val at.now)) (indexed place vs))) result }
{
    let items = items_in(items)?;
    let at = cell_in(at)?;
    indexed(place, items.as_slice(), at)
}

fn indexed(place: Place, items: &[Value], at: &Scalar) -> Result<Value, Stop>
    ensures { Tells val (indexed place (vals_of (map val items.now)) at.now) result }
{
    match at {
        Scalar::Int(n) => item_at(place, items, n),
        Scalar::Null => Err(Stop::fault(place, FaultKind::IndexRange)),
        _ => Err(Stop::Stuck),
    }
}

fn item_at(place: Place, items: &[Value], at: &i64) -> Result<Value, Stop>
    ensures { Tells val (answered place (plain.item (vals_of (map val items.now)) at.now)) result }
{
    match usize::try_from(*at) {
        Ok(n) => counted_item(place, items, n),
        Err(_) => Err(Stop::fault(place, FaultKind::IndexRange)),
    }
}

fn counted_item(place: Place, items: &[Value], n: usize) -> Result<Value, Stop>
    ensures { Tells val (answered place (plain.item (vals_of (map val items.now)) (pos n))) result }
{
    match items.get(n) {
        Some(value) => Ok(value.copy()?),
        None => Err(Stop::fault(place, FaultKind::IndexRange)),
    }
}
