//! Calls of the language's own functions.
ghost use Rattle.std.specs.Prelude.{◌≡◌, length, map, pos, Ok};
ghost use Rattle.std.specs.List.{list_all};
ghost use Rattle.fx_meaning.specs.Ends.{cell_at, pure};
ghost use Rattle.fx_meaning.specs.Forms.{cell_of, items_of};
ghost use Rattle.fx_meaning.specs.Natives as meaning;
ghost use Rattle.fx_meaning.specs.Value.{array};
ghost use Rattle.fx_ops.specs.Binary.{is_like};
ghost use Rattle.fx_value.specs.Scalar.{kind_of};
ghost use Rattle.fx_value.specs.declared.scalar.Scalar.TheVariants.{Int};
ghost use Rattle.fx_values.specs.Shape.{slot, slots_of, val, vals_of};
ghost use Rattle.fx_values.specs.Told.{Tells};

use crate::forms::{argument, cell_in, items_in};
use crate::stop::Stop;
use crate::value::{Slot, Value};
use fx_base::{FaultKind, List, Place, Text};
use fx_ops::{convert, split_text};
use fx_value::{Kind, Scalar, scalar_order};
use std::alloc::Global;
use std::rc::Rc;

/// The scalar that is the argument at the label.
pub fn cell_of<'a>(label: &str, args: &'a [Slot]) -> Result<&'a Scalar, Stop>
    ensures { Tells (λ a. a.now) (cell_of label.now (slots_of (map slot args.now))) result }
{
    let value = argument(label, args)?;
    cell_in(value)
}

/// The array that is the argument at the label.
pub fn items_of<'a>(label: &str, args: &'a [Slot]) -> Result<&'a List<Value>, Stop>
    ensures { Tells (λ items. vals_of (map val items.now)) (items_of label.now (slots_of (map slot args.now))) result }
{
    let value = argument(label, args)?;
    items_in(value)
}

/// The scalars of an array.
pub fn cells_in(alloc: Global, items: &[Value]) -> Result<List<Scalar>, Stop>
    ensures { Tells (λ found. found) (meaning.cells_in (vals_of (map val items.now))) result }
{
    let mut cells = List::empty(alloc);
    for item in items {
        let cell = cell_in(item)?;
        cells.push(cell.copy()?)?;
    }
    Ok(cells)
}

/// What `int`, `string`, `bool` and `time` give.
pub fn convert_of(alloc: Global, place: Place, kind: Kind, args: &[Slot]) -> Result<Value, Stop>
    ensures { Tells val (meaning.convert_of place kind (slots_of (map slot args.now))) result }
{
    let a = cell_of("v", args)?;
    convert_call(alloc, place, kind, a)
}

fn convert_call(alloc: Global, place: Place, kind: Kind, a: &Scalar) -> Result<Value, Stop>
    ensures { Tells val (meaning.convert_call place kind a.now) result }
{
    match (kind, a) {
        (Kind::Bool, Scalar::Time(_)) | (Kind::Time, Scalar::Bool(_)) => return Err(Stop::Stuck),
        _ => {}
    }
    match convert(alloc, kind, a) {
        Ok(value) => Ok(Value::Cell(value)),
        Err(fault) => Err(Stop::at(place, fault)),
    }
}

/// What `length` gives.
pub fn length_of(place: Place, args: &[Slot]) -> Result<Value, Stop>
    ensures { Tells val (meaning.length_of place (slots_of (map slot args.now))) result }
{
    let items = items_of("arr", args)?;
    counted(place, items.as_slice())
}

fn counted(place: Place, items: &[Value]) -> Result<Value, Stop>
    ensures { Tells val (cell_at place (Ok (Int (pos (length items.now))))) result }
{
    match i64::try_from(items.len()) {
        Ok(n) => Ok(Value::Cell(Scalar::Int(n))),
        Err(_) => Err(Stop::fault(place, FaultKind::Overflow)),
    }
}

/// What `contains` gives.
pub fn contains_of(alloc: Global, args: &[Slot]) -> Result<Value, Stop>
    ensures { Tells val (meaning.contains_of (slots_of (map slot args.now))) result }
{
    let value = cell_of("value", args)?;
    let items = items_of("set", args)?;
    let cells = cells_in(alloc, items.as_slice())?;
    contains(value, cells.as_slice())
}

fn contains(value: &Scalar, items: &[Scalar]) -> Result<Value, Stop>
    ensures { Tells val (meaning.contains value.now items.now) result }
{
    if !are_like(value, items) {
        return Err(Stop::Stuck);
    }
    Ok(Value::Cell(is_in(value, items)))
}

fn are_like(value: &Scalar, items: &[Scalar]) -> bool
    ensures { result ≡ list_all (λ a. is_like (kind_of value.now) a) items.now }
{
    items.iter().all(|a| is_like(value, a))
}

/// Whether the scalar is null or of the kind of the value, if that has one.
fn is_like(value: &Scalar, a: &Scalar) -> bool
    ensures { result ≡ is_like (kind_of value.now) a.now }
{
    match (value.kind(), a.kind()) {
        (Some(k), Some(l)) => k == l,
        _ => true,
    }
}

fn is_in(value: &Scalar, items: &[Scalar]) -> Scalar
    ensures { result ≡ meaning.is_in value.now items.now }
{
    match value {
        Scalar::Null => Scalar::Null,
        _ => Scalar::Bool(has_equal(value, items)),
    }
}

fn has_equal(value: &Scalar, items: &[Scalar]) -> bool
    ensures { result ≡ meaning.has_equal value.now items.now }
{
    items.iter().any(|a| scalar_order(value, a).is_eq())
}

/// What `strings.split` gives.
pub fn split_of(alloc: Global, place: Place, args: &[Slot]) -> Result<Value, Stop>
    ensures { Tells val (meaning.split_of place (slots_of (map slot args.now))) result }
{
    let text = cell_of("v", args)?;
    let by = cell_of("t", args)?;
    split(alloc, place, text, by)
}

fn split(alloc: Global, place: Place, text: &Scalar, by: &Scalar) -> Result<Value, Stop>
    ensures { Tells val (meaning.split place text.now by.now) result }
{
    match text {
        Scalar::Text(text) => split_by(alloc, place, text, by),
        Scalar::Null => split_null(alloc, by),
        _ => Err(Stop::Stuck),
    }
}

fn split_by(alloc: Global, place: Place, text: &Text, by: &Scalar) -> Result<Value, Stop>
    ensures { Tells val (meaning.split_by place text.now by.now) result }
{
    match by {
        Scalar::Text(by) => split_parts(alloc, place, text, by),
        Scalar::Null => no_items(alloc),
        _ => Err(Stop::Stuck),
    }
}

fn split_null(alloc: Global, by: &Scalar) -> Result<Value, Stop>
    ensures { Tells val (meaning.split_null by.now) result }
{
    match by {
        Scalar::Text(_) | Scalar::Null => no_items(alloc),
        _ => Err(Stop::Stuck),
    }
}

fn no_items(alloc: Global) -> Result<Value, Stop>
    ensures { Tells val meaning.no_items result }
{
    let items = Rc::new(alloc, List::empty(alloc))?;
    Ok(Value::List(items))
}

fn split_parts(alloc: Global, place: Place, text: &Text, by: &Text) -> Result<Value, Stop>
    ensures { Tells val (meaning.split_parts place text.now by.now) result }
{
    match split_text(alloc, text, by) {
        Ok(parts) => texts_made(alloc, parts.as_slice()),
        Err(fault) => Err(Stop::at(place, fault)),
    }
}

fn texts_made(alloc: Global, texts: &[Text]) -> Result<Value, Stop>
    ensures { Tells val (meaning.texts_array texts.now) result }
{
    let mut items = List::empty(alloc);
    for text in texts {
        items.push(Value::Cell(Scalar::Text(text.copy()?)))?;
    }
    array_of(alloc, items)
}

fn array_of(alloc: Global, items: List<Value>) -> Result<Value, Stop>
    ensures { Tells val (pure (array (vals_of (map val items)))) result }
{
    let items = Rc::new(alloc, items)?;
    Ok(Value::List(items))
}
