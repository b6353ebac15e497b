//! Rows as records, and what a function of rows gives.
ghost use Rattle.std.specs.Prelude.{◌≡◌, ◌++◌, IfOk, OnOk, map};
ghost use Rattle.std.specs.FinMap.{empty, insert};
ghost use Rattle.std.specs.List.{flat_map};
ghost use Rattle.fx_meaning.specs.Ends.{pure};
ghost use Rattle.fx_meaning.specs.Forms.{cell_in};
ghost use Rattle.fx_meaning.specs.Rows.{answer_of, record_of, row_from};
ghost use Rattle.fx_meaning.specs.Value.{rec};
ghost use Rattle.fx_rowfn.specs.Rows.{field_at, with_field};
ghost use Rattle.fx_value.specs.Ends.{and_then};
ghost use Rattle.fx_values.specs.Shape.{slot, slots_of, val};
ghost use Rattle.fx_values.specs.Told.{Tells};

use crate::slots::slot_of;
use fx_base::{List, Memory, Text};
use fx_value::{Answer, Row, Scalar};
use fx_values::{Slot, Stop, Value, cell_in, look};
use std::alloc::Global;
use std::rc::Rc;

/// The record of a row.
pub(crate) fn record_of(alloc: Global, row: &Row) -> Result<Value, Memory>
    ensures { IfOk result (λ v. val v ≡ record_of row.now) }
{
    let labels = row.labels(alloc)?;
    let fields = fields_at(alloc, row, labels.as_slice())?;
    let shared = Rc::new(alloc, fields)?;
    Ok(Value::Rec(shared))
}

fn fields_at(alloc: Global, row: &Row, labels: &[Text]) -> Result<List<Slot>, Memory>
    ensures { IfOk result (λ made. map slot made ≡ flat_map (field_at row.now) labels.now) }
{
    let mut made = List::empty(alloc);
    for label in labels {
        push_field(&mut made, row, label)?;
    }
    Ok(made)
}

fn push_field(made: &mut List<Slot>, row: &Row, label: &Text) -> Result<(), Memory>
    ensures { OnOk result (map slot made.new ≡ map slot made.old ++ field_at row.now label.now) }
{
    match row.get(label) {
        Some(value) => {
            let field = slot_of(label.copy()?, Value::Cell(value.copy()?));
            made.push(field)?;
            Ok(())
        }
        None => Ok(()),
    }
}

/// The answer that a value is: a scalar, or a record of scalars as a row.
pub(crate) fn answer_of(alloc: Global, value: &Value) -> Result<Answer, Stop>
    ensures { Tells (λ answer. answer) (answer_of (val value.now)) result }
{
    match value {
        Value::Cell(scalar) => Ok(Answer::Cell(scalar.copy()?)),
        Value::Rec(fields) => line_of(alloc, fields.as_ref().as_slice()),
        _ => Err(Stop::Stuck),
    }
}

fn line_of(alloc: Global, fields: &[Slot]) -> Result<Answer, Stop>
    ensures { Tells (λ answer. answer) (answer_of (rec (slots_of (map slot fields.now)))) result }
{
    let row = row_of(alloc, fields)?;
    Ok(Answer::Line(row))
}

fn row_of(alloc: Global, fields: &[Slot]) -> Result<Row, Stop>
    ensures { Tells (λ row. row) (row_from empty (slots_of (map slot fields.now))) result }
{
    let mut row = Row::empty(alloc)?;
    let mut rest = fields;
    while let [first, behind @ ..] = rest {
        row = with_field(alloc, row, first, behind)?;
        rest = behind;
    }
    Ok(row)
}

/// The row with a field more. Of several fields with one label only the last is looked at.
fn with_field(alloc: Global, row: Row, first: &Slot, behind: &[Slot]) -> Result<Row, Stop>
    ensures { Tells (λ row. row) (with_field row first.now.label (val first.now.value) (slots_of (map slot behind.now))) result }
{
    match look(first.label.as_str(), behind) {
        Some(_) => Ok(row),
        None => with_cell(alloc, row, first),
    }
}

fn with_cell(alloc: Global, row: Row, first: &Slot) -> Result<Row, Stop>
    ensures { Tells (λ row. row) (and_then (cell_in (val first.now.value)) (λ a. pure (insert row first.now.label a))) result }
{
    let scalar = cell_in(&first.value)?;
    let row = with_scalar(alloc, row, &first.label, scalar)?;
    Ok(row)
}

fn with_scalar(alloc: Global, row: Row, label: &Text, scalar: &Scalar) -> Result<Row, Memory>
    ensures { IfOk result (λ made. made ≡ insert row label.now scalar.now) }
{
    let mut made = row;
    made.set(alloc, label.copy()?, scalar.copy()?)?;
    Ok(made)
}
