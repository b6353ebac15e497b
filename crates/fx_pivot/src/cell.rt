ghost use Rattle.std.specs.Prelude.{◌≡◌, ◌≢◌, List as AnyList, IfOk};
ghost use Rattle.std.specs.FinMap as fin;
ghost use Rattle.fx_pivot.specs.Cells.{or_null};
ghost use Rattle.fx_pivot.specs.Cells.{values_of, cell_under, cell_of, cells_of};
ghost use Rattle.fx_value.specs.Calls.{Told};
ghost use Rattle.fx_value.specs.Ends.{End, Stuck};
ghost use Rattle.fx_pivot.specs.declared.cell.Cell.{Cell as AnyCell};

use crate::naming::{is_refused, name_of};
use fx_base::{Fault, FaultKind, Halt, List, Memory, Place, Text};
use fx_data::Key;
use fx_value::{Row, Scalar};
use std::alloc::Global;

/// The value that a row gives to a column, and the values of the row under the row key.
#[derive(Drop)]
pub(crate) struct Cell {
    pub place: List<Scalar>,
    pub name: Text,
    pub value: Scalar,
}

/// The row's value, or null where it has none.
fn value_at(label: &Text, row: &Row) -> Result<Scalar, Memory>
    ensures { IfOk result (λ v. v ≡ or_null (fin.get row.now label.now)) }
{
    match row.get(label) {
        Some(value) => value.copy(),
        None => Ok(Scalar::Null),
    }
}

/// The values of the row under these labels.
fn values_of(alloc: Global, labels: &[Text], row: &Row) -> Result<List<Scalar>, Memory>
    ensures { IfOk result (λ vs. vs ≡ values_of labels.now row.now) }
{
    let mut values = Vec::with_capacity(alloc, labels.len())?;
    for label in labels {
        values.push(value_at(label, row)?)?;
    }
    Ok(List::of(values))
}

fn cell_under(
    alloc: Global,
    rows: &[Text],
    value: &Text,
    row: &Row,
    name: Text,
) -> Result<Cell, Memory>
    ensures { IfOk result (λ c. c ≡ cell_under rows.now value.now row.now name) }
{
    Ok(Cell {
        place: values_of(alloc, rows, row)?,
        name,
        value: value_at(value, row)?,
    })
}

/// The cell of a row, or PivotName where its name can't be that of a column.
fn cell_of(
    alloc: Global,
    rows: &[Text],
    columns: &[Text],
    value: &Text,
    key: &Key,
    row: &Row,
    place: Place,
) -> Result<Cell, Halt>
    requires { ◌≢◌ {A = End AnyCell} (cell_of place rows.now columns.now value.now key.now row.now) Stuck }
    ensures { Told (cell_of place rows.now columns.now value.now key.now row.now) result }
{
    let name = name_of(alloc, columns, row)?;
    if is_refused(rows, key, &name) {
        return Err(Halt::Fault(Fault {
            kind: FaultKind::PivotName,
            place,
        }));
    }
    let cell = cell_under(alloc, rows, value, row, name)?;
    Ok(cell)
}

/// The cells of the rows, in their order.
pub(crate) fn cells_of(
    alloc: Global,
    rows: &[Text],
    columns: &[Text],
    value: &Text,
    key: &Key,
    all: List<Row>,
    place: Place,
) -> Result<List<Cell>, Halt>
    requires { ◌≢◌ {A = End (AnyList AnyCell)} (cells_of place rows.now columns.now value.now key.now all) Stuck }
    ensures { Told (cells_of place rows.now columns.now value.now key.now all) result }
{
    let mut cells = Vec::new(alloc);
    for row in all.into_vec() {
        let cell = cell_of(alloc, rows, columns, value, key, &row, place)?;
        cells.push(cell)?;
    }
    Ok(List::of(cells))
}
