ghost use Rattle.std.specs.Prelude.{◌≡◌, [], ◌∷◌, ◌++◌, map, IfOk, slice_get};
ghost use Rattle.std.specs.FinMap as fin;
ghost use Rattle.std.specs.Option.{option_map};
ghost use Rattle.std.specs.Ordering.{is_eq};
ghost use Rattle.fx_pivot.specs.Cells.{values_cmp, cells_by_place, with_values};
ghost use Rattle.fx_pivot.specs.Ordered.{Places, Ascend, NotBelowLast, LastIs, with_cell, with_value, line_of, lines_of};
ghost use Rattle.fx_pivot.specs.Pivot.{pivot_rows};

use crate::cell::Cell;
use fx_base::{List, Memory, Text};
use fx_value::{Row, Scalar};
use std::alloc::Global;

/// A row of the pivot with its values under the row key.
#[derive(Drop)]
pub(crate) struct Line {
    place: List<Scalar>,
    row: Row,
}

/// The cells in the order of their places; those of one place keep their order. Cells that rise in
/// parts, as those of several series do, are merged part by part.
fn in_order(cells: List<Cell>) -> Result<Vec<Cell>, Memory>
    ensures places { IfOk result (λ v. cells_by_place v.items ≡ cells_by_place cells) }
    ensures order { IfOk result (λ v. Ascend v.items) }
{
    let mut cells = cells.into_vec();
    cells.sort_by(|a, b| a.place.cmp(&b.place))?;
    Ok(cells)
}

fn with_value(
    alloc: Global,
    mut row: Row,
    label: &Text,
    value: Option<&Scalar>,
) -> Result<Row, Memory>
    ensures { IfOk result (λ r. r ≡ with_value row label.now (option_map (λ v. v.now) value.entry)) }
{
    match value {
        Some(value) => row.set(alloc, label.copy()?, value.copy()?)?,
        None => {}
    }
    Ok(row)
}

fn value_in(values: &[Scalar], place: usize) -> Option<&Scalar>
    ensures { option_map (λ v. v.now) result ≡ slice_get values.now place }
{
    values.get(place)
}

/// A row of these values under these labels.
fn first_row(alloc: Global, labels: &[Text], values: &[Scalar]) -> Result<Row, Memory>
    ensures { IfOk result (λ r. r ≡ with_values labels.now values.now fin.empty) }
{
    let mut row = Row::empty(alloc)?;
    for (i, label) in labels.iter().enumerate() {
        row = with_value(alloc, row, label, value_in(values, i))?;
    }
    Ok(row)
}

/// The line with one more cell.
fn with_name(alloc: Global, line: Line, name: Text, value: Scalar) -> Result<Line, Memory>
    ensures { IfOk result (λ x. x ≡ record { place = line.place; row = fin.insert line.row name value }) }
{
    let Line { place, mut row } = line;
    row.set(alloc, name, value)?;
    Ok(Line { place, row })
}

/// The line of a first cell.
fn begun(alloc: Global, labels: &[Text], cell: Cell) -> Result<Line, Memory>
    ensures { IfOk result (λ x. x ≡ line_of labels.now (cell.place, (cell.name, cell.value) ∷ [])) }
{
    let Cell { place, name, value } = cell;
    let row = first_row(alloc, labels, place.as_slice())?;
    with_name(alloc, Line { place, row }, name, value)
}

fn push_line(mut lines: Vec<Line>, line: Line) -> Result<Vec<Line>, Memory>
    ensures { IfOk result (λ v. v.items ≡ lines.items ++ line ∷ []) }
{
    lines.push(line)?;
    Ok(lines)
}

fn is_at(line: &Line, cell: &Cell) -> bool
    ensures { result ≡ is_eq (values_cmp line.now.place cell.now.place) }
{
    line.place.cmp(&cell.place).is_eq()
}

/// The lines with a cell that stands at the last of them or behind it.
fn with_next(
    alloc: Global,
    mut lines: Vec<Line>,
    labels: &[Text],
    cell: Cell,
) -> Result<Vec<Line>, Memory>
    requires { NotBelowLast cell.place lines.items }
    ensures lines { (places : Places) → lines.items ≡ lines_of labels.now places → IfOk result (λ v. v.items ≡ lines_of labels.now (with_cell places cell)) }
    ensures last { IfOk result (λ v. LastIs cell.place v.items) }
{
    match lines.pop() {
        None => push_line(lines, begun(alloc, labels, cell)?),
        Some(last) => {
            if is_at(&last, &cell) {
                let longer = with_name(alloc, last, cell.name, cell.value)?;
                return push_line(lines, longer);
            }
            let lines = push_line(lines, last)?;
            push_line(lines, begun(alloc, labels, cell)?)
        }
    }
}

/// The lines of cells in order.
fn lines_in_order(alloc: Global, labels: &[Text], cells: Vec<Cell>) -> Result<Vec<Line>, Memory>
    requires { Ascend cells.items }
    ensures { IfOk result (λ v. v.items ≡ lines_of labels.now (cells_by_place cells.items)) }
{
    let mut lines = Vec::new(alloc);
    for cell in cells {
        lines = with_next(alloc, lines, labels, cell)?;
    }
    Ok(lines)
}

/// The rows of the lines.
fn rows_in(alloc: Global, lines: Vec<Line>) -> Result<List<Row>, Memory>
    ensures { IfOk result (λ rows. rows ≡ map (λ x. x.row) lines.items) }
{
    let mut rows = Vec::with_capacity(alloc, lines.len())?;
    for line in lines {
        rows.push(line.row)?;
    }
    Ok(List::of(rows))
}

/// One row for each place of a cell, in the order of the places.
pub(crate) fn rows_of(
    alloc: Global,
    labels: &[Text],
    cells: List<Cell>,
) -> Result<List<Row>, Memory>
    ensures { IfOk result (λ rows. rows ≡ pivot_rows labels.now cells) }
{
    let ordered = in_order(cells)?;
    let lines = lines_in_order(alloc, labels, ordered)?;
    rows_in(alloc, lines)
}
