//! The cells of a table's rows.
ghost use Rattle.std.specs.Prelude.{◌≡◌, ℕ, List, [], ◌∷◌, ◌++◌, map, IfOk, OnOk};
ghost use Rattle.std.specs.Option.{option_map};
ghost use Rattle.fx_csv.specs.Lines.{HasFields};
ghost use Rattle.fx_csv.specs.Rows.{cell_for, cell_of, cell_text, key_value};

use crate::column::Column;
use crate::line::Line;
use crate::text::push_text;
use fx_base::{List, Memory, Text};
use fx_data::KeyEntry;
use fx_value::{Row, Scalar};
use std::alloc::Global;

/// What a column shows in the rows of one table.
#[derive(Drop)]
pub(crate) enum Cell {
    /// The printed value of a key label.
    Same(List<u8>),
    /// The value that the row has of this label.
    Own(Text),
}

/// The cells of the rows under a key, column by column.
pub(crate) fn cells_of(
    alloc: Global,
    entries: &[KeyEntry],
    columns: &[Column],
) -> Result<Vec<Cell>, Memory>
    ensures { IfOk result (λ v. v.items ≡ map (λ c. cell_of entries.now c.label) columns.now) }
{
    let mut cells = Vec::with_capacity(alloc, columns.len())?;
    for column in columns {
        let value = key_value(entries, &column.label);
        cells.push(cell_for(alloc, value, &column.label)?)?;
    }
    Ok(cells)
}

fn key_value<'a>(entries: &'a [KeyEntry], label: &Text) -> Option<&'a Scalar>
    ensures { option_map (λ v. v.now) result ≡ key_value entries.now label.now }
{
    for entry in entries {
        if entry.label == *label {
            return Some(&entry.value);
        }
    }
    None
}

fn cell_for(alloc: Global, value: Option<&Scalar>, label: &Text) -> Result<Cell, Memory>
    ensures { IfOk result (λ c. c ≡ cell_for (option_map (λ v. v.now) value.entry) label.now) }
{
    match value {
        None => Ok(Cell::Own(label.copy()?)),
        Some(value) => {
            let mut text = Vec::new(alloc);
            push_text(&mut text, value)?;
            Ok(Cell::Same(List::of(text)))
        }
    }
}
