//! What all rows of a table print alike, made once a table.
ghost use Rattle.std.specs.Prelude.{◌≡◌, ℕ, List, ◌∷◌, ◌++◌, IfOk, OnOk};
ghost use Rattle.std.specs.Fmt.{decimal};
ghost use Rattle.std.specs.Option.{option_map};
ghost use Rattle.std.specs.FinMap as map;
ghost use Rattle.std.specs.List.{flat_map};
ghost use Rattle.fx_base.specs.Text.{text_cmp};
ghost use Rattle.fx_csv.specs.Cells.{scalar_text};
ghost use Rattle.fx_csv.specs.Records.{comma, field_bytes, record_bytes};
ghost use Rattle.fx_csv.specs.Rows.{cell_text, record_of};
ghost use Rattle.fx_csv.specs.Templates.{own_text, piece_text, template_text};
ghost use Rattle.fx_value.specs.declared.scalar.Scalar.{Scalar};

use crate::cell::Cell;
use crate::field::push_field;
use crate::text::{push_bool, push_int, push_time_at};
use fx_base::{Memory, Text};
use fx_value::{Row, Scalar};
use itoa::Buffer;
use std::alloc::Global;

/// Bytes that are the same in each row, and the label whose value in the row follows them.
#[derive(Drop)]
pub(crate) struct Piece {
    front: Vec<u8>,
    label: Text,
}

/// The records of a table's rows but for what each row has of its own.
#[derive(Drop)]
pub(crate) struct Template {
    pieces: Vec<Piece>,
    end: Vec<u8>,
}

/// The template of the rows of the table with this number.
pub(crate) fn template_of(alloc: Global, number: u64, cells: &[Cell]) -> Result<Template, Memory>
    ensures { IfOk result (λ t. (row : map.FinMap text_cmp Scalar) → template_text row t ≡ record_bytes (record_of number cells.now row)) }
{
    let mut pieces = Vec::new(alloc);
    let mut front = lead(alloc, number)?;
    for cell in cells {
        front = add(alloc, &mut pieces, front, cell)?;
    }
    front.extend_from_slice(b"\r\n")?;
    Ok(Template { pieces, end: front })
}

/// The three fields before those of the columns.
fn lead(alloc: Global, number: u64) -> Result<Vec<u8>, Memory>
    ensures { IfOk result (λ v. v.items ≡ comma ∷ comma ∷ field_bytes (decimal number)) }
{
    let mut front = Vec::new(alloc);
    front.extend_from_slice(b",,")?;
    push_field(&mut front, Buffer::new().format(number).as_bytes())?;
    Ok(front)
}

/// Adds a cell behind the pieces and the bytes that are in no piece yet, and gives those that are in
/// none then.
fn add(
    alloc: Global,
    pieces: &mut Vec<Piece>,
    front: Vec<u8>,
    cell: &Cell,
) -> Result<Vec<u8>, Memory>
    ensures { (row : map.FinMap text_cmp Scalar) → IfOk result (λ after.
        flat_map (piece_text row) pieces.new.items ++ after.items
        ≡ (flat_map (piece_text row) pieces.old.items ++ front.items) ++ (comma ∷ field_bytes (cell_text row cell.now))) }
{
    let mut front = front;
    front.push(b',')?;
    match cell {
        Cell::Same(text) => {
            push_field(&mut front, text.as_slice())?;
            Ok(front)
        }
        Cell::Own(label) => {
            let label = label.copy()?;
            pieces.push(Piece { front, label })?;
            Ok(Vec::new(alloc))
        }
    }
}

impl Template {
    /// Adds the record of a row.
    pub(crate) fn push_row(&self, out: &mut Vec<u8>, row: &Row) -> Result<(), Memory>
        ensures { OnOk result (out.new.items ≡ out.old.items ++ template_text row.now self.now) }
    {
        for piece in &self.pieces {
            out.extend_from_slice(piece.front.as_slice())?;
            push_own(out, row.get(&piece.label))?;
        }
        out.extend_from_slice(self.end.as_slice())?;
        Ok(())
    }
}

fn push_own(out: &mut Vec<u8>, value: Option<&Scalar>) -> Result<(), Memory>
    ensures { OnOk result (out.new.items ≡ out.old.items ++ field_bytes (own_text (option_map (λ v. v.now) value.entry))) }
{
    match value {
        None => Ok(()),
        Some(value) => push_scalar(out, value),
    }
}

/// Adds the field of a value. Only a text may need quotes.
fn push_scalar(out: &mut Vec<u8>, value: &Scalar) -> Result<(), Memory>
    ensures { OnOk result (out.new.items ≡ out.old.items ++ field_bytes (scalar_text value.now)) }
{
    match value {
        Scalar::Null => Ok(()),
        Scalar::Bool(flag) => push_bool(out, flag),
        Scalar::Int(number) => push_int(out, number),
        Scalar::Text(text) => push_field(out, text.as_bytes()),
        Scalar::Time(time) => push_time_at(out, time),
    }
}
