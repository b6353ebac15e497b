//! The records before the rows of a block.
ghost use Rattle.std.specs.Prelude.{◌≡◌, ℕ, List, [], ◌∷◌, ◌++◌, map, OnOk};
ghost use Rattle.std.specs.List.{flat_map};
ghost use Rattle.fx_csv.specs.Heads.{head_field, head_lead, head_record, heads};
ghost use Rattle.fx_csv.specs.Lines.{HasFields};
ghost use Rattle.fx_csv.specs.Records.{record_bytes};
ghost use Rattle.fx_csv.specs.Writers.{Holds};

use crate::column::Column;
use crate::line::Line;
use crate::text::{bool_text, datatype};
use crate::writer::put_line;
use csv::Writer;
use fx_base::{Memory, Text};

/// The records before the rows, in their order.
#[derive(Clone, Copy)]
enum Head {
    /// The datatype of each column.
    Datatype,
    /// Whether each column is a key label.
    Group,
    /// The yield's name.
    Default,
    /// The labels.
    Label,
}

/// Writes the records before the rows of a block that has these columns.
pub(crate) fn put_heads(
    writer: &mut Writer<Vec<u8>>,
    line: &mut Line,
    name: &Text,
    columns: &[Column],
) -> Result<(), Memory>
    ensures { (bytes : List ℕ) → Holds writer.old bytes → OnOk result (Holds writer.new (bytes ++ flat_map record_bytes (heads name.now columns.now))) }
{
    put_head(writer, line, Head::Datatype, name, columns)?;
    put_head(writer, line, Head::Group, name, columns)?;
    put_head(writer, line, Head::Default, name, columns)?;
    put_head(writer, line, Head::Label, name, columns)
}

fn put_head(
    writer: &mut Writer<Vec<u8>>,
    line: &mut Line,
    head: Head,
    name: &Text,
    columns: &[Column],
) -> Result<(), Memory>
    ensures { (bytes : List ℕ) → Holds writer.old bytes → OnOk result (Holds writer.new (bytes ++ record_bytes (head_record name.now columns.now head))) }
{
    let (first, second, third) = head_lead(head, name);
    line.clear();
    line.push(first)?;
    line.push(second)?;
    line.push(third)?;
    push_fields(line, head, columns)?;
    put_line(writer, line)
}

fn push_fields(line: &mut Line, head: Head, columns: &[Column]) -> Result<(), Memory>
    ensures { (all : List (List ℕ)) → HasFields line.old all → OnOk result (HasFields line.new (all ++ map (head_field head) columns.now)) }
{
    for column in columns {
        line.push(head_field(head, column))?;
    }
    Ok(())
}

/// The three fields before those of the columns.
fn head_lead(head: Head, name: &Text) -> (&[u8], &[u8], &[u8])
    ensures { result.0.now ∷ result.1.now ∷ result.2.now ∷ [] ≡ head_lead head name.now }
{
    match head {
        Head::Datatype => (b"#datatype", b"string", b"long"),
        Head::Group => (b"#group", b"false", b"false"),
        Head::Default => (b"#default", name.as_bytes(), b""),
        Head::Label => (b"", b"result", b"table"),
    }
}

fn head_field(head: Head, column: &Column) -> &[u8]
    ensures { result.now ≡ head_field head column.now }
{
    match head {
        Head::Datatype => datatype(column.kind),
        Head::Group => bool_text(column.grouped),
        Head::Default => b"",
        Head::Label => column.label.as_bytes(),
    }
}
