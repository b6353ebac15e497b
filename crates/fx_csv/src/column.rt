//! The columns of a block.
ghost use Rattle.std.specs.Prelude.{◌≡◌, [], ◌∷◌, IfOk, IsTrue};
ghost use Rattle.fx_csv.specs.Alike.{HasAlikeRows};
ghost use Rattle.fx_csv.specs.Printed.{is_key_label};
ghost use Rattle.fx_csv.specs.Shapes.{columns_over};

use crate::kind::kind_in;
use crate::names::column_names;
use fx_base::{Memory, Text};
use fx_data::Table;
use fx_value::Kind;
use std::alloc::Global;

/// A column: its label, whether that is a key label, and the kind of the values that aren't null.
#[derive(Drop)]
pub(crate) struct Column {
    pub(crate) label: Text,
    pub(crate) grouped: bool,
    pub(crate) kind: Option<Kind>,
}

/// The columns of a table that stands alone, whose rows may be known to be alike.
pub(crate) fn columns_of(alloc: Global, table: &Table, alike: bool) -> Result<Vec<Column>, Memory>
    requires { IsTrue alike → HasAlikeRows table.now }
    ensures { IfOk result (λ v. v.items ≡ columns_over (table.now ∷ [])) }
{
    let names = column_names(alloc, table, alike)?;
    let mut columns = Vec::with_capacity(alloc, names.len())?;
    for name in names.iter() {
        let label = name.label()?;
        let grouped = is_key_label(table, &label);
        let kind = kind_in(table, &label);
        columns.push(Column {
            label,
            grouped,
            kind,
        })?;
    }
    Ok(columns)
}

fn is_key_label(table: &Table, label: &Text) -> bool
    ensures { result ≡ is_key_label table.now label.now }
{
    table
        .key
        .entries
        .as_slice()
        .iter()
        .any(|entry| entry.label == *label)
}
