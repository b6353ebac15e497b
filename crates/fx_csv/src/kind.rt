//! The kinds of values in the columns of a table.
ghost use Rattle.std.specs.Prelude.{◌≡◌, map, unwrap_or};
ghost use Rattle.std.specs.Option.{option_map};
ghost use Rattle.std.specs.List.{filter_map, slice_get};
ghost use Rattle.std.specs.FinMap as map;
ghost use Rattle.fx_value.specs.Scalar.{kind_of};
ghost use Rattle.fx_value.specs.declared.scalar.Scalar.TheVariants as scalar;
ghost use Rattle.fx_csv.specs.Printed.{kinds_in, pinned_value};

use fx_base::Text;
use fx_data::{KeyEntry, Table};
use fx_value::{Kind, Row, Scalar};

/// The kind of the first value of a column that isn't null.
pub(crate) fn kind_in(table: &Table, label: &Text) -> Option<Kind>
    ensures { result ≡ slice_get (kinds_in label.now table.now) 0 }
{
    let rows = table.rows.as_slice();
    match pinned(table.key.entries.as_slice(), label) {
        Some(_) if rows.is_empty() => None,
        Some(value) => value.kind(),
        None => first_kind(rows, label),
    }
}

/// The value of a label that the key pins.
fn pinned<'a>(entries: &'a [KeyEntry], label: &Text) -> Option<&'a Scalar>
    ensures { option_map (λ v. v.now) result ≡ pinned_value entries.now label.now }
{
    for entry in entries {
        if entry.pinned && entry.label == *label {
            return Some(&entry.value);
        }
    }
    None
}

fn first_kind(rows: &[Row], label: &Text) -> Option<Kind>
    ensures { result ≡ slice_get (filter_map kind_of (map (λ row. unwrap_or (map.get row label.now) scalar.Null) rows.now)) 0 }
{
    for row in rows {
        if let Some(kind) = kind_at(row, label) {
            return Some(kind);
        }
    }
    None
}

pub(crate) fn kind_at(row: &Row, label: &Text) -> Option<Kind>
    ensures { result ≡ kind_of (unwrap_or (map.get row.now label.now) scalar.Null) }
{
    match row.get(label) {
        Some(value) => value.kind(),
        None => None,
    }
}
