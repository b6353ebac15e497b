//! The labels of a table in the order of columns.
ghost use Rattle.std.specs.Prelude.{◌≡◌, ℕ, List, [], ◌++◌, map, IfOk, OnOk, IsTrue};
ghost use Rattle.std.specs.FinMap as map;
ghost use Rattle.std.specs.List.{flat_map, fold};
ghost use Rattle.std.specs.BTreeSet.{insert_key};
ghost use Rattle.fx_csv.specs.Alike.{AreAlike, HasAlikeRows};
ghost use Rattle.fx_csv.specs.Columns.{column_cmp};
ghost use Rattle.fx_csv.specs.Printed.{column_labels, key_labels};

use crate::name::ColumnName;
use fx_base::Memory;
use fx_data::{KeyEntry, Table};
use fx_value::Row;
use std::alloc::Global;
use std::collections::BTreeSet;
use std::slice;

/// The labels of a table's key and rows, each once; of alike rows only the first is looked at.
pub(crate) fn column_names(
    alloc: Global,
    table: &Table,
    alike: bool,
) -> Result<BTreeSet<ColumnName>, Memory>
    requires { IsTrue alike → HasAlikeRows table.now }
    ensures { IfOk result (λ s. s.keys ≡ column_labels table.now) }
{
    let mut names = key_names(alloc, table.key.entries.as_slice())?;
    add_rows(alloc, &mut names, telling(table.rows.as_slice(), alike))?;
    Ok(names)
}

fn key_names(alloc: Global, entries: &[KeyEntry]) -> Result<BTreeSet<ColumnName>, Memory>
    ensures { IfOk result (λ s. s.keys ≡ fold (insert_key column_cmp) [] (map (λ e. e.label) entries.now)) }
{
    let mut names = BTreeSet::new(alloc);
    for entry in entries {
        names.insert(ColumnName::of(entry.label.copy()?))?;
    }
    Ok(names)
}

/// The rows that have the labels of all of them.
fn telling(rows: &[Row], alike: bool) -> &[Row]
    requires { IsTrue alike → AreAlike rows.now }
    ensures { (names : List (List ℕ)) → fold (insert_key column_cmp) names (flat_map map.keys result.now) ≡ fold (insert_key column_cmp) names (flat_map map.keys rows.now) }
{
    match rows {
        [first, ..] if alike => slice::from_ref(first),
        _ => rows,
    }
}

/// Adds the labels of the rows. A row with the labels of the row before it adds none.
fn add_rows(alloc: Global, names: &mut BTreeSet<ColumnName>, rows: &[Row]) -> Result<(), Memory>
    ensures { OnOk result (names.new.keys ≡ fold (insert_key column_cmp) names.old.keys (flat_map map.keys rows.now)) }
{
    for i in 0..rows.len() {
        if i > 0 && rows[i].same_labels(&rows[i - 1]) {
            continue;
        }
        add_row(alloc, names, &rows[i])?;
    }
    Ok(())
}

fn add_row(alloc: Global, names: &mut BTreeSet<ColumnName>, row: &Row) -> Result<(), Memory>
    ensures { OnOk result (names.new.keys ≡ fold (insert_key column_cmp) names.old.keys (map.keys row.now)) }
{
    for label in row.labels(alloc)?.as_slice() {
        names.insert(ColumnName::of(label.copy()?))?;
    }
    Ok(())
}
