ghost use Rattle.std.specs.Prelude.{◌≡◌, ◌≢◌, [], ◌∷◌, ◌++◌, map, List as AnyList, IfOk, OnOk, if◌then◌else◌};
ghost use Rattle.std.specs.FinMap as fin;
ghost use Rattle.std.specs.List.{AllByRecursion};
ghost use Rattle.fx_data.specs.Table.{HasRisingLabels, IsLawfulTable};
ghost use Rattle.fx_data.specs.declared.keyed_row.KeyedRow.{KeyedRow as AnyKeyedRow};
ghost use Rattle.fx_data.specs.declared.table.Table.{Table as AnyTable};
ghost use Rattle.fx_group.specs.Turned.{with_rows};
ghost use Rattle.fx_pivot.specs.Pivot.{stays, base_key, based, collected, pivot_key, keyed, pivoted_table, pivoted_tables, pivoted};
ghost use Rattle.fx_value.specs.Calls.{Told};
ghost use Rattle.fx_value.specs.Ends.{End, Stuck};
ghost use Rattle.fx_value.specs.Works.{into};

use crate::cell::cells_of;
use crate::naming::is_listed;
use crate::placing::rows_of;
use fx_base::{Halt, List, Memory, Place, Text};
use fx_data::{Key, KeyEntry, Runs, Table, Tables, collect};
use fx_value::Row;
use std::alloc::Global;

/// Whether the entry stays in the key: a pinned one, and one that is neither of the column key nor
/// of the value.
fn stays(columns: &[Text], value: &Text, entry: &KeyEntry) -> bool
    ensures { result ≡ stays (value.now ∷ columns.now) entry.now }
{
    entry.pinned || !(entry.label == *value || is_listed(columns, &entry.label))
}

fn push_if(entries: &mut Vec<KeyEntry>, entry: KeyEntry, wanted: bool) -> Result<(), Memory>
    ensures { OnOk result (entries.new.items ≡ entries.old.items ++ (if wanted then entry ∷ [] else [])) }
{
    if wanted {
        entries.push(entry)?;
    }
    Ok(())
}

fn base_key(alloc: Global, columns: &[Text], value: &Text, key: Key) -> Result<Key, Memory>
    ensures { IfOk result (λ k. k ≡ base_key (value.now ∷ columns.now) key) }
{
    let mut entries = Vec::new(alloc);
    for entry in key.entries.into_vec() {
        let wanted = stays(columns, value, &entry);
        push_if(&mut entries, entry, wanted)?;
    }
    Ok(Key {
        entries: List::of(entries),
    })
}

fn based(alloc: Global, columns: &[Text], value: &Text, table: Table) -> Result<Table, Memory>
    ensures { IfOk result (λ t. t ≡ based (value.now ∷ columns.now) table) }
{
    let Table { key, rows } = table;
    let key = base_key(alloc, columns, value, key)?;
    Ok(Table { key, rows })
}

/// The tables under the keys without the column key and the value.
fn collected(
    alloc: Global,
    columns: &[Text],
    value: &Text,
    tables: Tables,
) -> Result<Tables, Memory>
    ensures { IfOk result (λ ts. ts ≡ collected (value.now ∷ columns.now) tables) }
{
    let mut all = Vec::new(alloc);
    for table in tables.into_list().into_vec() {
        all.push(based(alloc, columns, value, table)?)?;
    }
    collect(alloc, List::of(all))
}

/// The key with each label pinned that isn't in the row key.
fn pivot_key(alloc: Global, rows: &[Text], key: &Key) -> Result<Key, Memory>
    ensures { IfOk result (λ k. k ≡ pivot_key rows.now key.now) }
{
    let old = key.entries.as_slice();
    let mut entries = Vec::with_capacity(alloc, old.len())?;
    for entry in old {
        entries.push(KeyEntry {
            label: entry.label.copy()?,
            value: entry.value.copy()?,
            pinned: entry.pinned || !is_listed(rows, &entry.label),
        })?;
    }
    Ok(Key {
        entries: List::of(entries),
    })
}

/// Puts the rows behind the runs, regrouped from this key.
fn push_rows(alloc: Global, mut runs: Runs, key: &Key, rows: List<Row>) -> Result<Runs, Memory>
    requires { HasRisingLabels key.now }
    ensures { IfOk result (λ r. r ≡ with_rows runs (map (keyed key.now) rows)) }
{
    for row in rows.into_vec() {
        runs = runs.push(alloc, key, row)?;
    }
    Ok(runs)
}

/// Puts the rows of a table behind the runs.
fn pivot_table(
    alloc: Global,
    runs: Runs,
    rows: &[Text],
    columns: &[Text],
    value: &Text,
    table: Table,
    place: Place,
) -> Result<Runs, Halt>
    requires rising { HasRisingLabels table.key }
    requires unstuck { ◌≢◌ {A = End (AnyList AnyKeyedRow)} (pivoted_table place rows.now columns.now value.now table) Stuck }
    ensures { Told (into with_rows runs (pivoted_table place rows.now columns.now value.now table)) result }
{
    let Table { key, rows: all } = table;
    let cells = cells_of(alloc, rows, columns, value, &key, all, place)?;
    let made = rows_of(alloc, rows, cells)?;
    let key = pivot_key(alloc, rows, &key)?;
    let longer = push_rows(alloc, runs, &key, made)?;
    Ok(longer)
}

fn pivot_tables(
    alloc: Global,
    rows: &[Text],
    columns: &[Text],
    value: &Text,
    tables: Tables,
    place: Place,
) -> Result<Runs, Halt>
    requires { ◌≢◌ {A = End (AnyList AnyKeyedRow)} (pivoted_tables place rows.now columns.now value.now tables) Stuck }
    ensures { Told (into with_rows fin.empty (pivoted_tables place rows.now columns.now value.now tables)) result }
{
    let mut runs = Runs::empty(alloc);
    for table in tables.into_list().into_vec() {
        runs = pivot_table(alloc, runs, rows, columns, value, table, place)?;
    }
    Ok(runs)
}

/// Rows as columns. Of each table there is one row for each differing list of values under the row
/// key, with a column for each differing name under the column key, which has the value. PivotName
/// comes where a name is empty, or stands in the row key or in the table's key.
pub fn pivot(
    alloc: Global,
    tables: Tables,
    row_key: &List<Text>,
    column_key: &List<Text>,
    value: &Text,
    place: Place,
) -> Result<Tables, Halt>
    requires { ◌≢◌ {A = End (AnyList AnyTable)} (pivoted place row_key.now column_key.now value.now tables) Stuck }
    ensures { Told (pivoted place row_key.now column_key.now value.now tables) result }
{
    let rows = row_key.as_slice();
    let columns = column_key.as_slice();
    let collected = collected(alloc, columns, value, tables)?;
    let runs = pivot_tables(alloc, rows, columns, value, collected, place)?;
    let made = runs.into_tables(alloc)?;
    Ok(made)
}
