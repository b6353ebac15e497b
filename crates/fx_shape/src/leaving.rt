ghost use Rattle.std.specs.Prelude.{◌≡◌, map, IfOk};
ghost use Rattle.fx_data.specs.Gathered.{grouped};
ghost use Rattle.fx_data.specs.Regrouped.{joined};
ghost use Rattle.fx_data.specs.Table.{IsLawfulTable};
ghost use Rattle.fx_shape.specs.Keep.{columns_dropped, columns_kept, key_left, table_left};
ghost use Rattle.fx_shape.specs.Naming.{stays, IsPlain};

use crate::naming::Naming;
use fx_base::{List, Memory, Text};
use fx_data::{Key, Runs, Table, Tables};
use fx_value::recast_rows;
use std::alloc::Global;

/// The key without the entries of labels that go.
fn key_left(naming: &Naming<'_>, key: Key) -> Key
    ensures { result ≡ key_left (stays naming.now) key }
{
    let Key { entries } = key;
    let mut entries = entries.into_vec();
    entries.retain(|entry| naming.keeps(&entry.label));
    Key {
        entries: List::of(entries),
    }
}

/// The table without the columns that go.
fn table_left(alloc: Global, naming: &Naming<'_>, table: Table) -> Result<Table, Memory>
    requires { IsPlain naming.now }
    ensures { IfOk result (λ t. t ≡ table_left (stays naming.now) table) }
{
    let Table { key, rows } = table;
    let key = key_left(naming, key);
    let rows = recast_rows(alloc, rows, naming)?;
    Ok(Table { key, rows })
}

/// Puts what is left of the table behind the runs.
fn push_left(alloc: Global, runs: Runs, naming: &Naming<'_>, table: Table) -> Result<Runs, Memory>
    requires plain { IsPlain naming.now }
    requires lawful { IsLawfulTable table }
    ensures { IfOk result (λ r. r ≡ joined runs (table_left (stays naming.now) table)) }
{
    let table = table_left(alloc, naming, table)?;
    runs.push_table(table)
}

/// What is left of the tables, in runs.
fn runs_left(alloc: Global, naming: &Naming<'_>, tables: Tables) -> Result<Runs, Memory>
    requires { IsPlain naming.now }
    ensures { IfOk result (λ r. r ≡ grouped (map (table_left (stays naming.now)) tables)) }
{
    let mut runs = Runs::empty(alloc);
    for table in tables.into_list().into_vec() {
        runs = push_left(alloc, runs, naming, table)?;
    }
    Ok(runs)
}

/// The listed columns alone, also of the keys, pinned or not. One new head is made for each head that
/// is met. Tables that have one key afterwards become one, and a table without rows stays.
pub fn keep(alloc: Global, tables: Tables, columns: &List<Text>) -> Result<Tables, Memory>
    ensures { IfOk result (λ t. t ≡ columns_kept columns.now tables) }
{
    let columns = columns.as_slice();
    let runs = runs_left(alloc, &Naming::Listed { columns }, tables)?;
    runs.into_tables(alloc)
}

/// All columns but the listed ones, also of the keys, pinned or not. One new head is made for each
/// head that is met. Tables that have one key afterwards become one, and a table without rows stays.
pub fn drop_columns(alloc: Global, tables: Tables, columns: &List<Text>) -> Result<Tables, Memory>
    ensures { IfOk result (λ t. t ≡ columns_dropped columns.now tables) }
{
    let columns = columns.as_slice();
    let runs = runs_left(alloc, &Naming::Others { columns }, tables)?;
    runs.into_tables(alloc)
}
