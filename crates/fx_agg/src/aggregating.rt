ghost use Rattle.std.specs.Prelude.{◌≡◌, ◌≢◌, [], ◌∷◌, List as AnyList, map, length, option_to_list, IfOk};
ghost use Rattle.fx_value.specs.Calls.{Told};
ghost use Rattle.fx_value.specs.Ends.{End, Stuck};
ghost use Rattle.fx_value.specs.Works.{into};
ghost use Rattle.fx_value.specs.declared.scalar.Scalar.{Scalar as AnyScalar};
ghost use Rattle.fx_data.specs.Table.{HasRisingLabels, IsLawfulTable};
ghost use Rattle.fx_data.specs.declared.keyed_row.KeyedRow.{KeyedRow as AnyKeyedRow};
ghost use Rattle.fx_data.specs.declared.table.Table.{Table as AnyTable};
ghost use Rattle.fx_group.specs.Turned.{Groups, with_rows};
ghost use Rattle.std.specs.FinMap as fin;
ghost use Rattle.fx_agg.specs.Aggregate.{one_row, aggregated_table, aggregated_tables, aggregated};
ghost use Rattle.fx_agg.specs.OneRow.{valued, keyed};

use crate::agg::Agg;
use crate::choosing::chosen;
use crate::numbers::{count, spread, sum};
use crate::one_row::Mould;
use fx_base::{Halt, List, Memory, Place, Text};
use fx_data::{Key, Runs, Table, Tables};
use fx_value::{Row, Scalar};
use std::alloc::Global;

/// The number of rows.
pub fn count_rows(table: &Table) -> u64
    ensures { result ≡ length table.now.rows }
{
    table.rows.as_slice().len() as u64
}

/// Puts an aggregate row behind the runs.
fn push_valued(
    alloc: Global,
    runs: Runs,
    key: &Key,
    column: &Text,
    value: Scalar,
) -> Result<Runs, Memory>
    requires { HasRisingLabels key.now }
    ensures { IfOk result (λ r. r ≡ with_rows runs (valued key.now column.now value ∷ [])) }
{
    let mould = Mould::of(alloc, key, column)?;
    mould.push(alloc, runs, value)
}

/// Puts the one row of a value behind the runs, where there is a value.
fn push_one_row(
    alloc: Global,
    runs: Runs,
    key: &Key,
    column: &Text,
    value: Result<Scalar, Halt>,
) -> Result<Runs, Halt>
    requires { HasRisingLabels key.now }
    ensures { (end : End AnyScalar) → Told end value → Told (into with_rows runs (one_row key.now column.now end)) result }
{
    let runs = push_valued(alloc, runs, key, column, value?)?;
    Ok(runs)
}

/// Puts the chosen row behind the runs, under the key that it has.
fn push_chosen(alloc: Global, runs: Runs, key: &Key, row: Option<Row>) -> Result<Runs, Memory>
    requires { HasRisingLabels key.now }
    ensures { IfOk result (λ r. r ≡ with_rows runs (map (keyed key.now) (option_to_list row))) }
{
    match row {
        None => Ok(runs),
        Some(row) => runs.push(alloc, key, row),
    }
}

/// Puts what is made of the table behind the runs.
fn push_made(
    alloc: Global,
    runs: Runs,
    which: Agg,
    column: &Text,
    place: Place,
    table: Table,
) -> Result<Runs, Halt>
    requires rising { HasRisingLabels table.key }
    requires unstuck { ◌≢◌ {A = End (AnyList AnyKeyedRow)} (aggregated_table place which column.now table) Stuck }
    ensures { Told (into with_rows runs (aggregated_table place which column.now table)) result }
{
    let Table { key, rows } = table;
    match which {
        Agg::Count => {
            let count = count(rows.as_slice(), place);
            push_one_row(alloc, runs, &key, column, count)
        }
        Agg::Sum => {
            let sum = sum(column, rows.as_slice(), place);
            push_one_row(alloc, runs, &key, column, sum)
        }
        Agg::Spread => {
            let spread = spread(column, rows.as_slice(), place);
            push_one_row(alloc, runs, &key, column, spread)
        }
        _ => {
            let row = chosen(which, column, rows)?;
            let runs = push_chosen(alloc, runs, &key, row)?;
            Ok(runs)
        }
    }
}

/// What is made of the tables, in runs.
fn runs_made(
    alloc: Global,
    which: Agg,
    column: &Text,
    place: Place,
    tables: Tables,
) -> Result<Runs, Halt>
    requires { ◌≢◌ {A = End (AnyList AnyKeyedRow)} (aggregated_tables place which column.now tables) Stuck }
    ensures { Told (into with_rows fin.empty (aggregated_tables place which column.now tables)) result }
{
    let mut runs = Runs::empty(alloc);
    for table in tables.into_list().into_vec() {
        runs = push_made(alloc, runs, which, column, place, table)?;
    }
    Ok(runs)
}

/// One row for each table: the number of its rows, the sum or the spread of the integers of the
/// column, or the row that is chosen by it. A table of whose rows none can be chosen is dropped.
pub fn aggregate(
    alloc: Global,
    tables: Tables,
    which: Agg,
    column: &Text,
    place: Place,
) -> Result<Tables, Halt>
    requires { ◌≢◌ {A = End (AnyList AnyTable)} (aggregated place which column.now tables) Stuck }
    ensures { Told (aggregated place which column.now tables) result }
{
    let runs = runs_made(alloc, which, column, place, tables)?;
    let made = runs.into_tables(alloc)?;
    Ok(made)
}
