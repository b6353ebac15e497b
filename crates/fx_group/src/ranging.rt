ghost use Rattle.std.specs.Prelude.{◌≡◌, ◌≢◌, ℤ, [], List as AnyList, IfOk};
ghost use Rattle.std.specs.List.{filter, flat_map, AllByRecursion};
ghost use Rattle.fx_value.specs.Ends.{End, Gives, Stuck};
ghost use Rattle.fx_data.specs.Gathered.{grouped};
ghost use Rattle.fx_data.specs.Regrouped.{joined, all_joined};
ghost use Rattle.fx_data.specs.Table.{IsLawfulTable};
ghost use Rattle.fx_data.specs.declared.table.Table.{Table as AnyTable};
ghost use Rattle.fx_group.specs.Bounds.{AreBounds, lies_between, table_left};
ghost use Rattle.fx_group.specs.Range.{bounded, ranged};
ghost use Rattle.fx_group.specs.RangeRows.{range_regrouped};

use fx_base::{List, Memory, Text};
use fx_data::{Key, Runs, Table, Tables, key_with};
use fx_value::{Change, Row, Scalar, change_rows};
use std::alloc::Global;

/// The times of a range, the labels that it reads and sets, and what it sets in each row.
#[derive(Drop)]
struct Bounds {
    start: i64,
    stop: i64,
    time_label: Text,
    start_label: Text,
    stop_label: Text,
    changes: List<Change>,
}

fn set_time(alloc: Global, label: &str, time: i64) -> Result<Change, Memory>
    ensures { IfOk result (λ change. change ≡ Change.Set label.now (Scalar.Time time)) }
{
    Ok(Change::Set {
        label: Text::of(alloc, label)?,
        value: Scalar::Time(time),
    })
}

fn bounds_of(alloc: Global, start: i64, stop: i64) -> Result<Bounds, Memory>
    ensures labels { IfOk result AreBounds }
    ensures start { IfOk result (λ b. b.start ≡ start) }
    ensures stop { IfOk result (λ b. b.stop ≡ stop) }
{
    let mut changes = Vec::with_capacity(alloc, 2)?;
    changes.push(set_time(alloc, "_start", start)?)?;
    changes.push(set_time(alloc, "_stop", stop)?)?;
    Ok(Bounds {
        start,
        stop,
        time_label: Text::of(alloc, "_time")?,
        start_label: Text::of(alloc, "_start")?,
        stop_label: Text::of(alloc, "_stop")?,
        changes: List::of(changes),
    })
}

fn lies_between(bounds: &Bounds, row: &Row) -> bool
    requires { AreBounds bounds.now }
    ensures { result ≡ lies_between bounds.now.start bounds.now.stop row.now }
{
    match row.get(&bounds.time_label) {
        Some(Scalar::Time(time)) => bounds.start <= *time && *time < bounds.stop,
        _ => false,
    }
}

/// The rows whose time lies between; none of them is copied.
fn keep_between(bounds: &Bounds, rows: List<Row>) -> List<Row>
    requires { AreBounds bounds.now }
    ensures { result ≡ filter (lies_between bounds.now.start bounds.now.stop) rows }
{
    let mut rows = rows.into_vec();
    rows.retain(|row| lies_between(bounds, row));
    List::of(rows)
}

/// The table with the two times as columns of its rows and of its key.
fn with_bounds(alloc: Global, bounds: &Bounds, table: Table) -> Result<Table, Memory>
    requires { AreBounds bounds.now }
    ensures { IfOk result (λ t. t ≡ bounded bounds.now.start bounds.now.stop table) }
{
    let Table { key, rows } = table;
    let started = key_with(
        alloc,
        &key,
        &bounds.start_label,
        &Scalar::Time(bounds.start),
    )?;
    let key = key_with(
        alloc,
        &started,
        &bounds.stop_label,
        &Scalar::Time(bounds.stop),
    )?;
    let rows = change_rows(alloc, rows, bounds.changes.as_slice())?;
    Ok(Table { key, rows })
}

/// Puts the table with the bounds behind the runs.
fn push_bounded(alloc: Global, runs: Runs, bounds: &Bounds, table: Table) -> Result<Runs, Memory>
    requires bounds { AreBounds bounds.now }
    requires lawful { IsLawfulTable table }
    ensures { IfOk result (λ r. r ≡ joined runs (bounded bounds.now.start bounds.now.stop table)) }
{
    let table = with_bounds(alloc, bounds, table)?;
    runs.push_table(table)
}

/// Puts the rows that lie between behind the runs; where there are none, the table is dropped.
fn push_between(
    alloc: Global,
    runs: Runs,
    bounds: &Bounds,
    key: Key,
    rows: List<Row>,
) -> Result<Runs, Memory>
    requires bounds { AreBounds bounds.now }
    requires lawful { IsLawfulTable (record { key = key; rows = rows }) }
    requires some { rows ≢ [] }
    ensures { IfOk result (λ r. r ≡ all_joined runs (table_left bounds.now.start bounds.now.stop (record { key = key; rows = rows }))) }
{
    let rows = keep_between(bounds, rows);
    match rows.as_slice() {
        [] => Ok(runs),
        [_, ..] => push_bounded(alloc, runs, bounds, Table { key, rows }),
    }
}

/// Puts what is left of the table behind the runs. A table without rows stays.
fn push_left(alloc: Global, runs: Runs, bounds: &Bounds, table: Table) -> Result<Runs, Memory>
    requires bounds { AreBounds bounds.now }
    requires lawful { IsLawfulTable table }
    ensures { IfOk result (λ r. r ≡ all_joined runs (table_left bounds.now.start bounds.now.stop table)) }
{
    let Table { key, rows } = table;
    match rows.as_slice() {
        [] => push_bounded(alloc, runs, bounds, Table { key, rows }),
        [_, ..] => push_between(alloc, runs, bounds, key, rows),
    }
}

/// What is left of the tables, in runs.
fn runs_left(alloc: Global, bounds: &Bounds, tables: Tables) -> Result<Runs, Memory>
    requires { AreBounds bounds.now }
    ensures { IfOk result (λ r. r ≡ grouped (flat_map (table_left bounds.now.start bounds.now.stop) tables)) }
{
    let mut runs = Runs::empty(alloc);
    for table in tables.into_list().into_vec() {
        runs = push_left(alloc, runs, bounds, table)?;
    }
    Ok(runs)
}

/// The rows whose `_time` lies at or after the start and before the stop, with the two times as
/// columns `_start` and `_stop`, also of the key. A table that loses all of its rows is dropped, and
/// one that had none stays.
pub fn range(alloc: Global, tables: Tables, start: i64, stop: i64) -> Result<Tables, Memory>
    requires { ◌≢◌ {A = End (AnyList AnyTable)} (ranged start stop tables) Stuck }
    ensures { IfOk result (λ t. ranged start stop tables ≡ Gives t 0) }
{
    let bounds = bounds_of(alloc, start, stop)?;
    let runs = runs_left(alloc, &bounds, tables)?;
    runs.into_tables(alloc)
}

/// The law of `range`: on lawful tables it is each row between the times with both columns set, and
/// both labels added to its key, regrouped; tables that had no rows stay under such a key.
pub fn range_regroups()
    ensures { (start stop : ℤ) (tables : AnyList AnyTable) → AllByRecursion IsLawfulTable tables → ◌≢◌ {A = End (AnyList AnyTable)} (ranged start stop tables) Stuck → ranged start stop tables ≡ Gives (range_regrouped start stop tables) 0 }
{}
