ghost use Rattle.std.specs.Prelude.{◌≡◌, ◌≢◌, [], ◌∷◌, List as AnyList, map, codes, IfOk};
ghost use Rattle.std.specs.List.{flat_map, AllByRecursion};
ghost use Rattle.fx_time.specs.Windows.{IsNear, IsWindowPair};
ghost use Rattle.fx_value.specs.Calls.{Told};
ghost use Rattle.fx_value.specs.Ends.{End, Stuck};
ghost use Rattle.fx_value.specs.declared.change.Change.{Change as AnyChange};
ghost use Rattle.fx_data.specs.Gathered.{grouped};
ghost use Rattle.fx_data.specs.Regrouped.{joined, all_joined, alone, regrouped};
ghost use Rattle.fx_data.specs.Table.{HasKey, HasRisingLabels, IsLawfulTable};
ghost use Rattle.fx_data.specs.declared.table.Table.{Table as AnyTable};
ghost use Rattle.fx_group.specs.Range.{bounded};
ghost use Rattle.fx_group.specs.RangeRows.{bounded_key};
ghost use Rattle.fx_group.specs.Turned.{with_rows};
ghost use Rattle.fx_window.specs.Numbers.{numbers};
ghost use Rattle.fx_window.specs.Plain.{AreLabels, IsFrame, copies_all};
ghost use Rattle.fx_window.specs.Reaches.{AllBatches, AreNear, copies_of, made_of, rows_in};
ghost use Rattle.fx_window.specs.Window.{windowed};

use crate::batch::{Batch, batches_of};
use crate::reach::{Reach, are_apart, clipped};
use crate::standing::{Frame, Labels, frame_of, place_rows};
use fx_base::{Fault, FaultKind, Halt, List, Memory, Place, Text};
use fx_data::{Key, Runs, Table, Tables, key_with};
use fx_time::{Span, is_window_pair};
use fx_value::{Change, Row, Scalar, change_rows};
use std::alloc::Global;

/// Other rows that are the same.
pub(crate) fn copies(alloc: Global, rows: &[Row]) -> Result<List<Row>, Memory>
    ensures { IfOk result (λ rs. rs ≡ rows.now) }
{
    let mut copies = Vec::with_capacity(alloc, rows.len())?;
    for row in rows {
        copies.push(row.copy()?)?;
    }
    Ok(List::of(copies))
}

pub(crate) fn set_time(label: &Text, time: i64) -> Result<Change, Memory>
    ensures { IfOk result (λ change. change ≡ Change.Set label.now (Scalar.Time time)) }
{
    Ok(Change::Set {
        label: label.copy()?,
        value: Scalar::Time(time),
    })
}

/// The key with the two times in it.
pub(crate) fn bounded_key(
    alloc: Global,
    labels: &Labels,
    key: &Key,
    start: i64,
    stop: i64,
) -> Result<Key, Memory>
    requires { AreLabels labels.now }
    ensures { IfOk result (λ k. k ≡ bounded_key start stop key.now) }
{
    let started = key_with(alloc, key, &labels.start, &Scalar::Time(start))?;
    key_with(alloc, &started, &labels.stop, &Scalar::Time(stop))
}

/// What sets the two times in a row.
fn both_set(alloc: Global, labels: &Labels, start: i64, stop: i64) -> Result<Vec<Change>, Memory>
    ensures { IfOk result (λ v. v.items ≡ Change.Set labels.now.start (Scalar.Time start) ∷ Change.Set labels.now.stop (Scalar.Time stop) ∷ []) }
{
    let mut changes = Vec::with_capacity(alloc, 2)?;
    changes.push(set_time(&labels.start, start)?)?;
    changes.push(set_time(&labels.stop, stop)?)?;
    Ok(changes)
}

/// The table with the two times as columns of its rows and of its key.
fn bounded(
    alloc: Global,
    labels: &Labels,
    key: &Key,
    rows: List<Row>,
    start: i64,
    stop: i64,
) -> Result<Table, Memory>
    requires { AreLabels labels.now }
    ensures { IfOk result (λ t. t ≡ bounded start stop (record { key = key.now; rows = rows })) }
{
    let key = bounded_key(alloc, labels, key, start, stop)?;
    let changes = both_set(alloc, labels, start, stop)?;
    let rows = change_rows(alloc, rows, changes.as_slice())?;
    Ok(Table { key, rows })
}

/// Puts copies of the rows behind the runs, in window `k`.
fn push_window(
    alloc: Global,
    runs: Runs,
    frame: &Frame,
    reach: Reach,
    key: &Key,
    rows: &[Row],
    k: i128,
) -> Result<Runs, Memory>
    requires frame { IsFrame frame.now }
    requires near { IsNear frame.now.every frame.now.period k }
    requires lawful { IsLawfulTable (record { key = key.now; rows = rows.now }) }
    ensures { IfOk result (λ r. r ≡ joined runs (rows_in frame.now.every frame.now.period reach key.now rows.now k)) }
{
    let (start, stop) = clipped(reach, frame.every, frame.period, k);
    let rows = copies(alloc, rows)?;
    let table = bounded(alloc, &frame.labels, key, rows, start, stop)?;
    runs.push_table(table)
}

/// Puts copies of the rows behind the runs, window after window.
pub(crate) fn push_windows(
    alloc: Global,
    mut runs: Runs,
    frame: &Frame,
    reach: Reach,
    key: &Key,
    rows: &[Row],
) -> Result<Runs, Memory>
    requires frame { IsFrame frame.now }
    requires near { AreNear frame.now.every frame.now.period reach }
    requires lawful { IsLawfulTable (record { key = key.now; rows = rows.now }) }
    ensures { IfOk result (λ r. r ≡ all_joined runs (map (rows_in frame.now.every frame.now.period reach key.now rows.now) (numbers reach.first reach.next))) }
{
    for k in reach.first..reach.next {
        runs = push_window(alloc, runs, frame, reach, key, rows, k)?;
    }
    Ok(runs)
}

/// Puts copies of the rows behind the runs, row after row.
fn push_singly(
    alloc: Global,
    mut runs: Runs,
    frame: &Frame,
    reach: Reach,
    key: &Key,
    rows: &[Row],
) -> Result<Runs, Memory>
    requires frame { IsFrame frame.now }
    requires near { AreNear frame.now.every frame.now.period reach }
    requires lawful { IsLawfulTable (record { key = key.now; rows = rows.now }) }
    ensures { IfOk result (λ r. r ≡ with_rows runs (flat_map (copies_of frame.now.every frame.now.period reach key.now) rows.now)) }
{
    for i in 0..rows.len() {
        runs = push_windows(alloc, runs, frame, reach, key, &rows[i..i + 1])?;
    }
    Ok(runs)
}

/// Puts copies of the rows of a batch behind the runs: window after window, where rows of two
/// windows can't come under one key.
fn push_batch(
    alloc: Global,
    runs: Runs,
    frame: &Frame,
    key: &Key,
    batch: Batch,
) -> Result<Runs, Memory>
    requires frame { IsFrame frame.now }
    requires near { AreNear frame.now.every frame.now.period batch.reach }
    requires lawful { IsLawfulTable (record { key = key.now; rows = batch.rows }) }
    ensures { IfOk result (λ r. r ≡ with_rows runs (made_of (λ reach. copies_of frame.now.every frame.now.period reach key.now) batch)) }
{
    let rows = batch.rows.as_slice();
    if rows.len() > 1 && are_apart(batch.reach, frame.every, frame.period) {
        return push_windows(alloc, runs, frame, batch.reach, key, rows);
    }
    push_singly(alloc, runs, frame, batch.reach, key, rows)
}

/// Puts copies of the rows of batches behind the runs.
pub(crate) fn push_batches(
    alloc: Global,
    mut runs: Runs,
    frame: &Frame,
    key: &Key,
    batches: Vec<Batch>,
) -> Result<Runs, Memory>
    requires frame { IsFrame frame.now }
    requires rising { HasRisingLabels key.now }
    requires all { AllBatches frame.now.every frame.now.period key.now.entries batches.items }
    ensures { IfOk result (λ r. r ≡ with_rows runs (flat_map (made_of (λ reach. copies_of frame.now.every frame.now.period reach key.now)) batches.items)) }
{
    for batch in batches {
        runs = push_batch(alloc, runs, frame, key, batch)?;
    }
    Ok(runs)
}

/// Puts the rows of the table behind the runs, in their windows.
fn push_windowed(alloc: Global, runs: Runs, frame: &Frame, table: Table) -> Result<Runs, Memory>
    requires frame { IsFrame frame.now }
    requires lawful { IsLawfulTable table }
    ensures { IfOk result (λ r. r ≡ with_rows runs (copies_all frame.now.every frame.now.period table)) }
{
    let Table { key, rows } = table;
    let placed = place_rows(alloc, &frame.labels, rows)?;
    let batches = batches_of(alloc, frame, placed)?;
    push_batches(alloc, runs, frame, &key, batches)
}

/// The rows of the tables in their windows, in runs.
fn runs_windowed(alloc: Global, frame: &Frame, tables: Tables) -> Result<Runs, Memory>
    requires { IsFrame frame.now }
    ensures { IfOk result (λ r. r ≡ grouped (map alone (flat_map (copies_all frame.now.every frame.now.period) tables))) }
{
    let mut runs = Runs::empty(alloc);
    for table in tables.into_list().into_vec() {
        runs = push_windowed(alloc, runs, frame, table)?;
    }
    Ok(runs)
}

fn in_windows(alloc: Global, tables: Tables, every: Span, period: Span) -> Result<Tables, Memory>
    requires { IsWindowPair every period }
    ensures { IfOk result (λ t. t ≡ regrouped (flat_map (copies_all every period) tables)) }
{
    let frame = frame_of(alloc, every, period)?;
    let runs = runs_windowed(alloc, &frame, tables)?;
    runs.into_tables(alloc)
}

/// Each row in the windows that hold its `_time`, between its `_start` and its `_stop`, which become
/// the bounds of the window, in the row and in the key. Windows begin once in `every` and are as
/// long as `period`; BadWindow where they can't. Rows that lack one of the three times go.
pub fn window(
    alloc: Global,
    tables: Tables,
    every: Span,
    period: Span,
    place: Place,
) -> Result<Tables, Halt>
    requires { ◌≢◌ {A = End (AnyList AnyTable)} (windowed place every period tables) Stuck }
    ensures { Told (windowed place every period tables) result }
{
    if !is_window_pair(every, period) {
        return Err(Halt::Fault(Fault {
            kind: FaultKind::BadWindow,
            place,
        }));
    }
    Ok(in_windows(alloc, tables, every, period)?)
}
