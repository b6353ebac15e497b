ghost use Rattle.std.specs.Prelude.{◌≡◌, ◌≢◌, ℤ, [], ◌∷◌, ◌++◌, List as AnyList, map, codes, IfOk, OnOk};
ghost use Rattle.std.specs.Option.{option_map};
ghost use Rattle.std.specs.List.{flat_map, AllByRecursion};
ghost use Rattle.fx_value.specs.Ends.{End, Gives, Stuck};
ghost use Rattle.fx_data.specs.Table.{HasRisingLabels, IsLawfulTable};
ghost use Rattle.fx_data.specs.declared.keyed_row.KeyedRow.{KeyedRow as AnyKeyedRow};
ghost use Rattle.fx_group.specs.Answer.{Row as AnyRow};
ghost use Rattle.fx_group.specs.RangeRows.{bounded_key};
ghost use Rattle.fx_window.specs.Plain.{AreLabels, stop_in, uncut_set, uncut_all};
ghost use Rattle.fx_window.specs.Uncut.{value_in, uncut_of};

use crate::cutting::CutTable;
use crate::standing::{Labels, engine_labels};
use crate::windowing::{bounded_key, set_time};
use fx_base::{List, Memory, Text};
use fx_data::{Key, KeyedRow, Table, Tables};
use fx_value::{Change, Row, Scalar, change_rows};
use std::alloc::Global;

/// The value under a label of the key.
fn value_in<'a>(key: &'a Key, label: &Text) -> Option<&'a Scalar>
    ensures { option_map (λ v. v.now) result ≡ value_in key.now label.now }
{
    for entry in key.entries.as_slice() {
        if label.cmp(&entry.label).is_eq() {
            return Some(&entry.value);
        }
    }
    None
}

/// The time under `_stop` of the key, or 0 where there is none.
fn stop_in(labels: &Labels, key: &Key) -> i64
    requires { AreLabels labels.now }
    ensures { result ≡ stop_in key.now }
{
    match value_in(key, &labels.stop) {
        Some(Scalar::Time(time)) => *time,
        _ => 0,
    }
}

/// What sets the time and the two bounds in a row.
fn all_set(
    alloc: Global,
    labels: &Labels,
    time: i64,
    start: i64,
    stop: i64,
) -> Result<Vec<Change>, Memory>
    ensures { IfOk result (λ v. v.items ≡ Change.Set labels.now.time (Scalar.Time time) ∷ Change.Set labels.now.start (Scalar.Time start) ∷ Change.Set labels.now.stop (Scalar.Time stop) ∷ []) }
{
    let mut changes = Vec::with_capacity(alloc, 3)?;
    changes.push(set_time(&labels.time, time)?)?;
    changes.push(set_time(&labels.start, start)?)?;
    changes.push(set_time(&labels.stop, stop)?)?;
    Ok(changes)
}

/// The rows with the time and the two bounds as columns.
fn set_rows(
    alloc: Global,
    labels: &Labels,
    rows: List<Row>,
    time: i64,
    start: i64,
    stop: i64,
) -> Result<List<Row>, Memory>
    requires { AreLabels labels.now }
    ensures { IfOk result (λ rs. rs ≡ map (uncut_set start stop time) rows) }
{
    let changes = all_set(alloc, labels, time, start, stop)?;
    change_rows(alloc, rows, changes.as_slice())
}

fn push_keyed(
    alloc: Global,
    all: &mut Vec<KeyedRow>,
    key: &Key,
    rows: List<Row>,
) -> Result<(), Memory>
    ensures { OnOk result (all.new.items ≡ all.old.items ++ map (λ row. record { key = key.now; row = row }) rows) }
{
    for row in rows.into_vec() {
        all.push(KeyedRow {
            key: key.copy(alloc)?,
            row,
        })?;
    }
    Ok(())
}

/// Puts the rows of a window behind the others, at its stop, with the bounds of the whole.
fn push_uncut(
    alloc: Global,
    all: &mut Vec<KeyedRow>,
    labels: &Labels,
    start: i64,
    stop: i64,
    window: Table,
) -> Result<(), Memory>
    requires { AreLabels labels.now }
    ensures { OnOk result (all.new.items ≡ all.old.items ++ uncut_all start stop window) }
{
    let Table { key, rows } = window;
    let time = stop_in(labels, &key);
    let rows = set_rows(alloc, labels, rows, time, start, stop)?;
    let key = bounded_key(alloc, labels, &key, start, stop)?;
    push_keyed(alloc, all, &key, rows)
}

/// The rows of the windows, one window behind the other.
fn rows_of(
    alloc: Global,
    labels: &Labels,
    start: i64,
    stop: i64,
    windows: Tables,
) -> Result<List<KeyedRow>, Memory>
    requires { AreLabels labels.now }
    ensures rows { IfOk result (λ rows. rows ≡ flat_map (uncut_all start stop) windows) }
    ensures lawful { AllByRecursion IsLawfulTable windows }
{
    let mut rows = Vec::new(alloc);
    for window in windows.into_list().into_vec() {
        push_uncut(alloc, &mut rows, labels, start, stop, window)?;
    }
    Ok(List::of(rows))
}

/// The rows of all windows, in the order of the windows. Each has its window's stop, which is under
/// `_stop` in the key of the window, as `_time`, and the bounds of the whole as `_start` and
/// `_stop`, in the row and in the key.
pub fn uncut(alloc: Global, parts: CutTable) -> Result<List<KeyedRow>, Memory>
    requires { ◌≢◌ {A = End (AnyList AnyKeyedRow)} (uncut_of parts) Stuck }
    ensures rows { IfOk result (λ rows. uncut_of parts ≡ Gives rows 0) }
    ensures rising { IfOk result (λ rows. AllByRecursion (λ r. HasRisingLabels r.key) rows) }
{
    let labels = engine_labels(alloc)?;
    rows_of(alloc, &labels, parts.start, parts.stop, parts.windows)
}
