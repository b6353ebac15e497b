ghost use Rattle.std.specs.Prelude.{◌≡◌, IfOk};
ghost use Rattle.std.specs.Bool.{OnTrue};
ghost use Rattle.fx_data.specs.Table.{HasRisingLabels};
ghost use Rattle.fx_group.specs.Turned.{with_rows};
ghost use Rattle.fx_shape.specs.Run.{has_label, keyed, HaveOneKey};

use fx_base::{List, Memory, Text};
use fx_data::{Key, Runs, Table, new_key};
use fx_value::Row;
use std::alloc::Global;

/// Whether the label is one of the key's.
pub(crate) fn has_label(key: &Key, label: &Text) -> bool
    ensures { result ≡ has_label key.now label.now }
{
    key.entries
        .as_slice()
        .iter()
        .any(|entry| entry.label == *label)
}

/// Puts rows that have one new key behind the runs, as one table. No row but the first is looked at.
fn push_whole(alloc: Global, runs: Runs, key: &Key, rows: List<Row>) -> Result<Runs, Memory>
    requires rising { HasRisingLabels key.now }
    requires one { HaveOneKey key.now rows }
    ensures { IfOk result (λ r. r ≡ with_rows runs (keyed key.now rows)) }
{
    match rows.as_slice().first() {
        None => Ok(runs),
        Some(first) => {
            let key = new_key(alloc, key, first)?;
            runs.push_table(Table { key, rows })
        }
    }
}

/// Puts the rows behind the runs, each under its new key.
fn push_each(alloc: Global, mut runs: Runs, key: &Key, rows: List<Row>) -> Result<Runs, Memory>
    requires { HasRisingLabels key.now }
    ensures { IfOk result (λ r. r ≡ with_rows runs (keyed key.now rows)) }
{
    for row in rows.into_vec() {
        runs = runs.push(alloc, key, row)?;
    }
    Ok(runs)
}

/// Puts the rows behind the runs. `one` tells that they have one new key.
pub(crate) fn push_moved(
    alloc: Global,
    runs: Runs,
    key: &Key,
    one: bool,
    rows: List<Row>,
) -> Result<Runs, Memory>
    requires rising { HasRisingLabels key.now }
    requires one { OnTrue one (HaveOneKey key.now rows) }
    ensures { IfOk result (λ r. r ≡ with_rows runs (keyed key.now rows)) }
{
    if one {
        push_whole(alloc, runs, key, rows)
    } else {
        push_each(alloc, runs, key, rows)
    }
}
