ghost use Rattle.std.specs.Prelude.{◌≡◌, map, IfOk};
ghost use Rattle.std.specs.List.{AllByRecursion};
ghost use Rattle.fx_data.specs.Gathered.{grouped};
ghost use Rattle.fx_data.specs.Regrouped.{all_joined, alone, bare, regrouped, regrouped_with};
ghost use Rattle.fx_data.specs.Table.{HasRisingLabels};

use crate::key::Key;
use crate::keyed_row::KeyedRow;
use crate::runs::Runs;
use crate::table::Table;
use crate::tables::Tables;
use fx_base::{List, Memory};
use std::alloc::Global;

fn runs_of(alloc: Global, rows: List<KeyedRow>) -> Result<Runs, Memory>
    requires { AllByRecursion (λ r. HasRisingLabels r.key) rows }
    ensures { IfOk result (λ runs. runs ≡ grouped (map alone rows)) }
{
    let mut runs = Runs::empty(alloc);
    for keyed in rows.into_vec() {
        let KeyedRow { key, row } = keyed;
        runs = runs.push(alloc, &key, row)?;
    }
    Ok(runs)
}

/// The runs with a table without rows for each of the keys.
fn with_empties(alloc: Global, mut runs: Runs, empties: List<Key>) -> Result<Runs, Memory>
    requires { AllByRecursion HasRisingLabels empties }
    ensures { IfOk result (λ r. r ≡ all_joined runs (map bare empties)) }
{
    for key in empties.into_vec() {
        runs = runs.push_table(Table {
            key,
            rows: List::empty(alloc),
        })?;
    }
    Ok(runs)
}

/// The rows under the keys of their own values: those with one new key form a table, in their
/// order, and the tables stand in the order of their keys.
pub fn regroup(alloc: Global, rows: List<KeyedRow>) -> Result<Tables, Memory>
    requires { AllByRecursion (λ r. HasRisingLabels r.key) rows }
    ensures { IfOk result (λ t. t ≡ regrouped rows) }
{
    let runs = runs_of(alloc, rows)?;
    runs.into_tables(alloc)
}

/// The rows regrouped, with a table without rows for each of the keys that no row has.
pub fn gather(alloc: Global, rows: List<KeyedRow>, empties: List<Key>) -> Result<Tables, Memory>
    requires rows { AllByRecursion (λ r. HasRisingLabels r.key) rows }
    requires empties { AllByRecursion HasRisingLabels empties }
    ensures { IfOk result (λ t. t ≡ regrouped_with rows empties) }
{
    let runs = runs_of(alloc, rows)?;
    let all = with_empties(alloc, runs, empties)?;
    all.into_tables(alloc)
}
