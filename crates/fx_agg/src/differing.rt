ghost use Rattle.std.specs.Prelude.{◌≡◌, ◌||◌, not, [], ◌∷◌, map, codes, IfOk, OnOk, if◌then◌else◌};
ghost use Rattle.std.specs.BTreeSet.{contains};
ghost use Rattle.std.specs.FinMap as fin;
ghost use Rattle.std.specs.List.{flat_map};
ghost use Rattle.std.specs.Ordering.{eq_by_cmp};
ghost use Rattle.fx_data.specs.Gathered.{grouped};
ghost use Rattle.fx_data.specs.Regrouped.{alone};
ghost use Rattle.fx_data.specs.Table.{HasRisingLabels};
ghost use Rattle.fx_group.specs.Turned.{with_rows};
ghost use Rattle.fx_value.specs.Scalar.{scalar_cmp};
ghost use Rattle.fx_value.specs.declared.scalar.Scalar.{Scalar as AnyScalar};
ghost use Rattle.fx_agg.specs.Distinct.{or_null, values, differing, distinct_rows, distinguished};
ghost use Rattle.fx_agg.specs.Mould.{from_mould};

use crate::one_row::Mould;
use fx_base::{List, Memory, Text};
use fx_data::{Runs, Table, Tables};
use fx_value::{Row, Scalar};
use std::alloc::Global;
use std::collections::BTreeSet;

/// The row's value in the column, or null where it has none.
fn value_at(column: &Text, row: Row) -> Result<Scalar, Memory>
    ensures { IfOk result (λ v. v ≡ or_null (fin.get row column.now)) }
{
    match row.get(column) {
        Some(value) => value.copy(),
        None => Ok(Scalar::Null),
    }
}

/// Puts the value among those that were seen, and says whether it is new.
fn is_new(seen: &mut BTreeSet<Scalar>, value: &Scalar) -> Result<bool, Memory>
    ensures new { IfOk result (λ new. new ≡ not (contains scalar_cmp seen.old value.now)) }
    ensures seen { OnOk result ((w : AnyScalar) → contains scalar_cmp seen.new w ≡ (eq_by_cmp scalar_cmp value.now w || contains scalar_cmp seen.old w)) }
{
    Ok(seen.insert(value.copy()?)?)
}

/// Puts the row of a new value behind the runs.
fn push_if(
    alloc: Global,
    runs: Runs,
    mould: &Mould,
    value: Scalar,
    new: bool,
) -> Result<Runs, Memory>
    requires { HasRisingLabels mould.now.key }
    ensures { IfOk result (λ r. r ≡ with_rows runs (map (from_mould mould.now) (if new then value ∷ [] else []))) }
{
    if !new {
        return Ok(runs);
    }
    mould.push(alloc, runs, value)
}

/// Puts a row for each differing value of the rows behind the runs. `shown` is the name of the
/// column that they have.
fn push_differing(
    alloc: Global,
    mut runs: Runs,
    column: &Text,
    shown: &Text,
    table: Table,
) -> Result<Runs, Memory>
    requires rising { HasRisingLabels table.key }
    requires shown { shown.now ≡ codes "_value" }
    ensures { IfOk result (λ r. r ≡ with_rows runs (distinct_rows column.now table)) }
{
    let Table { key, rows } = table;
    let mould = Mould::of(alloc, &key, shown)?;
    let mut seen = BTreeSet::new(alloc);
    for row in rows.into_vec() {
        let value = value_at(column, row)?;
        let new = is_new(&mut seen, &value)?;
        runs = push_if(alloc, runs, &mould, value, new)?;
    }
    Ok(runs)
}

/// The rows of the differing values of all tables, in runs.
fn runs_differing(alloc: Global, column: &Text, tables: Tables) -> Result<Runs, Memory>
    ensures { IfOk result (λ r. r ≡ grouped (map alone (flat_map (distinct_rows column.now) tables))) }
{
    let shown = Text::of(alloc, "_value")?;
    let mut runs = Runs::empty(alloc);
    for table in tables.into_list().into_vec() {
        runs = push_differing(alloc, runs, column, &shown, table)?;
    }
    Ok(runs)
}

/// An aggregate row for each differing value of the column in each table, under `_value`, in the
/// order in which the values first appear.
pub fn distinct(alloc: Global, tables: Tables, column: &Text) -> Result<Tables, Memory>
    ensures { IfOk result (λ t. t ≡ distinguished column.now tables) }
{
    let runs = runs_differing(alloc, column, tables)?;
    runs.into_tables(alloc)
}
