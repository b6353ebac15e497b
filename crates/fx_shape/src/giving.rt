ghost use Rattle.std.specs.Prelude.{◌≡◌, [], ◌∷◌, map, option_map, IfOk, OnOk};
ghost use Rattle.std.specs.FinMap as fin;
ghost use Rattle.std.specs.List.{flat_map};
ghost use Rattle.fx_value.specs.declared.change.Change.TheVariants.{Set};
ghost use Rattle.fx_data.specs.Gathered.{grouped};
ghost use Rattle.fx_data.specs.Regrouped.{alone};
ghost use Rattle.fx_data.specs.Table.{IsLawfulTable};
ghost use Rattle.fx_group.specs.Turned.{with_rows};
ghost use Rattle.fx_shape.specs.Changed.{rows_after};
ghost use Rattle.fx_shape.specs.Columns.{column_filled, column_set, is_missing};
ghost use Rattle.fx_shape.specs.Content.{given};

use crate::run::push_moved;
use fx_base::{List, Memory, Text};
use fx_data::{Runs, Table, Tables};
use fx_value::{Change, Row, Scalar, change_rows};
use std::alloc::Global;

/// What rows get in a column.
#[derive(Drop)]
enum Content {
    /// This value.
    Value { value: Scalar },
    /// This value, where the column is null or isn't there.
    Default { value: Scalar },
}

fn is_missing(value: Option<&Scalar>) -> bool
    ensures { result ≡ is_missing (option_map (λ v. v.now) value.entry) }
{
    match value {
        None => true,
        Some(Scalar::Null) => true,
        Some(_) => false,
    }
}

/// The change that gives the label the value.
fn setting(alloc: Global, label: &Text, value: &Scalar) -> Result<List<Change>, Memory>
    ensures { IfOk result (λ changes. changes ≡ Set label.now value.now ∷ []) }
{
    let mut changes = List::empty(alloc);
    changes.push(Change::Set {
        label: label.copy()?,
        value: value.copy()?,
    })?;
    Ok(changes)
}

fn rows_set(
    alloc: Global,
    rows: List<Row>,
    label: &Text,
    value: &Scalar,
) -> Result<List<Row>, Memory>
    ensures { IfOk result (λ rs. rs ≡ map (given (Content.Value value.now) label.now) rows) }
{
    let changes = setting(alloc, label, value)?;
    change_rows(alloc, rows, changes.as_slice())
}

/// Gives the label the value where it is null or isn't there.
fn fill_row(alloc: Global, row: &mut Row, label: &Text, value: &Scalar) -> Result<(), Memory>
    ensures { OnOk result (row.new ≡ given (Content.Default value.now) label.now row.old) }
{
    if !is_missing(row.get(label)) {
        return Ok(());
    }
    row.set(alloc, label.copy()?, value.copy()?)
}

/// The rows in which the label has the value where it was null or not there.
fn rows_filled(
    alloc: Global,
    rows: List<Row>,
    label: &Text,
    value: &Scalar,
) -> Result<List<Row>, Memory>
    ensures { IfOk result (λ rs. rs ≡ map (given (Content.Default value.now) label.now) rows) }
{
    let mut rows = rows.into_vec();
    for row in rows.iter_mut() {
        fill_row(alloc, row, label, value)?;
    }
    Ok(List::of(rows))
}

fn rows_given(
    alloc: Global,
    rows: List<Row>,
    label: &Text,
    content: &Content,
) -> Result<List<Row>, Memory>
    ensures { IfOk result (λ rs. rs ≡ map (given content.now label.now) rows) }
{
    match content {
        Content::Value { value } => rows_set(alloc, rows, label, value),
        Content::Default { value } => rows_filled(alloc, rows, label, value),
    }
}

/// Puts the rows of the table with their content behind the runs.
fn push_given(
    alloc: Global,
    runs: Runs,
    label: &Text,
    content: &Content,
    table: Table,
) -> Result<Runs, Memory>
    requires { IsLawfulTable table }
    ensures { IfOk result (λ r. r ≡ with_rows runs (rows_after (λ key. key) (given content.now label.now) table)) }
{
    let Table { key, rows } = table;
    let rows = rows_given(alloc, rows, label, content)?;
    push_moved(alloc, runs, &key, true, rows)
}

/// The rows of all tables with their content, in runs.
fn runs_given(
    alloc: Global,
    label: &Text,
    content: &Content,
    tables: Tables,
) -> Result<Runs, Memory>
    ensures { IfOk result (λ r. r ≡ grouped (map alone (flat_map (rows_after (λ key. key) (given content.now label.now)) tables))) }
{
    let mut runs = Runs::empty(alloc);
    for table in tables.into_list().into_vec() {
        runs = push_given(alloc, runs, label, content, table)?;
    }
    Ok(runs)
}

/// The tables in which the column has the value in each row. Tables without rows are dropped.
pub fn set(alloc: Global, tables: Tables, key: &Text, value: &Scalar) -> Result<Tables, Memory>
    ensures { IfOk result (λ t. t ≡ column_set key.now value.now tables) }
{
    let value = value.copy()?;
    let content = Content::Value { value };
    let runs = runs_given(alloc, key, &content, tables)?;
    runs.into_tables(alloc)
}

/// The tables in which the column has the value where it was null or not there. Tables without rows
/// are dropped.
pub fn fill(alloc: Global, tables: Tables, column: &Text, value: &Scalar) -> Result<Tables, Memory>
    ensures { IfOk result (λ t. t ≡ column_filled column.now value.now tables) }
{
    let value = value.copy()?;
    let content = Content::Default { value };
    let runs = runs_given(alloc, column, &content, tables)?;
    runs.into_tables(alloc)
}
