ghost use Rattle.std.specs.Prelude.{◌≡◌, [], ◌∷◌, ◌++◌, map, option_map, IfOk, IsTrue, OnOk, if◌then◌else◌};
ghost use Rattle.std.specs.FinMap as fin;
ghost use Rattle.std.specs.Ordering.{ordering_reverse};
ghost use Rattle.fx_value.specs.Scalar.{scalar_cmp};
ghost use Rattle.fx_data.specs.Table.{AreLawful};
ghost use Rattle.fx_shape.specs.Ranked.{ranked, ranked_cmp};
ghost use Rattle.fx_shape.specs.Sort.{directed_cmp, in_order, or_null, rows_cmp, rows_sorted, table_sorted};

use fx_base::{List, Memory, Text};
use fx_data::{Table, Tables};
use fx_value::{Row, Scalar, scalar_order};
use std::alloc::Global;
use std::cmp::Ordering;

/// A row with its value in the first column of the order, so that a comparison mostly looks up none.
#[derive(Drop)]
struct Ranked {
    first: Scalar,
    row: Row,
}

fn value_at(column: &Text, row: &Row) -> Result<Scalar, Memory>
    ensures { IfOk result (λ v. v ≡ or_null (fin.get row.now column.now)) }
{
    match row.get(column) {
        Some(value) => value.copy(),
        None => Ok(Scalar::Null),
    }
}

fn value_order(a: Option<&Scalar>, b: Option<&Scalar>) -> Ordering
    ensures { result ≡ scalar_cmp (or_null (option_map (λ v. v.now) a.entry)) (or_null (option_map (λ v. v.now) b.entry)) }
{
    match (a, b) {
        (Some(a), Some(b)) => scalar_order(a, b),
        (Some(a), None) => scalar_order(a, &Scalar::Null),
        (None, Some(b)) => scalar_order(&Scalar::Null, b),
        (None, None) => Ordering::Equal,
    }
}

/// The order of the rows by the columns, one after another.
fn rows_order(columns: &[Text], a: &Row, b: &Row) -> Ordering
    ensures { result ≡ rows_cmp columns.now a.now b.now }
{
    for column in columns {
        let order = value_order(a.get(column), b.get(column));
        if order != Ordering::Equal {
            return order;
        }
    }
    Ordering::Equal
}

fn directed(desc: bool, order: Ordering) -> Ordering
    ensures { result ≡ (if desc then ordering_reverse order else order) }
{
    if desc { order.reverse() } else { order }
}

fn directed_order(desc: bool, columns: &[Text], a: &Row, b: &Row) -> Ordering
    ensures { result ≡ directed_cmp desc columns.now a.now b.now }
{
    directed(desc, rows_order(columns, a, b))
}

fn ranked_order(desc: bool, others: &[Text], a: &Ranked, b: &Ranked) -> Ordering
    ensures { result ≡ ranked_cmp desc others.now a.now b.now }
{
    let order = scalar_order(&a.first, &b.first).then_with(|| rows_order(others, &a.row, &b.row));
    directed(desc, order)
}

/// Whether no row stands behind a greater one.
fn are_in_order(desc: bool, columns: &[Text], rows: &[Row]) -> bool
    ensures { IsTrue result → rows.now ≡ in_order (directed_cmp desc columns.now) rows.now }
{
    for i in 1..rows.len() {
        if directed_order(desc, columns, &rows[i], &rows[i - 1]).is_lt() {
            return false;
        }
    }
    true
}

fn push_ranked(items: &mut Vec<Ranked>, column: &Text, row: Row) -> Result<(), Memory>
    ensures { OnOk result (items.new.items ≡ items.old.items ++ ranked column.now row ∷ []) }
{
    let first = value_at(column, &row)?;
    items.push(Ranked { first, row })?;
    Ok(())
}

/// The rows with their values in the column.
fn ranked_rows(alloc: Global, column: &Text, rows: List<Row>) -> Result<Vec<Ranked>, Memory>
    ensures { IfOk result (λ rs. rs.items ≡ map (ranked column.now) rows) }
{
    let rows = rows.into_vec();
    let mut items = Vec::with_capacity(alloc, rows.len())?;
    for row in rows {
        push_ranked(&mut items, column, row)?;
    }
    Ok(items)
}

fn push_row(rows: &mut Vec<Row>, item: Ranked) -> Result<(), Memory>
    ensures { OnOk result (rows.new.items ≡ rows.old.items ++ item.row ∷ []) }
{
    let Ranked { first: _, row } = item;
    rows.push(row)?;
    Ok(())
}

fn rows_of(alloc: Global, items: Vec<Ranked>) -> Result<List<Row>, Memory>
    ensures { IfOk result (λ rows. rows ≡ map (λ r. r.row) items.items) }
{
    let mut rows = Vec::with_capacity(alloc, items.len())?;
    for item in items {
        push_row(&mut rows, item)?;
    }
    Ok(List::of(rows))
}

/// The rows in the order of a column and of others. A row's value in the column is looked up once.
fn sorted_by(
    alloc: Global,
    rows: List<Row>,
    column: &Text,
    others: &[Text],
    desc: bool,
) -> Result<List<Row>, Memory>
    ensures { IfOk result (λ rs. rs ≡ in_order (directed_cmp desc (column.now ∷ others.now)) rows) }
{
    let mut items = ranked_rows(alloc, column, rows)?;
    items.sort_by(|a, b| ranked_order(desc, others, a, b))?;
    rows_of(alloc, items)
}

fn sorted(alloc: Global, rows: List<Row>, columns: &[Text], desc: bool) -> Result<List<Row>, Memory>
    ensures { IfOk result (λ rs. rs ≡ in_order (directed_cmp desc columns.now) rows) }
{
    if are_in_order(desc, columns, rows.as_slice()) {
        return Ok(rows);
    }
    match columns {
        [] => Ok(rows),
        [column, others @ ..] => sorted_by(alloc, rows, column, others, desc),
    }
}

fn push_sorted(
    alloc: Global,
    tables: &mut Vec<Table>,
    table: Table,
    columns: &[Text],
    desc: bool,
) -> Result<(), Memory>
    ensures { OnOk result (tables.new.items ≡ tables.old.items ++ table_sorted columns.now desc table ∷ []) }
{
    let Table { key, rows } = table;
    let rows = sorted(alloc, rows, columns, desc)?;
    tables.push(Table { key, rows })?;
    Ok(())
}

fn tables_sorted(
    alloc: Global,
    tables: Tables,
    columns: &[Text],
    desc: bool,
) -> Result<List<Table>, Memory>
    ensures value { IfOk result (λ ts. ts ≡ map (table_sorted columns.now desc) tables) }
    ensures lawful { IfOk result AreLawful }
{
    let tables = tables.into_list().into_vec();
    let mut made = Vec::with_capacity(alloc, tables.len())?;
    for table in tables {
        push_sorted(alloc, &mut made, table, columns, desc)?;
    }
    Ok(List::of(made))
}

/// The rows of each table in the order of the columns, one column after another; null comes first,
/// and a column that isn't there counts as null. With `desc` the comparison is reversed. Rows that
/// are equal stay in their order, and rows that are in order are only read.
#[tactic(auto, unfolding(crate::specs::Sort::rows_sorted))]
pub fn sort_rows(
    alloc: Global,
    tables: Tables,
    columns: &List<Text>,
    desc: bool,
) -> Result<Tables, Memory>
    ensures { IfOk result (λ t. t ≡ rows_sorted columns.now desc tables) }
{
    let made = tables_sorted(alloc, tables, columns.as_slice(), desc)?;
    Ok(Tables::of(made))
}
