ghost use Rattle.std.specs.Prelude.{◌≡◌, ◌<ℤ◌, ◌-ℤ◌, pos, ℕ, ◌<◌, ◌≤◌, ◌∷◌, [], ◌++◌, length, IfOk, OnOk, List, map, filter, Some};
ghost use Rattle.std.specs.List.{slice_get};
ghost use Rattle.std.specs.FinMap as columns;
ghost use Rattle.fx_value.specs.declared.scalar.Scalar.TheVariants as scalar;
ghost use Rattle.fx_value.specs.Row.{row_of};
ghost use Rattle.fx_line.specs.Stored.{Series};
ghost use Rattle.fx_series.specs.Read.{pairs};
ghost use Rattle.fx_top.specs.Labels.{AreLabels};
ghost use Rattle.fx_top.specs.Run.{columns_of, named, with_tags, is_within, table_of, tables_of, has_rows};

use crate::labels::{Labels, own_labels};
use crate::query::Query;
use fx_base::{List, Memory, Steps, Text};
use fx_data::{Table, Tables, collect, shared_key};
use fx_line::{SeriesKey, Tag};
use fx_series::{Store, TimeValue};
use fx_value::{Head, Kind, Row, Scalar, Shape, Source};
use std::alloc::Global;
use std::sync::ledger::Ledger;

/// The tables that a query yields over a store.
pub fn query_tables<L: Ledger>(
    alloc: Global,
    store: &Store,
    query: &Query,
    steps: &mut Steps<L>,
) -> Result<Tables, Memory>
    ensures { IfOk result (λ t. t ≡ tables_of query.now store.now.series) }
{
    let labels = own_labels(alloc)?;
    let numbers = store.series(alloc, &query.bucket, Kind::Int)?;
    let mut tables = List::empty(alloc);
    for number in numbers.as_slice() {
        let table = series_table(alloc, store, *number, query, &labels, steps)?;
        push_with_rows(&mut tables, table)?;
    }
    collect(alloc, tables)
}

/// Adds a table that has rows.
fn push_with_rows(tables: &mut List<Table>, table: Table) -> Result<(), Memory>
    ensures { OnOk result (tables.new ≡ tables.old ++ filter has_rows (table ∷ [])) }
{
    if table.rows.as_slice().is_empty() {
        return Ok(());
    }
    tables.push(table)
}

/// The table of a series.
fn series_table<L: Ledger>(
    alloc: Global,
    store: &Store,
    number: u32,
    query: &Query,
    labels: &Labels,
    steps: &mut Steps<L>,
) -> Result<Table, Memory>
    requires labels { AreLabels labels.now }
    requires series { number < length store.now.series }
    ensures { (s : Series) → slice_get store.now.series number ≡ Some s → IfOk result (λ t. t ≡ table_of query.now s) }
{
    let values = read_range(alloc, store, number, query, steps)?;
    let key = store.series_key(number).unwrap();
    let head = series_head(alloc, key, query, labels)?;
    let key = shared_key(alloc, &head)?;
    let rows = rows_of(alloc, head, values)?;
    Ok(Table { key, rows })
}

/// The values of a series in the query's range.
fn read_range<L: Ledger>(
    alloc: Global,
    store: &Store,
    number: u32,
    query: &Query,
    steps: &mut Steps<L>,
) -> Result<List<TimeValue>, Memory>
    requires series { number < length store.now.series }
    ensures { (s : Series) → slice_get store.now.series number ≡ Some s → IfOk result (λ values. pairs values ≡ filter (is_within query.now.start query.now.stop) s.values) }
{
    if query.start >= query.stop {
        return Ok(List::empty(alloc));
    }
    let last = moment_before(query.start, query.stop);
    store.read(alloc, number, query.start, last, steps)
}

/// The last nanosecond before `stop`.
fn moment_before(start: i64, stop: i64) -> i64
    requires { start <ℤ stop }
    ensures { result ≡ stop -ℤ pos 1 }
{
    stop - 1
}

/// The columns of the rows of a series.
fn series_head(
    alloc: Global,
    key: &SeriesKey,
    query: &Query,
    labels: &Labels,
) -> Result<Head, Memory>
    requires labels { AreLabels labels.now }
    ensures { IfOk result (λ head. head ≡ columns_of query.now key.now) }
{
    named_head(alloc, key, query, labels)?
        .with(alloc, &labels.time, Source::First)?
        .with(alloc, &labels.value, Source::Second)
}

/// The columns with a value that all rows of a series share.
fn named_head(
    alloc: Global,
    key: &SeriesKey,
    query: &Query,
    labels: &Labels,
) -> Result<Head, Memory>
    requires labels { AreLabels labels.now }
    ensures { IfOk result (λ head. head ≡ named query.now key.now) }
{
    let field = Scalar::Text(key.field.copy()?);
    let measurement = Scalar::Text(key.measurement.copy()?);
    tags_head(alloc, key.tags.as_slice())?
        .with(alloc, &labels.field, Source::Fixed(field))?
        .with(alloc, &labels.measurement, Source::Fixed(measurement))?
        .with(
            alloc,
            &labels.start,
            Source::Fixed(Scalar::Time(query.start)),
        )?
        .with(alloc, &labels.stop, Source::Fixed(Scalar::Time(query.stop)))
}

fn tags_head(alloc: Global, tags: &[Tag]) -> Result<Head, Memory>
    ensures { IfOk result (λ head. head ≡ with_tags columns.empty tags.now) }
{
    let mut head = Head::empty(alloc);
    for tag in tags {
        let value = Scalar::Text(tag.value.copy()?);
        head = head.with(alloc, &tag.key, Source::Fixed(value))?;
    }
    Ok(head)
}

/// A row for each value.
fn rows_of(alloc: Global, head: Head, values: List<TimeValue>) -> Result<List<Row>, Memory>
    ensures { IfOk result (λ rows. rows ≡ map (λ v. row_of head (scalar.Time v.0) v.1) (pairs values)) }
{
    let shape = Shape::of(alloc, head)?;
    let mut rows = Vec::with_capacity(alloc, values.as_slice().len())?;
    for point in values.into_vec() {
        rows.push(Row::of(&shape, Scalar::Time(point.time), point.value)?)?;
    }
    Ok(List::of(rows))
}
