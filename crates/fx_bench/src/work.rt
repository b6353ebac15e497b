ghost use Rattle.std.specs.Prelude.{◌≡◌, codes, IfOk};
ghost use Rattle.std.specs.FinMap.{get};
ghost use Rattle.std.specs.List.{list_all};
ghost use Rattle.fx_bench.specs.Named.{is_named, has_named_rows};
ghost use Rattle.fx_bench.specs.Timed.{may_be_time, is_timed, has_timed_rows, have_times};
ghost use Rattle.fx_bench.specs.Counted.{is_counted, has_counted_rows};

use crate::funs::{AllRows, FirstRow, NoRows, SetLabel};
use crate::rows::{bounded_tables, made_tables, mixed_table, one_label};
use fx_agg::{Agg, aggregate, distinct, reduce};
use fx_base::{Halt, List, Memory, MemoryPatterns, Meter, Place, Text};
use fx_data::{Table, Tables};
use fx_group::{filter, group_by, group_except, map, range, union};
use fx_join::{Side, join_nested};
use fx_pivot::pivot;
use fx_shape::{difference, drop_columns, duplicate, fill, keep, rename, set, sort_rows};
use fx_time::Span;
use fx_value::{Row, Scalar};
use fx_window::{cut, window};
use std::alloc::Global;

/// What can be measured.
#[derive(Clone, Copy)]
pub enum Work {
    Make,
    Range,
    Filter,
    Map(&'static str),
    GroupBy(&'static str),
    GroupExcept,
    Union,
    Count,
    Sum,
    Min,
    Last,
    Distinct(&'static str),
    Reduce,
    Window,
    Cut,
    Join,
    Pivot,
    Keep,
    Drop,
    Rename,
    Duplicate,
    Set,
    Fill,
    Sort,
    SortSorted,
    Difference,
}

/// The work of this name, or None where there is none. Nothing rests on which word is which, so no
/// clause repeats the table.
pub fn work_of(word: &str) -> Option<Work> {
    match word {
        "make" => Some(Work::Make),
        "range" => Some(Work::Range),
        "filter" => Some(Work::Filter),
        "map" => Some(Work::Map("_value")),
        "map-new" => Some(Work::Map("fresh")),
        "group" => Some(Work::GroupBy("zone")),
        "group-time" => Some(Work::GroupBy("_time")),
        "except" => Some(Work::GroupExcept),
        "union" => Some(Work::Union),
        "count" => Some(Work::Count),
        "sum" => Some(Work::Sum),
        "min" => Some(Work::Min),
        "last" => Some(Work::Last),
        "distinct" => Some(Work::Distinct("host")),
        "distinct-all" => Some(Work::Distinct("_value")),
        "reduce" => Some(Work::Reduce),
        "window" => Some(Work::Window),
        "cut" => Some(Work::Cut),
        "join" => Some(Work::Join),
        "pivot" => Some(Work::Pivot),
        _ => shaping(word),
    }
}

/// The work on columns and rows of this name.
fn shaping(word: &str) -> Option<Work> {
    match word {
        "keep" => Some(Work::Keep),
        "drop" => Some(Work::Drop),
        "rename" => Some(Work::Rename),
        "duplicate" => Some(Work::Duplicate),
        "set" => Some(Work::Set),
        "fill" => Some(Work::Fill),
        "sort" => Some(Work::Sort),
        "sort-sorted" => Some(Work::SortSorted),
        "difference" => Some(Work::Difference),
        _ => None,
    }
}

impl Work {
    /// What the work takes: a million rows in 1,000 tables, or as many in eleven streams of so many
    /// tables each, or in one table. `window` takes 100,000, each of which goes to ten windows, and
    /// `join` two tables of 1,000. Nothing is promised of rows that are only measured.
    pub fn streams(self, alloc: Global) -> Result<List<Tables>, Memory> {
        let mut streams = List::empty(alloc);
        match self {
            Work::Union => {
                for _ in 0..11 {
                    streams.push(made_tables(alloc, 1000, 91)?)?;
                }
            }
            Work::Window => streams.push(bounded_tables(alloc, 100, 1000)?)?,
            Work::Cut => streams.push(bounded_tables(alloc, 1, 1_000_000)?)?,
            Work::Join => {
                streams.push(made_tables(alloc, 1, 1000)?)?;
                streams.push(made_tables(alloc, 1, 1000)?)?;
            }
            Work::Sort => streams.push(mixed_table(alloc, 1_000_000)?)?,
            Work::SortSorted => streams.push(made_tables(alloc, 1, 1_000_000)?)?,
            _ => streams.push(made_tables(alloc, 1000, 1000)?)?,
        }
        Ok(streams)
    }

    /// What the operator makes of them. What it is stands in the operator's own contract; here only
    /// its time is of use, so nothing is promised.
    pub fn run(self, alloc: Global, streams: List<Tables>) -> Result<Tables, Halt> {
        if let Work::Union = self {
            return Ok(union(alloc, streams)?);
        }
        let mut streams = streams.into_vec();
        match (streams.pop(), streams.pop()) {
            (Some(right), Some(left)) => joined(alloc, left, right),
            (Some(tables), None) => self.over(alloc, tables),
            (None, _) => Ok(Tables::empty(alloc)),
        }
    }

    fn over(self, alloc: Global, tables: Tables) -> Result<Tables, Halt> {
        match self {
            Work::Range => Ok(ranged(alloc, tables)?),
            Work::Filter => filtered(alloc, tables),
            Work::Map(label) => mapped(alloc, tables, label),
            Work::GroupBy(label) => Ok(group_by(alloc, tables, &one_label(alloc, label)?)?),
            Work::GroupExcept => Ok(group_except(alloc, tables, &one_label(alloc, "_value")?)?),
            Work::Count => counted(alloc, tables),
            Work::Sum => summed(alloc, tables),
            Work::Min => least(alloc, tables),
            Work::Last => last(alloc, tables),
            Work::Distinct(label) => Ok(distinct(alloc, tables, &Text::of(alloc, label)?)?),
            Work::Reduce => reduced(alloc, tables),
            Work::Window => windowed(alloc, tables),
            Work::Cut => Ok(cut_up(alloc, tables)?),
            Work::Pivot => pivoted(alloc, tables),
            Work::Difference => differences(alloc, tables),
            _ => Ok(self.shaped(alloc, tables)?),
        }
    }

    fn shaped(self, alloc: Global, tables: Tables) -> Result<Tables, Memory> {
        let value = Text::of(alloc, "_value")?;
        let fresh = Text::of(alloc, "fresh")?;
        match self {
            Work::Keep => keep(alloc, tables, &one_label(alloc, "_value")?),
            Work::Drop => drop_columns(alloc, tables, &one_label(alloc, "zone")?),
            Work::Rename => rename(
                alloc,
                tables,
                &one_label(alloc, "_value")?,
                &one_label(alloc, "fresh")?,
            ),
            Work::Duplicate => duplicate(alloc, tables, &value, &fresh),
            Work::Set => set(alloc, tables, &fresh, &Scalar::Int(7)),
            Work::Fill => fill(alloc, tables, &value, &Scalar::Int(7)),
            Work::Sort | Work::SortSorted => {
                sort_rows(alloc, tables, &one_label(alloc, "_value")?, false)
            }
            _ => Ok(tables),
        }
    }
}

fn is_timed(label: &Text, row: &Row) -> bool
    ensures { result ≡ is_timed label.now row.now }
{
    match row.get(label) {
        None | Some(Scalar::Null | Scalar::Time(_)) => true,
        Some(Scalar::Bool(_) | Scalar::Int(_) | Scalar::Text(_)) => false,
    }
}

fn has_timed_rows(label: &Text, table: &Table) -> bool
    ensures { result ≡ has_timed_rows label.now table.now }
{
    table.rows.as_slice().iter().all(|row| is_timed(label, row))
}

fn have_timed_rows(label: &Text, tables: &[Table]) -> bool
    ensures { result ≡ list_all (has_timed_rows label.now) tables.now }
{
    tables.iter().all(|table| has_timed_rows(label, table))
}

/// Nine of ten rows, where each has a time; the test is a part of what is measured.
fn ranged(alloc: Global, tables: Tables) -> Result<Tables, Memory> {
    if have_timed_rows(&Text::of(alloc, "_time")?, tables.as_slice()) {
        return range(alloc, tables, 0, 900);
    }
    Ok(tables)
}

fn filtered(alloc: Global, tables: Tables) -> Result<Tables, Halt> {
    let mut meter = Meter {
        budget: 0,
        spent: 0,
    };
    let mut patterns = MemoryPatterns::none(alloc, List::empty(alloc));
    filter(alloc, tables, &AllRows, &mut meter, &mut patterns)
}

fn mapped(alloc: Global, tables: Tables, label: &str) -> Result<Tables, Halt> {
    let mut meter = Meter {
        budget: 0,
        spent: 0,
    };
    let mut patterns = MemoryPatterns::none(alloc, List::empty(alloc));
    let fun = SetLabel {
        label: Text::of(alloc, label)?,
        value: 7,
    };
    map(alloc, tables, &fun, &mut meter, &mut patterns)
}

fn is_counted(label: &Text, row: &Row) -> bool
    ensures { result ≡ is_counted label.now row.now }
{
    match row.get(label) {
        None | Some(Scalar::Null | Scalar::Int(_)) => true,
        Some(Scalar::Bool(_) | Scalar::Time(_) | Scalar::Text(_)) => false,
    }
}

fn has_counted_rows(label: &Text, table: &Table) -> bool
    ensures { result ≡ has_counted_rows label.now table.now }
{
    table
        .rows
        .as_slice()
        .iter()
        .all(|row| is_counted(label, row))
}

fn have_counted_rows(label: &Text, tables: &[Table]) -> bool
    ensures { result ≡ list_all (has_counted_rows label.now) tables.now }
{
    tables.iter().all(|table| has_counted_rows(label, table))
}

/// The sums, where each row has an integer; the test is a part of what is measured.
fn summed(alloc: Global, tables: Tables) -> Result<Tables, Halt> {
    let column = Text::of(alloc, "_value")?;
    if have_counted_rows(&column, tables.as_slice()) {
        return aggregate(alloc, tables, Agg::Sum, &column, Place { at: 0 });
    }
    Ok(tables)
}

fn counted(alloc: Global, tables: Tables) -> Result<Tables, Halt> {
    let column = Text::of(alloc, "_value")?;
    aggregate(alloc, tables, Agg::Count, &column, Place { at: 0 })
}

fn least(alloc: Global, tables: Tables) -> Result<Tables, Halt> {
    let column = Text::of(alloc, "_value")?;
    aggregate(alloc, tables, Agg::Min, &column, Place { at: 0 })
}

fn last(alloc: Global, tables: Tables) -> Result<Tables, Halt> {
    let column = Text::of(alloc, "_value")?;
    aggregate(alloc, tables, Agg::Last, &column, Place { at: 0 })
}

fn reduced(alloc: Global, tables: Tables) -> Result<Tables, Halt> {
    let mut meter = Meter {
        budget: 0,
        spent: 0,
    };
    let mut patterns = MemoryPatterns::none(alloc, List::empty(alloc));
    let identity = Row::empty(alloc)?;
    reduce(
        alloc,
        tables,
        &identity,
        &FirstRow,
        &mut meter,
        &mut patterns,
    )
}

/// The differences, where each row has an integer; the test is a part of what is measured.
fn differences(alloc: Global, tables: Tables) -> Result<Tables, Halt> {
    let column = Text::of(alloc, "_value")?;
    if have_counted_rows(&column, tables.as_slice()) {
        return difference(alloc, tables, &column, Place { at: 0 });
    }
    Ok(tables)
}

/// Whether each row has the three times of windows, or null or nothing there.
fn have_times(alloc: Global, tables: &[Table]) -> Result<bool, Memory>
    ensures { IfOk result (λ b. b ≡ have_times tables.now) }
{
    let time = Text::of(alloc, "_time")?;
    let start = Text::of(alloc, "_start")?;
    let stop = Text::of(alloc, "_stop")?;
    Ok(
        have_timed_rows(&time, tables)
            && have_timed_rows(&start, tables)
            && have_timed_rows(&stop, tables),
    )
}

/// Each row in ten windows; the test is a part of what is measured.
fn windowed(alloc: Global, tables: Tables) -> Result<Tables, Halt> {
    let every = Span {
        months: 0,
        nanos: 10,
    };
    let period = Span {
        months: 0,
        nanos: 100,
    };
    if have_times(alloc, tables.as_slice())? {
        return window(alloc, tables, every, period, Place { at: 0 });
    }
    Ok(tables)
}

/// 100,000 windows of the first table; the test is a part of what is measured.
fn cut_up(alloc: Global, tables: Tables) -> Result<Tables, Memory> {
    let every = Span {
        months: 0,
        nanos: 10,
    };
    if have_times(alloc, tables.as_slice())? {
        if let [table, ..] = tables.as_slice() {
            return Ok(cut(alloc, table, every, false)?.windows);
        }
    }
    Ok(tables)
}

/// No pair of a million; what two row functions cost is a part of it.
fn joined(alloc: Global, left: Tables, right: Tables) -> Result<Tables, Halt> {
    let mut meter = Meter {
        budget: 0,
        spent: 0,
    };
    let mut patterns = MemoryPatterns::none(alloc, List::empty(alloc));
    join_nested(
        alloc,
        left,
        right,
        Side::Inner,
        &NoRows,
        &FirstRow,
        &mut meter,
        &mut patterns,
    )
}

fn is_named(label: &Text, row: &Row) -> bool
    ensures { result ≡ is_named label.now row.now }
{
    match row.get(label) {
        None | Some(Scalar::Null | Scalar::Text(_)) => true,
        Some(Scalar::Bool(_) | Scalar::Int(_) | Scalar::Time(_)) => false,
    }
}

fn has_named_rows(label: &Text, table: &Table) -> bool
    ensures { result ≡ has_named_rows label.now table.now }
{
    table.rows.as_slice().iter().all(|row| is_named(label, row))
}

fn have_named_rows(label: &Text, tables: &[Table]) -> bool
    ensures { result ≡ list_all (has_named_rows label.now) tables.now }
{
    tables.iter().all(|table| has_named_rows(label, table))
}

/// A cell of each row, where each has a text under the column key; the test is a part of what is
/// measured.
fn pivoted(alloc: Global, tables: Tables) -> Result<Tables, Halt> {
    let field = Text::of(alloc, "_field")?;
    if have_named_rows(&field, tables.as_slice()) {
        return pivot(
            alloc,
            tables,
            &one_label(alloc, "_time")?,
            &one_label(alloc, "_field")?,
            &Text::of(alloc, "_value")?,
            Place { at: 0 },
        );
    }
    Ok(tables)
}
