ghost use Rattle.std.specs.Prelude.{◌≡◌, ◌++◌, ◌&&◌, int_le, pos, unsigned_abs, drop, IfOk, OnOk};
ghost use Rattle.fx_value.specs.Calls.{Told};
ghost use Rattle.fx_data.specs.Table.{AreLawful};
ghost use Rattle.fx_group.specs.Filter.{table_if};
ghost use Rattle.fx_group.specs.Range.{left_of};
ghost use Rattle.fx_shape.specs.Part.{first_part, last_part, limited, tailed, parts_of};
ghost use Rattle.fx_shape.specs.Cut.{cut};

use fx_base::{Fault, FaultKind, Halt, List, Memory, Place};
use fx_data::{Key, Table, Tables};
use fx_value::Row;
use std::alloc::Global;

/// Which rows are left of a table.
#[derive(Clone, Copy)]
enum Part {
    /// So many behind the first ones.
    First { count: usize, offset: usize },
    /// So many before the last ones.
    Last { count: usize, offset: usize },
}

/// The rows from the place on.
fn rows_from(alloc: Global, mut rows: Vec<Row>, start: usize) -> Result<Vec<Row>, Memory>
    ensures { IfOk result (λ v. v.items ≡ drop start rows.items) }
{
    if start < rows.len() {
        Ok(rows.split_off(start)?)
    } else {
        Ok(Vec::new(alloc))
    }
}

fn first_rows(
    alloc: Global,
    rows: List<Row>,
    count: usize,
    offset: usize,
) -> Result<List<Row>, Memory>
    ensures { IfOk result (λ r. r ≡ first_part count offset rows) }
{
    let mut left = rows_from(alloc, rows.into_vec(), offset)?;
    left.truncate(count);
    Ok(List::of(left))
}

fn last_rows(
    alloc: Global,
    rows: List<Row>,
    count: usize,
    offset: usize,
) -> Result<List<Row>, Memory>
    ensures { IfOk result (λ r. r ≡ last_part count offset rows) }
{
    let mut rows = rows.into_vec();
    let stop = rows.len().saturating_sub(offset);
    rows.truncate(stop);
    let left = rows_from(alloc, rows, stop.saturating_sub(count))?;
    Ok(List::of(left))
}

fn cut_rows(alloc: Global, rows: List<Row>, part: Part) -> Result<List<Row>, Memory>
    ensures { IfOk result (λ r. r ≡ cut part rows) }
{
    match part {
        Part::First { count, offset } => first_rows(alloc, rows, count, offset),
        Part::Last { count, offset } => last_rows(alloc, rows, count, offset),
    }
}

/// Puts the rows behind the tables, under their key; without rows there is no table.
fn push_some(tables: &mut Vec<Table>, key: Key, rows: List<Row>) -> Result<(), Memory>
    ensures { OnOk result (tables.new.items ≡ tables.old.items ++ table_if key rows) }
{
    match rows.as_slice() {
        [] => {}
        [_, ..] => tables.push(Table { key, rows })?,
    }
    Ok(())
}

/// Puts what is left of the table behind the tables. A table without rows stays.
fn push_left(alloc: Global, tables: &mut Vec<Table>, table: Table, part: Part) -> Result<(), Memory>
    ensures { OnOk result (tables.new.items ≡ tables.old.items ++ left_of table.key table.rows (cut part table.rows)) }
{
    let Table { key, rows } = table;
    match rows.as_slice() {
        [] => tables.push(Table { key, rows })?,
        [_, ..] => {
            let rows = cut_rows(alloc, rows, part)?;
            push_some(tables, key, rows)?;
        }
    }
    Ok(())
}

/// What is left of the tables, in their order.
fn cut_tables(alloc: Global, tables: Tables, part: Part) -> Result<List<Table>, Memory>
    ensures value { IfOk result (λ ts. ts ≡ parts_of (cut part) tables) }
    ensures lawful { IfOk result AreLawful }
{
    let mut left = Vec::new(alloc);
    for table in tables.into_list().into_vec() {
        push_left(alloc, &mut left, table, part)?;
    }
    Ok(List::of(left))
}

fn bad_count(place: Place) -> Halt
    ensures { result ≡ Halt.Fault (record { kind = FaultKind.BadCount; place = place }) }
{
    Halt::Fault(Fault {
        kind: FaultKind::BadCount,
        place,
    })
}

fn are_counts(n: i64, offset: i64) -> bool
    ensures { result ≡ (int_le (pos 0) n && int_le (pos 0) offset) }
{
    0 <= n && 0 <= offset
}

fn count_of(n: i64) -> usize
    ensures { result ≡ unsigned_abs n }
{
    n.unsigned_abs() as usize
}

/// Rows `offset` to `offset + n - 1` of each table, from 0. A table that loses all of its rows is
/// dropped, and one that had none stays. A negative number is BadCount.
#[tactic(auto, unfolding(crate::specs::Part::limited))]
pub fn limit(
    alloc: Global,
    tables: Tables,
    n: i64,
    offset: i64,
    place: Place,
) -> Result<Tables, Halt>
    ensures { Told (limited place n offset tables) result }
{
    if !are_counts(n, offset) {
        return Err(bad_count(place));
    }
    let part = Part::First {
        count: count_of(n),
        offset: count_of(offset),
    };
    let left = cut_tables(alloc, tables, part)?;
    Ok(Tables::of(left))
}

/// The last `n` rows before the last `offset` of each table; else as `limit`.
#[tactic(auto, unfolding(crate::specs::Part::tailed))]
pub fn tail(
    alloc: Global,
    tables: Tables,
    n: i64,
    offset: i64,
    place: Place,
) -> Result<Tables, Halt>
    ensures { Told (tailed place n offset tables) result }
{
    if !are_counts(n, offset) {
        return Err(bad_count(place));
    }
    let part = Part::Last {
        count: count_of(n),
        offset: count_of(offset),
    };
    let left = cut_tables(alloc, tables, part)?;
    Ok(Tables::of(left))
}
