//! Rows, their changes, and their way into tables.
use fx_agg::distinct;
use fx_base::{List, Memory, Text};
use fx_data::regroup;
use fx_group::{group_by, group_except, union};
use fx_value::{Change, Row, Scalar, change_rows};
use std::alloc::Global;
use std::test::Fail;

/// The row of one integer at `n`.
fn numbered(alloc: Global, n: i64) -> Result<Row, Memory> {
    let mut row = Row::empty(alloc)?;
    row.set(alloc, Text::of(alloc, "n")?, Scalar::Int(n))?;
    Ok(row)
}

#[test]
fn a_row_is_changed_apart_from_its_copy(rt: HostRuntime) -> Result<(), Fail> {
    let alloc = rt.alloc();
    let label = Text::of(alloc, "n")?;
    let row = numbered(alloc, 7)?;
    let mut copy = row.copy()?;
    assert_eq!(rt; copy.take_out(alloc, &label)?, Some(Scalar::Int(7)));
    assert_eq!(rt; copy.get(&label), None);
    assert_eq!(rt; row.get(&label), Some(&Scalar::Int(7)));
    assert_eq!(rt; row.labels(alloc)?.as_slice().len(), 1);
    Ok(())
}

#[test]
fn changes_go_through_all_rows(rt: HostRuntime) -> Result<(), Fail> {
    let alloc = rt.alloc();
    let mut rows = List::empty(alloc);
    rows.push(numbered(alloc, 1)?)?;
    rows.push(numbered(alloc, 2)?)?;
    let label = Text::of(alloc, "n")?;
    let changes = [Change::Remove { label }];
    let rows = change_rows(alloc, rows, &changes)?;
    for row in rows.as_slice() {
        assert_eq!(rt; row.get(&Text::of(alloc, "n")?), None);
    }
    Ok(())
}

#[test]
fn tables_are_regrouped_grouped_and_united(rt: HostRuntime) -> Result<(), Fail> {
    let alloc = rt.alloc();
    let label = Text::of(alloc, "n")?;
    let columns = List::empty(alloc);
    let tables = regroup(alloc, List::empty(alloc))?;
    assert_eq!(rt; distinct(alloc, tables.copy(alloc)?, &label)?.len(), 0);
    let grouped = group_by(alloc, tables.copy(alloc)?, &columns)?;
    assert_eq!(rt; grouped.len(), 0);
    let others = group_except(alloc, tables, &columns)?;
    assert_eq!(rt; others.len(), 0);
    let mut streams = List::empty(alloc);
    streams.push(grouped)?;
    streams.push(others)?;
    assert_eq!(rt; union(alloc, streams)?.len(), 0);
    Ok(())
}
