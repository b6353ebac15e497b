ghost use Rattle.std.specs.Prelude.{◌≡◌, ◌≢◌, ◌++◌, ◌+ℤ◌, ◌-ℤ◌, ◌<ℤ◌, pos, ℤ, false, List as AnyList, None as Nothing, Option as AnyOption, int_div, option_map, IfOk, IsTrue, OnOk};
ghost use Rattle.std.specs.FinMap as fin;
ghost use Rattle.std.specs.List.{AllByRecursion};
ghost use Rattle.fx_value.specs.Calls.{Told};
ghost use Rattle.fx_value.specs.Ends.{End, Gives, Stuck};
ghost use Rattle.fx_value.specs.Works.{into};
ghost use Rattle.fx_data.specs.Table.{HasKey, IsLawfulTable};
ghost use Rattle.fx_data.specs.declared.key.Key.{Key as AnyKey};
ghost use Rattle.fx_data.specs.declared.keyed_row.KeyedRow.{KeyedRow as AnyKeyedRow};
ghost use Rattle.fx_data.specs.declared.table.Table.{Table as AnyTable};
ghost use Rattle.fx_group.specs.Answer.{Row as AnyRow};
ghost use Rattle.fx_group.specs.Turned.{with_rows};
ghost use Rattle.fx_shape.specs.Outcome.{applied, come_to, difference_of, elapsed_of, made_of, number, number_of, outcome_of, sum_of, IsSound};
ghost use Rattle.fx_shape.specs.Run.{has_label};
ghost use Rattle.fx_shape.specs.Running.{cumulated, differenced, int_of, is_unit, passed, ran, ran_rows, ran_table, ran_tables, time_of};

use crate::run::{has_label, push_moved};
use fx_base::{Fault, FaultKind, Halt, List, Memory, Place, Text};
use fx_data::{Runs, Table, Tables};
use fx_time::Span;
use fx_value::{Row, Scalar};
use std::alloc::Global;

/// What rows get beside the rows before them.
#[derive(Clone, Copy)]
enum Running {
    /// An integer less the last one before it.
    Difference,
    /// The sum so far.
    Sum,
    /// The units since the last time before.
    Elapsed { unit: Span },
}

/// What becomes of a row.
#[derive(Drop)]
enum Outcome {
    Drop,
    Keep,
    /// It gets this value in the column.
    Put { value: Scalar },
}

fn int_at(value: Option<&Scalar>) -> Option<i64>
    requires { ◌≢◌ {A = End (AnyOption ℤ)} (int_of (option_map (λ v. v.now) value)) Stuck }
    ensures { int_of (option_map (λ v. v.now) value.entry) ≡ Gives result 0 }
{
    match value {
        Some(Scalar::Int(n)) => Some(*n),
        Some(Scalar::Null) => None,
        None => None,
        Some(_) => unreachable!(),
    }
}

fn time_at(value: Option<&Scalar>) -> Option<i64>
    requires { ◌≢◌ {A = End (AnyOption ℤ)} (time_of (option_map (λ v. v.now) value)) Stuck }
    ensures { time_of (option_map (λ v. v.now) value.entry) ≡ Gives result 0 }
{
    match value {
        Some(Scalar::Time(t)) => Some(*t),
        Some(Scalar::Null) => None,
        None => None,
        Some(_) => unreachable!(),
    }
}

fn number_at(which: Running, value: Option<&Scalar>) -> Option<i64>
    requires { ◌≢◌ {A = End (AnyOption ℤ)} (number_of which (option_map (λ v. v.now) value)) Stuck }
    ensures { number_of which (option_map (λ v. v.now) value.entry) ≡ Gives result 0 }
{
    match which {
        Running::Difference | Running::Sum => int_at(value),
        Running::Elapsed { .. } => time_at(value),
    }
}

/// The integer for the column, or Overflow outside 64 bits.
fn number(n: i128, place: Place) -> Result<Outcome, Halt>
    ensures { Told (number place n) result }
{
    match i64::try_from(n) {
        Ok(n) => Ok(Outcome::Put {
            value: Scalar::Int(n),
        }),
        Err(_) => Err(Halt::Fault(Fault {
            kind: FaultKind::Overflow,
            place,
        })),
    }
}

fn gap(a: i64, b: i64) -> i128
    ensures { result ≡ a -ℤ b }
{
    a as i128 - b as i128
}

fn plus(a: i64, b: i64) -> i128
    ensures { result ≡ a +ℤ b }
{
    a as i128 + b as i128
}

/// The whole units, truncated towards zero.
fn quotient(n: i128, unit: Span) -> i128
    requires { pos 0 <ℤ unit.nanos }
    ensures { result ≡ int_div n unit.nanos }
{
    n / unit.nanos as i128
}

fn difference_of(last: Option<i64>, n: Option<i64>, place: Place) -> Result<Outcome, Halt>
    ensures { Told (difference_of place last n) result }
{
    match (last, n) {
        (None, _) => Ok(Outcome::Drop),
        (Some(_), None) => Ok(Outcome::Keep),
        (Some(last), Some(n)) => number(gap(n, last), place),
    }
}

fn sum_of(sum: Option<i64>, n: Option<i64>, place: Place) -> Result<Outcome, Halt>
    ensures { Told (sum_of place sum n) result }
{
    match (sum, n) {
        (_, None) => Ok(Outcome::Keep),
        (None, Some(n)) => number(n as i128, place),
        (Some(sum), Some(n)) => number(plus(sum, n), place),
    }
}

fn elapsed_of(
    unit: Span,
    last: Option<i64>,
    time: Option<i64>,
    place: Place,
) -> Result<Outcome, Halt>
    requires { pos 0 <ℤ unit.nanos }
    ensures { Told (elapsed_of place unit.nanos last time) result }
{
    match (last, time) {
        (None, _) => Ok(Outcome::Drop),
        (Some(_), None) => Ok(Outcome::Put {
            value: Scalar::Null,
        }),
        (Some(last), Some(time)) => number(quotient(gap(time, last), unit), place),
    }
}

fn outcome_of(
    which: Running,
    before: Option<i64>,
    number: Option<i64>,
    place: Place,
) -> Result<Outcome, Halt>
    requires { IsSound which }
    ensures { Told (outcome_of which place before number) result }
{
    match which {
        Running::Difference => difference_of(before, number, place),
        Running::Sum => sum_of(before, number, place),
        Running::Elapsed { unit } => elapsed_of(unit, before, number, place),
    }
}

/// What the rows come to with one more. Its outcome has the sum, where that is asked for.
fn come_to(
    which: Running,
    before: Option<i64>,
    number: Option<i64>,
    outcome: &Outcome,
    place: Place,
) -> Option<i64>
    requires { outcome_of which place before number ≡ Gives outcome.now 0 }
    ensures { result ≡ come_to which before number }
{
    match number {
        None => before,
        Some(n) => match (which, outcome) {
            (
                Running::Sum,
                Outcome::Put {
                    value: Scalar::Int(sum),
                },
            ) => Some(*sum),
            (Running::Sum, _) => unreachable!(),
            _ => Some(n),
        },
    }
}

/// Puts the row with its outcome behind the rows.
fn apply(
    alloc: Global,
    rows: &mut Vec<Row>,
    mut row: Row,
    column: &Text,
    outcome: Outcome,
) -> Result<(), Memory>
    ensures { OnOk result (rows.new.items ≡ rows.old.items ++ applied outcome column.now row) }
{
    match outcome {
        Outcome::Drop => {}
        Outcome::Keep => rows.push(row)?,
        Outcome::Put { value } => {
            row.set(alloc, column.copy()?, value)?;
            rows.push(row)?;
        }
    }
    Ok(())
}

/// The rows of a table, each beside those before it.
fn ran_rows(
    alloc: Global,
    which: Running,
    read: &Text,
    column: &Text,
    place: Place,
    rows: List<Row>,
) -> Result<List<Row>, Halt>
    requires sound { IsSound which }
    requires unstuck { ◌≢◌ {A = End (AnyList AnyRow)} (ran_rows (come_to which) (λ row. number_of which (fin.get row read.now)) (made_of which place column.now) Nothing rows) Stuck }
    ensures { Told (ran_rows (come_to which) (λ row. number_of which (fin.get row read.now)) (made_of which place column.now) Nothing rows) result }
{
    let rows = rows.into_vec();
    let mut made = Vec::with_capacity(alloc, rows.len())?;
    let mut before = None;
    for row in rows {
        let number = number_at(which, row.get(read));
        let outcome = outcome_of(which, before, number, place)?;
        before = come_to(which, before, number, &outcome, place);
        apply(alloc, &mut made, row, column, outcome)?;
    }
    Ok(List::of(made))
}

/// Puts the rows of the table behind the runs, each beside those before it.
fn push_ran(
    alloc: Global,
    runs: Runs,
    which: Running,
    read: &Text,
    column: &Text,
    place: Place,
    table: Table,
) -> Result<Runs, Halt>
    requires sound { IsSound which }
    requires lawful { IsLawfulTable table }
    requires unstuck { ◌≢◌ {A = End (AnyList AnyKeyedRow)} (ran_table (come_to which) (λ row. number_of which (fin.get row read.now)) (made_of which place column.now) table) Stuck }
    ensures { Told (into with_rows runs (ran_table (come_to which) (λ row. number_of which (fin.get row read.now)) (made_of which place column.now) table)) result }
{
    let Table { key, rows } = table;
    let rows = ran_rows(alloc, which, read, column, place, rows)?;
    let one = !has_label(&key, column);
    let runs = push_moved(alloc, runs, &key, one, rows)?;
    Ok(runs)
}

/// The rows of all tables, in runs.
fn runs_ran(
    alloc: Global,
    which: Running,
    read: &Text,
    column: &Text,
    place: Place,
    tables: Tables,
) -> Result<Runs, Halt>
    requires sound { IsSound which }
    requires unstuck { ◌≢◌ {A = End (AnyList AnyKeyedRow)} (ran_tables (come_to which) (λ row. number_of which (fin.get row read.now)) (made_of which place column.now) tables) Stuck }
    ensures { Told (into with_rows fin.empty (ran_tables (come_to which) (λ row. number_of which (fin.get row read.now)) (made_of which place column.now) tables)) result }
{
    let mut runs = Runs::empty(alloc);
    for table in tables.into_list().into_vec() {
        runs = push_ran(alloc, runs, which, read, column, place, table)?;
    }
    Ok(runs)
}

fn run(
    alloc: Global,
    which: Running,
    read: &Text,
    column: &Text,
    place: Place,
    tables: Tables,
) -> Result<Tables, Halt>
    requires sound { IsSound which }
    requires unstuck { ◌≢◌ {A = End (AnyList AnyTable)} (ran (come_to which) (λ row. number_of which (fin.get row read.now)) (made_of which place column.now) tables) Stuck }
    ensures { Told (ran (come_to which) (λ row. number_of which (fin.get row read.now)) (made_of which place column.now) tables) result }
{
    let runs = runs_ran(alloc, which, read, column, place, tables)?;
    let made = runs.into_tables(alloc)?;
    Ok(made)
}

/// Each integer of the column less the last one before it in its table. The rows up to the first
/// integer go, and a row without one stays as it is. A difference outside 64 bits is Overflow.
#[tactic(auto, unfolding(crate::specs::Running::differenced))]
pub fn difference(
    alloc: Global,
    tables: Tables,
    column: &Text,
    place: Place,
) -> Result<Tables, Halt>
    requires { ◌≢◌ {A = End (AnyList AnyTable)} (differenced place column.now tables) Stuck }
    ensures { Told (differenced place column.now tables) result }
{
    run(alloc, Running::Difference, column, column, place, tables)
}

/// Each integer of the column together with those before it in its table. A row without one stays as
/// it is. A sum outside 64 bits is Overflow.
#[tactic(auto, unfolding(crate::specs::Running::cumulated))]
pub fn cumulative_sum(
    alloc: Global,
    tables: Tables,
    column: &Text,
    place: Place,
) -> Result<Tables, Halt>
    requires { ◌≢◌ {A = End (AnyList AnyTable)} (cumulated place column.now tables) Stuck }
    ensures { Told (cumulated place column.now tables) result }
{
    run(alloc, Running::Sum, column, column, place, tables)
}

fn is_unit(unit: Span) -> bool
    ensures { result ≡ is_unit unit }
{
    unit.months == 0 && 0 < unit.nanos
}

/// In a new column how many whole units have passed since the last time before, and null where a row
/// has no time. The rows up to the first time go. A unit that has months or is not above 0 is
/// BadWindow, and a number outside 64 bits is Overflow.
#[tactic(auto, unfolding(crate::specs::Running::passed))]
pub fn elapsed(
    alloc: Global,
    tables: Tables,
    unit: Span,
    time: &Text,
    name: &Text,
    place: Place,
) -> Result<Tables, Halt>
    requires { ◌≢◌ {A = End (AnyList AnyTable)} (passed place unit time.now name.now tables) Stuck }
    ensures { Told (passed place unit time.now name.now tables) result }
{
    if !is_unit(unit) {
        return Err(Halt::Fault(Fault {
            kind: FaultKind::BadWindow,
            place,
        }));
    }
    let which = Running::Elapsed { unit };
    run(alloc, which, time, name, place, tables)
}
