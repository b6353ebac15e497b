ghost use Rattle.std.specs.Prelude.{◌≡◌, [], ◌∷◌, ◌++◌, IfOk, OnOk, if◌then◌else◌};
ghost use Rattle.fx_value.specs.Calls.{IsReady, IsMetered, Answers, AreGiven, heard, SamePatterns};
ghost use Rattle.fx_value.specs.Ends.{NeverStuck};
ghost use Rattle.fx_data.specs.Table.{AreLawful};
ghost use Rattle.fx_group.specs.Filter.{kept_rows, kept_tables, filtered, table_if};

use crate::answer::test;
use fx_base::{Halt, List, Memory, Meter, Patterns};
use fx_data::{Key, Table, Tables};
use fx_value::{Row, RowFun};
use std::alloc::Global;

fn push_if(rows: &mut Vec<Row>, row: Row, wanted: bool) -> Result<(), Memory>
    ensures { OnOk result (rows.new.items ≡ rows.old.items ++ (if wanted then row ∷ [] else [])) }
{
    if wanted {
        rows.push(row)?;
    }
    Ok(())
}

/// The rows that are wanted, in their order.
fn keep_rows<F: RowFun, P: Patterns>(
    alloc: Global,
    rows: List<Row>,
    fun: &F,
    meter: &mut Meter,
    patterns: &mut P,
) -> Result<List<Row>, Halt>
    requires ready { IsReady meter.old }
    requires given { AreGiven (F.numbers fun.now) (P.built patterns.old) }
    requires unstuck { NeverStuck (kept_rows (F.means fun.now (heard (F.numbers fun.now) (P.test patterns.old))) rows) }
    ensures metered { IsMetered meter.old meter.new }
    ensures answer { Answers (kept_rows (F.means fun.now (heard (F.numbers fun.now) (P.test patterns.old))) rows) meter.old meter.new result }
    ensures patterns { SamePatterns P.built P.refusals P.test patterns.old patterns.new }
{
    let mut kept = Vec::new(alloc);
    for row in rows.into_vec() {
        let wanted = test(alloc, fun, &row, meter, patterns)?;
        push_if(&mut kept, row, wanted)?;
    }
    Ok(List::of(kept))
}

/// Puts the rows behind the tables, under their key; without rows there is no table.
fn push_table(tables: &mut Vec<Table>, key: Key, rows: List<Row>) -> Result<(), Memory>
    ensures { OnOk result (tables.new.items ≡ tables.old.items ++ table_if key rows) }
{
    match rows.as_slice() {
        [] => {}
        [_, ..] => tables.push(Table { key, rows })?,
    }
    Ok(())
}

fn keep_tables<F: RowFun, P: Patterns>(
    alloc: Global,
    tables: List<Table>,
    fun: &F,
    meter: &mut Meter,
    patterns: &mut P,
) -> Result<List<Table>, Halt>
    requires lawful { AreLawful tables }
    requires ready { IsReady meter.old }
    requires given { AreGiven (F.numbers fun.now) (P.built patterns.old) }
    requires unstuck { NeverStuck (kept_tables (F.means fun.now (heard (F.numbers fun.now) (P.test patterns.old))) tables) }
    ensures metered { IsMetered meter.old meter.new }
    ensures answer { Answers (kept_tables (F.means fun.now (heard (F.numbers fun.now) (P.test patterns.old))) tables) meter.old meter.new result }
    ensures patterns { SamePatterns P.built P.refusals P.test patterns.old patterns.new }
    ensures lawful { IfOk result AreLawful }
{
    let mut kept = Vec::new(alloc);
    for table in tables.into_vec() {
        let Table { key, rows } = table;
        let rows = keep_rows(alloc, rows, fun, meter, patterns)?;
        push_table(&mut kept, key, rows)?;
    }
    Ok(List::of(kept))
}

/// The rows of which the function says true. Tables without such rows are dropped. Rows and tables
/// are moved, and no row is looked at for its key.
pub fn filter<F: RowFun, P: Patterns>(
    alloc: Global,
    tables: Tables,
    fun: &F,
    meter: &mut Meter,
    patterns: &mut P,
) -> Result<Tables, Halt>
    requires ready { IsReady meter.old }
    requires given { AreGiven (F.numbers fun.now) (P.built patterns.old) }
    requires unstuck { NeverStuck (filtered (F.means fun.now (heard (F.numbers fun.now) (P.test patterns.old))) tables) }
    ensures metered { IsMetered meter.old meter.new }
    ensures answer { Answers (filtered (F.means fun.now (heard (F.numbers fun.now) (P.test patterns.old))) tables) meter.old meter.new result }
    ensures patterns { SamePatterns P.built P.refusals P.test patterns.old patterns.new }
{
    let items = keep_tables(alloc, tables.into_list(), fun, meter, patterns)?;
    Ok(Tables::of(items))
}
