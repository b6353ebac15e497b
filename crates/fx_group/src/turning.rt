ghost use Rattle.std.specs.Prelude.{◌≡◌};
ghost use Rattle.std.specs.List.{AllByRecursion};
ghost use Rattle.fx_value.specs.Calls.{IsReady, IsMetered, Answers, AreGiven, heard, SamePatterns};
ghost use Rattle.fx_value.specs.Ends.{NeverStuck};
ghost use Rattle.fx_data.specs.Table.{HasRisingLabels, IsLawfulTable};
ghost use Rattle.fx_group.specs.Map.{mapped};
ghost use Rattle.fx_group.specs.Turned.{rows_turned, tables_turned};

use crate::answer::turn;
use fx_base::{Halt, List, Meter, Patterns};
use fx_data::{Key, Runs, Table, Tables};
use fx_value::{Row, RowFun};
use std::alloc::Global;

/// Puts what the function makes of the rows behind the runs.
fn turn_rows<F: RowFun, P: Patterns>(
    alloc: Global,
    mut runs: Runs,
    key: &Key,
    rows: List<Row>,
    fun: &F,
    meter: &mut Meter,
    patterns: &mut P,
) -> Result<Runs, Halt>
    requires rising { HasRisingLabels key.now }
    requires ready { IsReady meter.old }
    requires given { AreGiven (F.numbers fun.now) (P.built patterns.old) }
    requires unstuck { NeverStuck (rows_turned (F.means fun.now (heard (F.numbers fun.now) (P.test patterns.old))) runs key.now rows) }
    ensures metered { IsMetered meter.old meter.new }
    ensures answer { Answers (rows_turned (F.means fun.now (heard (F.numbers fun.now) (P.test patterns.old))) runs key.now rows) meter.old meter.new result }
    ensures patterns { SamePatterns P.built P.refusals P.test patterns.old patterns.new }
{
    for row in rows.into_vec() {
        let made = turn(alloc, fun, row, meter, patterns)?;
        runs = runs.push(alloc, key, made)?;
    }
    Ok(runs)
}

fn turn_tables<F: RowFun, P: Patterns>(
    alloc: Global,
    mut runs: Runs,
    tables: List<Table>,
    fun: &F,
    meter: &mut Meter,
    patterns: &mut P,
) -> Result<Runs, Halt>
    requires lawful { AllByRecursion IsLawfulTable tables }
    requires ready { IsReady meter.old }
    requires given { AreGiven (F.numbers fun.now) (P.built patterns.old) }
    requires unstuck { NeverStuck (tables_turned (F.means fun.now (heard (F.numbers fun.now) (P.test patterns.old))) runs tables) }
    ensures metered { IsMetered meter.old meter.new }
    ensures answer { Answers (tables_turned (F.means fun.now (heard (F.numbers fun.now) (P.test patterns.old))) runs tables) meter.old meter.new result }
    ensures patterns { SamePatterns P.built P.refusals P.test patterns.old patterns.new }
{
    for table in tables.into_vec() {
        let Table { key, rows } = table;
        runs = turn_rows(alloc, runs, &key, rows, fun, meter, patterns)?;
    }
    Ok(runs)
}

/// What the function makes of each row, regrouped: at each label of a row's old key, its new key has
/// the new value.
pub fn map<F: RowFun, P: Patterns>(
    alloc: Global,
    tables: Tables,
    fun: &F,
    meter: &mut Meter,
    patterns: &mut P,
) -> Result<Tables, Halt>
    requires ready { IsReady meter.old }
    requires given { AreGiven (F.numbers fun.now) (P.built patterns.old) }
    requires unstuck { NeverStuck (mapped (F.means fun.now (heard (F.numbers fun.now) (P.test patterns.old))) tables) }
    ensures metered { IsMetered meter.old meter.new }
    ensures answer { Answers (mapped (F.means fun.now (heard (F.numbers fun.now) (P.test patterns.old))) tables) meter.old meter.new result }
    ensures patterns { SamePatterns P.built P.refusals P.test patterns.old patterns.new }
{
    let runs = turn_tables(
        alloc,
        Runs::empty(alloc),
        tables.into_list(),
        fun,
        meter,
        patterns,
    )?;
    let mapped = runs.into_tables(alloc)?;
    Ok(mapped)
}
