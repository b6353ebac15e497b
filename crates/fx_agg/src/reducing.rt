ghost use Rattle.std.specs.Prelude.{◌≡◌, ◌≢◌, [], ◌∷◌, IfOk};
ghost use Rattle.std.specs.List.{AllByRecursion};
ghost use Rattle.fx_value.specs.Calls.{IsReady, IsMetered, Answers, AreGiven, heard, SamePatterns};
ghost use Rattle.fx_value.specs.Ends.{End, Gives, Stuck, NeverStuck};
ghost use Rattle.fx_data.specs.Table.{HasRisingLabels, IsLawfulTable};
ghost use Rattle.fx_group.specs.Answer.{Row as AnyRow, line_of};
ghost use Rattle.fx_group.specs.Turned.{with_rows};
ghost use Rattle.fx_agg.specs.Reduce.{folded, reduced_rows, all_pinned, reduced_to, reduced, tables_reduced};

use fx_base::{Halt, List, Memory, Meter, Patterns};
use fx_data::{Key, KeyEntry, Runs, Table, Tables};
use fx_value::{Answer, Row, RowFun};
use std::alloc::Global;

fn line(answer: Answer) -> Row
    requires { ◌≢◌ {A = End AnyRow} (line_of answer) Stuck }
    ensures { line_of answer ≡ Gives result 0 }
{
    match answer {
        Answer::Line(row) => row,
        Answer::Cell(_) => unreachable!(),
    }
}

/// The accumulator that the function makes of the last one and the row.
fn fold<F: RowFun, P: Patterns>(
    alloc: Global,
    fun: &F,
    accumulator: Row,
    row: Row,
    meter: &mut Meter,
    patterns: &mut P,
) -> Result<Row, Halt>
    requires ready { IsReady meter.old }
    requires given { AreGiven (F.numbers fun.now) (P.built patterns.old) }
    requires unstuck { NeverStuck (λ n. folded (F.means fun.now (heard (F.numbers fun.now) (P.test patterns.old))) n accumulator row) }
    ensures metered { IsMetered meter.old meter.new }
    ensures answer { Answers (λ n. folded (F.means fun.now (heard (F.numbers fun.now) (P.test patterns.old))) n accumulator row) meter.old meter.new result }
    ensures patterns { SamePatterns P.built P.refusals P.test patterns.old patterns.new }
{
    let answer = fun.call_two(alloc, &accumulator, &row, meter, patterns)?;
    Ok(line(answer))
}

/// The accumulator after all rows.
fn fold_rows<F: RowFun, P: Patterns>(
    alloc: Global,
    rows: List<Row>,
    identity: &Row,
    fun: &F,
    meter: &mut Meter,
    patterns: &mut P,
) -> Result<Row, Halt>
    requires ready { IsReady meter.old }
    requires given { AreGiven (F.numbers fun.now) (P.built patterns.old) }
    requires unstuck { NeverStuck (reduced_rows (F.means fun.now (heard (F.numbers fun.now) (P.test patterns.old))) identity.now rows) }
    ensures metered { IsMetered meter.old meter.new }
    ensures answer { Answers (reduced_rows (F.means fun.now (heard (F.numbers fun.now) (P.test patterns.old))) identity.now rows) meter.old meter.new result }
    ensures patterns { SamePatterns P.built P.refusals P.test patterns.old patterns.new }
{
    let mut accumulator = identity.copy()?;
    for row in rows.into_vec() {
        accumulator = fold(alloc, fun, accumulator, row, meter, patterns)?;
    }
    Ok(accumulator)
}

/// The key with all of its labels pinned.
fn all_pinned(alloc: Global, key: Key) -> Result<Key, Memory>
    ensures { IfOk result (λ k. k ≡ all_pinned key) }
{
    let mut entries = Vec::new(alloc);
    for entry in key.entries.into_vec() {
        entries.push(KeyEntry {
            pinned: true,
            ..entry
        })?;
    }
    Ok(Key {
        entries: List::of(entries),
    })
}

/// Puts the accumulator of a table behind the runs.
fn push_reduced(alloc: Global, runs: Runs, key: Key, row: Row) -> Result<Runs, Memory>
    requires { HasRisingLabels key }
    ensures { IfOk result (λ r. r ≡ with_rows runs (reduced_to key row ∷ [])) }
{
    let key = all_pinned(alloc, key)?;
    runs.push(alloc, &key, row)
}

fn reduce_tables<F: RowFun, P: Patterns>(
    alloc: Global,
    mut runs: Runs,
    tables: List<Table>,
    identity: &Row,
    fun: &F,
    meter: &mut Meter,
    patterns: &mut P,
) -> Result<Runs, Halt>
    requires lawful { AllByRecursion IsLawfulTable tables }
    requires ready { IsReady meter.old }
    requires given { AreGiven (F.numbers fun.now) (P.built patterns.old) }
    requires unstuck { NeverStuck (tables_reduced (F.means fun.now (heard (F.numbers fun.now) (P.test patterns.old))) identity.now runs tables) }
    ensures metered { IsMetered meter.old meter.new }
    ensures answer { Answers (tables_reduced (F.means fun.now (heard (F.numbers fun.now) (P.test patterns.old))) identity.now runs tables) meter.old meter.new result }
    ensures patterns { SamePatterns P.built P.refusals P.test patterns.old patterns.new }
{
    for table in tables.into_vec() {
        let Table { key, rows } = table;
        let row = fold_rows(alloc, rows, identity, fun, meter, patterns)?;
        runs = push_reduced(alloc, runs, key, row)?;
    }
    Ok(runs)
}

/// One row for each table: what the function makes of the identity and the rows, one after another.
/// The labels of the key that the row doesn't have are pinned.
pub fn reduce<F: RowFun, P: Patterns>(
    alloc: Global,
    tables: Tables,
    identity: &Row,
    fun: &F,
    meter: &mut Meter,
    patterns: &mut P,
) -> Result<Tables, Halt>
    requires ready { IsReady meter.old }
    requires given { AreGiven (F.numbers fun.now) (P.built patterns.old) }
    requires unstuck { NeverStuck (reduced (F.means fun.now (heard (F.numbers fun.now) (P.test patterns.old))) identity.now tables) }
    ensures metered { IsMetered meter.old meter.new }
    ensures answer { Answers (reduced (F.means fun.now (heard (F.numbers fun.now) (P.test patterns.old))) identity.now tables) meter.old meter.new result }
    ensures patterns { SamePatterns P.built P.refusals P.test patterns.old patterns.new }
{
    let runs = reduce_tables(
        alloc,
        Runs::empty(alloc),
        tables.into_list(),
        identity,
        fun,
        meter,
        patterns,
    )?;
    let reduced = runs.into_tables(alloc)?;
    Ok(reduced)
}
