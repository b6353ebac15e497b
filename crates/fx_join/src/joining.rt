ghost use Rattle.std.specs.Prelude.{◌≡◌, ◌||◌, ◌∷◌, ◌++◌, [], IfOk, OnOk, if◌then◌else◌};
ghost use Rattle.std.specs.List.{AllByRecursion};
ghost use Rattle.fx_value.specs.Calls.{IsReady, IsMetered, Answers, AreGiven, heard, SamePatterns};
ghost use Rattle.fx_value.specs.Ends.{NeverStuck};
ghost use Rattle.fx_value.specs.Works.{flat_each, into};
ghost use Rattle.fx_data.specs.Table.{HasRisingLabels};
ghost use Rattle.fx_group.specs.Turned.{with_rows};
ghost use Rattle.fx_join.specs.Join.{marked, no_marks, unmarked, left_over, lone_right};
ghost use Rattle.fx_join.specs.Joined.{lines_of, met_rows, joined, with_meetings};
ghost use Rattle.fx_join.specs.Part.{hit_at, with_keyed, with_lines};

use crate::answer::make_right;
use crate::line::{Line, line_of};
use crate::meeting::{Meeting, meet};
use crate::side::Side;
use fx_base::{Halt, List, Memory, Meter, Patterns};
use fx_data::{Key, Runs, Tables};
use fx_value::{Row, RowFun};
use std::alloc::Global;

/// What was made so far, and for each right row whether it is a partner already.
#[derive(Drop)]
pub(crate) struct Part {
    pub runs: Runs,
    pub marks: List<bool>,
}

/// The rows behind the runs, regrouped from this key.
fn push_rows(alloc: Global, mut runs: Runs, key: &Key, rows: List<Row>) -> Result<Runs, Memory>
    requires { HasRisingLabels key.now }
    ensures { IfOk result (λ r. r ≡ with_keyed key.now runs rows) }
{
    for row in rows.into_vec() {
        runs = runs.push(alloc, key, row)?;
    }
    Ok(runs)
}

fn is_hit(hits: &[bool], place: usize) -> bool
    ensures { result ≡ hit_at hits.now place }
{
    place < hits.len() && hits[place]
}

fn either(a: bool, b: bool) -> bool
    ensures { result ≡ (a || b) }
{
    a || b
}

/// The marks of the right rows, with those of one more line.
fn with_hits(alloc: Global, marks: &[bool], hits: &[bool]) -> Result<List<bool>, Memory>
    ensures { IfOk result (λ m. m ≡ marked marks.now hits.now) }
{
    let mut made = Vec::with_capacity(alloc, marks.len())?;
    for i in 0..marks.len() {
        made.push(either(is_hit(marks, i), is_hit(hits, i)))?;
    }
    Ok(List::of(made))
}

fn no_marks(alloc: Global, rights: &[Row]) -> Result<List<bool>, Memory>
    ensures { IfOk result (λ m. m ≡ no_marks rights.now) }
{
    let mut marks = Vec::with_capacity(alloc, rights.len())?;
    for _right in rights {
        marks.push(false)?;
    }
    Ok(List::of(marks))
}

fn with_line(alloc: Global, part: Part, key: &Key, line: Line) -> Result<Part, Memory>
    requires { HasRisingLabels key.now }
    ensures { IfOk result (λ p. p ≡ with_lines key.now part (line ∷ [])) }
{
    let Line { rows, hits } = line;
    let runs = push_rows(alloc, part.runs, key, rows)?;
    let marks = with_hits(alloc, part.marks.as_slice(), hits.as_slice())?;
    Ok(Part { runs, marks })
}

/// Puts what becomes of the left rows under a key to what was made.
fn join_lefts<F: RowFun, G: RowFun, P: Patterns>(
    alloc: Global,
    mut part: Part,
    key: &Key,
    on: &F,
    both: &G,
    side: Side,
    lefts: List<Row>,
    rights: &[Row],
    meter: &mut Meter,
    patterns: &mut P,
) -> Result<Part, Halt>
    requires rising { HasRisingLabels key.now }
    requires ready { IsReady meter.old }
    requires on_given { AreGiven (F.numbers on.now) (P.built patterns.old) }
    requires both_given { AreGiven (G.numbers both.now) (P.built patterns.old) }
    requires unstuck { NeverStuck (λ n. into (with_lines key.now) part (lines_of (F.means on.now (heard (F.numbers on.now) (P.test patterns.old))) (G.means both.now (heard (G.numbers both.now) (P.test patterns.old))) side rights.now lefts n)) }
    ensures metered { IsMetered meter.old meter.new }
    ensures answer { Answers (λ n. into (with_lines key.now) part (lines_of (F.means on.now (heard (F.numbers on.now) (P.test patterns.old))) (G.means both.now (heard (G.numbers both.now) (P.test patterns.old))) side rights.now lefts n)) meter.old meter.new result }
    ensures patterns { SamePatterns P.built P.refusals P.test patterns.old patterns.new }
{
    for left in lefts.into_vec() {
        let line = line_of(alloc, on, both, side, left, rights, meter, patterns)?;
        part = with_line(alloc, part, key, line)?;
    }
    Ok(part)
}

fn push_unless(rows: &mut Vec<Row>, row: &Row, hit: bool) -> Result<(), Memory>
    ensures { OnOk result (rows.new.items ≡ rows.old.items ++ (if hit then [] else row.now ∷ [])) }
{
    if !hit {
        rows.push(row.copy()?)?;
    }
    Ok(())
}

/// The right rows that are partners of no left row.
fn unmarked(alloc: Global, marks: &[bool], rights: &[Row]) -> Result<List<Row>, Memory>
    ensures { IfOk result (λ rs. rs ≡ unmarked marks.now rights.now) }
{
    let mut left = Vec::new(alloc);
    for (i, row) in rights.iter().enumerate() {
        push_unless(&mut left, row, is_hit(marks, i))?;
    }
    Ok(List::of(left))
}

/// Those of them that are kept.
fn left_over(alloc: Global, side: Side, marks: &[bool], rights: &[Row]) -> Result<List<Row>, Memory>
    ensures { IfOk result (λ rs. rs ≡ left_over side marks.now rights.now) }
{
    if !side.keeps_right() {
        return Ok(List::empty(alloc));
    }
    unmarked(alloc, marks, rights)
}

/// Puts what is made of right rows alone behind the runs.
fn join_rights<G: RowFun, P: Patterns>(
    alloc: Global,
    mut runs: Runs,
    key: &Key,
    both: &G,
    rights: List<Row>,
    meter: &mut Meter,
    patterns: &mut P,
) -> Result<Runs, Halt>
    requires rising { HasRisingLabels key.now }
    requires ready { IsReady meter.old }
    requires given { AreGiven (G.numbers both.now) (P.built patterns.old) }
    requires unstuck { NeverStuck (λ n. into (with_keyed key.now) runs (flat_each (lone_right (G.means both.now (heard (G.numbers both.now) (P.test patterns.old))) n) rights)) }
    ensures metered { IsMetered meter.old meter.new }
    ensures answer { Answers (λ n. into (with_keyed key.now) runs (flat_each (lone_right (G.means both.now (heard (G.numbers both.now) (P.test patterns.old))) n) rights)) meter.old meter.new result }
    ensures patterns { SamePatterns P.built P.refusals P.test patterns.old patterns.new }
{
    for right in rights.into_vec() {
        let made = make_right(alloc, both, right, meter, patterns)?;
        runs = runs.push(alloc, key, made)?;
    }
    Ok(runs)
}

/// Puts the pairs of the rows under a key, and the rows alone, behind the runs.
fn join_meeting<F: RowFun, G: RowFun, P: Patterns>(
    alloc: Global,
    runs: Runs,
    on: &F,
    both: &G,
    side: Side,
    meeting: Meeting,
    meter: &mut Meter,
    patterns: &mut P,
) -> Result<Runs, Halt>
    requires rising { HasRisingLabels meeting.key }
    requires ready { IsReady meter.old }
    requires on_given { AreGiven (F.numbers on.now) (P.built patterns.old) }
    requires both_given { AreGiven (G.numbers both.now) (P.built patterns.old) }
    requires unstuck { NeverStuck (λ n. into with_rows runs (met_rows (F.means on.now (heard (F.numbers on.now) (P.test patterns.old))) (G.means both.now (heard (G.numbers both.now) (P.test patterns.old))) side n meeting)) }
    ensures metered { IsMetered meter.old meter.new }
    ensures answer { Answers (λ n. into with_rows runs (met_rows (F.means on.now (heard (F.numbers on.now) (P.test patterns.old))) (G.means both.now (heard (G.numbers both.now) (P.test patterns.old))) side n meeting)) meter.old meter.new result }
    ensures patterns { SamePatterns P.built P.refusals P.test patterns.old patterns.new }
{
    let Meeting { key, lefts, rights } = meeting;
    let marks = no_marks(alloc, rights.as_slice())?;
    let begun = Part { runs, marks };
    let part = join_lefts(
        alloc,
        begun,
        &key,
        on,
        both,
        side,
        lefts,
        rights.as_slice(),
        meter,
        patterns,
    )?;
    let Part { runs, marks } = part;
    let alone = left_over(alloc, side, marks.as_slice(), rights.as_slice())?;
    join_rights(alloc, runs, &key, both, alone, meter, patterns)
}

fn join_meetings<F: RowFun, G: RowFun, P: Patterns>(
    alloc: Global,
    mut runs: Runs,
    on: &F,
    both: &G,
    side: Side,
    meetings: List<Meeting>,
    meter: &mut Meter,
    patterns: &mut P,
) -> Result<Runs, Halt>
    requires rising { AllByRecursion (λ m. HasRisingLabels m.key) meetings }
    requires ready { IsReady meter.old }
    requires on_given { AreGiven (F.numbers on.now) (P.built patterns.old) }
    requires both_given { AreGiven (G.numbers both.now) (P.built patterns.old) }
    requires unstuck { NeverStuck (with_meetings (F.means on.now (heard (F.numbers on.now) (P.test patterns.old))) (G.means both.now (heard (G.numbers both.now) (P.test patterns.old))) side runs meetings) }
    ensures metered { IsMetered meter.old meter.new }
    ensures answer { Answers (with_meetings (F.means on.now (heard (F.numbers on.now) (P.test patterns.old))) (G.means both.now (heard (G.numbers both.now) (P.test patterns.old))) side runs meetings) meter.old meter.new result }
    ensures patterns { SamePatterns P.built P.refusals P.test patterns.old patterns.new }
{
    for meeting in meetings.into_vec() {
        runs = join_meeting(alloc, runs, on, both, side, meeting, meter, patterns)?;
    }
    Ok(runs)
}

/// Of the rows under each key all pairs of which `on` says yes, as `both` makes rows of them, left
/// row after left row; by `side` also what it makes of rows without a partner and an empty row.
pub fn join_nested<F: RowFun, G: RowFun, P: Patterns>(
    alloc: Global,
    left: Tables,
    right: Tables,
    side: Side,
    on: &F,
    both: &G,
    meter: &mut Meter,
    patterns: &mut P,
) -> Result<Tables, Halt>
    requires ready { IsReady meter.old }
    requires on_given { AreGiven (F.numbers on.now) (P.built patterns.old) }
    requires both_given { AreGiven (G.numbers both.now) (P.built patterns.old) }
    requires unstuck { NeverStuck (joined (F.means on.now (heard (F.numbers on.now) (P.test patterns.old))) (G.means both.now (heard (G.numbers both.now) (P.test patterns.old))) side left right) }
    ensures metered { IsMetered meter.old meter.new }
    ensures answer { Answers (joined (F.means on.now (heard (F.numbers on.now) (P.test patterns.old))) (G.means both.now (heard (G.numbers both.now) (P.test patterns.old))) side left right) meter.old meter.new result }
    ensures patterns { SamePatterns P.built P.refusals P.test patterns.old patterns.new }
{
    let meetings = meet(alloc, left, right)?;
    let runs = join_meetings(
        alloc,
        Runs::empty(alloc),
        on,
        both,
        side,
        meetings,
        meter,
        patterns,
    )?;
    let made = runs.into_tables(alloc)?;
    Ok(made)
}
