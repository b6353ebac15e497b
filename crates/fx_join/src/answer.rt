ghost use Rattle.std.specs.Prelude.{◌≡◌, ◌≢◌, Bool};
ghost use Rattle.fx_value.specs.Calls.{IsReady, IsMetered, Answers, AreGiven, heard, SamePatterns};
ghost use Rattle.fx_value.specs.Ends.{End, Gives, Stuck, NeverStuck};
ghost use Rattle.fx_group.specs.Answer.{Row as AnyRow, truth_of, line_of};
ghost use Rattle.std.specs.FinMap as fin;
ghost use Rattle.fx_join.specs.Join.{matched, made, made_if, paired};

use fx_base::{Halt, Meter, Patterns};
use fx_value::{Answer, Row, RowFun, Scalar};
use std::alloc::Global;

fn truth(answer: Answer) -> bool
    requires { ◌≢◌ {A = End Bool} (truth_of answer) Stuck }
    ensures { truth_of answer ≡ Gives result 0 }
{
    match answer {
        Answer::Cell(Scalar::Bool(b)) => b,
        Answer::Cell(Scalar::Null) => false,
        _ => unreachable!(),
    }
}

fn line(answer: Answer) -> Row
    requires { ◌≢◌ {A = End AnyRow} (line_of answer) Stuck }
    ensures { line_of answer ≡ Gives result 0 }
{
    match answer {
        Answer::Line(row) => row,
        Answer::Cell(_) => unreachable!(),
    }
}

/// Whether the function says yes of the pair.
fn matches<F: RowFun, P: Patterns>(
    alloc: Global,
    on: &F,
    left: &Row,
    right: &Row,
    meter: &mut Meter,
    patterns: &mut P,
) -> Result<bool, Halt>
    requires ready { IsReady meter.old }
    requires given { AreGiven (F.numbers on.now) (P.built patterns.old) }
    requires unstuck { NeverStuck (λ n. matched (F.means on.now (heard (F.numbers on.now) (P.test patterns.old))) n left.now right.now) }
    ensures metered { IsMetered meter.old meter.new }
    ensures answer { Answers (λ n. matched (F.means on.now (heard (F.numbers on.now) (P.test patterns.old))) n left.now right.now) meter.old meter.new result }
    ensures patterns { SamePatterns P.built P.refusals P.test patterns.old patterns.new }
{
    let answer = on.call_two(alloc, left, right, meter, patterns)?;
    Ok(truth(answer))
}

/// The row that the function makes of the pair.
fn make<G: RowFun, P: Patterns>(
    alloc: Global,
    both: &G,
    left: &Row,
    right: &Row,
    meter: &mut Meter,
    patterns: &mut P,
) -> Result<Row, Halt>
    requires ready { IsReady meter.old }
    requires given { AreGiven (G.numbers both.now) (P.built patterns.old) }
    requires unstuck { NeverStuck (λ n. made (G.means both.now (heard (G.numbers both.now) (P.test patterns.old))) n left.now right.now) }
    ensures metered { IsMetered meter.old meter.new }
    ensures answer { Answers (λ n. made (G.means both.now (heard (G.numbers both.now) (P.test patterns.old))) n left.now right.now) meter.old meter.new result }
    ensures patterns { SamePatterns P.built P.refusals P.test patterns.old patterns.new }
{
    let answer = both.call_two(alloc, left, right, meter, patterns)?;
    Ok(line(answer))
}

/// The row that the function makes of the pair, where it is wanted.
fn make_if<G: RowFun, P: Patterns>(
    alloc: Global,
    both: &G,
    left: &Row,
    right: &Row,
    wanted: bool,
    meter: &mut Meter,
    patterns: &mut P,
) -> Result<Option<Row>, Halt>
    requires ready { IsReady meter.old }
    requires given { AreGiven (G.numbers both.now) (P.built patterns.old) }
    requires unstuck { NeverStuck (λ n. made_if (G.means both.now (heard (G.numbers both.now) (P.test patterns.old))) n left.now right.now wanted) }
    ensures metered { IsMetered meter.old meter.new }
    ensures answer { Answers (λ n. made_if (G.means both.now (heard (G.numbers both.now) (P.test patterns.old))) n left.now right.now wanted) meter.old meter.new result }
    ensures patterns { SamePatterns P.built P.refusals P.test patterns.old patterns.new }
{
    if !wanted {
        return Ok(None);
    }
    let row = make(alloc, both, left, right, meter, patterns)?;
    Ok(Some(row))
}

/// The row that is made of the pair, if it matches.
pub(crate) fn pair<F: RowFun, G: RowFun, P: Patterns>(
    alloc: Global,
    on: &F,
    both: &G,
    left: &Row,
    right: &Row,
    meter: &mut Meter,
    patterns: &mut P,
) -> Result<Option<Row>, Halt>
    requires ready { IsReady meter.old }
    requires on_given { AreGiven (F.numbers on.now) (P.built patterns.old) }
    requires both_given { AreGiven (G.numbers both.now) (P.built patterns.old) }
    requires unstuck { NeverStuck (λ n. paired (F.means on.now (heard (F.numbers on.now) (P.test patterns.old))) (G.means both.now (heard (G.numbers both.now) (P.test patterns.old))) n left.now right.now) }
    ensures metered { IsMetered meter.old meter.new }
    ensures answer { Answers (λ n. paired (F.means on.now (heard (F.numbers on.now) (P.test patterns.old))) (G.means both.now (heard (G.numbers both.now) (P.test patterns.old))) n left.now right.now) meter.old meter.new result }
    ensures patterns { SamePatterns P.built P.refusals P.test patterns.old patterns.new }
{
    let hit = matches(alloc, on, left, right, meter, patterns)?;
    make_if(alloc, both, left, right, hit, meter, patterns)
}

/// The row that the function makes of the left row alone, where it is wanted.
pub(crate) fn make_left<G: RowFun, P: Patterns>(
    alloc: Global,
    both: &G,
    left: &Row,
    wanted: bool,
    meter: &mut Meter,
    patterns: &mut P,
) -> Result<Option<Row>, Halt>
    requires ready { IsReady meter.old }
    requires given { AreGiven (G.numbers both.now) (P.built patterns.old) }
    requires unstuck { NeverStuck (λ n. made_if (G.means both.now (heard (G.numbers both.now) (P.test patterns.old))) n left.now fin.empty wanted) }
    ensures metered { IsMetered meter.old meter.new }
    ensures answer { Answers (λ n. made_if (G.means both.now (heard (G.numbers both.now) (P.test patterns.old))) n left.now fin.empty wanted) meter.old meter.new result }
    ensures patterns { SamePatterns P.built P.refusals P.test patterns.old patterns.new }
{
    if !wanted {
        return Ok(None);
    }
    let empty = Row::empty(alloc)?;
    let row = make(alloc, both, left, &empty, meter, patterns)?;
    Ok(Some(row))
}

/// The row that the function makes of the right row alone.
pub(crate) fn make_right<G: RowFun, P: Patterns>(
    alloc: Global,
    both: &G,
    right: Row,
    meter: &mut Meter,
    patterns: &mut P,
) -> Result<Row, Halt>
    requires ready { IsReady meter.old }
    requires given { AreGiven (G.numbers both.now) (P.built patterns.old) }
    requires unstuck { NeverStuck (λ n. made (G.means both.now (heard (G.numbers both.now) (P.test patterns.old))) n fin.empty right) }
    ensures metered { IsMetered meter.old meter.new }
    ensures answer { Answers (λ n. made (G.means both.now (heard (G.numbers both.now) (P.test patterns.old))) n fin.empty right) meter.old meter.new result }
    ensures patterns { SamePatterns P.built P.refusals P.test patterns.old patterns.new }
{
    let empty = Row::empty(alloc)?;
    make(alloc, both, &empty, &right, meter, patterns)
}
