ghost use Rattle.std.specs.Prelude.{◌≡◌, ◌≢◌, Bool};
ghost use Rattle.fx_value.specs.Calls.{IsReady, IsMetered, Answers, AreGiven, heard, SamePatterns};
ghost use Rattle.fx_value.specs.Ends.{End, Gives, Stuck, NeverStuck};
ghost use Rattle.fx_group.specs.Answer.{Row as AnyRow, truth_of, line_of, tested, turned};

use fx_base::{Halt, Meter, Patterns};
use fx_value::{Answer, Row, RowFun, Scalar};
use std::alloc::Global;

fn truth(answer: Answer) -> bool
    requires { ◌≢◌ {A = End Bool} (truth_of answer) Stuck }
    ensures { truth_of answer ≡ Gives result 0 }
{
    match answer {
        Answer::Cell(Scalar::Bool(b)) => b,
        Answer::Cell(Scalar::Null) => false,
        _ => unreachable!(),
    }
}

fn line(answer: Answer) -> Row
    requires { ◌≢◌ {A = End AnyRow} (line_of answer) Stuck }
    ensures { line_of answer ≡ Gives result 0 }
{
    match answer {
        Answer::Line(row) => row,
        Answer::Cell(_) => unreachable!(),
    }
}

/// Whether the function says of the row that it is wanted.
pub(crate) fn test<F: RowFun, P: Patterns>(
    alloc: Global,
    fun: &F,
    row: &Row,
    meter: &mut Meter,
    patterns: &mut P,
) -> Result<bool, Halt>
    requires ready { IsReady meter.old }
    requires given { AreGiven (F.numbers fun.now) (P.built patterns.old) }
    requires unstuck { NeverStuck (λ n. tested (F.means fun.now (heard (F.numbers fun.now) (P.test patterns.old))) n row.now) }
    ensures metered { IsMetered meter.old meter.new }
    ensures answer { Answers (λ n. tested (F.means fun.now (heard (F.numbers fun.now) (P.test patterns.old))) n row.now) meter.old meter.new result }
    ensures patterns { SamePatterns P.built P.refusals P.test patterns.old patterns.new }
{
    let answer = fun.call_one(alloc, row, meter, patterns)?;
    Ok(truth(answer))
}

/// The row that the function makes of the row.
pub(crate) fn turn<F: RowFun, P: Patterns>(
    alloc: Global,
    fun: &F,
    row: Row,
    meter: &mut Meter,
    patterns: &mut P,
) -> Result<Row, Halt>
    requires ready { IsReady meter.old }
    requires given { AreGiven (F.numbers fun.now) (P.built patterns.old) }
    requires unstuck { NeverStuck (λ n. turned (F.means fun.now (heard (F.numbers fun.now) (P.test patterns.old))) n row) }
    ensures metered { IsMetered meter.old meter.new }
    ensures answer { Answers (λ n. turned (F.means fun.now (heard (F.numbers fun.now) (P.test patterns.old))) n row) meter.old meter.new result }
    ensures patterns { SamePatterns P.built P.refusals P.test patterns.old patterns.new }
{
    let answer = fun.call_one(alloc, &row, meter, patterns)?;
    Ok(line(answer))
}
