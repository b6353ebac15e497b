ghost use Rattle.std.specs.Prelude.{◌≡◌, ◌≢◌, ℤ, codes, IfOk, Option as AnyOption};
ghost use Rattle.std.specs.FinMap as fin;
ghost use Rattle.std.specs.Option.{option_map};
ghost use Rattle.fx_value.specs.Calls.{IsReady, IsMetered, Answers, AreGiven, heard, SamePatterns};
ghost use Rattle.fx_value.specs.Ends.{End, Gives, Stuck, NeverStuck};
ghost use Rattle.fx_value.specs.declared.answer.Answer.{Answer as AnyAnswer};
ghost use Rattle.fx_join.specs.SameTime.{time_of, same_time, told_time, joined_by_time};

use crate::joining::join_nested;
use crate::side::Side;
use fx_base::{Halt, Memory, Meter, Patterns, Text};
use fx_data::Tables;
use fx_value::{Answer, Row, RowFun, Scalar};
use std::alloc::Global;

/// The function that says of two rows whether their times in a column are the same. It takes no
/// ticks.
#[derive(Drop)]
pub(crate) struct SameTime {
    label: Text,
}

fn time_of(value: Option<&Scalar>) -> Option<i64>
    requires { ◌≢◌ {A = End (AnyOption ℤ)} (time_of (option_map (λ v. v.now) value)) Stuck }
    ensures { time_of (option_map (λ v. v.now) value.entry) ≡ Gives result 0 }
{
    match value {
        Some(Scalar::Time(time)) => Some(*time),
        Some(Scalar::Null) | None => None,
        _ => unreachable!(),
    }
}

fn same_time(first: Option<i64>, second: Option<i64>) -> Scalar
    ensures { result ≡ same_time first second }
{
    match (first, second) {
        (Some(a), Some(b)) => Scalar::Bool(a.cmp(&b).is_eq()),
        _ => Scalar::Null,
    }
}

impl SameTime {
    /// The function at the column `_time`.
    fn of(alloc: Global) -> Result<SameTime, Memory>
        ensures { IfOk result (λ s. s.label ≡ codes "_time") }
    {
        Ok(SameTime {
            label: Text::of(alloc, "_time")?,
        })
    }

    fn tell(&self, first: &Row, second: &Row) -> Scalar
        requires { ◌≢◌ {A = End AnyAnswer} (told_time self.now.label first.now second.now) Stuck }
        ensures { told_time self.now.label first.now second.now ≡ Gives (AnyAnswer.Cell result) 0 }
    {
        let left = time_of(first.get(&self.label));
        let right = time_of(second.get(&self.label));
        same_time(left, right)
    }
}

impl RowFun for SameTime {
    ghost use Rattle.std.specs.Prelude.{[]};
    ghost use Rattle.fx_join.specs.SameTime.{same_times};
    ghost use Rattle.fx_join.specs.Limited.{same_times_limited};

    ghost numbers = { λ s. [] };

    ghost means = { λ s says rows limit. same_times s.label rows limit };

    fn call_one<P: Patterns>(
        &self,
        alloc: Global,
        row: &Row,
        meter: &mut Meter,
        patterns: &mut P,
    ) -> Result<Answer, Halt> {
        unreachable!()
    }

    fn call_two<P: Patterns>(
        &self,
        alloc: Global,
        first: &Row,
        second: &Row,
        meter: &mut Meter,
        patterns: &mut P,
    ) -> Result<Answer, Halt> {
        Ok(Answer::Cell(self.tell(first, second)))
    }

    ghost limited = { λ s says rows. same_times_limited s.label rows };
}

/// A join of rows that have one time, where null is no time.
pub fn join_time<G: RowFun, P: Patterns>(
    alloc: Global,
    left: Tables,
    right: Tables,
    side: Side,
    both: &G,
    meter: &mut Meter,
    patterns: &mut P,
) -> Result<Tables, Halt>
    requires ready { IsReady meter.old }
    requires given { AreGiven (G.numbers both.now) (P.built patterns.old) }
    requires unstuck { NeverStuck (joined_by_time (G.means both.now (heard (G.numbers both.now) (P.test patterns.old))) side left right) }
    ensures metered { IsMetered meter.old meter.new }
    ensures answer { Answers (joined_by_time (G.means both.now (heard (G.numbers both.now) (P.test patterns.old))) side left right) meter.old meter.new result }
    ensures patterns { SamePatterns P.built P.refusals P.test patterns.old patterns.new }
{
    let on = SameTime::of(alloc)?;
    join_nested(alloc, left, right, side, &on, both, meter, patterns)
}
