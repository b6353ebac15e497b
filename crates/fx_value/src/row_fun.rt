ghost use Rattle.std.specs.Prelude.{◌≡◌, ℕ, List, [], ◌∷◌, Bool};
ghost use Rattle.std.specs.FinMap.{FinMap};
ghost use Rattle.fx_base.specs.Text.{text_cmp};
ghost use Rattle.fx_value.specs.declared.answer.Answer.{Answer};
ghost use Rattle.fx_value.specs.declared.scalar.Scalar.{Scalar};
ghost use Rattle.fx_value.specs.Calls.{IsReady, IsMetered, Answers, AreGiven, heard, SamePatterns};
ghost use Rattle.fx_value.specs.Ends.{End, IsLimited, NeverStuck};

use crate::answer::Answer;
use crate::row::Row;
use fx_base::{Halt, Meter, Patterns};
use std::alloc::Global;

/// A function of one row or of two. Its meaning is a function of the rows, of what the tests say at
/// the numbers of its patterns, and of a limit on ticks.
pub trait RowFun {
    /// The numbers of its patterns.
    ghost numbers: { Self → List ℕ };
    /// How it ends on these rows, one or two in their order, under a limit on ticks. It is Stuck on
    /// rows that it doesn't take.
    ghost means: { Self → (ℕ → List ℕ → Bool) → List (FinMap text_cmp Scalar) → ℕ → End Answer };
    /// The value or the fault of the meaning on one row. The meter is raised by its ticks. It answers
    /// Budget only where these and what was spent before exceed the budget, and leaves the patterns
    /// as they were.
    fn call_one<P: Patterns>(
        &self,
        alloc: Global,
        row: &Row,
        meter: &mut Meter,
        patterns: &mut P,
    ) -> Result<Answer, Halt>
        requires ready { IsReady meter.old }
        requires given { AreGiven (numbers self.now) (P.built patterns.old) }
        requires unstuck { NeverStuck (means self.now (heard (numbers self.now) (P.test patterns.old)) (row.now ∷ [])) }
        ensures metered { IsMetered meter.old meter.new }
        ensures answer { Answers (means self.now (heard (numbers self.now) (P.test patterns.old)) (row.now ∷ [])) meter.old meter.new result }
        ensures patterns { SamePatterns P.built P.refusals P.test patterns.old patterns.new };

    /// The same on two rows.
    fn call_two<P: Patterns>(
        &self,
        alloc: Global,
        first: &Row,
        second: &Row,
        meter: &mut Meter,
        patterns: &mut P,
    ) -> Result<Answer, Halt>
        requires ready { IsReady meter.old }
        requires given { AreGiven (numbers self.now) (P.built patterns.old) }
        requires unstuck { NeverStuck (means self.now (heard (numbers self.now) (P.test patterns.old)) (first.now ∷ second.now ∷ [])) }
        ensures metered { IsMetered meter.old meter.new }
        ensures answer { Answers (means self.now (heard (numbers self.now) (P.test patterns.old)) (first.now ∷ second.now ∷ [])) meter.old meter.new result }
        ensures patterns { SamePatterns P.built P.refusals P.test patterns.old patterns.new };

    /// It is More where it needs more ticks than the limit, and an end stays the same under each
    /// greater limit.
    ghost limited: { (f : Self) (test : ℕ → List ℕ → Bool) (rows : List (FinMap text_cmp Scalar)) → IsLimited (means f test rows) };
}
