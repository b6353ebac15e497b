//! A function literal as a function of rows.
ghost use Rattle.std.specs.Prelude.{◌≡◌, ℕ, [], Err, IfOk, IfSome, map, true};
ghost use Rattle.fx_base.specs.declared.meter.Meter.{Meter};
ghost use Rattle.fx_meaning.specs.Meaning as meaning;
ghost use Rattle.fx_meaning.specs.Meaning.{Tests};
ghost use Rattle.fx_meaning.specs.Rows.{answer_of, due};
ghost use Rattle.fx_meaning.specs.Value.{Val};
ghost use Rattle.fx_rowfn.specs.Follows.{Follows};
ghost use Rattle.fx_rowfn.specs.Rows.{args_in, body_work, call_work, row_called, row_cut};
ghost use Rattle.fx_rowfn.specs.State.{control_left};
ghost use Rattle.fx_rowfn.specs.declared.frame.Control.TheVariants as control;
ghost use Rattle.fx_value.specs.Calls.{AreGiven, Answers, IsMetered, IsReady, SamePatterns};
ghost use Rattle.fx_value.specs.Ends.{End, IsLimited, NeverStuck, and_then, cut};
ghost use Rattle.fx_value.specs.declared.answer.Answer as answer;
ghost use Rattle.fx_values.specs.Known.{hears, numbers_of};
ghost use Rattle.fx_values.specs.Shape.{closed, slot, slots_of, val};
ghost use Rattle.fx_values.specs.declared.stop.Stop.TheVariants as variant;

use crate::arguments::{due_labels, of_one, of_two};
use crate::follow::called_in;
use crate::frame::{Control, Entry};
use crate::rows::answer_of;
use crate::run::run;
use fx_base::{Halt, List, Memory, Meter, Patterns, Text};
use fx_meaning::Placed;
use fx_value::{Answer, Row, RowFun};
use fx_values::{Closure, Slot, Stop, Value};
use std::alloc::Global;
use std::rc::Rc;

/// A function literal as a function of one row or of two. It keeps the labels of its parameters
/// without a default, under which it gets the rows.
#[derive(Drop)]
pub struct RowFunction {
    closure: Rc<Closure>,
    labels: List<Text>,
    ghost labelled: { labels ≡ due (closed closure.value).params },
}

impl RowFunction {
    /// The literal with its labels.
    pub fn of(alloc: Global, closure: Rc<Closure>) -> Result<RowFunction, Memory>
        ensures { IfOk result (λ f. f.closure.value ≡ closure.value) }
    {
        let labels = labels_of(alloc, closure.as_ref())?;
        Ok(RowFunction { closure, labels })
    }
}

fn labels_of(alloc: Global, closure: &Closure) -> Result<List<Text>, Memory>
    ensures { IfOk result (λ labels. labels ≡ due (closed closure.now).params) }
{
    due_labels(alloc, closure.params.as_slice())
}

impl RowFun for RowFunction {
    ghost use Rattle.fx_meaning.proofs.MeaningLaws.{row_limited};
    ghost use Rattle.fx_meaning.specs.Rows.{row_meaning};
    ghost use Rattle.fx_values.specs.Known.{numbers_of};
    ghost use Rattle.fx_values.specs.Shape.{closed, closure_val};

    ghost numbers = { λ f. numbers_of (closed f.closure.value).setting.patterns };

    ghost means = { λ f test rows limit. row_meaning test (closure_val (closed f.closure.value)) rows limit };

    ghost limited = { λ f test rows. row_limited test (closure_val (closed f.closure.value)) rows };

    fn call_one<P: Patterns>(
        &self,
        alloc: Global,
        row: &Row,
        meter: &mut Meter,
        patterns: &mut P,
    ) -> Result<Answer, Halt> {
        let args = of_one(alloc, self.labels.as_slice(), row)?;
        called(alloc, &self.closure, args, meter, patterns)
    }

    fn call_two<P: Patterns>(
        &self,
        alloc: Global,
        first: &Row,
        second: &Row,
        meter: &mut Meter,
        patterns: &mut P,
    ) -> Result<Answer, Halt> {
        let args = of_two(alloc, self.labels.as_slice(), first, second)?;
        called(alloc, &self.closure, args, meter, patterns)
    }
}

/// The literal is called with the arguments, which it takes.
fn called<P: Patterns>(
    alloc: Global,
    closure: &Rc<Closure>,
    args: Option<List<Slot>>,
    meter: &mut Meter,
    patterns: &mut P,
) -> Result<Answer, Halt>
    requires ready { IsReady meter.old }
    requires given { AreGiven (numbers_of (closed closure.now.value).setting.patterns) (P.built patterns.old) }
    requires taken { IfSome args (λ ss. meaning.takes (closed closure.now.value).params (slots_of (map slot ss)) ≡ true) }
    requires unstuck { NeverStuck (row_called (hears (closed closure.now.value).setting.patterns (P.test patterns.old)) (closed closure.now.value) (args_in args)) }
    ensures metered { IsMetered meter.old meter.new }
    ensures answer { Answers (row_called (hears (closed closure.entry.now.value).setting.patterns (P.test patterns.old)) (closed closure.entry.now.value) (args_in args)) meter.old meter.new result }
    ensures patterns { SamePatterns P.built P.refusals P.test patterns.old patterns.new }
{
    match args {
        Some(args) => called_with(alloc, closure, args, meter, patterns),
        None => unreachable!(),
    }
}

/// The answer of the call with these arguments.
fn called_with<P: Patterns>(
    alloc: Global,
    closure: &Rc<Closure>,
    args: List<Slot>,
    meter: &mut Meter,
    patterns: &mut P,
) -> Result<Answer, Halt>
    requires ready { IsReady meter.old }
    requires given { AreGiven (numbers_of (closed closure.now.value).setting.patterns) (P.built patterns.old) }
    requires taken { meaning.takes (closed closure.now.value).params (slots_of (map slot args)) ≡ true }
    requires unstuck { NeverStuck (row_cut (hears (closed closure.now.value).setting.patterns (P.test patterns.old)) (closed closure.now.value) (slots_of (map slot args))) }
    ensures metered { IsMetered meter.old meter.new }
    ensures answer { Answers (row_cut (hears (closed closure.entry.now.value).setting.patterns (P.test patterns.old)) (closed closure.entry.now.value) (slots_of (map slot args))) meter.old meter.new result }
    ensures patterns { SamePatterns P.built P.refusals P.test patterns.old patterns.new }
{
    let value = entered(alloc, closure, args, meter, patterns);
    let told = answered(alloc, value);
    halted(told)
}

/// The value of the call, which is a tick and then the value of the body.
fn entered<P: Patterns>(
    alloc: Global,
    closure: &Rc<Closure>,
    args: List<Slot>,
    meter: &mut Meter,
    patterns: &mut P,
) -> Result<Value, Stop>
    requires ready { IsReady meter.old }
    requires given { AreGiven (numbers_of (closed closure.now.value).setting.patterns) (P.built patterns.old) }
    ensures metered { IsMetered meter.old meter.new }
    ensures follows { Follows val (call_work (hears (closed closure.entry.now.value).setting.patterns (P.test patterns.old)) (closed closure.entry.now.value) (slots_of (map slot args))) meter.old meter.new result }
    ensures patterns { SamePatterns P.built P.refusals P.test patterns.old patterns.new }
{
    match meter.spend(1) {
        Ok(()) => body_value(alloc, closure, args, meter, patterns),
        Err(ticks) => Err(Stop::Budget { ticks }),
    }
}

fn body_value<P: Patterns>(
    alloc: Global,
    closure: &Rc<Closure>,
    args: List<Slot>,
    meter: &mut Meter,
    patterns: &mut P,
) -> Result<Value, Stop>
    requires ready { IsReady meter.old }
    requires given { AreGiven (numbers_of (closed closure.now.value).setting.patterns) (P.built patterns.old) }
    ensures metered { IsMetered meter.old meter.new }
    ensures follows { Follows val (body_work (hears (closed closure.entry.now.value).setting.patterns (P.test patterns.old)) (closed closure.entry.now.value) (slots_of (map slot args))) meter.old meter.new result }
    ensures patterns { SamePatterns P.built P.refusals P.test patterns.old patterns.new }
{
    let entry = entry(alloc, closure, args)?;
    let known = placed_in(closure.as_ref());
    run(alloc, known, Control::Bind(entry), meter, patterns)
}

/// The pattern literals that the literal's setting places.
fn placed_in(closure: &Closure) -> &[Placed]
    ensures { result.now ≡ (closed closure.now).setting.patterns }
{
    closure.setting.as_ref().patterns.as_slice()
}

fn entry(alloc: Global, closure: &Rc<Closure>, args: List<Slot>) -> Result<Entry, Memory>
    ensures { IfOk result (λ e. (test : Tests) (limit : ℕ) → control_left test (control.Bind e) limit [] ≡ body_work test (closed closure.now.value) (slots_of (map slot args)) limit) }
{
    let scope = called_in(alloc, closure.as_ref())?;
    let closure = closure.clone()?;
    let args = Rc::new(alloc, args)?;
    Ok(Entry {
        closure,
        args,
        scope,
        next: 0,
    })
}

/// The value of a call as an answer.
fn answered(alloc: Global, told: Result<Value, Stop>) -> Result<Answer, Stop>
    ensures { (work : ℕ → End Val) (before after : Meter) → Follows val work before after told → Follows (λ answer. answer) (λ limit. and_then (work limit) answer_of) before after result }
{
    match told {
        Ok(value) => answer_of(alloc, &value),
        Err(stop) => Err(stop),
    }
}

fn halted(told: Result<Answer, Stop>) -> Result<Answer, Halt>
    requires { ¬ (told ≡ Err variant.Stuck) }
    ensures { (work : ℕ → End answer.Answer) (before after : Meter) → IsLimited (λ limit. cut limit (work limit)) → Follows (λ answer. answer) work before after told → Answers (λ limit. cut limit (work limit)) before after result }
{
    match told {
        Ok(answer) => Ok(answer),
        Err(stop) => Err(halt_of(stop)),
    }
}

fn halt_of(stop: Stop) -> Halt
    requires { ¬ (stop ≡ variant.Stuck) }
    ensures { (work : ℕ → End answer.Answer) (before after : Meter) → IsLimited (λ limit. cut limit (work limit)) → Follows {A = answer.Answer} (λ answer. answer) work before after (Err stop) → Answers (λ limit. cut limit (work limit)) before after (Err result) }
{
    match stop {
        Stop::Fault(fault) => Halt::Fault(fault),
        Stop::Budget { ticks } => Halt::Budget { ticks },
        Stop::Memory => Halt::Memory,
        Stop::Stuck => unreachable!(),
    }
}
