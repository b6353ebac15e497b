//! Step after step, until no frame awaits a value.
ghost use Rattle.std.specs.Prelude.{[]};
ghost use Rattle.fx_rowfn.specs.Follows.{Follows, Moves};
ghost use Rattle.fx_rowfn.specs.State.{left, stack_of};
ghost use Rattle.fx_rowfn.specs.declared.frame.Control.TheVariants as control;
ghost use Rattle.fx_value.specs.Calls.{AreGiven, IsMetered, IsReady, SamePatterns};
ghost use Rattle.fx_values.specs.Known.{hears, numbers_of};
ghost use Rattle.fx_values.specs.Shape.{val};

use crate::enter::{assign, bind};
use crate::eval::evaluated;
use crate::follow::taken;
use crate::frame::{Control, Frame, Moved};
use crate::resume::resume;
use fx_base::{Meter, Patterns};
use fx_meaning::Placed;
use fx_values::{Stop, Value};
use std::alloc::Global;

/// The end of the work that begins so.
pub(crate) fn run<P: Patterns>(
    alloc: Global,
    known: &[Placed],
    start: Control,
    meter: &mut Meter,
    patterns: &mut P,
) -> Result<Value, Stop>
    requires ready { IsReady meter.old }
    requires given { AreGiven (numbers_of known.now) (P.built patterns.old) }
    ensures metered { IsMetered meter.old meter.new }
    ensures follows { Follows val (λ limit. left (hears known.entry.now (P.test patterns.old)) limit [] start) meter.old meter.new result }
    ensures patterns { SamePatterns P.built P.refusals P.test patterns.old patterns.new }
{
    let mut frames = Vec::new(alloc);
    let mut control = start;
    for _ in 0..u64::MAX {
        match advance(alloc, known, patterns, control, &mut frames, meter)? {
            Moved::Done(value) => return Ok(value),
            Moved::Goes(next) => control = next,
        }
    }
    Err(Stop::Memory)
}

/// One step.
fn advance<P: Patterns>(
    alloc: Global,
    known: &[Placed],
    patterns: &mut P,
    control: Control,
    frames: &mut Vec<Option<Frame>>,
    meter: &mut Meter,
) -> Result<Moved, Stop>
    requires ready { IsReady meter.old }
    requires given { AreGiven (numbers_of known.now) (P.built patterns.old) }
    ensures metered { IsMetered meter.old meter.new }
    ensures moves { Moves (hears known.entry.now (P.test patterns.old)) control (stack_of frames.old.items) (stack_of frames.new.items) meter.old meter.new result }
    ensures patterns { SamePatterns P.built P.refusals P.test patterns.old patterns.new }
{
    match control {
        Control::Give(value) => give(alloc, known, patterns, value, frames, meter),
        Control::Eval { scope, expr } => taken(
            alloc,
            evaluated(alloc, scope, &expr),
            frames,
            meter,
        ),
        Control::Bind(entry) => taken(alloc, bind(alloc, entry), frames, meter),
        Control::Assign(entry) => taken(alloc, assign(entry), frames, meter),
    }
}

/// The last frame gets the value.
fn give<P: Patterns>(
    alloc: Global,
    known: &[Placed],
    patterns: &mut P,
    value: Value,
    frames: &mut Vec<Option<Frame>>,
    meter: &mut Meter,
) -> Result<Moved, Stop>
    requires ready { IsReady meter.old }
    requires given { AreGiven (numbers_of known.now) (P.built patterns.old) }
    ensures metered { IsMetered meter.old meter.new }
    ensures moves { Moves (hears known.entry.now (P.test patterns.old)) (control.Give value) (stack_of frames.old.items) (stack_of frames.new.items) meter.old meter.new result }
    ensures patterns { SamePatterns P.built P.refusals P.test patterns.old patterns.new }
{
    match frames.pop() {
        None => Ok(Moved::Done(value)),
        Some(None) => Ok(Moved::Goes(Control::Give(value))),
        Some(Some(frame)) => {
            let next = resume(alloc, known, patterns, frame, value);
            taken(alloc, next, frames, meter)
        }
    }
}
