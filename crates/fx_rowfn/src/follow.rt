//! What is done next, carried out over the frames.
ghost use Rattle.fx_rowfn.specs.Follows.{Carries, Moves};
ghost use Rattle.std.specs.Prelude.{◌≡◌, ℕ, List, IfOk};
ghost use Rattle.fx_meaning.specs.Meaning.{Tests};
ghost use Rattle.fx_meaning.specs.Value.{Val};
ghost use Rattle.fx_value.specs.Ends.{End};
ghost use Rattle.fx_rowfn.specs.Frame as plain;
ghost use Rattle.fx_rowfn.specs.Frame.{depth};
ghost use Rattle.fx_rowfn.specs.declared.frame.Control.{Control};
ghost use Rattle.fx_values.specs.Shape.{closed};
ghost use Rattle.fx_rowfn.specs.State.{Leads, left, scope_of, stack_of};
ghost use Rattle.fx_rowfn.specs.declared.frame.Next.TheVariants as next;
ghost use Rattle.fx_value.specs.Calls.{IsMetered, IsReady};

use crate::frame::{Control, Entry, Frame, Moved, Next};
use crate::scope::Scope;
use fx_base::{List, Memory, Meter};
use fx_values::{Closure, Slot, Stop};
use std::alloc::Global;
use std::rc::Rc;

pub(crate) fn follow(
    alloc: Global,
    next: Next,
    frames: &mut Vec<Option<Frame>>,
    meter: &mut Meter,
) -> Result<Moved, Stop>
    requires ready { IsReady meter.old }
    ensures metered { IsMetered meter.old meter.new }
    ensures carries { Carries next (stack_of frames.old.items) (stack_of frames.new.items) meter.old meter.new result }
{
    match next {
        Next::Go(control) => Ok(Moved::Goes(control)),
        Next::Await(frame, control) => {
            frames.push(Some(frame))?;
            Ok(Moved::Goes(control))
        }
        Next::AwaitTwo(below, frame, control) => {
            frames.push(Some(below))?;
            frames.push(Some(frame))?;
            Ok(Moved::Goes(control))
        }
        Next::Enter(closure, args) => enter(alloc, closure, args, frames, meter),
    }
}

/// A call of a function literal begins, which is a tick.
fn enter(
    alloc: Global,
    closure: Rc<Closure>,
    args: Rc<List<Slot>>,
    frames: &mut Vec<Option<Frame>>,
    meter: &mut Meter,
) -> Result<Moved, Stop>
    requires ready { IsReady meter.old }
    ensures metered { IsMetered meter.old meter.new }
    ensures carries { Carries (next.Enter closure args) (stack_of frames.old.items) (stack_of frames.new.items) meter.old meter.new result }
{
    match meter.spend(1) {
        Ok(()) => {
            frames.push(None)?;
            let scope = called_in(alloc, &closure)?;
            Ok(Moved::Goes(Control::Bind(Entry {
                closure,
                args,
                scope,
                next: 0,
            })))
        }
        Err(ticks) => Err(Stop::Budget { ticks }),
    }
}

/// The scope in which a call begins: the captured values alone.
pub(crate) fn called_in(alloc: Global, closure: &Closure) -> Result<Scope, Memory>
    ensures { IfOk result (λ s. scope_of s ≡ record { env = (closed closure.now).captured; setting = (closed closure.now).setting }) }
{
    Ok(Scope {
        outer: closure.captured.clone()?,
        inner: Rc::new(alloc, List::empty(alloc))?,
        setting: closure.setting.clone()?,
    })
}

/// What is done next is carried out, where it is known.
pub(crate) fn taken(
    alloc: Global,
    next: Result<Next, Stop>,
    frames: &mut Vec<Option<Frame>>,
    meter: &mut Meter,
) -> Result<Moved, Stop>
    requires ready { IsReady meter.old }
    ensures metered { IsMetered meter.old meter.new }
    ensures moves { (test : Tests) (control : Control) (start : List plain.Frame) (work : ℕ → List plain.Frame → End Val) → depth (stack_of frames.old.items) ≡ depth start → ((limit : ℕ) → left test limit start control ≡ work limit (stack_of frames.old.items)) → Leads work test next → Moves test control start (stack_of frames.new.items) meter.old meter.new result }
{
    match next {
        Ok(next) => follow(alloc, next, frames, meter),
        Err(stop) => Err(stop),
    }
}
