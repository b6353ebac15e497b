//! What becomes of a value at the frame that awaits it.
ghost use Rattle.std.specs.Prelude.{◌≡◌, if◌then◌else◌};
ghost use Rattle.fx_ast.specs.Shape.{tree_of};
ghost use Rattle.fx_meaning.specs.Meaning.{Tests};
ghost use Rattle.fx_rowfn.specs.Frame as plain;
ghost use Rattle.fx_rowfn.specs.State.{Leads, frame_of, resumed_left, scope_of};
ghost use Rattle.fx_value.specs.Calls.{AreGiven, SamePatterns};
ghost use Rattle.fx_values.specs.Known.{hears, numbers_of};
ghost use Rattle.fx_values.specs.Shape.{val};

use crate::arrays::item_known;
use crate::calls::{arguments_from, callee_known, with_argument};
use crate::enter::{assigned, bound};
use crate::eval::{awaited, given};
use crate::frame::{Control, Frame, Next};
use crate::members::{item_of, member_of};
use crate::operators::{linked, linked_on, operated};
use crate::pipes::{Passed, calls_from, piped_callee_known, piped_from};
use crate::records::field_known;
use crate::scope::Scope;
use crate::texts::hole_known;
use fx_ast::Expr;
use fx_base::{Patterns, Place};
use fx_meaning::Placed;
use fx_values::{Stop, Value, prefixed, truth_in};
use std::alloc::Global;

pub(crate) fn resume<P: Patterns>(
    alloc: Global,
    known: &[Placed],
    patterns: &mut P,
    frame: Frame,
    value: Value,
) -> Result<Next, Stop>
    requires given { AreGiven (numbers_of known.now) (P.built patterns.old) }
    ensures leads { Leads (resumed_left (hears known.entry.now (P.test patterns.old)) (frame_of frame) (val value)) (hears known.entry.now (P.test patterns.old)) result }
    ensures patterns { SamePatterns P.built P.refusals P.test patterns.old patterns.new }
{
    match frame {
        Frame::Sign { place, sign } => given(prefixed(place, sign, &value)),
        Frame::Branch { scope, yes, no } => branched(scope, yes, no, &value),
        Frame::LeftOf { scope, chain, next } => linked(scope, &chain, next, value),
        Frame::RightOf {
            scope,
            place,
            op,
            left,
            chain,
            next,
        } => {
            let told = operated(alloc, known, patterns, place, op, &left, &value);
            linked_on(scope, &chain, next, told)
        }
        Frame::Item {
            scope,
            done,
            array,
            next,
        } => item_known(alloc, scope, done, &array, next, value),
        Frame::Field {
            scope,
            done,
            label,
            record: whole,
            next,
        } => field_known(alloc, scope, done, label, &whole, next, value),
        Frame::Member { label } => given(member_of(alloc, &value, &label)),
        Frame::IndexedBy { scope, place, at } => index_awaited(scope, place, &at, value),
        Frame::IndexOf { place, items } => given(item_of(place, &items, &value)),
        Frame::Hole {
            scope,
            place,
            before,
            text,
            next,
        } => hole_known(alloc, scope, place, before, &text, next, &value),
        Frame::Callee { scope, place, call } => callee_known(alloc, scope, place, &call, value),
        Frame::Argument {
            scope,
            place,
            called,
            done,
            label,
            call,
            next,
        } => {
            let done = with_argument(done, label, value)?;
            arguments_from(alloc, scope, place, called, done, &call, next)
        }
        Frame::Through { scope, pipe, next } => calls_from(scope, &pipe, next, value),
        Frame::PipedCallee {
            scope,
            place,
            input,
            call,
        } => {
            let of = Passed {
                input,
                callee: value,
            };
            piped_callee_known(alloc, scope, place, &call, of)
        }
        Frame::PipedArgument {
            scope,
            place,
            input,
            called,
            done,
            label,
            call,
            next,
        } => {
            let done = with_argument(done, label, value)?;
            let of = Passed {
                input,
                callee: called,
            };
            piped_from(alloc, scope, place, of, done, &call, next)
        }
        Frame::Default { entry, label } => bound(alloc, entry, label, value),
        Frame::Assigned { entry, label } => assigned(alloc, entry, label, value),
    }
}

/// The test of an `if` is known.
fn branched(scope: Scope, yes: Expr, no: Expr, value: &Value) -> Result<Next, Stop>
    ensures { (test : Tests) → Leads (resumed_left test (plain.branch (scope_of scope) (tree_of yes) (tree_of no)) (val value.now)) test result }
{
    match truth_in(value) {
        Ok(holds) => Ok(Next::Go(Control::Eval {
            scope,
            expr: chosen(holds, yes, no),
        })),
        Err(stop) => Err(stop),
    }
}

fn chosen(holds: bool, yes: Expr, no: Expr) -> Expr
    ensures { result ≡ (if holds then yes else no) }
{
    if holds { yes } else { no }
}

/// What has an item is known.
fn index_awaited(scope: Scope, place: Place, at: &Expr, items: Value) -> Result<Next, Stop>
    ensures { (test : Tests) → Leads (resumed_left test (plain.indexed_by (scope_of scope) place (tree_of at.now)) (val items)) test result }
{
    let next = awaited(scope, at, Frame::IndexOf { place, items })?;
    Ok(next)
}
