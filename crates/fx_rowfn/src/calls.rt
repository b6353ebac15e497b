//! Calls: their arguments in the order written, and what is called with them.
ghost use Rattle.std.specs.Prelude.{◌≡◌, IfOk, ℤ, map};
ghost use Rattle.fx_ast.specs.Places.{first_place};
ghost use Rattle.fx_ast.specs.Shape.{prop, tree_of};
ghost use Rattle.fx_ast.specs.Tree.{call};
ghost use Rattle.fx_base.specs.declared.place.Place.{Place};
ghost use Rattle.fx_meaning.specs.Meaning as meaning;
ghost use Rattle.fx_meaning.specs.Meaning.{Tests};
ghost use Rattle.fx_meaning.specs.Value.{native, push};
ghost use Rattle.fx_rowfn.specs.Calls.{applied_left, args_left, enters_left};
ghost use Rattle.fx_rowfn.specs.Frame as plain;
ghost use Rattle.fx_rowfn.specs.State.{Leads, frame_of, props_from, resumed_left, scope_of, shape_left};
ghost use Rattle.fx_values.specs.Shape.{closed, closure_val, slot, slots_of, val};

use crate::eval::{awaited, given};
use crate::frame::{Frame, Next};
use crate::parts::prop_at;
use crate::scope::Scope;
use crate::slots::slot_of;
use crate::takes::{takes, takes_native};
use fx_ast::{Expr, Node, Prop};
use fx_base::{List, Memory, Place, Text};
use fx_meaning::{Native, Setting};
use fx_values::{Closure, Slot, Stop, Value, native_call};
use std::alloc::Global;
use std::rc::Rc;

/// The first step of a call.
pub(crate) fn called(scope: Scope, whole: &Expr, callee: &Expr) -> Result<Next, Stop>
    ensures { (test : Tests) → Leads (shape_left test (scope_of scope) whole.now.place (call (tree_of callee.now) (props_from (tree_of whole.now) 0))) test result }
{
    let frame = callee_frame(&scope, whole, callee)?;
    let next = awaited(scope, callee, frame)?;
    Ok(next)
}

fn callee_frame(scope: &Scope, whole: &Expr, callee: &Expr) -> Result<Frame, Memory>
    ensures { IfOk result (λ f. frame_of f ≡ plain.callee (scope_of scope.now) (first_place (tree_of callee.now)) (props_from (tree_of whole.now) 0)) }
{
    Ok(Frame::Callee {
        scope: scope.copy()?,
        place: first_place(callee),
        call: whole.copy()?,
    })
}

/// The place of the first token of an expression.
pub(crate) fn first_place(of: &Expr) -> Place
    ensures { result ≡ first_place (tree_of of.now) }
{
    match of.node.get() {
        Node::Index { of, .. } => first_place(of),
        _ => of.place,
    }
}

/// What is called is known.
pub(crate) fn callee_known(
    alloc: Global,
    scope: Scope,
    place: Place,
    whole: &Expr,
    callee: Value,
) -> Result<Next, Stop>
    ensures { (test : Tests) → Leads (resumed_left test (plain.callee (scope_of scope) place (props_from (tree_of whole.now) 0)) (val callee)) test result }
{
    arguments_from(alloc, scope, place, callee, List::empty(alloc), whole, 0)
}

/// An argument behind those that stand is known.
pub(crate) fn with_argument(
    done: List<Slot>,
    label: Text,
    value: Value,
) -> Result<List<Slot>, Memory>
    ensures { IfOk result (λ more. slots_of (map slot more) ≡ push (slots_of (map slot done)) label (val value)) }
{
    let mut done = done;
    done.push(slot_of(label, value))?;
    Ok(done)
}

/// The arguments from a place on, behind those that stand, and then the call.
pub(crate) fn arguments_from(
    alloc: Global,
    scope: Scope,
    place: Place,
    callee: Value,
    done: List<Slot>,
    whole: &Expr,
    next: usize,
) -> Result<Next, Stop>
    ensures { (test : Tests) → Leads (args_left test (scope_of scope) place (val callee) (props_from (tree_of whole.now) next) (slots_of (map slot done))) test result }
{
    match prop_at(whole, next) {
        Some(first) => {
            let frame = argument(&scope, place, callee, done, first, whole, next + 1)?;
            let next = awaited(scope, &first.value, frame)?;
            Ok(next)
        }
        None => applied(alloc, place, scope.setting.as_ref(), done, &callee),
    }
}

fn argument(
    scope: &Scope,
    place: Place,
    called: Value,
    done: List<Slot>,
    first: &Prop,
    whole: &Expr,
    next: usize,
) -> Result<Frame, Memory>
    ensures { IfOk result (λ f. frame_of f ≡ plain.argument (scope_of scope.now) place (val called) (slots_of (map slot done)) first.now.label (props_from (tree_of whole.now) next)) }
{
    Ok(Frame::Argument {
        scope: scope.copy()?,
        place,
        called,
        done,
        label: first.label.copy()?,
        call: whole.copy()?,
        next,
    })
}

/// A value is applied to arguments.
pub(crate) fn applied(
    alloc: Global,
    place: Place,
    setting: &Setting,
    args: List<Slot>,
    callee: &Value,
) -> Result<Next, Stop>
    ensures { (test : Tests) → Leads (applied_left test place setting.now.moment (slots_of (map slot args)) (val callee.now)) test result }
{
    match callee {
        Value::Fun(closure) => entering(alloc, closure, args),
        Value::Native(which) => answered(alloc, place, setting, args.as_slice(), *which),
        _ => Err(Stop::Stuck),
    }
}

fn entering(alloc: Global, closure: &Rc<Closure>, args: List<Slot>) -> Result<Next, Stop>
    ensures { (test : Tests) (place : Place) (moment : ℤ) → Leads (applied_left test place moment (slots_of (map slot args)) (closure_val (closed closure.now.value))) test result }
{
    if !are_taken(closure.as_ref(), args.as_slice()) {
        return Err(Stop::Stuck);
    }
    entered(alloc, closure, args)
}

fn are_taken(closure: &Closure, args: &[Slot]) -> bool
    ensures { result ≡ meaning.takes (closed closure.now).params (slots_of (map slot args.now)) }
{
    takes(closure.params.as_slice(), args)
}

fn entered(alloc: Global, closure: &Rc<Closure>, args: List<Slot>) -> Result<Next, Stop>
    ensures { (test : Tests) → Leads (enters_left test (closed closure.now.value) (slots_of (map slot args))) test result }
{
    let closure = closure.clone()?;
    let args = Rc::new(alloc, args)?;
    Ok(Next::Enter(closure, args))
}

/// A function of the language gives its value at once.
fn answered(
    alloc: Global,
    place: Place,
    setting: &Setting,
    args: &[Slot],
    which: Native,
) -> Result<Next, Stop>
    ensures { (test : Tests) → Leads (applied_left test place setting.now.moment (slots_of (map slot args.now)) (native which)) test result }
{
    if !takes_native(which, args) {
        return Err(Stop::Stuck);
    }
    given(native_call(alloc, place, setting.moment, args, which))
}
