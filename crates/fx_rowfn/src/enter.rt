//! The parameters and the assignments of a call get their values.
ghost use Rattle.std.specs.Prelude.{◌≡◌, ◌+◌, ◌<◌, ◌^◌, None, IfOk, map, option_map};
ghost use Rattle.std.specs.Option.{IfSome};
ghost use Rattle.fx_ast.specs.Shape.{param, prop, tree_of};
ghost use Rattle.fx_ast.specs.Tree.{more_params, more_props};
ghost use Rattle.fx_meaning.specs.Meaning.{Tests};
ghost use Rattle.fx_meaning.specs.Value.{look};
ghost use Rattle.fx_rowfn.specs.Calls.{ParamAt, binds_left, lets_left, params_left, sets_left};
ghost use Rattle.fx_rowfn.specs.Parts.{PropAt};
ghost use Rattle.fx_rowfn.specs.State.{Leads, args_of, control_left, frame_of, params_past, props_past, resumed_left, scope_of, tree_left};
ghost use Rattle.fx_rowfn.specs.declared.frame.Control.TheVariants as control;
ghost use Rattle.fx_rowfn.specs.declared.frame.Frame.TheVariants as frame;
ghost use Rattle.fx_values.specs.Shape.{closed, slot, slots_of, val};

use crate::eval::awaited;
use crate::frame::{Control, Entry, Frame, Next};
use crate::scope::Scope;
use fx_ast::{Param, ParamKind, Prop};
use fx_base::{List, Memory, Text};
use fx_values::{Closure, Slot, Stop, Value, look};
use std::alloc::Global;
use std::rc::Rc;

/// The parameters from the next one on get their values.
pub(crate) fn bind(alloc: Global, entry: Entry) -> Result<Next, Stop>
    ensures { (test : Tests) → Leads (control_left test (control.Bind entry)) test result }
{
    let closure = entry.closure.clone()?;
    match param_at(closure.as_ref(), entry.next) {
        Some(first) => {
            let place = entry.next + 1;
            bind_first(alloc, first, moved(entry, place))
        }
        None => Ok(Next::Go(Control::Assign(moved(entry, 0)))),
    }
}

fn moved(entry: Entry, next: usize) -> Entry
    ensures { result ≡ record { closure = entry.closure; args = entry.args; scope = entry.scope; next = next } }
{
    let Entry {
        closure,
        args,
        scope,
        ..
    } = entry;
    Entry {
        closure,
        args,
        scope,
        next,
    }
}

fn param_at(closure: &Closure, place: usize) -> Option<&Param>
    ensures at { ParamAt (λ n. params_past n (closed closure.now).params) place result }
    ensures room { IfSome result (λ _. place + 1 < 2 ^ 64) }
{
    closure.params.as_slice().get(place)
}

fn let_at(closure: &Closure, place: usize) -> Option<&Prop>
    ensures at { PropAt (λ n. props_past n (closed closure.now).lets) place result }
    ensures room { IfSome result (λ _. place + 1 < 2 ^ 64) }
{
    closure.body.lets.as_slice().get(place)
}

/// A parameter, before those that the entry still has, gets its value.
fn bind_first(alloc: Global, first: &Param, entry: Entry) -> Result<Next, Stop>
    ensures { (test : Tests) → Leads (binds_left test (more_params (param first.now).label (param first.now).default (params_left entry)) entry) test result }
{
    let found = argument_of(&first.label, entry.args.as_ref().as_slice())?;
    match found {
        Some(value) => {
            let label = first.label.copy()?;
            bound(alloc, entry, label, value)
        }
        None => bind_default(alloc, first, entry),
    }
}

fn argument_of(label: &Text, args: &[Slot]) -> Result<Option<Value>, Memory>
    ensures { IfOk result (λ found. option_map val found ≡ look label.now (slots_of (map slot args.now))) }
{
    match look(label.as_str(), args) {
        Some(value) => Ok(Some(value.copy()?)),
        None => Ok(None),
    }
}

/// A default is evaluated where the function was.
fn bind_default(alloc: Global, first: &Param, entry: Entry) -> Result<Next, Stop>
    requires none { look first.now.label (args_of entry) ≡ None }
    ensures { (test : Tests) → Leads (binds_left test (more_params (param first.now).label (param first.now).default (params_left entry)) entry) test result }
{
    match &first.default {
        ParamKind::Required => Err(Stop::Stuck),
        ParamKind::Pipe => Err(Stop::Stuck),
        ParamKind::Value(expr) => {
            let label = first.label.copy()?;
            let scope = captured_in(alloc, entry.closure.as_ref(), &entry.scope)?;
            let next = awaited(scope, expr, Frame::Default { entry, label })?;
            Ok(next)
        }
    }
}

/// Where the function stood.
fn captured_in(alloc: Global, closure: &Closure, scope: &Scope) -> Result<Scope, Memory>
    ensures { IfOk result (λ s. scope_of s ≡ record { env = (closed closure.now).captured; setting = (scope_of scope.now).setting }) }
{
    Ok(Scope {
        outer: closure.captured.clone()?,
        inner: Rc::new(alloc, List::empty(alloc))?,
        setting: scope.setting.clone()?,
    })
}

/// The value of a parameter is known.
pub(crate) fn bound(alloc: Global, entry: Entry, label: Text, value: Value) -> Result<Next, Stop>
    ensures { (test : Tests) → Leads (resumed_left test (frame_of (frame.Default entry label)) (val value)) test result }
{
    let Entry {
        closure,
        args,
        scope,
        next,
    } = entry;
    let scope = scope.extended(alloc, label, value)?;
    Ok(Next::Go(Control::Bind(Entry {
        closure,
        args,
        scope,
        next,
    })))
}

/// The assignments from the next one on get their values.
pub(crate) fn assign(entry: Entry) -> Result<Next, Stop>
    ensures { (test : Tests) → Leads (control_left test (control.Assign entry)) test result }
{
    let closure = entry.closure.clone()?;
    match let_at(closure.as_ref(), entry.next) {
        Some(first) => {
            let place = entry.next + 1;
            assign_first(first, moved(entry, place))
        }
        None => result_of(entry.scope, closure.as_ref()),
    }
}

/// What the call gives, once its names have their values.
fn result_of(scope: Scope, closure: &Closure) -> Result<Next, Stop>
    ensures { (test : Tests) → Leads (tree_left test (scope_of scope) (closed closure.now).result) test result }
{
    let expr = closure.body.result.copy()?;
    Ok(Next::Go(Control::Eval { scope, expr }))
}

/// An assignment, before those that the entry still has, gets its value.
fn assign_first(first: &Prop, entry: Entry) -> Result<Next, Stop>
    ensures { (test : Tests) → Leads (sets_left test (more_props (prop first.now).label (prop first.now).value (lets_left entry)) entry) test result }
{
    let label = first.label.copy()?;
    let scope = entry.scope.copy()?;
    let next = awaited(scope, &first.value, Frame::Assigned { entry, label })?;
    Ok(next)
}

/// The value of an assignment is known.
pub(crate) fn assigned(alloc: Global, entry: Entry, label: Text, value: Value) -> Result<Next, Stop>
    ensures { (test : Tests) → Leads (resumed_left test (frame_of (frame.Assigned entry label)) (val value)) test result }
{
    let Entry {
        closure,
        args,
        scope,
        next,
    } = entry;
    let scope = scope.extended(alloc, label, value)?;
    Ok(Next::Go(Control::Assign(Entry {
        closure,
        args,
        scope,
        next,
    })))
}
