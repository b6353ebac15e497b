//! Pipes: calls, each with what came before as one argument more.
ghost use Rattle.std.specs.Prelude.{◌≡◌, IfOk, map, option_map};
ghost use Rattle.fx_ast.specs.Places.{first_place};
ghost use Rattle.fx_ast.specs.Shape.{param, params_of, tree_of};
ghost use Rattle.fx_ast.specs.Tree.{more_trees, pipe};
ghost use Rattle.fx_meaning.specs.Meaning as meaning;
ghost use Rattle.fx_meaning.specs.Meaning.{Tests};
ghost use Rattle.fx_rowfn.specs.Calls.{is_piped, piped_args_left, piped_by_left, piped_left, pipes_left};
ghost use Rattle.fx_rowfn.specs.Frame as plain;
ghost use Rattle.fx_rowfn.specs.State.{Leads, frame_of, props_from, resumed_left, scope_of, shape_left, trees_from};
ghost use Rattle.fx_values.specs.Shape.{closed, slot, slots_of, val};

use crate::calls::{applied, first_place, with_argument};
use crate::eval::awaited;
use crate::frame::{Control, Frame, Next};
use crate::parts::{prop_at, tree_at};
use crate::scope::Scope;
use crate::takes::is_given;
use fx_ast::{Expr, Node, Param, ParamKind, Prop};
use fx_base::{List, Memory, Place, Text};
use fx_meaning::{Setting, pipe_label};
use fx_values::{Closure, Slot, Stop, Value};
use std::alloc::Global;

/// What goes into a call by the pipe, and what is called.
#[derive(Drop)]
pub(crate) struct Passed {
    pub(crate) input: Value,
    pub(crate) callee: Value,
}

/// The first step of a pipe.
pub(crate) fn piped(scope: Scope, whole: &Expr, first: &Expr) -> Result<Next, Stop>
    ensures { (test : Tests) → Leads (shape_left test (scope_of scope) whole.now.place (pipe (tree_of first.now) (trees_from (tree_of whole.now) 0))) test result }
{
    let frame = through(&scope, whole, 0)?;
    let next = awaited(scope, first, frame)?;
    Ok(next)
}

fn through(scope: &Scope, whole: &Expr, next: usize) -> Result<Frame, Memory>
    ensures { IfOk result (λ f. frame_of f ≡ plain.through (scope_of scope.now) (trees_from (tree_of whole.now) next)) }
{
    Ok(Frame::Through {
        scope: scope.copy()?,
        pipe: whole.copy()?,
        next,
    })
}

/// What goes into the calls of a pipe from a place on is known.
pub(crate) fn calls_from(
    scope: Scope,
    whole: &Expr,
    next: usize,
    input: Value,
) -> Result<Next, Stop>
    ensures { (test : Tests) → Leads (resumed_left test (plain.through (scope_of scope) (trees_from (tree_of whole.now) next)) (val input)) test result }
{
    match tree_at(whole, next) {
        Some(first) => call_first(scope, first, whole, next + 1, input),
        None => Ok(Next::Go(Control::Give(input))),
    }
}

/// A call of a pipe, before those from a place on.
fn call_first(
    scope: Scope,
    first: &Expr,
    whole: &Expr,
    next: usize,
    input: Value,
) -> Result<Next, Stop>
    ensures { (test : Tests) → Leads (pipes_left test (scope_of scope) (more_trees (tree_of first.now) (trees_from (tree_of whole.now) next)) (val input)) test result }
{
    match first.node.get() {
        Node::Call { callee, .. } => {
            let below = through(&scope, whole, next)?;
            let frame = piped_callee(&scope, first, callee, input)?;
            let expr = callee.copy()?;
            Ok(Next::AwaitTwo(below, frame, Control::Eval { scope, expr }))
        }
        _ => Err(Stop::Stuck),
    }
}

fn piped_callee(scope: &Scope, call: &Expr, callee: &Expr, input: Value) -> Result<Frame, Memory>
    ensures { IfOk result (λ f. frame_of f ≡ plain.piped_callee (scope_of scope.now) (first_place (tree_of callee.now)) (val input) (props_from (tree_of call.now) 0)) }
{
    Ok(Frame::PipedCallee {
        scope: scope.copy()?,
        place: first_place(callee),
        input,
        call: call.copy()?,
    })
}

/// What is called in a pipe is known.
pub(crate) fn piped_callee_known(
    alloc: Global,
    scope: Scope,
    place: Place,
    call: &Expr,
    of: Passed,
) -> Result<Next, Stop>
    ensures { (test : Tests) → Leads (resumed_left test (plain.piped_callee (scope_of scope) place (val of.input) (props_from (tree_of call.now) 0)) (val of.callee)) test result }
{
    piped_from(alloc, scope, place, of, List::empty(alloc), call, 0)
}

/// The arguments from a place on, behind those that stand, and then the call.
pub(crate) fn piped_from(
    alloc: Global,
    scope: Scope,
    place: Place,
    of: Passed,
    done: List<Slot>,
    call: &Expr,
    next: usize,
) -> Result<Next, Stop>
    ensures { (test : Tests) → Leads (piped_args_left test (scope_of scope) place (val of.input) (val of.callee) (props_from (tree_of call.now) next) (slots_of (map slot done))) test result }
{
    match prop_at(call, next) {
        Some(first) => {
            let frame = piped_argument(&scope, place, of, done, first, call, next + 1)?;
            let next = awaited(scope, &first.value, frame)?;
            Ok(next)
        }
        None => piped_to(alloc, place, scope.setting.as_ref(), done, of),
    }
}

fn piped_argument(
    scope: &Scope,
    place: Place,
    of: Passed,
    done: List<Slot>,
    first: &Prop,
    call: &Expr,
    next: usize,
) -> Result<Frame, Memory>
    ensures { IfOk result (λ f. frame_of f ≡ plain.piped_argument (scope_of scope.now) place (val of.input) (val of.callee) (slots_of (map slot done)) first.now.label (props_from (tree_of call.now) next)) }
{
    let Passed { input, callee } = of;
    Ok(Frame::PipedArgument {
        scope: scope.copy()?,
        place,
        input,
        called: callee,
        done,
        label: first.label.copy()?,
        call: call.copy()?,
        next,
    })
}

/// A value is applied to arguments and to what comes by the pipe, whose label has no argument.
fn piped_to(
    alloc: Global,
    place: Place,
    setting: &Setting,
    args: List<Slot>,
    of: Passed,
) -> Result<Next, Stop>
    ensures { (test : Tests) → Leads (piped_left test place setting.now.moment (slots_of (map slot args)) (val of.input) (val of.callee)) test result }
{
    let found = pipe_of(alloc, &of.callee)?;
    match found {
        Some(label) => piped_by(alloc, place, setting, args, label, of),
        None => Err(Stop::Stuck),
    }
}

fn piped_by(
    alloc: Global,
    place: Place,
    setting: &Setting,
    args: List<Slot>,
    label: Text,
    of: Passed,
) -> Result<Next, Stop>
    ensures { (test : Tests) → Leads (piped_by_left test place setting.now.moment (slots_of (map slot args)) (val of.input) label (val of.callee)) test result }
{
    if is_given(label.as_str(), args.as_slice()) {
        return Err(Stop::Stuck);
    }
    let Passed { input, callee } = of;
    let args = with_argument(args, label, input)?;
    applied(alloc, place, setting, args, &callee)
}

/// The label of what the value takes by the pipe.
fn pipe_of(alloc: Global, callee: &Value) -> Result<Option<Text>, Memory>
    ensures { IfOk result (λ label. label ≡ meaning.pipe_label (val callee.now)) }
{
    match callee {
        Value::Fun(closure) => pipe_param(closure.as_ref()),
        Value::Native(which) => text_of(alloc, pipe_label(*which)),
        _ => Ok(None),
    }
}

fn text_of(alloc: Global, label: Option<&str>) -> Result<Option<Text>, Memory>
    ensures { IfOk result (λ text. text ≡ option_map (λ x. x.now) label.entry) }
{
    match label {
        Some(label) => Ok(Some(Text::of(alloc, label)?)),
        None => Ok(None),
    }
}

fn pipe_param(closure: &Closure) -> Result<Option<Text>, Memory>
    ensures { IfOk result (λ label. label ≡ meaning.pipe_of (closed closure.now).params) }
{
    match first_pipe(closure.params.as_slice()) {
        Some(first) => Ok(Some(first.label.copy()?)),
        None => Ok(None),
    }
}

fn first_pipe(params: &[Param]) -> Option<&Param>
    ensures { option_map (λ p. p.now.label) result ≡ meaning.pipe_of (params_of (map param params.now)) }
{
    for first in params {
        if takes_pipe(first) {
            return Some(first);
        }
    }
    None
}

fn takes_pipe(of: &Param) -> bool
    ensures { result ≡ is_piped (param of.now).default }
{
    match &of.default {
        ParamKind::Pipe => true,
        ParamKind::Required => false,
        ParamKind::Value(_) => false,
    }
}
