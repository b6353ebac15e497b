//! The first step of each form of expression.
ghost use Rattle.std.specs.Prelude.{◌≡◌, IfOk};
ghost use Rattle.fx_ast.specs.Shape.{links_of, link, props_of, prop, trees_of, shape_of, tree_of};
ghost use Rattle.fx_ast.specs.Tree.{array, call, chain, if_then, index, member, pipe, prefix};
ghost use Rattle.fx_meaning.specs.Meaning.{Tests};
ghost use Rattle.fx_meaning.specs.Ends.{pure};
ghost use Rattle.fx_meaning.specs.Value.{Val, cell, span};
ghost use Rattle.fx_value.specs.declared.scalar.Scalar.TheVariants as scalar;
ghost use Rattle.fx_rowfn.specs.Frame as plain;
ghost use Rattle.fx_rowfn.specs.Frame.{unwound};
ghost use Rattle.fx_rowfn.specs.State.{Leads, frame_of, links_from, scope_of, shape_left, tree_left};
ghost use Rattle.fx_rowfn.specs.declared.frame.Control.TheVariants as control;
ghost use Rattle.fx_rowfn.specs.declared.frame.Next.TheVariants as next;
ghost use Rattle.fx_value.specs.Ends.{End, and_then};
ghost use Rattle.fx_values.specs.Shape.{val};
ghost use Rattle.fx_values.specs.Told.{Tells};

use crate::arrays::arrayed;
use crate::calls::called;
use crate::frame::{Control, Frame, Next};
use crate::functions::function;
use crate::names::{named, patterned};
use crate::pipes::piped;
use crate::records::recorded;
use crate::scope::Scope;
use crate::texts::texted;
use fx_ast::{Expr, Node, Prefix};
use fx_base::{Memory, Place, Text};
use fx_time::Span;
use fx_value::Scalar;
use fx_values::{Stop, Value};
use std::alloc::Global;

/// A value is there.
pub(crate) fn given(told: Result<Value, Stop>) -> Result<Next, Stop>
    ensures { (test : Tests) (end : End Val) → Tells val end told → Leads (λ limit fs. and_then end (unwound test limit fs)) test result }
{
    match told {
        Ok(value) => Ok(Next::Go(Control::Give(value))),
        Err(stop) => Err(stop),
    }
}

/// The value of an expression is awaited by a frame.
pub(crate) fn awaited(scope: Scope, expr: &Expr, frame: Frame) -> Result<Next, Memory>
    ensures { IfOk result (λ n. n ≡ next.Await frame (control.Eval scope expr.now)) }
{
    let expr = expr.copy()?;
    Ok(Next::Await(frame, Control::Eval { scope, expr }))
}

/// What stands in parentheses.
fn inner(scope: Scope, of: &Expr) -> Result<Next, Stop>
    ensures { (test : Tests) → Leads (tree_left test (scope_of scope) (tree_of of.now)) test result }
{
    let expr = of.copy()?;
    Ok(Next::Go(Control::Eval { scope, expr }))
}

/// An operator before its operand.
fn signed(scope: Scope, place: Place, sign: Prefix, of: &Expr) -> Result<Next, Stop>
    ensures { (test : Tests) → Leads (shape_left test (scope_of scope) place (prefix sign (tree_of of.now))) test result }
{
    let next = awaited(scope, of, Frame::Sign { place, sign })?;
    Ok(next)
}

fn decision(scope: Scope, place: Place, test: &Expr, yes: &Expr, no: &Expr) -> Result<Next, Stop>
    ensures { (t : Tests) → Leads (shape_left t (scope_of scope) place (if_then (tree_of test.now) (tree_of yes.now) (tree_of no.now))) t result }
{
    let frame = branch(&scope, yes, no)?;
    let next = awaited(scope, test, frame)?;
    Ok(next)
}

fn branch(scope: &Scope, yes: &Expr, no: &Expr) -> Result<Frame, Memory>
    ensures { IfOk result (λ f. frame_of f ≡ plain.branch (scope_of scope.now) (tree_of yes.now) (tree_of no.now)) }
{
    Ok(Frame::Branch {
        scope: scope.copy()?,
        yes: yes.copy()?,
        no: no.copy()?,
    })
}

fn member(scope: Scope, place: Place, of: &Expr, label: &Text) -> Result<Next, Stop>
    ensures { (test : Tests) → Leads (shape_left test (scope_of scope) place (member (tree_of of.now) label.now)) test result }
{
    let label = label.copy()?;
    let next = awaited(scope, of, Frame::Member { label })?;
    Ok(next)
}

fn indexed(scope: Scope, place: Place, of: &Expr, at: &Expr) -> Result<Next, Stop>
    ensures { (test : Tests) → Leads (shape_left test (scope_of scope) place (index (tree_of of.now) (tree_of at.now))) test result }
{
    let frame = indexed_by(&scope, place, at)?;
    let next = awaited(scope, of, frame)?;
    Ok(next)
}

fn indexed_by(scope: &Scope, place: Place, at: &Expr) -> Result<Frame, Memory>
    ensures { IfOk result (λ f. frame_of f ≡ plain.indexed_by (scope_of scope.now) place (tree_of at.now)) }
{
    Ok(Frame::IndexedBy {
        scope: scope.copy()?,
        place,
        at: at.copy()?,
    })
}

/// Operators behind a first operand.
fn chained(scope: Scope, whole: &Expr, first: &Expr) -> Result<Next, Stop>
    ensures { (test : Tests) → Leads (shape_left test (scope_of scope) whole.now.place (chain (tree_of first.now) (links_from (tree_of whole.now) 0))) test result }
{
    let frame = left_of(&scope, whole, 0)?;
    let next = awaited(scope, first, frame)?;
    Ok(next)
}

pub(crate) fn left_of(scope: &Scope, chain: &Expr, next: usize) -> Result<Frame, Memory>
    ensures { IfOk result (λ f. frame_of f ≡ plain.left_of (scope_of scope.now) (links_from (tree_of chain.now) next)) }
{
    Ok(Frame::LeftOf {
        scope: scope.copy()?,
        chain: chain.copy()?,
        next,
    })
}

/// The first step of an expression.
pub(crate) fn evaluated(alloc: Global, scope: Scope, expr: &Expr) -> Result<Next, Stop>
    ensures { (test : Tests) → Leads (tree_left test (scope_of scope) (tree_of expr.now)) test result }
{
    match expr.node.get() {
        Node::Int(n) => constant(integer(n)),
        Node::Time(t) => constant(moment(t)),
        Node::Span(d) => duration(*d),
        Node::Text(_) => texted(alloc, scope, expr),
        Node::Pattern(text) => patterned(&scope, expr.place, text),
        Node::Name(label) => named(alloc, &scope, expr.place, label),
        Node::Paren(of) => inner(scope, of),
        Node::Array(_) => arrayed(alloc, scope, expr),
        Node::Rec { base, .. } => recorded(alloc, scope, expr, base),
        Node::Member { of, label } => member(scope, expr.place, of, label),
        Node::Index { of, at } => indexed(scope, expr.place, of, at),
        Node::Chain { first, .. } => chained(scope, expr, first),
        Node::Prefix { sign, of } => signed(scope, expr.place, *sign, of),
        Node::If { test, yes, no } => decision(scope, expr.place, test, yes, no),
        Node::Fun { params, body } => function(alloc, &scope, expr.place, params, body),
        Node::Call { callee, .. } => called(scope, expr, callee),
        Node::Pipe { first, .. } => piped(scope, expr, first),
    }
}

/// A scalar as it stands.
fn constant(value: Scalar) -> Result<Next, Stop>
    ensures { (test : Tests) → Leads (λ limit fs. and_then (pure (cell value)) (unwound test limit fs)) test result }
{
    given(Ok(Value::Cell(value)))
}

fn integer(n: &i64) -> Scalar
    ensures { result ≡ scalar.Int n.now }
{
    Scalar::Int(*n)
}

fn moment(t: &i64) -> Scalar
    ensures { result ≡ scalar.Time t.now }
{
    Scalar::Time(*t)
}

/// A duration as it stands.
fn duration(d: Span) -> Result<Next, Stop>
    ensures { (test : Tests) → Leads (λ limit fs. and_then (pure (span d)) (unwound test limit fs)) test result }
{
    given(Ok(Value::Span(d)))
}
