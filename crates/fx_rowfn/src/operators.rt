//! Operators between operands.
ghost use Rattle.std.specs.Prelude.{◌≡◌, ◌+◌, ◌<◌, ◌^◌, IfOk};
ghost use Rattle.fx_ast.specs.Shape.{tree_of};
ghost use Rattle.fx_ast.specs.Tree.{more_links};
ghost use Rattle.fx_meaning.specs.Meaning.{Tests, means_links};
ghost use Rattle.fx_meaning.specs.Operators.{operate};
ghost use Rattle.fx_meaning.specs.Value.{Val};
ghost use Rattle.fx_rowfn.specs.Frame as plain;
ghost use Rattle.fx_rowfn.specs.Frame.{calls_above, unwound};
ghost use Rattle.fx_rowfn.specs.State.{Leads, frame_of, links_from, resumed_left, scope_of};
ghost use Rattle.fx_value.specs.Calls.{AreGiven, SamePatterns};
ghost use Rattle.fx_value.specs.Ends.{End, and_then};
ghost use Rattle.fx_values.specs.Known.{hears, numbers_of};
ghost use Rattle.fx_values.specs.Shape.{val};
ghost use Rattle.fx_values.specs.Told.{Tells};

use crate::eval::{awaited, given, left_of};
use crate::frame::{Control, Frame, Next};
use crate::parts::link_at;
use crate::scope::Scope;
use fx_ast::{Expr, Infix, Link};
use fx_base::{Memory, Patterns, Place};
use fx_meaning::Placed;
use fx_ops::BinaryOp;
use fx_values::{Stop, Value, binary_values, decides, logic, matched};
use std::alloc::Global;

/// The operators of a chain from a place on, behind their left operand.
pub(crate) fn linked(scope: Scope, chain: &Expr, next: usize, left: Value) -> Result<Next, Stop>
    ensures { (test : Tests) → Leads (resumed_left test (plain.left_of (scope_of scope) (links_from (tree_of chain.now) next)) (val left)) test result }
{
    match link_at(chain, next) {
        Some(operator) => one_linked(scope, chain, next, operator, left),
        None => given(Ok(left)),
    }
}

/// An operator. Where its left operand decides, it takes no right one.
fn one_linked(
    scope: Scope,
    chain: &Expr,
    next: usize,
    operator: &Link,
    left: Value,
) -> Result<Next, Stop>
    requires { next + 1 < 2 ^ 64 }
    ensures { (test : Tests) → Leads (resumed_left test (plain.left_of (scope_of scope) (more_links operator.now.place operator.now.op (tree_of operator.now.right) (links_from (tree_of chain.now) (next + 1)))) (val left)) test result }
{
    if decides(operator.op, &left) {
        let frame = left_of(&scope, chain, next + 1)?;
        return Ok(Next::Await(frame, Control::Give(left)));
    }
    let frame = right_of(&scope, chain, next + 1, operator, left)?;
    let next = awaited(scope, &operator.right, frame)?;
    Ok(next)
}

fn right_of(
    scope: &Scope,
    chain: &Expr,
    next: usize,
    operator: &Link,
    left: Value,
) -> Result<Frame, Memory>
    ensures { IfOk result (λ f. frame_of f ≡ plain.right_of (scope_of scope.now) operator.now.place operator.now.op (val left) (links_from (tree_of chain.now) next)) }
{
    Ok(Frame::RightOf {
        scope: scope.copy()?,
        place: operator.place,
        op: operator.op,
        left,
        chain: chain.copy()?,
        next,
    })
}

/// The operators of a chain from a place on, behind what the one before them makes.
pub(crate) fn linked_on(
    scope: Scope,
    chain: &Expr,
    next: usize,
    told: Result<Value, Stop>,
) -> Result<Next, Stop>
    ensures { (test : Tests) (end : End Val) → Tells val end told → Leads (λ limit fs. and_then (and_then end (means_links test (calls_above test limit fs) (scope_of scope).setting (links_from (tree_of chain.now) next) (scope_of scope).env)) (unwound test limit fs)) test result }
{
    match told {
        Ok(value) => linked(scope, chain, next, value),
        Err(stop) => Err(stop),
    }
}

/// What an operator makes of two operands.
pub(crate) fn operated<P: Patterns>(
    alloc: Global,
    known: &[Placed],
    patterns: &mut P,
    place: Place,
    op: Infix,
    left: &Value,
    right: &Value,
) -> Result<Value, Stop>
    requires given { AreGiven (numbers_of known.now) (P.built patterns.old) }
    ensures answer { Tells val (operate (hears known.entry.now (P.test patterns.old)) place op (val left.now) (val right.now)) result }
    ensures patterns { SamePatterns P.built P.refusals P.test patterns.old patterns.new }
{
    match op {
        Infix::Or => logic(true, left, right),
        Infix::And => logic(false, left, right),
        Infix::Eq => binary_values(alloc, place, BinaryOp::Eq, left, right),
        Infix::Ne => binary_values(alloc, place, BinaryOp::Ne, left, right),
        Infix::Lt => binary_values(alloc, place, BinaryOp::Lt, left, right),
        Infix::Le => binary_values(alloc, place, BinaryOp::Le, left, right),
        Infix::Gt => binary_values(alloc, place, BinaryOp::Gt, left, right),
        Infix::Ge => binary_values(alloc, place, BinaryOp::Ge, left, right),
        Infix::Like => matched(alloc, known, patterns, true, left, right),
        Infix::NotLike => matched(alloc, known, patterns, false, left, right),
        Infix::Add => binary_values(alloc, place, BinaryOp::Add, left, right),
        Infix::Sub => binary_values(alloc, place, BinaryOp::Sub, left, right),
        Infix::Mul => binary_values(alloc, place, BinaryOp::Mul, left, right),
        Infix::Div => binary_values(alloc, place, BinaryOp::Div, left, right),
        Infix::Rem => binary_values(alloc, place, BinaryOp::Rem, left, right),
    }
}
