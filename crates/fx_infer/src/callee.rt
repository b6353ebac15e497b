//! What a call calls.

ghost use Rattle.std.specs.Prelude.{◌≡◌, false, IfOk};
ghost use Rattle.fx_base.specs.declared.place.Place.{Place};
ghost use Rattle.fx_ast.specs.Shape.{tree_of};
ghost use Rattle.fx_ast.specs.Tree.{tree, member};
ghost use Rattle.fx_types.specs.Ground.{listed};
ghost use Rattle.fx_infer.specs.Callees.{is_literal, IsCalledAs, IsCallee, IsCalleeName};
ghost use Rattle.fx_infer.specs.Environment.{scope};
ghost use Rattle.fx_infer.specs.Names.{env_under, labels_among};
ghost use Rattle.fx_infer.specs.Typing.{callee};

use crate::members::package;
use crate::scope::{Bound, Name, newest};
use crate::stop::Stop;
use fx_ast::{Expr, Node};
use fx_base::{Memory, Text};
use fx_schemes::{BuiltinId, builtin};
use std::alloc::Global;

/// What a call calls.
#[derive(Clone, Copy)]
pub(crate) enum Callee {
    /// A built-in, as itself.
    Native(BuiltinId),
    /// A function literal, by its parameters.
    Literal,
    /// The value that it is.
    Value,
}

/// What a call of the expression calls.
pub(crate) fn callee_of(alloc: Global, names: &[Name<'_>], expr: &Expr) -> Result<Callee, Stop>
    ensures { IfOk result (IsCallee names.now expr.now) }
{
    match expr.node.get() {
        Node::Name(label) => Ok(callee_of_name(alloc, names, label)?),
        Node::Member { of, label } => callee_of_member(names, of, label),
        _ => {
            if is_literal(expr) {
                Ok(Callee::Literal)
            } else {
                Ok(Callee::Value)
            }
        }
    }
}

/// What a call of the member calls. Of built-ins of packages it isn't told yet.
fn callee_of_member(names: &[Name<'_>], of: &Expr, label: &Text) -> Result<Callee, Stop>
    ensures { (place : Place) → IfOk result (IsCalledAs (λ s. callee (tree place (member (tree_of of.now) label.now)) (scope (env_under s names.now)))) }
{
    let path = match package(names, of) {
        Some(path) => path,
        None => return Ok(Callee::Value),
    };
    match builtin(path, label) {
        Some(_) => Err(Stop::NotYet),
        None => Ok(Callee::Value),
    }
}

/// What a call of the name calls.
pub(crate) fn callee_of_name(
    alloc: Global,
    names: &[Name<'_>],
    label: &Text,
) -> Result<Callee, Memory>
    ensures { IfOk result (IsCalleeName names.now label.now) }
{
    let place = match newest(names, label) {
        Some(place) => place,
        None => return callee_unbound(alloc, names, label),
    };
    let found = names[place];
    match found.bound {
        Bound::Param(_) => Ok(Callee::Value),
        Bound::Imported(_) => Ok(Callee::Value),
        Bound::Assigned(value) => {
            if is_literal(value) {
                Ok(Callee::Literal)
            } else {
                Ok(Callee::Value)
            }
        }
    }
}

/// What a call of a name calls that nothing binds.
fn callee_unbound(alloc: Global, names: &[Name<'_>], label: &Text) -> Result<Callee, Memory>
    requires { listed label.now (labels_among names.now) ≡ false }
    ensures { IfOk result (IsCalleeName names.now label.now) }
{
    let package = Text::of(alloc, "")?;
    match builtin(&package, label) {
        Some(id) => Ok(Callee::Native(id)),
        None => Ok(Callee::Value),
    }
}

/// Whether it is a function literal, maybe in parentheses.
fn is_literal(expr: &Expr) -> bool
    ensures { result ≡ is_literal (tree_of expr.now) }
{
    match expr.node.get() {
        Node::Fun { .. } => true,
        Node::Paren(inner) => is_literal(inner),
        _ => false,
    }
}
