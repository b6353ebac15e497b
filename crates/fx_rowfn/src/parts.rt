//! The parts of a tree, by their places in its node.
ghost use Rattle.std.specs.Prelude.{◌+◌, ◌<◌, ◌^◌};
ghost use Rattle.std.specs.Option.{IfSome};
ghost use Rattle.fx_ast.specs.Shape.{tree_of};
ghost use Rattle.fx_rowfn.specs.Parts.{LinkAt, PartAt, PropAt, TreeAt};
ghost use Rattle.fx_rowfn.specs.State.{links_from, parts_from, props_from, trees_from};

use fx_ast::{Expr, Link, Node, Part, Prop};

/// The item of an array or the call of a pipe at the place.
pub(crate) fn tree_at(of: &Expr, place: usize) -> Option<&Expr>
    ensures at { TreeAt (trees_from (tree_of of.now)) place result }
    ensures room { IfSome result (λ _. place + 1 < 2 ^ 64) }
{
    match of.node.get() {
        Node::Array(items) => items.as_slice().get(place),
        Node::Pipe { calls, .. } => calls.as_slice().get(place),
        _ => None,
    }
}

/// The property of a record or the argument of a call at the place.
pub(crate) fn prop_at(of: &Expr, place: usize) -> Option<&Prop>
    ensures at { PropAt (props_from (tree_of of.now)) place result }
    ensures room { IfSome result (λ _. place + 1 < 2 ^ 64) }
{
    match of.node.get() {
        Node::Rec { props, .. } => props.as_slice().get(place),
        Node::Call { args, .. } => args.as_slice().get(place),
        _ => None,
    }
}

/// The operator of a chain at the place.
pub(crate) fn link_at(of: &Expr, place: usize) -> Option<&Link>
    ensures at { LinkAt (links_from (tree_of of.now)) place result }
    ensures room { IfSome result (λ _. place + 1 < 2 ^ 64) }
{
    match of.node.get() {
        Node::Chain { rest, .. } => rest.as_slice().get(place),
        _ => None,
    }
}

/// The part of a text at the place.
pub(crate) fn part_at(of: &Expr, place: usize) -> Option<&Part>
    ensures at { PartAt (parts_from (tree_of of.now)) place result }
    ensures room { IfSome result (λ _. place + 1 < 2 ^ 64) }
{
    match of.node.get() {
        Node::Text(parts) => parts.as_slice().get(place),
        _ => None,
    }
}
