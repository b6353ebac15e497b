//! Which names are free in a tree.
ghost use Rattle.std.specs.Prelude.{◌≡◌, map};
ghost use Rattle.fx_ast.specs.Free.{free, free_fun, free_lets, free_links, free_parts, free_params, free_props, free_shape, free_trees, is_base, name_of};
ghost use Rattle.fx_ast.specs.Free as specs;
ghost use Rattle.fx_rowfn.specs.Free.{in_part};
ghost use Rattle.fx_ast.specs.Shape.{body, default_of, link, links_of, param, params_of, part, parts_of, prop, props_of, shape_of, tree_of, trees_of};
ghost use Rattle.fx_base.specs.declared.place.Place.{Place};

use fx_ast::{Body, Expr, Link, Node, Param, ParamKind, Part, Prop};
use fx_base::{List, Text};

/// Whether the name is free in a function of these parameters and this body.
pub(crate) fn is_free(params: &List<Param>, of: &Body, name: &Text) -> bool
    ensures { result ≡ free_fun (params_of (map param params.now)) (body of.now).lets (body of.now).result (name_of name.now) }
{
    in_params(params.as_slice(), name) || (!is_bound(params.as_slice(), name) && in_body(of, name))
}

#[cycle(free)]
fn in_expr(of: &Expr, name: &Text) -> bool
    ensures { result ≡ free (tree_of of.now) (name_of name.now) }
{
    in_node(of.node.get(), name)
}

#[cycle(free)]
#[tactic(auto, using(crate::proofs::FreeLaws::shape_laws))]
fn in_node(of: &Node, name: &Text) -> bool
    ensures { (place : Place) → result ≡ free_shape place (shape_of of.now) (name_of name.now) }
{
    match of {
        Node::Int(_) | Node::Time(_) | Node::Span(_) | Node::Pattern(_) => false,
        Node::Text(parts) => in_parts(parts.as_slice(), name),
        Node::Name(other) => name == other,
        Node::Paren(of) => in_expr(of, name),
        Node::Array(items) => in_exprs(items.as_slice(), name),
        Node::Rec { base, props } => is_base(base, name) || in_props(props.as_slice(), name),
        Node::Fun { params, body } => {
            in_params(params.as_slice(), name)
                || (!is_bound(params.as_slice(), name) && in_body(body, name))
        }
        Node::Call { callee, args } => in_expr(callee, name) || in_props(args.as_slice(), name),
        Node::Pipe { first, calls } => in_expr(first, name) || in_exprs(calls.as_slice(), name),
        Node::Member { of, .. } => in_expr(of, name),
        Node::Index { of, at } => in_expr(of, name) || in_expr(at, name),
        Node::Chain { first, rest } => in_expr(first, name) || in_links(rest.as_slice(), name),
        Node::Prefix { of, .. } => in_expr(of, name),
        Node::If { test, yes, no } => {
            in_expr(test, name) || (in_expr(yes, name) || in_expr(no, name))
        }
    }
}

#[cycle(free)]
fn in_exprs(items: &[Expr], name: &Text) -> bool
    ensures { result ≡ free_trees (trees_of (map tree_of items.now)) (name_of name.now) }
{
    for first in items {
        if in_expr(first, name) {
            return true;
        }
    }
    false
}

#[cycle(free)]
fn in_parts(items: &[Part], name: &Text) -> bool
    ensures { result ≡ free_parts (parts_of (map part items.now)) (name_of name.now) }
{
    for first in items {
        if in_part(first, name) {
            return true;
        }
    }
    false
}

#[cycle(free)]
#[tactic(auto, using(crate::proofs::FreeLaws::part_laws))]
fn in_part(of: &Part, name: &Text) -> bool
    ensures { result ≡ in_part (part of.now) (name_of name.now) }
{
    match of {
        Part::Piece(_) => false,
        Part::Hole(of) => in_expr(of, name),
    }
}

#[cycle(free)]
fn in_props(items: &[Prop], name: &Text) -> bool
    ensures { result ≡ free_props (props_of (map prop items.now)) (name_of name.now) }
{
    for first in items {
        if in_expr(&first.value, name) {
            return true;
        }
    }
    false
}

#[cycle(free)]
fn in_links(items: &[Link], name: &Text) -> bool
    ensures { result ≡ free_links (links_of (map link items.now)) (name_of name.now) }
{
    for first in items {
        if in_expr(&first.right, name) {
            return true;
        }
    }
    false
}

#[cycle(free)]
fn in_params(items: &[Param], name: &Text) -> bool
    ensures { result ≡ free_params (params_of (map param items.now)) (name_of name.now) }
{
    for first in items {
        if in_default(&first.default, name) {
            return true;
        }
    }
    false
}

#[cycle(free)]
#[tactic(auto, using(crate::proofs::FreeLaws::part_laws))]
fn in_default(of: &ParamKind, name: &Text) -> bool
    ensures { result ≡ specs.free_default (default_of of.now) (name_of name.now) }
{
    match of {
        ParamKind::Required => false,
        ParamKind::Pipe => false,
        ParamKind::Value(of) => in_expr(of, name),
    }
}

/// Assignments in their order, and then the result.
#[cycle(free)]
fn in_body(of: &Body, name: &Text) -> bool
    ensures { result ≡ free_lets (body of.now).lets (name_of name.now) (free (body of.now).result (name_of name.now)) }
{
    let items = of.lets.as_slice();
    for first in items {
        if in_expr(&first.value, name) {
            return true;
        }
        if *name == first.label {
            return false;
        }
    }
    in_expr(&of.result, name)
}

fn is_bound(params: &[Param], name: &Text) -> bool
    ensures { result ≡ specs.is_param (params_of (map param params.now)) (name_of name.now) }
{
    for first in params {
        if *name == first.label {
            return true;
        }
    }
    false
}

fn is_base(base: &Option<Text>, name: &Text) -> bool
    ensures { result ≡ is_base base.now (name_of name.now) }
{
    match base {
        Some(base) => name == base,
        None => false,
    }
}
