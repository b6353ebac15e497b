//! Whether two trees are the same but for the places of their parts.

ghost use Rattle.std.specs.Prelude.{◌≡◌, ◌↔◌, IsTrue, map};
ghost use Rattle.fx_ast.specs.Bare.{bare, bare_shape, bare_trees, bare_parts, bare_props, bare_params, bare_default, bare_links, bare_part, bare_prop, bare_param, bare_link, bare_body, bare_form, bare_statement, bare_script};
ghost use Rattle.fx_ast.specs.Shape.{tree_of, shape_of, default_of, part, body, link, param, prop, trees_of, parts_of, props_of, links_of, params_of, statement_form, statement_tree, script_tree};

use crate::expr::{Body, Expr, Infix, Link, Node, Param, ParamKind, Part, Prefix, Prop};
use crate::script::{Form, Script, Statement};
use fx_base::{List, Text};
use fx_time::Span;

impl Script {
    /// Whether the two scripts are equal with all places left out.
    pub fn same_tree(&self, other: &Script) -> bool
        ensures { IsTrue result ↔ (bare_script (script_tree self.now) ≡ bare_script (script_tree other.now)) }
    {
        same_name(&self.package, &other.package)
            && same_statements(&self.statements, &other.statements)
    }
}

fn same_statements(left: &List<Statement>, right: &List<Statement>) -> bool
    ensures { IsTrue result ↔ (map bare_statement (map statement_tree left.now) ≡ map bare_statement (map statement_tree right.now)) }
{
    let (left, right) = (left.as_slice(), right.as_slice());
    if left.len() != right.len() {
        return false;
    }
    for i in 0..left.len() {
        if !same_form(&left[i].form, &right[i].form) {
            return false;
        }
    }
    true
}

fn same_form(left: &Form, right: &Form) -> bool
    ensures { IsTrue result ↔ (bare_form (statement_form left.now) ≡ bare_form (statement_form right.now)) }
{
    match left {
        Form::Import { alias, path } => match right {
            Form::Import { alias: a, path: p } => same_name(alias, a) && same_text(path, p),
            _ => false,
        },
        Form::Assign { name, value } => match right {
            Form::Assign { name: n, value: v } => same_text(name, n) && same_expr(value, v),
            _ => false,
        },
        Form::Task { value } => match right {
            Form::Task { value: v } => same_expr(value, v),
            _ => false,
        },
        Form::Show { value } => match right {
            Form::Show { value: v } => same_expr(value, v),
            _ => false,
        },
    }
}

#[cycle(same)]
fn same_expr(left: &Expr, right: &Expr) -> bool
    ensures { IsTrue result ↔ (bare (tree_of left.now) ≡ bare (tree_of right.now)) }
{
    same_node(left.node.get(), right.node.get())
}

#[cycle(same)]
fn same_node(left: &Node, right: &Node) -> bool
    ensures { IsTrue result ↔ (bare_shape (shape_of left.now) ≡ bare_shape (shape_of right.now)) }
{
    match left {
        Node::Int(x) => match right {
            Node::Int(y) => same_number(x, y),
            _ => false,
        },
        Node::Time(x) => match right {
            Node::Time(y) => same_number(x, y),
            _ => false,
        },
        Node::Span(x) => match right {
            Node::Span(y) => same_span(*x, *y),
            _ => false,
        },
        Node::Text(xs) => match right {
            Node::Text(ys) => same_parts(xs, ys),
            _ => false,
        },
        Node::Pattern(x) => match right {
            Node::Pattern(y) => same_text(x, y),
            _ => false,
        },
        Node::Name(x) => match right {
            Node::Name(y) => same_text(x, y),
            _ => false,
        },
        Node::Paren(x) => match right {
            Node::Paren(y) => same_expr(x, y),
            _ => false,
        },
        Node::Array(xs) => match right {
            Node::Array(ys) => same_exprs(xs, ys),
            _ => false,
        },
        Node::Rec { base, props } => match right {
            Node::Rec { base: b, props: ps } => same_name(base, b) && same_props(props, ps),
            _ => false,
        },
        Node::Fun { params, body } => match right {
            Node::Fun {
                params: ps,
                body: b,
            } => same_params(params, ps) && same_body(body, b),
            _ => false,
        },
        Node::Call { callee, args } => match right {
            Node::Call {
                callee: c,
                args: ps,
            } => same_expr(callee, c) && same_props(args, ps),
            _ => false,
        },
        Node::Pipe { first, calls } => match right {
            Node::Pipe {
                first: f,
                calls: cs,
            } => same_expr(first, f) && same_exprs(calls, cs),
            _ => false,
        },
        Node::Member { of, label } => match right {
            Node::Member { of: o, label: l } => same_expr(of, o) && same_text(label, l),
            _ => false,
        },
        Node::Index { of, at } => match right {
            Node::Index { of: o, at: a } => same_expr(of, o) && same_expr(at, a),
            _ => false,
        },
        Node::Chain { first, rest } => match right {
            Node::Chain { first: f, rest: r } => same_expr(first, f) && same_links(rest, r),
            _ => false,
        },
        Node::Prefix { sign, of } => match right {
            Node::Prefix { sign: s, of: o } => same_sign(*sign, *s) && same_expr(of, o),
            _ => false,
        },
        Node::If { test, yes, no } => match right {
            Node::If {
                test: t,
                yes: y,
                no: n,
            } => { same_expr(test, t) && (same_expr(yes, y) && same_expr(no, n)) }
            _ => false,
        },
    }
}

#[cycle(same)]
fn same_body(left: &Body, right: &Body) -> bool
    ensures { IsTrue result ↔ (bare_body (body left.now) ≡ bare_body (body right.now)) }
{
    same_props(&left.lets, &right.lets) && same_expr(&left.result, &right.result)
}

#[cycle(same)]
fn same_exprs(left: &List<Expr>, right: &List<Expr>) -> bool
    ensures { IsTrue result ↔ (bare_trees (trees_of (map tree_of left.now)) ≡ bare_trees (trees_of (map tree_of right.now))) }
{
    let (left, right) = (left.as_slice(), right.as_slice());
    if left.len() != right.len() {
        return false;
    }
    for i in 0..left.len() {
        if !same_expr(&left[i], &right[i]) {
            return false;
        }
    }
    true
}

#[cycle(same)]
fn same_props(left: &List<Prop>, right: &List<Prop>) -> bool
    ensures { IsTrue result ↔ (bare_props (props_of (map prop left.now)) ≡ bare_props (props_of (map prop right.now))) }
{
    let (left, right) = (left.as_slice(), right.as_slice());
    if left.len() != right.len() {
        return false;
    }
    for i in 0..left.len() {
        if !same_prop(&left[i], &right[i]) {
            return false;
        }
    }
    true
}

#[cycle(same)]
fn same_prop(left: &Prop, right: &Prop) -> bool
    ensures { IsTrue result ↔ (bare_prop (prop left.now) ≡ bare_prop (prop right.now)) }
{
    same_text(&left.label, &right.label) && same_expr(&left.value, &right.value)
}

#[cycle(same)]
fn same_links(left: &List<Link>, right: &List<Link>) -> bool
    ensures { IsTrue result ↔ (bare_links (links_of (map link left.now)) ≡ bare_links (links_of (map link right.now))) }
{
    let (left, right) = (left.as_slice(), right.as_slice());
    if left.len() != right.len() {
        return false;
    }
    for i in 0..left.len() {
        if !same_link(&left[i], &right[i]) {
            return false;
        }
    }
    true
}

#[cycle(same)]
fn same_link(left: &Link, right: &Link) -> bool
    ensures { IsTrue result ↔ (bare_link (link left.now) ≡ bare_link (link right.now)) }
{
    same_op(left.op, right.op) && same_expr(&left.right, &right.right)
}

#[cycle(same)]
fn same_params(left: &List<Param>, right: &List<Param>) -> bool
    ensures { IsTrue result ↔ (bare_params (params_of (map param left.now)) ≡ bare_params (params_of (map param right.now))) }
{
    let (left, right) = (left.as_slice(), right.as_slice());
    if left.len() != right.len() {
        return false;
    }
    for i in 0..left.len() {
        if !same_param(&left[i], &right[i]) {
            return false;
        }
    }
    true
}

#[cycle(same)]
fn same_param(left: &Param, right: &Param) -> bool
    ensures { IsTrue result ↔ (bare_param (param left.now) ≡ bare_param (param right.now)) }
{
    same_text(&left.label, &right.label) && same_kind(&left.default, &right.default)
}

#[cycle(same)]
fn same_kind(left: &ParamKind, right: &ParamKind) -> bool
    ensures { IsTrue result ↔ (bare_default (default_of left.now) ≡ bare_default (default_of right.now)) }
{
    match left {
        ParamKind::Required => match right {
            ParamKind::Required => true,
            _ => false,
        },
        ParamKind::Pipe => match right {
            ParamKind::Pipe => true,
            _ => false,
        },
        ParamKind::Value(x) => match right {
            ParamKind::Value(y) => same_expr(x, y),
            _ => false,
        },
    }
}

#[cycle(same)]
fn same_parts(left: &List<Part>, right: &List<Part>) -> bool
    ensures { IsTrue result ↔ (bare_parts (parts_of (map part left.now)) ≡ bare_parts (parts_of (map part right.now))) }
{
    let (left, right) = (left.as_slice(), right.as_slice());
    if left.len() != right.len() {
        return false;
    }
    for i in 0..left.len() {
        if !same_part(&left[i], &right[i]) {
            return false;
        }
    }
    true
}

#[cycle(same)]
fn same_part(left: &Part, right: &Part) -> bool
    ensures { IsTrue result ↔ (bare_part (part left.now) ≡ bare_part (part right.now)) }
{
    match left {
        Part::Piece(x) => match right {
            Part::Piece(y) => same_text(x, y),
            _ => false,
        },
        Part::Hole(x) => match right {
            Part::Hole(y) => same_expr(x, y),
            _ => false,
        },
    }
}

fn same_name(left: &Option<Text>, right: &Option<Text>) -> bool
    ensures { IsTrue result ↔ (left.now ≡ right.now) }
{
    match left {
        Some(x) => match right {
            Some(y) => same_text(x, y),
            None => false,
        },
        None => right.is_none(),
    }
}

fn same_text(text: &Text, other: &Text) -> bool
    ensures { IsTrue result ↔ (text.now ≡ other.now) }
{
    text == other
}

fn same_number(number: &i64, other: &i64) -> bool
    ensures { IsTrue result ↔ (number.now ≡ other.now) }
{
    *number == *other
}

fn same_span(span: Span, other: Span) -> bool
    ensures { IsTrue result ↔ (span ≡ other) }
{
    span == other
}

fn same_op(op: Infix, other: Infix) -> bool
    ensures { IsTrue result ↔ (op ≡ other) }
{
    op == other
}

fn same_sign(sign: Prefix, other: Prefix) -> bool
    ensures { IsTrue result ↔ (sign ≡ other) }
{
    sign == other
}
