//! The one form of script that runs today.
ghost use Rattle.std.specs.Prelude.{◌≡◌, ℕ, ℤ, List, IfOk, IfSome, IfNone, MatchOption, Some, map, IsTrue, ◌↔◌};
ghost use Rattle.fx_ast.specs.Bare.{nowhere, bare, bare_props, bare_script};
ghost use Rattle.fx_ast.specs.Shape.{a_piece, part, tree_of, prop, props_of, script_tree};
ghost use Rattle.fx_ast.specs.Tree.{Tree, tree, time, text, name, piece, no_parts, Props};
ghost use Rattle.fx_top.specs.Query.{IsQuery, shown, piped, called, text_arg, time_args, begin_of};
ghost use Rattle.fx_top.specs.declared.query.Query.{Query};

use crate::slices::{only, two};
use fx_ast::{Expr, Form, Node, Part, Prop, Script};
use fx_base::{Memory, Place, Text};

/// What a script asks for: the points of a bucket from `start` on and before `stop`, in
/// nanoseconds since 1970-01-01T00:00:00Z. The place is that of `from`.
#[derive(Debug, Drop)]
pub struct Query {
    pub place: Place,
    pub bucket: Text,
    pub start: i64,
    pub stop: i64,
}

/// The query of a script. None says that it has another form than
/// `from(bucket: ..) |> range(start: .., stop: ..)`.
pub fn query_of(script: &Script) -> Result<Option<Query>, Memory>
    ensures { IfOk result (λ o. MatchOption o ((q : Query) → IsQuery (script_tree script.now) q → ⊥) (λ q. IsQuery (script_tree script.now) q)) }
{
    let Some(parts) = parts_of(script) else {
        return Ok(None);
    };
    Ok(Some(Query {
        place: parts.place,
        bucket: parts.bucket.copy()?,
        start: parts.start,
        stop: parts.stop,
    }))
}

/// The parts of a query, its bucket still in the script.
#[derive(Clone, Copy)]
struct Parts<'a> {
    place: Place,
    bucket: &'a Text,
    start: i64,
    stop: i64,
}

fn parts_of(script: &Script) -> Option<Parts<'_>>
    ensures some { IfSome result (λ p. IsQuery (script_tree script.now) (record { place = p.place; bucket = p.bucket.now; start = p.start; stop = p.stop })) }
    ensures none { IfNone result ((q : Query) → IsQuery (script_tree script.now) q → ⊥) }
{
    let (place, expr) = shown(script)?;
    let (first, last) = piped(expr)?;
    let bucket = text_arg(called(first, "from")?, "bucket")?;
    let (start, stop) = time_args(called(last, "range")?, "start", "stop")?;
    Some(Parts {
        place,
        bucket,
        start,
        stop,
    })
}

/// The one expression that a script shows, where it does nothing else, and its place.
fn shown(script: &Script) -> Option<(Place, &Expr)>
    ensures some { IfSome result (λ r. bare_script (script_tree script.now) ≡ shown (bare (tree_of r.1.now))) }
    ensures begin { IfSome result (λ r. begin_of (script_tree script.now).statements ≡ Some r.0) }
    ensures none { IfNone result ((t : Tree) → bare_script (script_tree script.now) ≡ shown t → ⊥) }
{
    if script.package.is_some() {
        return None;
    }
    let [statement] = script.statements.as_slice() else {
        return None;
    };
    match &statement.form {
        Form::Show { value } => Some((statement.place, value)),
        _ => None,
    }
}

/// The two sides of one `|>`.
fn piped(expr: &Expr) -> Option<(&Expr, &Expr)>
    ensures some { IfSome result (λ r. bare (tree_of expr.now) ≡ piped (bare (tree_of r.0.now)) (bare (tree_of r.1.now))) }
    ensures none { IfNone result ((a b : Tree) → bare (tree_of expr.now) ≡ piped a b → ⊥) }
{
    match expr.node.get() {
        Node::Pipe { first, calls } => match only(calls.as_slice()) {
            Some(last) => Some((first, last)),
            None => None,
        },
        _ => None,
    }
}

/// The arguments of a call of the name.
fn called<'a>(expr: &'a Expr, label: &str) -> Option<&'a [Prop]>
    ensures some { IfSome result (λ r. bare (tree_of expr.now) ≡ called label.now (bare_props (props_of (map prop r.now)))) }
    ensures none { IfNone result ((args : Props) → bare (tree_of expr.now) ≡ called label.now args → ⊥) }
{
    match expr.node.get() {
        Node::Call { callee, args } => {
            if is_name(callee, label) {
                Some(args.as_slice())
            } else {
                None
            }
        }
        _ => None,
    }
}

fn is_name(expr: &Expr, label: &str) -> bool
    ensures { IsTrue result ↔ (bare (tree_of expr.now) ≡ tree nowhere (name label.now)) }
{
    match expr.node.get() {
        Node::Name(text) => is_text(text, label),
        _ => false,
    }
}

fn is_text(text: &Text, other: &str) -> bool
    ensures { IsTrue result ↔ (text.now ≡ other.now) }
{
    text.as_str() == other
}

/// The one argument, with this label, where it is a text without interpolation.
fn text_arg<'a>(args: &'a [Prop], label: &str) -> Option<&'a Text>
    ensures some { IfSome result (λ r. bare_props (props_of (map prop args.now)) ≡ text_arg label.now r.now) }
    ensures none { IfNone result ((value : List ℕ) → bare_props (props_of (map prop args.now)) ≡ text_arg label.now value → ⊥) }
{
    let arg = only(args)?;
    if is_text(&arg.label, label) {
        plain_text(&arg.value)
    } else {
        None
    }
}

/// The two arguments, with these labels in this order, where both are times.
fn time_args(args: &[Prop], first: &str, second: &str) -> Option<(i64, i64)>
    ensures some { IfSome result (λ r. bare_props (props_of (map prop args.now)) ≡ time_args first.now r.0 second.now r.1) }
    ensures none { IfNone result ((a b : ℤ) → bare_props (props_of (map prop args.now)) ≡ time_args first.now a second.now b → ⊥) }
{
    let (a, b) = two(args)?;
    Some((time_arg(a, first)?, time_arg(b, second)?))
}

/// The time of the argument with this label.
fn time_arg(arg: &Prop, label: &str) -> Option<i64>
    ensures some { IfSome result (λ t. (arg.now.label ≡ label.now) × (bare (tree_of arg.now.value) ≡ tree nowhere (time t))) }
    ensures none { IfNone result ((t : ℤ) → arg.now.label ≡ label.now → bare (tree_of arg.now.value) ≡ tree nowhere (time t) → ⊥) }
{
    if is_text(&arg.label, label) {
        moment(&arg.value)
    } else {
        None
    }
}

/// A text without interpolation.
fn plain_text(expr: &Expr) -> Option<&Text>
    ensures some { IfSome result (λ r. bare (tree_of expr.now) ≡ tree nowhere (text (piece r.now no_parts))) }
    ensures none { IfNone result ((value : List ℕ) → bare (tree_of expr.now) ≡ tree nowhere (text (piece value no_parts)) → ⊥) }
{
    match expr.node.get() {
        Node::Text(parts) => match only(parts.as_slice()) {
            Some(item) => piece_of(item),
            None => None,
        },
        _ => None,
    }
}

/// A piece of a text that is no expression.
fn piece_of(item: &Part) -> Option<&Text>
    ensures some { IfSome result (λ r. part item.now ≡ a_piece r.now) }
    ensures none { IfNone result ((value : List ℕ) → part item.now ≡ a_piece value → ⊥) }
{
    match item {
        Part::Piece(text) => Some(text),
        Part::Hole(_) => None,
    }
}

fn moment(expr: &Expr) -> Option<i64>
    ensures some { IfSome result (λ t. bare (tree_of expr.now) ≡ tree nowhere (time t)) }
    ensures none { IfNone result ((t : ℤ) → bare (tree_of expr.now) ≡ tree nowhere (time t) → ⊥) }
{
    match expr.node.get() {
        Node::Time(t) => Some(number(t)),
        _ => None,
    }
}

fn number(t: &i64) -> i64
    ensures { result ≡ t.now }
{
    *t
}
