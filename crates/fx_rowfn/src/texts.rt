//! Texts, part by part.
ghost use Rattle.std.specs.Prelude.{◌≡◌, ◌++◌, ℕ, List, Option, Some, option_map, IfOk};
ghost use Rattle.std.specs.Fmt.{signed_decimal};
ghost use Rattle.std.specs.Option.{IfSome};
ghost use Rattle.std.specs.String.{string_bytes};
ghost use Rattle.fx_ast.specs.Shape.{a_piece, part, tree_of};
ghost use Rattle.fx_ast.specs.Tree.{Parts, no_parts, piece, text};
ghost use Rattle.fx_meaning.specs.Ends.{cell_at};
ghost use Rattle.fx_meaning.specs.Meaning.{Tests};
ghost use Rattle.fx_meaning.specs.Operators.{behind, printed, text_made};
ghost use Rattle.fx_ops.specs.Convert.{bool_text};
ghost use Rattle.fx_ops.specs.Limit.{limited};
ghost use Rattle.fx_rowfn.specs.Frame as plain;
ghost use Rattle.fx_base.specs.declared.place.Place.{Place};
ghost use Rattle.fx_rowfn.specs.Parts.{with_part};
ghost use Rattle.fx_rowfn.specs.State.{Leads, frame_of, parts_from, parts_left, resumed_left, scope_of, shape_left};
ghost use Rattle.fx_time.specs.Time.{time_text};
ghost use Rattle.fx_values.specs.Shape.{val};
ghost use Rattle.fx_values.specs.Told.{Tells};

use crate::eval::{awaited, given};
use crate::frame::{Control, Frame, Next};
use crate::parts::part_at;
use crate::scope::Scope;
use fx_ast::{Expr, Part};
use fx_base::{FaultKind, Memory, Place, Text};
use fx_time::print_time;
use fx_value::Scalar;
use fx_values::{Stop, Value, cell_in};
use std::alloc::Global;

/// The most bytes of a text.
const MOST: usize = 1_048_576;

/// The first step of a text.
pub(crate) fn texted(alloc: Global, scope: Scope, whole: &Expr) -> Result<Next, Stop>
    ensures { (test : Tests) → Leads (shape_left test (scope_of scope) whole.now.place (text (parts_from (tree_of whole.now) 0))) test result }
{
    match lone_piece(whole) {
        Some(piece) => given(text_kept(whole.place, piece)),
        None => parts_on(
            alloc,
            scope,
            whole.place,
            Some(String::new(alloc)),
            whole,
            0,
        ),
    }
}

/// The one piece of a text without holes.
fn lone_piece(whole: &Expr) -> Option<&Text>
    ensures { IfSome result (λ s. parts_from (tree_of whole.now) 0 ≡ piece s.now no_parts) }
{
    match part_at(whole, 1) {
        Some(_) => None,
        None => first_piece(whole),
    }
}

fn first_piece(whole: &Expr) -> Option<&Text>
    ensures { IfSome result (λ s. parts_from (tree_of whole.now) 0 ≡ piece s.now (parts_from (tree_of whole.now) 1)) }
{
    match part_at(whole, 0) {
        Some(first) => piece_of(first),
        None => None,
    }
}

fn piece_of(of: &Part) -> Option<&Text>
    ensures { IfSome result (λ s. part of.now ≡ a_piece s.now) }
{
    match of {
        Part::Piece(piece) => Some(piece),
        Part::Hole(_) => None,
    }
}

/// The value of a hole is known.
pub(crate) fn hole_known(
    alloc: Global,
    scope: Scope,
    place: Place,
    before: Option<String>,
    whole: &Expr,
    next: usize,
    value: &Value,
) -> Result<Next, Stop>
    ensures { (test : Tests) → Leads (resumed_left test (plain.hole (scope_of scope) place (option_map string_bytes before) (parts_from (tree_of whole.now) next)) (val value.now)) test result }
{
    match cell_in(value) {
        Ok(a) => {
            let before = behind(alloc, before, a)?;
            parts_on(alloc, scope, place, before, whole, next)
        }
        Err(stop) => Err(stop),
    }
}

/// The parts from a place on, behind the text that stands.
fn parts_on(
    alloc: Global,
    scope: Scope,
    place: Place,
    before: Option<String>,
    whole: &Expr,
    next: usize,
) -> Result<Next, Stop>
    ensures { (test : Tests) → Leads (parts_left test (scope_of scope) place (parts_from (tree_of whole.now) next) (option_map string_bytes before)) test result }
{
    match part_at(whole, next) {
        Some(first) => {
            let frame = hole(&scope, place, before, whole, next + 1)?;
            part_on(scope, first, frame)
        }
        None => given(text_made(alloc, place, before)),
    }
}

/// A part, whose text is awaited. A piece is to the parts behind it what a hole is that gives it.
fn part_on(scope: Scope, first: &Part, frame: Frame) -> Result<Next, Stop>
    ensures { (test : Tests) (place : Place) (before : Option (List ℕ)) (rest : Parts) → frame_of frame ≡ plain.hole (scope_of scope) place before rest → Leads (parts_left test (scope_of scope) place (with_part (part first.now) rest) before) test result }
{
    match first {
        Part::Hole(expr) => {
            let next = awaited(scope, expr, frame)?;
            Ok(next)
        }
        Part::Piece(piece) => {
            let piece = Value::Cell(Scalar::Text(piece.copy()?));
            Ok(Next::Await(frame, Control::Give(piece)))
        }
    }
}

fn hole(
    scope: &Scope,
    place: Place,
    before: Option<String>,
    whole: &Expr,
    next: usize,
) -> Result<Frame, Memory>
    ensures { IfOk result (λ f. frame_of f ≡ plain.hole (scope_of scope.now) place (option_map string_bytes before) (parts_from (tree_of whole.now) next)) }
{
    Ok(Frame::Hole {
        scope: scope.copy()?,
        place,
        before,
        text: whole.copy()?,
        next,
    })
}

/// A scalar behind a text, None once one was null.
fn behind(alloc: Global, before: Option<String>, a: &Scalar) -> Result<Option<String>, Memory>
    ensures { IfOk result (λ t. option_map string_bytes t ≡ behind (option_map string_bytes before) (printed a.now)) }
{
    match before {
        Some(text) => printed_on(alloc, text, a),
        None => Ok(None),
    }
}

fn printed_on(alloc: Global, before: String, a: &Scalar) -> Result<Option<String>, Memory>
    ensures { IfOk result (λ t. option_map string_bytes t ≡ behind (Some (string_bytes before)) (printed a.now)) }
{
    match a {
        Scalar::Null => Ok(None),
        Scalar::Bool(b) => joined(before, bool_text(*b)),
        Scalar::Int(n) => int_on(alloc, before, *n),
        Scalar::Text(more) => joined(before, more.as_str()),
        Scalar::Time(t) => time_on(alloc, before, *t),
    }
}

fn bool_text(b: bool) -> &'static str
    ensures { result.now ≡ bool_text b }
{
    if b { "true" } else { "false" }
}

fn int_on(alloc: Global, before: String, n: i64) -> Result<Option<String>, Memory>
    ensures { IfOk result (λ t. option_map string_bytes t ≡ Some (string_bytes before ++ signed_decimal n)) }
{
    let printed = format!(in alloc; "{n}")?;
    joined(before, printed.as_str())
}

fn time_on(alloc: Global, before: String, t: i64) -> Result<Option<String>, Memory>
    ensures { IfOk result (λ o. option_map string_bytes o ≡ Some (string_bytes before ++ time_text t)) }
{
    let printed = print_time(alloc, t)?;
    joined(before, printed.as_str())
}

fn joined(before: String, more: &str) -> Result<Option<String>, Memory>
    ensures { IfOk result (λ t. option_map string_bytes t ≡ Some (string_bytes before ++ more.now)) }
{
    let mut whole = before;
    whole.push_str(more)?;
    Ok(Some(whole))
}

/// The value of a whole text: null where a hole was null.
fn text_made(alloc: Global, place: Place, whole: Option<String>) -> Result<Value, Stop>
    ensures { Tells val (text_made place (option_map string_bytes whole)) result }
{
    match whole {
        Some(text) => text_value(alloc, place, text.as_str()),
        None => Ok(Value::Cell(Scalar::Null)),
    }
}

/// A text that its value shares.
fn text_kept(place: Place, content: &Text) -> Result<Value, Stop>
    ensures { Tells val (cell_at place (limited content.now)) result }
{
    if content.as_str().len() > MOST {
        return Err(Stop::fault(place, FaultKind::TooLarge));
    }
    Ok(Value::Cell(Scalar::Text(content.copy()?)))
}

fn text_value(alloc: Global, place: Place, content: &str) -> Result<Value, Stop>
    ensures { Tells val (cell_at place (limited content.now)) result }
{
    if content.len() > MOST {
        return Err(Stop::fault(place, FaultKind::TooLarge));
    }
    Ok(Value::Cell(Scalar::Text(Text::of(alloc, content)?)))
}
