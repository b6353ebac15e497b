//! What operators make of values.
ghost use Rattle.std.specs.Prelude.{◌≡◌, Bool};
ghost use Rattle.fx_meaning.specs.Ends.{cell_at};
ghost use Rattle.fx_meaning.specs.Operators as meaning;
ghost use Rattle.fx_meaning.specs.Value.{span};
ghost use Rattle.fx_ops.specs.Binary.{is_taken, work_of};
ghost use Rattle.std.specs.Option.{is_some};
ghost use Rattle.fx_values.specs.Shape.{val};
ghost use Rattle.fx_values.specs.Told.{Tells};

use crate::forms::{cell_in, flag_in, span_in};
use crate::stop::Stop;
use crate::value::Value;
use fx_ast::{Infix, Prefix};
use fx_base::{FaultKind, Place};
use fx_ops::{BinaryOp, binary, negate};
use fx_time::Span;
use fx_value::{Kind, Scalar};
use std::alloc::Global;

/// Whether the left operand decides, so that the right one isn't read.
pub fn decides(op: Infix, left: &Value) -> bool
    ensures { result ≡ meaning.decides op (val left.now) }
{
    match op {
        Infix::Or => is_truth(left, true),
        Infix::And => is_truth(left, false),
        _ => false,
    }
}

fn is_truth(value: &Value, truth: bool) -> bool
    ensures { result ≡ meaning.is_truth truth (val value.now) }
{
    match value {
        Value::Cell(a) => is_truth_cell(a, truth),
        _ => false,
    }
}

fn is_truth_cell(a: &Scalar, truth: bool) -> bool
    ensures { result ≡ meaning.is_truth_cell truth a.now }
{
    match a {
        Scalar::Bool(b) => *b == truth,
        _ => false,
    }
}

/// What `or`, where the decisive value is true, and `and`, where it is false, make of two operands.
pub fn logic(decisive: bool, left: &Value, right: &Value) -> Result<Value, Stop>
    ensures { Tells val (meaning.logic decisive (val left.now) (val right.now)) result }
{
    let left = flag_in(left)?;
    let right = flag_in(right)?;
    Ok(Value::Cell(joined(decisive, left, right)))
}

fn joined(decisive: bool, left: Option<bool>, right: Option<bool>) -> Scalar
    ensures { result ≡ meaning.joined decisive left right }
{
    match (left, right) {
        (Some(a), Some(b)) => Scalar::Bool(if a == decisive || b == decisive {
            decisive
        } else {
            !decisive
        }),
        (Some(a), None) | (None, Some(a)) => {
            if a == decisive {
                Scalar::Bool(decisive)
            } else {
                Scalar::Null
            }
        }
        (None, None) => Scalar::Null,
    }
}

/// What an operator of scalars makes of two values.
pub fn binary_values(
    alloc: Global,
    place: Place,
    which: BinaryOp,
    left: &Value,
    right: &Value,
) -> Result<Value, Stop>
    ensures { Tells val (meaning.binary place which (val left.now) (val right.now)) result }
{
    match left {
        Value::Cell(a) => with_cell(alloc, place, which, right, a),
        Value::Span(d) => with_span(which, right, *d),
        _ => Err(Stop::Stuck),
    }
}

fn with_cell(
    alloc: Global,
    place: Place,
    which: BinaryOp,
    right: &Value,
    a: &Scalar,
) -> Result<Value, Stop>
    ensures { Tells val (meaning.with_cell place which (val right.now) a.now) result }
{
    let b = cell_in(right)?;
    binary_cells(alloc, place, which, a, b)
}

fn binary_cells(
    alloc: Global,
    place: Place,
    which: BinaryOp,
    a: &Scalar,
    b: &Scalar,
) -> Result<Value, Stop>
    ensures { Tells val (meaning.of_cells place which a.now b.now) result }
{
    if !is_taken(which, a, b) {
        return Err(Stop::Stuck);
    }
    match binary(alloc, which, a, b) {
        Ok(value) => Ok(Value::Cell(value)),
        Err(fault) => Err(Stop::at(place, fault)),
    }
}

/// Whether the operator takes the operands.
fn is_taken(which: BinaryOp, a: &Scalar, b: &Scalar) -> bool
    ensures { result ≡ is_taken which a.now b.now }
{
    match (a.kind(), b.kind()) {
        (Some(k), Some(l)) => takes_kind(which, k) && k == l,
        (Some(k), None) => takes_kind(which, k),
        (None, Some(l)) => takes_kind(which, l),
        (None, None) => true,
    }
}

fn takes_kind(which: BinaryOp, kind: Kind) -> bool
    ensures { result ≡ is_some (work_of which kind) }
{
    match which {
        BinaryOp::Add => matches!(kind, Kind::Int | Kind::Text),
        BinaryOp::Sub | BinaryOp::Mul | BinaryOp::Div | BinaryOp::Rem => matches!(kind, Kind::Int),
        BinaryOp::Eq | BinaryOp::Ne => true,
        BinaryOp::Lt | BinaryOp::Le | BinaryOp::Gt | BinaryOp::Ge => !matches!(kind, Kind::Bool),
    }
}

fn with_span(which: BinaryOp, right: &Value, d: Span) -> Result<Value, Stop>
    ensures { Tells val (meaning.with_span which (val right.now) d) result }
{
    let e = span_in(right)?;
    of_spans(which, d, e)
}

fn of_spans(which: BinaryOp, d: Span, e: Span) -> Result<Value, Stop>
    ensures { Tells val (meaning.of_spans which d e) result }
{
    match which {
        BinaryOp::Eq => Ok(Value::Cell(Scalar::Bool(same_span(d, e)))),
        BinaryOp::Ne => Ok(Value::Cell(Scalar::Bool(!same_span(d, e)))),
        _ => Err(Stop::Stuck),
    }
}

fn same_span(d: Span, e: Span) -> bool
    ensures { result ≡ meaning.same_span d e }
{
    d.months == e.months && d.nanos == e.nanos
}

/// What an operator before a value makes of it.
pub fn prefixed(place: Place, sign: Prefix, value: &Value) -> Result<Value, Stop>
    ensures { Tells val (meaning.prefixed place sign (val value.now)) result }
{
    match sign {
        Prefix::Plus => plus(value),
        Prefix::Minus => minus(place, value),
        Prefix::Not => not(value),
        Prefix::Exists => exists(value),
    }
}

fn plus(value: &Value) -> Result<Value, Stop>
    ensures { Tells val (meaning.plus (val value.now)) result }
{
    match value {
        Value::Cell(a) => plus_cell(a),
        Value::Span(d) => Ok(Value::Span(*d)),
        _ => Err(Stop::Stuck),
    }
}

fn plus_cell(a: &Scalar) -> Result<Value, Stop>
    ensures { Tells val (meaning.plus_cell a.now) result }
{
    match a {
        Scalar::Int(n) => Ok(Value::Cell(Scalar::Int(*n))),
        Scalar::Null => Ok(Value::Cell(Scalar::Null)),
        _ => Err(Stop::Stuck),
    }
}

fn minus(place: Place, value: &Value) -> Result<Value, Stop>
    ensures { Tells val (meaning.minus place (val value.now)) result }
{
    match value {
        Value::Cell(a) => minus_cell(place, a),
        Value::Span(d) => minus_span(place, *d),
        _ => Err(Stop::Stuck),
    }
}

fn minus_cell(place: Place, a: &Scalar) -> Result<Value, Stop>
    ensures { Tells val (meaning.minus_cell place a.now) result }
{
    match a {
        Scalar::Int(_) | Scalar::Null => {}
        _ => return Err(Stop::Stuck),
    }
    match negate(a) {
        Ok(value) => Ok(Value::Cell(value)),
        Err(fault) => Err(Stop::at(place, fault)),
    }
}

fn minus_span(place: Place, d: Span) -> Result<Value, Stop>
    ensures { Tells val (meaning.minus_span place d) result }
{
    match (d.months.checked_neg(), d.nanos.checked_neg()) {
        (Some(months), Some(nanos)) => Ok(span_of(months, nanos)),
        _ => Err(Stop::fault(place, FaultKind::Overflow)),
    }
}

fn span_of(months: i64, nanos: i64) -> Value
    ensures { val result ≡ span (record { months = months; nanos = nanos }) }
{
    Value::Span(Span { months, nanos })
}

fn not(value: &Value) -> Result<Value, Stop>
    ensures { Tells val (meaning.negation_of (val value.now)) result }
{
    match flag_in(value)? {
        Some(b) => Ok(Value::Cell(Scalar::Bool(!b))),
        None => Ok(Value::Cell(Scalar::Null)),
    }
}

fn exists(value: &Value) -> Result<Value, Stop>
    ensures { Tells val (meaning.exists (val value.now)) result }
{
    let a = cell_in(value)?;
    Ok(Value::Cell(Scalar::Bool(is_value(a))))
}

fn is_value(a: &Scalar) -> bool
    ensures { result ≡ meaning.is_value a.now }
{
    !matches!(a, Scalar::Null)
}
