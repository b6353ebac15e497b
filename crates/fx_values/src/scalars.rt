//! Calls of the functions of `strings` and `date`.
ghost use Rattle.std.specs.Prelude.{◌≡◌, ◌++◌, [], IfOk, map, option_map};
ghost use Rattle.std.specs.List.{list_all};
ghost use Rattle.fx_meaning.specs.Forms.{cell_of, each};
ghost use Rattle.fx_meaning.specs.Natives as meaning;
ghost use Rattle.fx_ops.specs.Kinds.{is_kind};
ghost use Rattle.fx_ops.specs.Signatures.{are_of, argument_kinds, further_kind, takes_arguments};
ghost use Rattle.fx_values.specs.Shape.{slot, slots_of, val};
ghost use Rattle.fx_values.specs.Told.{Tells};

use crate::forms::{argument, span_in};
use crate::natives::{cell_of, cells_in, items_of};
use crate::stop::Stop;
use crate::value::{Slot, Value};
use fx_base::{List, Memory, Place};
use fx_ops::ScalarFn;
use fx_time::Span;
use fx_value::{Kind, Scalar};
use std::alloc::Global;

/// What a function of `strings` or `date` gives.
pub fn scalar_call(
    alloc: Global,
    place: Place,
    which: ScalarFn,
    args: &[Slot],
) -> Result<Value, Stop>
    ensures { Tells val (meaning.scalar_call place which (slots_of (map slot args.now))) result }
{
    let scalars = cells_of(alloc, scalar_labels(which), args)?;
    let texts = further_cells(alloc, list_label(which), args)?;
    let d = span_of(span_label(which), args)?;
    let all = joined(scalars, texts)?;
    scalar_answer(alloc, place, which, &all, d)
}

fn scalar_answer(
    alloc: Global,
    place: Place,
    which: ScalarFn,
    scalars: &List<Scalar>,
    d: Span,
) -> Result<Value, Stop>
    ensures { Tells val (meaning.scalar_answer place which scalars.now d) result }
{
    if !takes_arguments(which, scalars.as_slice()) {
        return Err(Stop::Stuck);
    }
    match fx_ops::scalar_call(alloc, which, scalars, d) {
        Ok(value) => Ok(Value::Cell(value)),
        Err(fault) => Err(Stop::at(place, fault)),
    }
}

/// The labels of the scalars, in the order of the function's own.
fn scalar_labels(which: ScalarFn) -> &'static [&'static str]
    ensures { map (λ label. label.now) result.now ≡ meaning.scalar_labels which }
{
    match which {
        ScalarFn::ContainsStr => &["v", "substr"],
        ScalarFn::HasPrefix => &["v", "prefix"],
        ScalarFn::TrimPrefix => &["v", "prefix"],
        ScalarFn::HasSuffix => &["v", "suffix"],
        ScalarFn::TrimSuffix => &["v", "suffix"],
        ScalarFn::Strlen => &["v"],
        ScalarFn::Substring => &["v", "start", "end"],
        ScalarFn::ReplaceAll => &["v", "t", "u"],
        ScalarFn::JoinStr => &["v"],
        ScalarFn::Repeat => &["v", "i"],
        ScalarFn::Add => &["to"],
        ScalarFn::Sub => &["from"],
        _ => &["t"],
    }
}

fn list_label(which: ScalarFn) -> Option<&'static str>
    ensures { option_map (λ label. label.now) result ≡ meaning.list_label which }
{
    match which {
        ScalarFn::JoinStr => Some("arr"),
        _ => None,
    }
}

fn span_label(which: ScalarFn) -> Option<&'static str>
    ensures { option_map (λ label. label.now) result ≡ meaning.span_label which }
{
    match which {
        ScalarFn::Truncate => Some("unit"),
        ScalarFn::Add => Some("d"),
        ScalarFn::Sub => Some("d"),
        _ => None,
    }
}

/// The scalars that are the arguments at the labels.
fn cells_of(alloc: Global, labels: &[&str], args: &[Slot]) -> Result<List<Scalar>, Stop>
    ensures { Tells (λ found. found) (each (λ x. cell_of x (slots_of (map slot args.now))) (map (λ label. label.now) labels.now)) result }
{
    let mut cells = List::empty(alloc);
    for label in labels {
        let cell = cell_of(label, args)?;
        cells.push(cell.copy()?)?;
    }
    Ok(cells)
}

fn further_cells(alloc: Global, label: Option<&str>, args: &[Slot]) -> Result<List<Scalar>, Stop>
    ensures { Tells (λ found. found) (meaning.further_cells (option_map (λ l. l.now) label.entry) (slots_of (map slot args.now))) result }
{
    match label {
        Some(label) => {
            let items = items_of(label, args)?;
            cells_in(alloc, items.as_slice())
        }
        None => Ok(List::empty(alloc)),
    }
}

fn span_of(label: Option<&str>, args: &[Slot]) -> Result<Span, Stop>
    ensures { Tells (λ d. d) (meaning.span_of (option_map (λ l. l.now) label.entry) (slots_of (map slot args.now))) result }
{
    match label {
        Some(label) => {
            let value = argument(label, args)?;
            span_in(value)
        }
        None => Ok(Span {
            months: 0,
            nanos: 0,
        }),
    }
}

fn joined(front: List<Scalar>, back: List<Scalar>) -> Result<List<Scalar>, Memory>
    ensures { IfOk result (λ all. all ≡ front ++ back) }
{
    let mut all = front.into_vec();
    let mut more = back.into_vec();
    all.append(&mut more)?;
    Ok(List::of(all))
}

/// Whether the function takes the scalars.
fn takes_arguments(which: ScalarFn, args: &[Scalar]) -> bool
    ensures { result ≡ takes_arguments which args.now }
{
    are_of(argument_kinds(which), further_kind(which), args)
}

fn are_of(kinds: &[Kind], further: Option<Kind>, args: &[Scalar]) -> bool
    ensures { result ≡ are_of kinds.now further args.now }
{
    match kinds {
        [] => are_further(further, args),
        [kind, kinds @ ..] => match args {
            [] => false,
            [arg, args @ ..] => is_kind(arg, *kind) && are_of(kinds, further, args),
        },
    }
}

fn are_further(further: Option<Kind>, args: &[Scalar]) -> bool
    ensures { result ≡ are_of [] further args.now }
{
    match further {
        Some(kind) => are_all(kind, args),
        None => args.is_empty(),
    }
}

fn are_all(kind: Kind, args: &[Scalar]) -> bool
    ensures { result ≡ list_all (λ a. is_kind a kind) args.now }
{
    args.iter().all(|a| is_kind(a, kind))
}

/// Whether the scalar is null or of the kind.
fn is_kind(a: &Scalar, kind: Kind) -> bool
    ensures { result ≡ is_kind a.now kind }
{
    match a {
        Scalar::Null => true,
        Scalar::Bool(_) => kind == Kind::Bool,
        Scalar::Int(_) => kind == Kind::Int,
        Scalar::Text(_) => kind == Kind::Text,
        Scalar::Time(_) => kind == Kind::Time,
    }
}

fn argument_kinds(which: ScalarFn) -> &'static [Kind]
    ensures { result.now ≡ argument_kinds which }
{
    match which {
        ScalarFn::ContainsStr => &[Kind::Text, Kind::Text],
        ScalarFn::HasPrefix => &[Kind::Text, Kind::Text],
        ScalarFn::HasSuffix => &[Kind::Text, Kind::Text],
        ScalarFn::Strlen => &[Kind::Text],
        ScalarFn::Substring => &[Kind::Text, Kind::Int, Kind::Int],
        ScalarFn::TrimPrefix => &[Kind::Text, Kind::Text],
        ScalarFn::TrimSuffix => &[Kind::Text, Kind::Text],
        ScalarFn::ReplaceAll => &[Kind::Text, Kind::Text, Kind::Text],
        ScalarFn::JoinStr => &[Kind::Text],
        ScalarFn::Repeat => &[Kind::Text, Kind::Int],
        _ => &[Kind::Time],
    }
}

fn further_kind(which: ScalarFn) -> Option<Kind>
    ensures { result ≡ further_kind which }
{
    match which {
        ScalarFn::JoinStr => Some(Kind::Text),
        _ => None,
    }
}
