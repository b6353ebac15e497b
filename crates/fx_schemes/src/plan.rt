//! Lines as code describes them, and the types of built-ins that are made of these.
ghost use Rattle.std.specs.Prelude.{◌≡◌, ◌++◌, Some, codes, map, option_map, IfOk};
ghost use Rattle.std.specs.Option.{option_copied};
ghost use Rattle.fx_types.specs.Shape.{term, label_term, labels_of};
ghost use Rattle.fx_schemes.specs.Plan.{cells_of, params_of, fields_in, labels_in, value_scheme, call_scheme, scalar_scheme, piped_scheme, over_scheme, closed_scheme, place_of, places_of, both_places, transformed, bounds_of};
ghost use Rattle.fx_types.specs.Term.{stream, row_variable};
ghost use Rattle.fx_schemes.specs.Given.{texts_of};
ghost use Rattle.fx_schemes.specs.Scheme.{shown};

use crate::builtin_type::BuiltinType;
use crate::given::{LabelWords, text_at};
use crate::simple::{Bound, Simple, bounds, simple_ty};
use crate::terms::{function, params, stream_else, stream_over, texts};
use fx_base::{List, Memory, Text};
use fx_types::{LabelTy, Ty};
use std::alloc::Global;

/// How many variables of each sort a line has, and what its type variables stand for.
#[derive(Clone, Copy)]
pub(crate) struct Variables {
    pub(crate) count: u32,
    pub(crate) bound: Bound,
}

/// The label arguments and the other parameters of what takes a stream by `tables`.
#[derive(Clone, Copy)]
pub(crate) struct Plan<'a> {
    pub(crate) labels: &'a [&'a str],
    pub(crate) required: &'a [(&'a str, Simple)],
    pub(crate) optional: &'a [(&'a str, Simple)],
    pub(crate) variables: Variables,
}

/// A label of a row: itself, or the word that the call gives at a label argument.
#[derive(Clone, Copy)]
pub(crate) enum At<'a> {
    Label(&'a str),
    /// The one word at the first label.
    Given(&'a str),
    /// The one word at the first label, or the second where the call doesn't give it.
    Word(&'a str, &'a str),
}

/// The type of a built-in that is no function.
pub(crate) fn value(alloc: Global, ty: Ty) -> Result<BuiltinType, Memory>
    ensures { IfOk result (λ t. shown t ≡ value_scheme (term ty)) }
{
    Ok(BuiltinType {
        vars: 0,
        ty,
        optional: List::empty(alloc),
        pipe_label: None,
        labels: List::empty(alloc),
        kinds: List::empty(alloc),
    })
}

/// The type of a function that takes nothing by the pipe, and all of whose parameters are required.
pub(crate) fn call(
    alloc: Global,
    required: List<LabelTy>,
    gives: Ty,
    variables: Variables,
) -> Result<BuiltinType, Memory>
    ensures { IfOk result (λ t. shown t ≡ call_scheme (labels_of (map label_term required)) (term gives) variables) }
{
    Ok(BuiltinType {
        vars: variables.count,
        ty: function(alloc, required, None, gives)?,
        optional: List::empty(alloc),
        pipe_label: None,
        labels: List::empty(alloc),
        kinds: bounds(alloc, variables.bound)?,
    })
}

/// The type of a function of simple parameters with a simple result.
pub(crate) fn scalar(
    alloc: Global,
    required: &[(&str, Simple)],
    gives: Simple,
    variables: Variables,
) -> Result<BuiltinType, Memory>
    ensures { IfOk result (λ t. shown t ≡ scalar_scheme (params_of required.now) gives variables) }
{
    let required = params(alloc, required)?;
    call(alloc, required, simple_ty(alloc, gives)?, variables)
}

/// The type of a function that takes its input by the pipe or by this label.
pub(crate) fn piped(
    alloc: Global,
    label: &str,
    input: Ty,
    required: List<LabelTy>,
    gives: Ty,
    plan: &Plan,
) -> Result<BuiltinType, Memory>
    ensures { IfOk result (λ t. shown t ≡ piped_scheme label.now (term input) (labels_of (map label_term required)) (term gives) plan.now) }
{
    let ty = function(alloc, required, Some(input), gives)?;
    described(alloc, label, ty, plan)
}

/// The type with what the plan says beside it.
fn described(alloc: Global, label: &str, ty: Ty, plan: &Plan) -> Result<BuiltinType, Memory>
    ensures { IfOk result (λ t. shown t ≡ record { vars = plan.now.variables.count; type = term ty; optional = labels_in (params_of plan.now.optional.now); pipe_label = Some label.now; labels = texts_of plan.now.labels.now; kinds = bounds_of plan.now.variables.bound }) }
{
    Ok(BuiltinType {
        vars: plan.variables.count,
        ty,
        optional: params(alloc, plan.optional)?,
        pipe_label: Some(Text::of(alloc, label)?),
        labels: texts(alloc, plan.labels)?,
        kinds: bounds(alloc, plan.variables.bound)?,
    })
}

/// From one stream to another by `tables`, with the plan's parameters.
fn of_tables(alloc: Global, input: Ty, gives: Ty, plan: &Plan) -> Result<BuiltinType, Memory>
    ensures { IfOk result (λ t. shown t ≡ piped_scheme (codes "tables") (term input) (labels_in (params_of plan.now.required.now)) (term gives) plan.now) }
{
    let required = params(alloc, plan.required)?;
    piped(alloc, "tables", input, required, gives, plan)
}

/// The stream of the row of variable 0 with the cells of the second list, and those of the first
/// in place of what it then has.
fn stream_of_both<'a>(
    alloc: Global,
    first: &[(&'a str, Option<Simple>)],
    second: &[(&'a str, Option<Simple>)],
) -> Result<Ty, Memory>
    ensures { IfOk result (λ t. term t ≡ stream (fields_in (cells_of first.now ++ cells_of second.now)) (row_variable 0)) }
{
    let mut cells = first.to_vec(alloc)?;
    cells.extend_from_slice(second)?;
    stream_over(alloc, &cells, 0)
}

/// From streams of the row of variable 0 with the asked cells to streams of that row with the
/// made cells in place of what it has.
pub(crate) fn over<'a>(
    alloc: Global,
    plan: &Plan,
    asked: &[(&'a str, Option<Simple>)],
    made: &[(&'a str, Option<Simple>)],
) -> Result<BuiltinType, Memory>
    ensures { IfOk result (λ t. shown t ≡ over_scheme plan.now (cells_of asked.now) (cells_of made.now)) }
{
    let input = stream_over(alloc, asked, 0)?;
    let gives = stream_of_both(alloc, made, asked)?;
    of_tables(alloc, input, gives, plan)
}

/// From streams of the row of variable 0 with the asked cells to streams of the row with the made
/// cells, and the same at all other labels.
pub(crate) fn closed(
    alloc: Global,
    plan: &Plan,
    asked: &[(&str, Option<Simple>)],
    made: &[(&str, Option<Simple>)],
    other: Option<Simple>,
) -> Result<BuiltinType, Memory>
    ensures { IfOk result (λ t. shown t ≡ closed_scheme plan.now (cells_of asked.now) (cells_of made.now) other) }
{
    let input = stream_over(alloc, asked, 0)?;
    let gives = stream_else(alloc, made, other)?;
    of_tables(alloc, input, gives, plan)
}

/// The label that this place of a row has in a call, or None where the call's words name none.
fn place<'a>(given: &'a List<LabelWords>, at: At<'a>) -> Option<&'a str>
    ensures { option_copied result ≡ place_of given.now at.entry }
{
    match at {
        At::Label(label) => Some(label),
        At::Given(label) => text_at(given, label, None),
        At::Word(label, default) => text_at(given, label, Some(default)),
    }
}

/// The cells at the labels of the call, or None where the call's words don't name one of them.
fn places<'a>(
    alloc: Global,
    given: &'a List<LabelWords>,
    entries: &[(At<'a>, Option<Simple>)],
) -> Result<Option<Vec<(&'a str, Option<Simple>)>>, Memory>
    ensures { IfOk result (λ o. option_map (λ v. cells_of v.items) o ≡ places_of given.now entries.now) }
{
    let mut cells = Vec::new(alloc);
    for entry in entries {
        match place(given, entry.0) {
            Some(label) => cells.push((label, entry.1))?,
            None => return Ok(None),
        }
    }
    Ok(Some(cells))
}

/// As `over`, at the labels of the call. None where the call's words don't name one of them.
pub(crate) fn transform<'a>(
    alloc: Global,
    given: &'a List<LabelWords>,
    plan: &Plan,
    asked: &[(At<'a>, Option<Simple>)],
    made: &[(At<'a>, Option<Simple>)],
) -> Result<Option<BuiltinType>, Memory>
    ensures { IfOk result (λ o. option_map shown o ≡ transformed given.now plan.now asked.now made.now) }
{
    match places(alloc, given, asked)? {
        Some(asked) => transform_to(alloc, given, plan, &asked, made),
        None => Ok(None),
    }
}

/// The same, from the asked cells.
fn transform_to<'a>(
    alloc: Global,
    given: &'a List<LabelWords>,
    plan: &Plan,
    asked: &[(&'a str, Option<Simple>)],
    made: &[(At<'a>, Option<Simple>)],
) -> Result<Option<BuiltinType>, Memory>
    ensures { IfOk result (λ o. option_map shown o ≡ both_places plan.now (Some (cells_of asked.now)) (places_of given.now made.now)) }
{
    match places(alloc, given, made)? {
        Some(made) => Ok(Some(over(alloc, plan, asked, &made)?)),
        None => Ok(None),
    }
}
