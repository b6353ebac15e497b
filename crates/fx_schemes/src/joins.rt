//! What puts the rows of two streams together.
ghost use Rattle.std.specs.Prelude.{◌≡◌, ◌++◌, ◌∷◌, [], IfOk, codes, map, option_map};
ghost use Rattle.fx_types.specs.Shape.{term, label_term, labels_of};
ghost use Rattle.fx_types.specs.Term.{stream, no_fields, row_variable};
ghost use Rattle.fx_schemes.specs.Plan.{cells_of, fields_in, labelled, piped_scheme, record_of, sides_function};
ghost use Rattle.fx_schemes.specs.declared.list.Builtin.TheVariants as builtin;
ghost use Rattle.fx_schemes.specs.Builtins.{IsLine, OfSides, OfTimes};
ghost use Rattle.fx_schemes.specs.Scheme.{Says, IsSchemeOf, shown};

use crate::builtin_type::BuiltinType;
use crate::given::{LabelWords, is_one_of};
use crate::plan::{Plan, Variables, piped};
use crate::simple::{Bound, Simple};
use crate::terms::{and_param, of_two, one_param, record_over, record_param, stream_over};
use fx_base::{List, Memory};
use fx_types::{LabelTy, Ty};
use std::alloc::Global;

const TIME: (&str, Option<Simple>) = ("_time", Some(Simple::Time));

const ROWS: Variables = Variables {
    count: 3,
    bound: Bound::Free,
};

/// `join.inner`, `join.left`, `join.right` and `join.full`.
pub(crate) fn join(alloc: Global) -> Result<BuiltinType, Memory>
    ensures { IfOk result (λ t. IsSchemeOf OfSides (shown t)) }
{
    let plan = Plan {
        labels: &[],
        required: &[],
        optional: &[],
        variables: ROWS,
    };
    let right = one_param(alloc, "right", stream_over(alloc, &[], 1)?)?;
    let on = of_sides(alloc, &[], Ty::Bool)?;
    let matched = and_param(alloc, right, "on", on)?;
    joined(alloc, &[], matched, &plan)
}

/// `join.time`.
pub(crate) fn join_time(
    alloc: Global,
    given: &List<LabelWords>,
) -> Result<Option<BuiltinType>, Memory>
    ensures { IfOk result (λ o. Says (IsLine builtin.JoinTime given.now) (option_map shown o)) }
{
    let methods = ["inner", "left", "right", "full"];
    if !is_one_of(given, "method", "inner", &methods) {
        return Ok(None);
    }
    Ok(Some(join_times(alloc)?))
}

/// `join.time` by one of its methods.
fn join_times(alloc: Global) -> Result<BuiltinType, Memory>
    ensures { IfOk result (λ t. IsSchemeOf OfTimes (shown t)) }
{
    let plan = Plan {
        labels: &["method"],
        required: &[],
        optional: &[],
        variables: ROWS,
    };
    let right = one_param(alloc, "right", stream_over(alloc, &[TIME], 1)?)?;
    joined(alloc, &[TIME], right, &plan)
}

/// From streams of rows with these cells as the left side to streams of what a function of the
/// rows of both sides gives; that function comes after the other parameters.
fn joined(
    alloc: Global,
    cells: &[(&str, Option<Simple>)],
    others: List<LabelTy>,
    plan: &Plan,
) -> Result<BuiltinType, Memory>
    ensures { IfOk result (λ t. shown t ≡ piped_scheme (codes "left") (stream (fields_in (cells_of cells.now)) (row_variable 0)) (labels_of (map label_term others ++ labelled (codes "as") (sides_function (cells_of cells.now) (record_of 2)) ∷ [])) (stream no_fields (row_variable 2)) plan.now) }
{
    let both = of_sides(alloc, cells, record_over(alloc, &[], 2)?)?;
    let required = and_param(alloc, others, "as", both)?;
    let left = stream_over(alloc, cells, 0)?;
    let gives = stream_over(alloc, &[], 2)?;
    piped(alloc, "left", left, required, gives, plan)
}

/// The function of the rows of both sides, each with these cells.
fn of_sides(alloc: Global, cells: &[(&str, Option<Simple>)], gives: Ty) -> Result<Ty, Memory>
    ensures { IfOk result (λ t. term t ≡ sides_function (cells_of cells.now) (term gives)) }
{
    let left = record_param(alloc, "l", cells, 0)?;
    let right = record_param(alloc, "r", cells, 1)?;
    of_two(alloc, left, right, gives)
}
