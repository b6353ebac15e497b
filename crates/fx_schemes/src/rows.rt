//! What keeps, makes and collects rows.
ghost use Rattle.std.specs.Prelude.{◌≡◌, IfOk, [], codes, map, option_map};
ghost use Rattle.fx_types.specs.Shape.{term, label_term, labels_of};
ghost use Rattle.fx_types.specs.Term.{stream, no_fields, row_variable};
ghost use Rattle.fx_schemes.specs.Plan.{piped_scheme, step_function};
ghost use Rattle.fx_schemes.specs.declared.list.Builtin.TheVariants as builtin;
ghost use Rattle.fx_schemes.specs.Builtins.{IsLine, OfRows};
ghost use Rattle.fx_schemes.specs.Scheme.{Says, IsSchemeOf, shown};

use crate::builtin_type::BuiltinType;
use crate::given::{LabelWords, is_one_of};
use crate::plan::{Plan, Variables, over, piped};
use crate::simple::{Bound, Simple};
use crate::terms::{and_param, of_row, of_two, one_param, record_over, record_param, stream_over};
use fx_base::{List, Memory};
use fx_types::{LabelTy, Ty};
use std::alloc::Global;

const TIME: (&str, Option<Simple>) = ("_time", Some(Simple::Time));

const START: (&str, Option<Simple>) = ("_start", Some(Simple::Time));

const STOP: (&str, Option<Simple>) = ("_stop", Some(Simple::Time));

/// Label arguments, and rows alone.
macro_rules! rows {
    ($count:literal, $labels:expr) => {
        Plan {
            labels: $labels,
            required: &[],
            optional: &[],
            variables: Variables {
                count: $count,
                bound: Bound::Free,
            },
        }
    };
}

/// `range`.
pub(crate) fn range(alloc: Global) -> Result<BuiltinType, Memory>
    ensures { IfOk result (λ t. IsSchemeOf (IsLine builtin.Range []) (shown t)) }
{
    let plan = Plan {
        labels: &[],
        required: &[("start", Simple::Var(0))],
        optional: &[("stop", Simple::Var(1))],
        variables: Variables {
            count: 2,
            bound: Bound::Moments,
        },
    };
    over(alloc, &plan, &[TIME], &[START, STOP])
}

/// `window`.
pub(crate) fn window(alloc: Global) -> Result<BuiltinType, Memory>
    ensures { IfOk result (λ t. IsSchemeOf (IsLine builtin.Window []) (shown t)) }
{
    let plan = Plan {
        labels: &[],
        required: &[("every", Simple::Span)],
        optional: &[("period", Simple::Span)],
        variables: Variables {
            count: 1,
            bound: Bound::Free,
        },
    };
    over(alloc, &plan, &[TIME, START, STOP], &[])
}

/// `filter`.
pub(crate) fn filter(alloc: Global, given: &List<LabelWords>) -> Result<Option<BuiltinType>, Memory>
    ensures { IfOk result (λ o. Says (IsLine builtin.Filter given.now) (option_map shown o)) }
{
    if !is_one_of(given, "onEmpty", "drop", &["drop"]) {
        return Ok(None);
    }
    Ok(Some(filter_dropping(alloc)?))
}

/// `filter` that drops tables without rows.
fn filter_dropping(alloc: Global) -> Result<BuiltinType, Memory>
    ensures { IfOk result (λ t. IsSchemeOf OfRows (shown t)) }
{
    let test = of_row(alloc, 0, Ty::Bool)?;
    let required = one_param(alloc, "fn", test)?;
    rows_to_rows(alloc, required, 0, &rows!(1, &["onEmpty"]))
}

/// `map`.
pub(crate) fn map(alloc: Global) -> Result<BuiltinType, Memory>
    ensures { IfOk result (λ t. IsSchemeOf (IsLine builtin.Map []) (shown t)) }
{
    let change = of_row(alloc, 0, record_over(alloc, &[], 1)?)?;
    let required = one_param(alloc, "fn", change)?;
    rows_to_rows(alloc, required, 1, &rows!(2, &[]))
}

/// `reduce`.
pub(crate) fn reduce(alloc: Global) -> Result<BuiltinType, Memory>
    ensures { IfOk result (λ t. IsSchemeOf (IsLine builtin.Reduce []) (shown t)) }
{
    let identity = one_param(alloc, "identity", record_over(alloc, &[], 1)?)?;
    let required = and_param(alloc, identity, "fn", step(alloc)?)?;
    rows_to_rows(alloc, required, 1, &rows!(2, &[]))
}

/// From streams of the row of variable 0 to streams of the row of this variable.
fn rows_to_rows(
    alloc: Global,
    required: List<LabelTy>,
    row: u32,
    plan: &Plan,
) -> Result<BuiltinType, Memory>
    ensures { IfOk result (λ t. shown t ≡ piped_scheme (codes "tables") (stream no_fields (row_variable 0)) (labels_of (map label_term required)) (stream no_fields (row_variable row)) plan.now) }
{
    let input = stream_over(alloc, &[], 0)?;
    let gives = stream_over(alloc, &[], row)?;
    piped(alloc, "tables", input, required, gives, plan)
}

/// The function of a row and what was made so far.
fn step(alloc: Global) -> Result<Ty, Memory>
    ensures { IfOk result (λ t. term t ≡ step_function) }
{
    let row = record_param(alloc, "r", &[], 0)?;
    let before = record_param(alloc, "accumulator", &[], 1)?;
    of_two(alloc, row, before, record_over(alloc, &[], 1)?)
}

/// `yield`.
pub(crate) fn yielded(alloc: Global) -> Result<BuiltinType, Memory>
    ensures { IfOk result (λ t. IsSchemeOf (IsLine builtin.Yield []) (shown t)) }
{
    let plan = Plan {
        labels: &[],
        required: &[],
        optional: &[("name", Simple::Text)],
        variables: Variables {
            count: 1,
            bound: Bound::Free,
        },
    };
    let input = stream_over(alloc, &[], 0)?;
    piped(alloc, "tables", input, List::empty(alloc), Ty::Done, &plan)
}
