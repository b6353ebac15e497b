//! What makes one row of a table, or takes one: aggregates and selectors.
ghost use Rattle.std.specs.Prelude.{IfOk, Some, option_map};
ghost use Rattle.fx_schemes.specs.Builtins.{OfColumn, OfWindows, Counts, Sums, Distincts, Extremes, Ends, Folds, IsLine};
ghost use Rattle.fx_schemes.specs.declared.list.Builtin.TheVariants as builtin;
ghost use Rattle.fx_schemes.specs.Scheme.{Says, IsSchemeOf, shown};

use crate::builtin_type::BuiltinType;
use crate::fold::{Fold, fold_of};
use crate::given::{LabelWords, text_at};
use crate::plan::{At, Plan, Variables, over, transform};
use crate::simple::{Bound, Simple};
use fx_base::{List, Memory};
use std::alloc::Global;

const COLUMN: At<'static> = At::Word("column", "_value");

const TIME: At<'static> = At::Label("_time");

macro_rules! of_column {
    ($bound:ident) => {
        Plan {
            labels: &["column"],
            required: &[],
            optional: &[],
            variables: Variables {
                count: 1,
                bound: Bound::$bound,
            },
        }
    };
}

/// `count`.
pub(crate) fn count(alloc: Global, given: &List<LabelWords>) -> Result<Option<BuiltinType>, Memory>
    ensures { IfOk result (λ o. Says (OfColumn Counts given.now) (option_map shown o)) }
{
    let plan = of_column!(Column);
    let asked = [(COLUMN, Some(Simple::Var(0)))];
    let made = [(COLUMN, Some(Simple::Int)), (TIME, None)];
    transform(alloc, given, &plan, &asked, &made)
}

/// `sum` and `spread`.
pub(crate) fn sum(alloc: Global, given: &List<LabelWords>) -> Result<Option<BuiltinType>, Memory>
    ensures { IfOk result (λ o. Says (OfColumn Sums given.now) (option_map shown o)) }
{
    let plan = of_column!(Free);
    let asked = [(COLUMN, Some(Simple::Int))];
    let made = [(COLUMN, Some(Simple::Int)), (TIME, None)];
    transform(alloc, given, &plan, &asked, &made)
}

/// `distinct`.
pub(crate) fn distinct(
    alloc: Global,
    given: &List<LabelWords>,
) -> Result<Option<BuiltinType>, Memory>
    ensures { IfOk result (λ o. Says (OfColumn Distincts given.now) (option_map shown o)) }
{
    let plan = of_column!(Column);
    let asked = [(COLUMN, Some(Simple::Var(0)))];
    let made = [(At::Label("_value"), Some(Simple::Var(0))), (TIME, None)];
    transform(alloc, given, &plan, &asked, &made)
}

/// `min` and `max`.
pub(crate) fn extreme(
    alloc: Global,
    given: &List<LabelWords>,
) -> Result<Option<BuiltinType>, Memory>
    ensures { IfOk result (λ o. Says (OfColumn Extremes given.now) (option_map shown o)) }
{
    let plan = of_column!(Ordered);
    let asked = [(COLUMN, Some(Simple::Var(0)))];
    transform(alloc, given, &plan, &asked, &[])
}

/// `first` and `last`.
pub(crate) fn end(alloc: Global, given: &List<LabelWords>) -> Result<Option<BuiltinType>, Memory>
    ensures { IfOk result (λ o. Says (OfColumn Ends given.now) (option_map shown o)) }
{
    let plan = of_column!(Column);
    let asked = [(COLUMN, Some(Simple::Var(0)))];
    transform(alloc, given, &plan, &asked, &[])
}

macro_rules! of_windows {
    ($bound:ident) => {
        Plan {
            labels: &["fn"],
            required: &[("every", Simple::Span)],
            optional: &[("createEmpty", Simple::Bool)],
            variables: Variables {
                count: 1,
                bound: Bound::$bound,
            },
        }
    };
}

macro_rules! bounds_and {
    ($value:expr) => {
        [
            ("_time", Some(Simple::Time)),
            ("_start", Some(Simple::Time)),
            ("_stop", Some(Simple::Time)),
            ("_value", Some($value)),
        ]
    };
}

/// `aggregateWindow`.
pub(crate) fn aggregate_window(
    alloc: Global,
    given: &List<LabelWords>,
) -> Result<Option<BuiltinType>, Memory>
    ensures { IfOk result (λ o. Says (IsLine builtin.AggregateWindow given.now) (option_map shown o)) }
{
    let Some(name) = text_at(given, "fn", None) else {
        return Ok(None);
    };
    let Some(fold) = fold_of(name.as_bytes()) else {
        return Ok(None);
    };
    Ok(Some(folded(alloc, fold)?))
}

/// `aggregateWindow` with a function that makes this.
fn folded(alloc: Global, fold: Fold) -> Result<BuiltinType, Memory>
    ensures { IfOk result (λ t. IsSchemeOf (OfWindows (Folds (Some fold))) (shown t)) }
{
    match fold {
        Fold::Count => counted(alloc),
        Fold::Sum => summed(alloc),
        Fold::Extreme => extremes(alloc),
        Fold::End => ends(alloc),
    }
}

/// `aggregateWindow` with `count`.
fn counted(alloc: Global) -> Result<BuiltinType, Memory>
    ensures { IfOk result (λ t. IsSchemeOf (OfWindows Counts) (shown t)) }
{
    let plan = of_windows!(Column);
    let asked = bounds_and!(Simple::Var(0));
    let made = [("_time", Some(Simple::Time)), ("_value", Some(Simple::Int))];
    over(alloc, &plan, &asked, &made)
}

/// `aggregateWindow` with `sum` or `spread`.
fn summed(alloc: Global) -> Result<BuiltinType, Memory>
    ensures { IfOk result (λ t. IsSchemeOf (OfWindows Sums) (shown t)) }
{
    let plan = of_windows!(Free);
    let asked = bounds_and!(Simple::Int);
    let made = [("_time", Some(Simple::Time)), ("_value", Some(Simple::Int))];
    over(alloc, &plan, &asked, &made)
}

/// `aggregateWindow` with `min` or `max`.
fn extremes(alloc: Global) -> Result<BuiltinType, Memory>
    ensures { IfOk result (λ t. IsSchemeOf (OfWindows Extremes) (shown t)) }
{
    let plan = of_windows!(Ordered);
    let asked = bounds_and!(Simple::Var(0));
    over(alloc, &plan, &asked, &[("_time", Some(Simple::Time))])
}

/// `aggregateWindow` with `first` or `last`.
fn ends(alloc: Global) -> Result<BuiltinType, Memory>
    ensures { IfOk result (λ t. IsSchemeOf (OfWindows Ends) (shown t)) }
{
    let plan = of_windows!(Column);
    let asked = bounds_and!(Simple::Var(0));
    over(alloc, &plan, &asked, &[("_time", Some(Simple::Time))])
}
