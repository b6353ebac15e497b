//! What changes the columns of a row, or works along one.
ghost use Rattle.std.specs.Prelude.{IfOk, [], option_map};
ghost use Rattle.fx_schemes.specs.declared.list.Builtin.TheVariants as builtin;
ghost use Rattle.fx_schemes.specs.Builtins.{IsLine, OfPart, OfSteps};
ghost use Rattle.fx_schemes.specs.Scheme.{Says, IsSchemeOf, shown};

use crate::builtin_type::BuiltinType;
use crate::given::LabelWords;
use crate::plan::{At, Plan, Variables, over, transform};
use crate::simple::{Bound, Simple};
use fx_base::{List, Memory};
use std::alloc::Global;

/// One row, and no type beside it.
const ROW: Variables = Variables {
    count: 1,
    bound: Bound::Free,
};

/// One row, and one kind of columns.
const KIND: Variables = Variables {
    count: 1,
    bound: Bound::Column,
};

/// `duplicate`.
pub(crate) fn duplicate(
    alloc: Global,
    given: &List<LabelWords>,
) -> Result<Option<BuiltinType>, Memory>
    ensures { IfOk result (λ o. Says (IsLine builtin.Duplicate given.now) (option_map shown o)) }
{
    let plan = Plan {
        labels: &["column", "as"],
        required: &[],
        optional: &[],
        variables: KIND,
    };
    let asked = [(At::Given("column"), Some(Simple::Var(0)))];
    let made = [(At::Given("as"), Some(Simple::Var(0)))];
    transform(alloc, given, &plan, &asked, &made)
}

/// `set`.
pub(crate) fn set(alloc: Global, given: &List<LabelWords>) -> Result<Option<BuiltinType>, Memory>
    ensures { IfOk result (λ o. Says (IsLine builtin.Set given.now) (option_map shown o)) }
{
    let plan = Plan {
        labels: &["key"],
        required: &[("value", Simple::Text)],
        optional: &[],
        variables: ROW,
    };
    let made = [(At::Given("key"), Some(Simple::Text))];
    transform(alloc, given, &plan, &[], &made)
}

/// `fill`.
pub(crate) fn fill(alloc: Global, given: &List<LabelWords>) -> Result<Option<BuiltinType>, Memory>
    ensures { IfOk result (λ o. Says (IsLine builtin.Fill given.now) (option_map shown o)) }
{
    let plan = Plan {
        labels: &["column"],
        required: &[("value", Simple::Var(0))],
        optional: &[],
        variables: KIND,
    };
    let asked = [(At::Word("column", "_value"), Some(Simple::Var(0)))];
    transform(alloc, given, &plan, &asked, &[])
}

/// `limit` and `tail`.
pub(crate) fn part(alloc: Global) -> Result<BuiltinType, Memory>
    ensures { IfOk result (λ t. IsSchemeOf OfPart (shown t)) }
{
    let plan = Plan {
        labels: &[],
        required: &[("n", Simple::Int)],
        optional: &[("offset", Simple::Int)],
        variables: ROW,
    };
    over(alloc, &plan, &[], &[])
}

/// `difference` and `cumulativeSum`.
pub(crate) fn steps(alloc: Global, given: &List<LabelWords>) -> Result<Option<BuiltinType>, Memory>
    ensures { IfOk result (λ o. Says (OfSteps given.now) (option_map shown o)) }
{
    let plan = Plan {
        labels: &["columns"],
        required: &[],
        optional: &[],
        variables: ROW,
    };
    let asked = [(At::Word("columns", "_value"), Some(Simple::Int))];
    transform(alloc, given, &plan, &asked, &[])
}

/// `elapsed`.
pub(crate) fn elapsed(
    alloc: Global,
    given: &List<LabelWords>,
) -> Result<Option<BuiltinType>, Memory>
    ensures { IfOk result (λ o. Says (IsLine builtin.Elapsed given.now) (option_map shown o)) }
{
    let plan = Plan {
        labels: &["timeColumn", "columnName"],
        required: &[],
        optional: &[("unit", Simple::Span)],
        variables: ROW,
    };
    let asked = [(At::Word("timeColumn", "_time"), Some(Simple::Time))];
    let made = [(At::Word("columnName", "elapsed"), Some(Simple::Int))];
    transform(alloc, given, &plan, &asked, &made)
}
