//! What takes no stream and no row.
ghost use Rattle.std.specs.Prelude.{IfOk, []};
ghost use Rattle.fx_types.specs.Ground.{g_bool, g_int, g_text, g_array};
ghost use Rattle.fx_schemes.specs.declared.list.Builtin.TheVariants as builtin;
ghost use Rattle.fx_schemes.specs.Builtins.{IsLine, OfKind, OfTexts, OfTime, OfSpan};
ghost use Rattle.fx_schemes.specs.Scheme.{IsSchemeOf, shown};

use crate::builtin_type::BuiltinType;
use crate::plan::{Variables, scalar, value};
use crate::simple::{Bound, Simple};
use fx_base::Memory;
use fx_types::Ty;
use std::alloc::Global;

const NONE: Variables = Variables {
    count: 0,
    bound: Bound::Free,
};

/// One type variable with this bound.
macro_rules! one {
    ($bound:ident) => {
        Variables {
            count: 1,
            bound: Bound::$bound,
        }
    };
}

/// `true` and `false`.
pub(crate) fn truth(alloc: Global) -> Result<BuiltinType, Memory>
    ensures { IfOk result (λ t. IsSchemeOf (IsLine builtin.True []) (shown t)) }
{
    value(alloc, Ty::Bool)
}

/// `now`.
pub(crate) fn now(alloc: Global) -> Result<BuiltinType, Memory>
    ensures { IfOk result (λ t. IsSchemeOf (IsLine builtin.Now []) (shown t)) }
{
    scalar(alloc, &[], Simple::Time, NONE)
}

/// `int`.
pub(crate) fn to_int(alloc: Global) -> Result<BuiltinType, Memory>
    ensures { IfOk result (λ t. IsSchemeOf (OfKind g_int) (shown t)) }
{
    scalar(alloc, &[("v", Simple::Var(0))], Simple::Int, one!(Column))
}

/// `string`.
pub(crate) fn to_text(alloc: Global) -> Result<BuiltinType, Memory>
    ensures { IfOk result (λ t. IsSchemeOf (OfKind g_text) (shown t)) }
{
    scalar(alloc, &[("v", Simple::Var(0))], Simple::Text, one!(Column))
}

/// `bool`.
pub(crate) fn to_bool(alloc: Global) -> Result<BuiltinType, Memory>
    ensures { IfOk result (λ t. IsSchemeOf (IsLine builtin.Bool []) (shown t)) }
{
    scalar(alloc, &[("v", Simple::Var(0))], Simple::Bool, one!(ToBool))
}

/// `time`.
pub(crate) fn to_time(alloc: Global) -> Result<BuiltinType, Memory>
    ensures { IfOk result (λ t. IsSchemeOf (IsLine builtin.Time []) (shown t)) }
{
    scalar(alloc, &[("v", Simple::Var(0))], Simple::Time, one!(ToTime))
}

/// `length`.
pub(crate) fn length(alloc: Global) -> Result<BuiltinType, Memory>
    ensures { IfOk result (λ t. IsSchemeOf (IsLine builtin.Length []) (shown t)) }
{
    scalar(alloc, &[("arr", Simple::Array(0))], Simple::Int, one!(Free))
}

/// `contains`.
pub(crate) fn contains(alloc: Global) -> Result<BuiltinType, Memory>
    ensures { IfOk result (λ t. IsSchemeOf (IsLine builtin.Contains []) (shown t)) }
{
    let required = [("value", Simple::Var(0)), ("set", Simple::Array(0))];
    scalar(alloc, &required, Simple::Bool, one!(Column))
}

/// `containsStr`, `hasPrefix` and `hasSuffix`, by the label of the second text.
pub(crate) fn text_test(alloc: Global, other: &str) -> Result<BuiltinType, Memory>
    ensures { IfOk result (λ t. IsSchemeOf (OfTexts other.now g_bool) (shown t)) }
{
    let required = [("v", Simple::Text), (other, Simple::Text)];
    scalar(alloc, &required, Simple::Bool, NONE)
}

/// `trimPrefix` and `trimSuffix`, by the label of the second text.
pub(crate) fn trimmed(alloc: Global, other: &str) -> Result<BuiltinType, Memory>
    ensures { IfOk result (λ t. IsSchemeOf (OfTexts other.now g_text) (shown t)) }
{
    let required = [("v", Simple::Text), (other, Simple::Text)];
    scalar(alloc, &required, Simple::Text, NONE)
}

/// `split`.
pub(crate) fn split(alloc: Global) -> Result<BuiltinType, Memory>
    ensures { IfOk result (λ t. IsSchemeOf (IsLine builtin.Split []) (shown t)) }
{
    let required = [("v", Simple::Text), ("t", Simple::Text)];
    scalar(alloc, &required, Simple::Texts, NONE)
}

/// `strlen`.
pub(crate) fn strlen(alloc: Global) -> Result<BuiltinType, Memory>
    ensures { IfOk result (λ t. IsSchemeOf (IsLine builtin.Strlen []) (shown t)) }
{
    scalar(alloc, &[("v", Simple::Text)], Simple::Int, NONE)
}

/// `substring`.
pub(crate) fn substring(alloc: Global) -> Result<BuiltinType, Memory>
    ensures { IfOk result (λ t. IsSchemeOf (IsLine builtin.Substring []) (shown t)) }
{
    let required = [
        ("v", Simple::Text),
        ("start", Simple::Int),
        ("end", Simple::Int),
    ];
    scalar(alloc, &required, Simple::Text, NONE)
}

/// `replaceAll`.
pub(crate) fn replace_all(alloc: Global) -> Result<BuiltinType, Memory>
    ensures { IfOk result (λ t. IsSchemeOf (IsLine builtin.ReplaceAll []) (shown t)) }
{
    let required = [
        ("v", Simple::Text),
        ("t", Simple::Text),
        ("u", Simple::Text),
    ];
    scalar(alloc, &required, Simple::Text, NONE)
}

/// `joinStr`.
pub(crate) fn join_str(alloc: Global) -> Result<BuiltinType, Memory>
    ensures { IfOk result (λ t. IsSchemeOf (IsLine builtin.JoinStr []) (shown t)) }
{
    let required = [("arr", Simple::Texts), ("v", Simple::Text)];
    scalar(alloc, &required, Simple::Text, NONE)
}

/// `repeat`.
pub(crate) fn repeat(alloc: Global) -> Result<BuiltinType, Memory>
    ensures { IfOk result (λ t. IsSchemeOf (IsLine builtin.Repeat []) (shown t)) }
{
    let required = [("v", Simple::Text), ("i", Simple::Int)];
    scalar(alloc, &required, Simple::Text, NONE)
}

/// `year` to `nanosecond`.
pub(crate) fn time_part(alloc: Global) -> Result<BuiltinType, Memory>
    ensures { IfOk result (λ t. IsSchemeOf OfTime (shown t)) }
{
    scalar(alloc, &[("t", Simple::Time)], Simple::Int, NONE)
}

/// `truncate`.
pub(crate) fn truncate(alloc: Global) -> Result<BuiltinType, Memory>
    ensures { IfOk result (λ t. IsSchemeOf (IsLine builtin.Truncate []) (shown t)) }
{
    let required = [("t", Simple::Time), ("unit", Simple::Span)];
    scalar(alloc, &required, Simple::Time, NONE)
}

/// `add` and `sub`, by the label of the time.
pub(crate) fn moved(alloc: Global, time: &str) -> Result<BuiltinType, Memory>
    ensures { IfOk result (λ t. IsSchemeOf (OfSpan time.now) (shown t)) }
{
    let required = [("d", Simple::Span), (time, Simple::Time)];
    scalar(alloc, &required, Simple::Time, NONE)
}
