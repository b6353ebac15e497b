//! What makes streams of stored points or of arrays.
ghost use Rattle.std.specs.Prelude.{◌≡◌, [], IfOk};
ghost use Rattle.fx_types.specs.Ground.{g_bool, g_int, g_text};
ghost use Rattle.fx_schemes.specs.declared.list.Builtin.TheVariants as builtin;
ghost use Rattle.fx_schemes.specs.Builtins.{IsLine, OfBucket};
ghost use Rattle.fx_schemes.specs.Plan.{stored_scheme};
ghost use Rattle.fx_schemes.specs.Scheme.{IsSchemeOf, shown};

use crate::builtin_type::BuiltinType;
use crate::plan::{Variables, call};
use crate::simple::{Bound, Simple, array_of};
use crate::terms::{one_param, params, record_over, stream_else, stream_over};
use fx_base::Memory;
use std::alloc::Global;

/// `from`.
pub(crate) fn integers(alloc: Global) -> Result<BuiltinType, Memory>
    ensures { IfOk result (λ t. IsSchemeOf (OfBucket g_int) (shown t)) }
{
    stored(alloc, Simple::Int)
}

/// `series.texts`.
pub(crate) fn texts(alloc: Global) -> Result<BuiltinType, Memory>
    ensures { IfOk result (λ t. IsSchemeOf (OfBucket g_text) (shown t)) }
{
    stored(alloc, Simple::Text)
}

/// `series.bools`.
pub(crate) fn truths(alloc: Global) -> Result<BuiltinType, Memory>
    ensures { IfOk result (λ t. IsSchemeOf (OfBucket g_bool) (shown t)) }
{
    stored(alloc, Simple::Bool)
}

/// The source of what is stored under a kind.
fn stored(alloc: Global, kind: Simple) -> Result<BuiltinType, Memory>
    ensures { IfOk result (λ t. shown t ≡ stored_scheme kind) }
{
    let cells = [
        ("_measurement", Some(Simple::Text)),
        ("_field", Some(Simple::Text)),
        ("_time", Some(Simple::Time)),
        ("_value", Some(kind)),
    ];
    let gives = stream_else(alloc, &cells, Some(Simple::Text))?;
    let required = params(alloc, &[("bucket", Simple::Text)])?;
    let none = Variables {
        count: 0,
        bound: Bound::Free,
    };
    call(alloc, required, gives, none)
}

const ROW: Variables = Variables {
    count: 1,
    bound: Bound::Free,
};

/// `array.from`.
pub(crate) fn array_from(alloc: Global) -> Result<BuiltinType, Memory>
    ensures { IfOk result (λ t. IsSchemeOf (IsLine builtin.ArrayFrom []) (shown t)) }
{
    let rows = array_of(alloc, record_over(alloc, &[], 0)?)?;
    let required = one_param(alloc, "rows", rows)?;
    let gives = stream_over(alloc, &[], 0)?;
    call(alloc, required, gives, ROW)
}

/// `union`.
pub(crate) fn union(alloc: Global) -> Result<BuiltinType, Memory>
    ensures { IfOk result (λ t. IsSchemeOf (IsLine builtin.Union []) (shown t)) }
{
    let tables = array_of(alloc, stream_over(alloc, &[], 0)?)?;
    let required = one_param(alloc, "tables", tables)?;
    let gives = stream_over(alloc, &[], 0)?;
    call(alloc, required, gives, ROW)
}
