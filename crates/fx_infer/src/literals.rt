//! The types of literals, whatever the bindings are.

ghost use Rattle.std.specs.Prelude.{◌≡◌, FitsSigned};
ghost use Rattle.std.specs.Int.{w64};
ghost use Rattle.fx_types.specs.Ground.{g_int, g_time, g_span, g_text, g_pattern};
ghost use Rattle.fx_types.specs.Instance.{Solution, ground};
ghost use Rattle.fx_types.specs.Shape.{term};
ghost use Rattle.fx_types.specs.Size.{IsType};
ghost use Rattle.fx_infer.specs.Infers.{Infers};

use crate::ask::Inferred;
use fx_types::Ty;
use fx_unify::Bindings;

/// The type of an integer.
pub(crate) fn int_type(bindings: Bindings, value: i64) -> Inferred
    ensures { Infers (λ s t. IsType t × ((t ≡ g_int) × FitsSigned w64 value)) bindings result.bindings (λ s. ground s (term result.ty)) }
{
    Inferred {
        bindings,
        ty: Ty::Int,
    }
}

/// The type of a time.
pub(crate) fn time_type(bindings: Bindings, value: i64) -> Inferred
    ensures { Infers (λ s t. IsType t × ((t ≡ g_time) × FitsSigned w64 value)) bindings result.bindings (λ s. ground s (term result.ty)) }
{
    Inferred {
        bindings,
        ty: Ty::Time,
    }
}

/// The type of a duration.
pub(crate) fn span_type(bindings: Bindings, months: i64, nanos: i64) -> Inferred
    ensures { Infers (λ s t. IsType t × ((t ≡ g_span) × FitsSigned w64 months × FitsSigned w64 nanos)) bindings result.bindings (λ s. ground s (term result.ty)) }
{
    Inferred {
        bindings,
        ty: Ty::Span,
    }
}

/// The type of a text.
pub(crate) fn text_type(bindings: Bindings) -> Inferred
    ensures { Infers (λ s t. IsType t × (t ≡ g_text)) bindings result.bindings (λ s. ground s (term result.ty)) }
{
    Inferred {
        bindings,
        ty: Ty::Text,
    }
}

/// The type of a regular expression.
pub(crate) fn pattern_type(bindings: Bindings) -> Inferred
    ensures { Infers (λ s t. IsType t × (t ≡ g_pattern)) bindings result.bindings (λ s. ground s (term result.ty)) }
{
    Inferred {
        bindings,
        ty: Ty::Pattern,
    }
}
