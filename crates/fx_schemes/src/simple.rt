//! The types that lines name beside rows and functions of rows, and the bounds on their variables.
ghost use Rattle.std.specs.Prelude.{◌≡◌, [], ◌∷◌, IfOk};
ghost use Rattle.fx_types.specs.Term.{array};
ghost use Rattle.fx_types.specs.Shape.{term, field_term};
ghost use Rattle.fx_schemes.specs.Plan.{simple_term, cell_field, bounds_of, to_kinds, to_moments};

use crate::builtin_type::KindBound;
use fx_base::{Boxed, List, Memory};
use fx_types::{FieldTy, Ty};
use fx_value::Kind;
use std::alloc::Global;

/// A type of a parameter or of a column.
#[derive(Clone, Copy)]
pub(crate) enum Simple {
    Bool,
    Int,
    Text,
    Time,
    Span,
    /// The type of this variable.
    Var(u32),
    /// An array of texts.
    Texts,
    /// An array of what the variable stands for.
    Array(u32),
}

/// What the type variables of a line stand for. Variable 0 has the bound, and in `Moments`
/// variable 1 too; all others are free.
#[derive(Clone, Copy)]
pub(crate) enum Bound {
    Free,
    /// Any column kind.
    Column,
    /// Integers or times.
    Ordered,
    /// What `bool` converts.
    ToBool,
    /// What `time` converts.
    ToTime,
    /// Times, or durations that are added to the present.
    Moments,
}

/// The term of the type.
pub(crate) fn simple_ty(alloc: Global, simple: Simple) -> Result<Ty, Memory>
    ensures { IfOk result (λ t. term t ≡ simple_term simple) }
{
    match simple {
        Simple::Bool => Ok(Ty::Bool),
        Simple::Int => Ok(Ty::Int),
        Simple::Text => Ok(Ty::Text),
        Simple::Time => Ok(Ty::Time),
        Simple::Span => Ok(Ty::Span),
        Simple::Var(number) => Ok(Ty::Var(number)),
        Simple::Texts => array_of(alloc, Ty::Text),
        Simple::Array(number) => array_of(alloc, Ty::Var(number)),
    }
}

/// The array of this element.
pub(crate) fn array_of(alloc: Global, element: Ty) -> Result<Ty, Memory>
    ensures { IfOk result (λ t. term t ≡ array (term element)) }
{
    Ok(Ty::Array(Boxed::new(alloc, element)?))
}

/// The field of a column of this type, or Absent.
pub(crate) fn cell_ty(alloc: Global, cell: Option<Simple>) -> Result<FieldTy, Memory>
    ensures { IfOk result (λ f. field_term f ≡ cell_field cell) }
{
    match cell {
        Some(simple) => Ok(FieldTy::Is(simple_ty(alloc, simple)?)),
        None => Ok(FieldTy::Absent),
    }
}

/// The bounds on the variables.
pub(crate) fn bounds(alloc: Global, bound: Bound) -> Result<List<KindBound>, Memory>
    ensures { IfOk result (λ ks. ks ≡ bounds_of bound) }
{
    match bound {
        Bound::Free => Ok(List::empty(alloc)),
        Bound::Column => to_kinds(alloc, &[Kind::Bool, Kind::Int, Kind::Text, Kind::Time]),
        Bound::Ordered => to_kinds(alloc, &[Kind::Int, Kind::Time]),
        Bound::ToBool => to_kinds(alloc, &[Kind::Bool, Kind::Int, Kind::Text]),
        Bound::ToTime => to_kinds(alloc, &[Kind::Time, Kind::Int, Kind::Text]),
        Bound::Moments => to_moments(alloc),
    }
}

/// The one bound of variable 0 to these kinds.
fn to_kinds(alloc: Global, kinds: &[Kind]) -> Result<List<KindBound>, Memory>
    ensures { IfOk result (λ ks. ks ≡ to_kinds 0 kinds.now ∷ []) }
{
    let mut bounds = List::empty(alloc);
    bounds.push(one(alloc, 0, kinds)?)?;
    Ok(bounds)
}

/// The bounds of variables 0 and 1 to times and durations.
fn to_moments(alloc: Global) -> Result<List<KindBound>, Memory>
    ensures { IfOk result (λ ks. ks ≡ to_moments 0 ∷ to_moments 1 ∷ []) }
{
    let mut bounds = List::empty(alloc);
    bounds.push(moment(alloc, 0)?)?;
    bounds.push(moment(alloc, 1)?)?;
    Ok(bounds)
}

/// The bound of a variable to these kinds.
fn one(alloc: Global, var: u32, kinds: &[Kind]) -> Result<KindBound, Memory>
    ensures { IfOk result (λ k. k ≡ to_kinds var kinds.now) }
{
    let mut list = List::empty(alloc);
    list.extend(kinds)?;
    Ok(KindBound {
        var,
        kinds: list,
        span: false,
    })
}

/// The bound of a variable to times and durations.
fn moment(alloc: Global, var: u32) -> Result<KindBound, Memory>
    ensures { IfOk result (λ k. k ≡ to_moments var) }
{
    let bound = one(alloc, var, &[Kind::Time])?;
    Ok(KindBound {
        var: bound.var,
        kinds: bound.kinds,
        span: true,
    })
}
