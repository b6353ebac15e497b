//! What inference asks of bindings.

ghost use Rattle.std.specs.Prelude.{◌≡◌, IfOk};
ghost use Rattle.fx_types.specs.Instance.{Solution, ground};
ghost use Rattle.fx_types.specs.Ground.{g_array};
ghost use Rattle.fx_types.specs.Kinds.{IsAmong};
ghost use Rattle.fx_types.specs.Shape.{term};
ghost use Rattle.fx_types.specs.Size.{IsType};
ghost use Rattle.fx_unify.specs.Solutions.{next_of};
ghost use Rattle.fx_infer.specs.Infers.{Infers, Asks, IsBelow};

use crate::terms::array_of;
use fx_base::{List, Memory};
use fx_types::Ty;
use fx_unify::Bindings;
use fx_value::Kind;
use std::alloc::Global;

/// What was inferred: bindings, and a term that stands for the type under each of their solutions.
#[derive(Debug, Drop)]
pub(crate) struct Inferred {
    pub(crate) bindings: Bindings,
    pub(crate) ty: Ty,
}

/// A variable that may be any type.
pub(crate) fn any_type(alloc: Global, bindings: Bindings) -> Result<Inferred, Memory>
    ensures { IfOk result (λ r. Infers (λ s t. IsType t) bindings r.bindings (λ s. ground s (term r.ty))) }
{
    let number = unused(&bindings)?;
    let bindings = bindings.fits_later(alloc, &Ty::Var(number))?;
    let ty = Ty::Var(number);
    Ok(Inferred { bindings, ty })
}

/// A variable for the elements of an array that is a type.
pub(crate) fn any_array(alloc: Global, bindings: Bindings) -> Result<Inferred, Memory>
    ensures { IfOk result (λ r. Infers (λ s t. IsType t × IsType (g_array t)) bindings r.bindings (λ s. ground s (term r.ty))) }
{
    let any = any_type(alloc, bindings)?;
    let whole = array_of(alloc, any.ty.copy(alloc)?)?;
    let bindings = any.bindings.fits_later(alloc, &whole)?;
    let ty = any.ty;
    Ok(Inferred { bindings, ty })
}

/// Bindings under which the type is one of the kinds, or a duration where `span` is true.
pub(crate) fn among(
    alloc: Global,
    bindings: Bindings,
    ty: &Ty,
    kinds: &[Kind],
    span: bool,
) -> Result<Bindings, Memory>
    requires { IsBelow (next_of bindings) (term ty.now) }
    ensures { IfOk result (λ b. Asks (λ s. IsAmong kinds.now span (ground s (term ty.now))) bindings b) }
{
    let number = unused(&bindings)?;
    let var = Ty::Var(number);
    let tied = bindings.later(alloc, &var, ty)?;
    let mut list = List::empty(alloc);
    list.extend(kinds)?;
    tied.bound_later(number, &list, span)
}

/// Bindings under which the types are equal.
pub(crate) fn equal(
    alloc: Global,
    bindings: Bindings,
    left: &Ty,
    right: &Ty,
) -> Result<Bindings, Memory>
    ensures { IfOk result (λ b. Asks (λ s. ground s (term left.now) ≡ ground s (term right.now)) bindings b) }
{
    bindings.later(alloc, left, right)
}

/// The first number that nothing is asked of.
pub(crate) fn unused(bindings: &Bindings) -> Result<u32, Memory>
    ensures { IfOk result (λ n. n ≡ next_of bindings.now) }
{
    match bindings.unused(1) {
        Some(number) => Ok(number),
        None => Err(Memory),
    }
}
