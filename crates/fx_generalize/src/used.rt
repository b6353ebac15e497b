//! A kept type at a use: a term of its own, whose variables have numbers that nothing else has.

ghost use Rattle.std.specs.Prelude.{◌≡◌, ◌↔◌, ◌≤◌, ◌+◌, ◌^◌, max, IfOk};
ghost use Rattle.fx_types.specs.Instance.{Solution};
ghost use Rattle.fx_types.specs.Numbers.{numbers};
ghost use Rattle.fx_types.specs.Raised.{from};
ghost use Rattle.fx_types.specs.Shape.{term};
ghost use Rattle.fx_unify.specs.Judge.{AreTypes};
ghost use Rattle.fx_unify.specs.Solutions.{Solves, next_of};
ghost use Rattle.fx_generalize.specs.Solved.{HasInstance, IsNumbered, KeepsKinds, numbers_bounds, numbers_terms};
ghost use Rattle.fx_generalize.specs.Used.{Used};

use crate::solved::{Solved, VarBound};
use fx_base::Memory;
use fx_types::Ty;
use fx_unify::Bindings;
use std::alloc::Global;

/// A use: the term, and the bindings under which it is one of the instances.
#[derive(Debug, Drop)]
pub struct Use {
    pub bindings: Bindings,
    pub ty: Ty,
}

impl Solved {
    /// A term that stands for any instance, whose variables have the numbers from `first` on. Nothing
    /// is settled yet.
    pub fn used(&self, alloc: Global, bindings: Bindings, first: u32) -> Result<Use, Memory>
        requires numbered { IsNumbered self.now }
        requires unused { next_of bindings ≤ first }
        requires room { first + self.now.vars ≤ 2 ^ 32 }
        ensures used { IfOk result (λ u. Used (HasInstance self.now) bindings first u.bindings (term u.ty)) }
        ensures numbers { IfOk result (λ u. numbers (term u.ty) ≤ first + self.now.vars) }
        ensures next { IfOk result (λ u. next_of u.bindings ≤ first + self.now.vars) }
        ensures more { IfOk result (λ u. next_of bindings ≤ next_of u.bindings) }
    {
        let ty = self.ty.raised(alloc, first)?;
        let bounded = ask_bounds(bindings, self.bounds.as_slice(), first)?;
        let bindings = ask_types(alloc, bounded, self.also.as_slice(), first)?;
        Ok(Use { bindings, ty })
    }
}

/// Asks that the bounds are kept by the numbers from `first` on.
fn ask_bounds(bindings: Bindings, bounds: &[VarBound], first: u32) -> Result<Bindings, Memory>
    requires { numbers_bounds bounds.now + first ≤ 2 ^ 32 }
    ensures ok { IfOk result (λ r. (s : Solution) → Solves s r ↔ (Solves s bindings × KeepsKinds (from first s) bounds.now)) }
    ensures next { IfOk result (λ r. next_of r ≤ max (next_of bindings) (numbers_bounds bounds.now + first)) }
    ensures more { IfOk result (λ r. next_of bindings ≤ next_of r) }
{
    let mut asked = bindings;
    for bound in bounds {
        asked = asked.bound_later(bound.var + first, &bound.kinds, bound.span)?;
    }
    Ok(asked)
}

/// Asks that the terms are types, by the numbers from `first` on.
fn ask_types(
    alloc: Global,
    bindings: Bindings,
    types: &[Ty],
    first: u32,
) -> Result<Bindings, Memory>
    requires { numbers_terms types.now + first ≤ 2 ^ 32 }
    ensures ok { IfOk result (λ r. (s : Solution) → Solves s r ↔ (Solves s bindings × AreTypes (from first s) types.now)) }
    ensures next { IfOk result (λ r. next_of r ≤ max (next_of bindings) (numbers_terms types.now + first)) }
    ensures more { IfOk result (λ r. next_of bindings ≤ next_of r) }
{
    let mut asked = bindings;
    for ty in types {
        let raised = ty.raised(alloc, first)?;
        asked = asked.fits_later(alloc, &raised)?;
    }
    Ok(asked)
}
