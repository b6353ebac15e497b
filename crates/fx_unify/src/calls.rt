//! The calls that make bindings.

ghost use Rattle.std.specs.Prelude.{◌≡◌, ◌↔◌, ◌≤◌, ◌<◌, ◌+◌, ◌^◌, max, IfOk, MatchOption};
ghost use Rattle.fx_types.specs.Instance.{Solution, ground};
ghost use Rattle.fx_types.specs.Shape.{term};
ghost use Rattle.fx_types.specs.Size.{IsType};
ghost use Rattle.fx_types.specs.Kinds.{IsAmong};
ghost use Rattle.fx_types.specs.Numbers as Numbers;
ghost use Rattle.fx_unify.specs.Solutions.{Solves, HasLeast, IsUnrestricted, next_of};
ghost use Rattle.fx_unify.specs.PutIn.{IsApplied};
ghost use Rattle.fx_unify.specs.Work.{Within, Refuses};

use crate::bindings::Bindings;
use crate::fault::UnifyFault;
use crate::store::Store;
use fx_base::{List, Memory};
use fx_types::Ty;
use fx_value::Kind;
use std::alloc::Global;

/// How many numbers there are.
const NUMBERS: u64 = 1 << 32;

impl Bindings {
    /// Bindings of nothing: every solution is one of them.
    pub fn empty(alloc: Global) -> Result<Bindings, Memory>
        ensures all { IfOk result (λ r. (s : Solution) → Solves s r) }
        ensures least { IfOk result HasLeast }
        ensures next { IfOk result (λ r. next_of r ≡ 0) }
    {
        Ok(Bindings {
            store: Store {
                types: Vec::new(alloc),
                fields: Vec::new(alloc),
                slots: Vec::new(alloc),
                apart: Vec::new(alloc),
                rests: Vec::new(alloc),
                work: Vec::new(alloc),
            },
            bounds: Vec::new(alloc),
            also: Vec::new(alloc),
            next: 0,
        })
    }

    /// Bindings under which the type variable is one of the kinds, or a duration where `span` is
    /// true. Clash where no old solution makes it so. A refusal spends the bindings.
    pub fn bound(
        self,
        alloc: Global,
        var: u32,
        kinds: &List<Kind>,
        span: bool,
    ) -> Result<Bindings, UnifyFault>
        ensures ok { IfOk result (λ r. (s : Solution) → Solves s r ↔ (Solves s self × IsAmong kinds.now span (s.type_of var))) }
        ensures least { IfOk result HasLeast }
        ensures next { IfOk result (λ r. next_of r ≡ max (next_of self) (var + 1)) }
        ensures clash { Refuses result ((s : Solution) → Solves s self → Within s → IsAmong kinds.now span (s.type_of var) → ⊥) }
    {
        let asked = self.bound_later(var, kinds, span)?;
        asked.settle(alloc)
    }

    /// Bindings under which the term is a type, of at most 4,096 nodes. Clash where no old solution
    /// makes it one. A refusal spends the bindings.
    pub fn fits(self, alloc: Global, ty: &Ty) -> Result<Bindings, UnifyFault>
        ensures ok { IfOk result (λ r. (s : Solution) → Solves s r ↔ (Solves s self × IsType (ground s (term ty.now)))) }
        ensures least { IfOk result HasLeast }
        ensures next { IfOk result (λ r. next_of r ≡ max (next_of self) (Numbers.numbers (term ty.now))) }
        ensures clash { Refuses result ((s : Solution) → Solves s self → Within s → IsType (ground s (term ty.now)) → ⊥) }
    {
        let asked = self.fits_later(alloc, ty)?;
        asked.settle(alloc)
    }

    /// The type with what is bound put in for its type and field variables. Under every solution
    /// it is the same type. A field variable stays where it stands for a row's field at a label, for
    /// which terms have no other name, and so do all row variables.
    pub fn apply(&self, alloc: Global, ty: &Ty) -> Result<Ty, Memory>
        ensures same { IfOk result (λ t. (s : Solution) → Solves s self.now → ground s (term t) ≡ ground s (term ty.now)) }
        ensures put_in { IfOk result (λ t. IsApplied self.now (term t)) }
    {
        self.store.apply_type(alloc, ty, u64::MAX)
    }

    /// The first of so many numbers that nothing is bound to or asked of: no solution is restricted
    /// at them. None exactly where they pass 32 bits.
    pub fn unused(&self, count: u32) -> Option<u32>
        requires { 1 ≤ count }
        ensures number { MatchOption result (2 ^ 32 < next_of self.now + count) (λ n. (n ≡ next_of self.now) × (next_of self.now + count ≤ 2 ^ 32)) }
        ensures free { IsUnrestricted self.now }
    {
        if self.next > NUMBERS - count as u64 {
            return None;
        }
        Some(self.next as u32)
    }
}

/// Bindings under which the two types are equal, and nothing else is asked than before. Clash where
/// no old solution within 4,096 nodes makes them so. A refusal spends the bindings.
pub fn unify(alloc: Global, bindings: Bindings, a: &Ty, b: &Ty) -> Result<Bindings, UnifyFault>
    ensures ok { IfOk result (λ r. (s : Solution) → Solves s r ↔ (Solves s bindings × (ground s (term a.now) ≡ ground s (term b.now)))) }
    ensures least { IfOk result HasLeast }
    ensures next { IfOk result (λ r. next_of r ≡ max (next_of bindings) (max (Numbers.numbers (term a.now)) (Numbers.numbers (term b.now)))) }
    ensures clash { Refuses result ((s : Solution) → Solves s bindings → Within s → ground s (term a.now) ≡ ground s (term b.now) → ⊥) }
{
    let asked = bindings.later(alloc, a, b)?;
    asked.settle(alloc)
}
