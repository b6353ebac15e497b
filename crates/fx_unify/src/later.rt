//! What is asked of bindings, before it is seen whether a solution is left.

ghost use Rattle.std.specs.Prelude.{◌≡◌, ◌↔◌, ◌+◌, max, IfOk};
ghost use Rattle.fx_types.specs.Instance.{Solution, ground};
ghost use Rattle.fx_types.specs.Kinds.{IsAmong};
ghost use Rattle.fx_types.specs.Numbers as Numbers;
ghost use Rattle.fx_types.specs.Shape.{term};
ghost use Rattle.fx_types.specs.Size.{IsType};
ghost use Rattle.fx_unify.specs.Solutions.{Solves, next_of};

use crate::bindings::Bindings;
use crate::bound::Bound;
use crate::field::Field;
use crate::variables::numbers;
use crate::work::put_off;
use fx_base::{List, Memory};
use fx_types::Ty;
use fx_value::Kind;
use std::alloc::Global;

impl Bindings {
    /// Bindings under which the two types are equal.
    pub fn later(self, alloc: Global, a: &Ty, b: &Ty) -> Result<Bindings, Memory>
        ensures ok { IfOk result (λ r. (s : Solution) → Solves s r ↔ (Solves s self × (ground s (term a.now) ≡ ground s (term b.now)))) }
        ensures next { IfOk result (λ r. next_of r ≡ max (next_of self) (max (Numbers.numbers (term a.now)) (Numbers.numbers (term b.now)))) }
    {
        let left = a.copy(alloc)?;
        let right = b.copy(alloc)?;
        let greatest = numbers(a).max(numbers(b));
        let Bindings {
            mut store,
            bounds,
            also,
            next,
        } = self;
        put_off(&mut store.work, Field::Is(left), Field::Is(right))?;
        let next = next.max(greatest);
        Ok(Bindings {
            store,
            bounds,
            also,
            next,
        })
    }

    /// Bindings under which the type variable is one of the kinds, or a duration where `span` is
    /// true.
    pub fn bound_later(self, var: u32, kinds: &List<Kind>, span: bool) -> Result<Bindings, Memory>
        ensures ok { IfOk result (λ r. (s : Solution) → Solves s r ↔ (Solves s self × IsAmong kinds.now span (s.type_of var))) }
        ensures next { IfOk result (λ r. next_of r ≡ max (next_of self) (var + 1)) }
    {
        let bound = Bound::of(var, kinds.as_slice(), span);
        let Bindings {
            store,
            mut bounds,
            also,
            next,
        } = self;
        bounds.push(bound)?;
        let next = next.max(var as u64 + 1);
        Ok(Bindings {
            store,
            bounds,
            also,
            next,
        })
    }

    /// Bindings under which the term is a type.
    pub fn fits_later(self, alloc: Global, ty: &Ty) -> Result<Bindings, Memory>
        ensures ok { IfOk result (λ r. (s : Solution) → Solves s r ↔ (Solves s self × IsType (ground s (term ty.now)))) }
        ensures next { IfOk result (λ r. next_of r ≡ max (next_of self) (Numbers.numbers (term ty.now))) }
    {
        let copy = ty.copy(alloc)?;
        let Bindings {
            store,
            bounds,
            mut also,
            next,
        } = self;
        also.push(copy)?;
        let next = next.max(numbers(ty));
        Ok(Bindings {
            store,
            bounds,
            also,
            next,
        })
    }
}
