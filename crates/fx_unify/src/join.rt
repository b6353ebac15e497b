//! Two type variables that become one, before the types that they are bound to are taken apart: so
//! what was made equal once is seen to be equal wherever it stands.

ghost use Rattle.std.specs.Prelude.{◌≡◌, ◌↔◌, OnOk, MatchOption};
ghost use Rattle.fx_types.specs.Instance.{Solution};
ghost use Rattle.fx_types.specs.Shape.{term};
ghost use Rattle.fx_types.specs.Term.{type_variable};
ghost use Rattle.fx_unify.specs.Part.{part, p_is, value, Solved};
ghost use Rattle.fx_unify.specs.Store.{entry};
ghost use Rattle.fx_unify.specs.Work.{Holds};

use crate::field::Field;
use crate::put::replace;
use crate::store::Store;
use crate::view::View;
use crate::work::put_off;
use fx_base::Memory;
use fx_types::Ty;

/// More steps than any machine takes.
const FUEL: u64 = u64::MAX;

impl Store {
    /// The last type variable that the field leads to, where it leads to one. That there is none says
    /// nothing.
    pub(crate) fn last_variable(&self, field: &Field) -> Option<u32>
        ensures { MatchOption result (Unit {0}) (λ n. (s : Solution) → Solved s (entry self.now) → value s (part field.now) ≡ value s (p_is (type_variable n))) }
    {
        let Ok(seen) = self.seen_field(field.view()) else {
            return None;
        };
        match seen {
            View::Is(ty) => self.last_of(ty),
            _ => None,
        }
    }

    fn last_of(&self, ty: &Ty) -> Option<u32>
        ensures { MatchOption result (Unit {0}) (λ n. (s : Solution) → Solved s (entry self.now) → value s (p_is (term ty.now)) ≡ value s (p_is (type_variable n))) }
    {
        match ty {
            Ty::Var(number) => self.last_after(*number),
            _ => None,
        }
    }

    fn last_after(&self, variable: u32) -> Option<u32>
        ensures { MatchOption result (Unit {0}) (λ n. (s : Solution) → Solved s (entry self.now) → value s (p_is (type_variable variable)) ≡ value s (p_is (type_variable n))) }
    {
        let mut current = variable;
        for _step in 0..FUEL {
            match self.variable_after(current as usize) {
                Some(next) => current = next,
                None => return Some(current),
            }
        }
        None
    }

    /// Makes one of two variables that each are the last that something leads to.
    pub(crate) fn join(&mut self, one: u32, other: u32) -> Result<(), Memory>
        ensures { OnOk result ((s : Solution) → Holds s self.new ↔ (Holds s self.old × (value s (p_is (type_variable one)) ≡ value s (p_is (type_variable other))))) }
    {
        if one == other {
            return Ok(());
        }
        match replace(&mut self.types, one, Ty::Var(other))? {
            Some(was) => put_off(&mut self.work, Field::Is(was), Field::Is(Ty::Var(other))),
            None => Ok(()),
        }
    }
}
