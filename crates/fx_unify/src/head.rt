ghost use Rattle.std.specs.Prelude.{◌≡◌, IfOk, MatchOption, None, Some, option_map, slice_index_or};
ghost use Rattle.fx_types.specs.Instance.{Solution};
ghost use Rattle.fx_types.specs.Shape.{term};
ghost use Rattle.fx_unify.specs.Least.{Leads};
ghost use Rattle.fx_unify.specs.Part.{p_is, value, Solved};
ghost use Rattle.fx_unify.specs.Sorts.{is_light};
ghost use Rattle.fx_unify.specs.Store.{entry, bound_to};

use crate::sorts::{Sorts, may_be_column};
use crate::store::Store;
use fx_base::Memory;
use fx_types::Ty;

/// More steps than any machine takes.
const FUEL: u64 = u64::MAX;

impl Store {
    /// Follows bound type variables up to a type that is none.
    pub(crate) fn head<'a>(&'a self, ty: &'a Ty) -> Result<&'a Ty, Memory>
        ensures same { IfOk result (λ t. (s : Solution) → Solved s (entry self.now) → value s (p_is (term t.now)) ≡ value s (p_is (term ty.now))) }
        ensures leads { IfOk result (λ t. Leads (entry self.now) (p_is (term ty.now)) (p_is (term t.now))) }
        ensures free { IfOk result (λ t. bound_to (entry self.now) (p_is (term t.now)) ≡ None) }
    {
        let mut current = ty;
        for _step in 0..FUEL {
            match self.after_type(current) {
                Some(next) => current = next,
                None => return Ok(current),
            }
        }
        Err(Memory)
    }

    /// What the type variable that the type is is bound to.
    pub(crate) fn after_type<'a>(&'a self, ty: &Ty) -> Option<&'a Ty>
        ensures { MatchOption result (bound_to (entry self.now) (p_is (term ty.now)) ≡ None) (λ t. bound_to (entry self.now) (p_is (term ty.now)) ≡ Some (p_is (term t.now))) }
    {
        match ty {
            Ty::Var(number) => type_bound(self.types.as_slice(), *number as usize),
            _ => None,
        }
    }
}

/// What the variable is bound to.
pub(crate) fn type_bound(items: &[Option<Ty>], variable: usize) -> Option<&Ty>
    ensures { MatchOption result (slice_index_or items.now variable None ≡ None) (λ t. slice_index_or items.now variable None ≡ Some t.now) }
{
    if variable < items.len() {
        return items[variable].as_ref();
    }
    None
}

/// Whether a field of this type counts nothing in the least solution. The type is no bound
/// variable.
pub(crate) fn is_light_type(sorts: &[Sorts], ty: &Ty) -> bool
    ensures { result ≡ is_light sorts.now (term ty.now) }
{
    match ty {
        Ty::Bool => true,
        Ty::Int => true,
        Ty::Text => true,
        Ty::Time => true,
        Ty::Var(number) => may_be_column(sorts, *number),
        _ => false,
    }
}
