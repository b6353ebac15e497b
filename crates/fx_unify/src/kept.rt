//! What was counted of type variables that are bound to each other, which have the same types.

ghost use Rattle.std.specs.Prelude.{◌≡◌, List, MatchOption, Some};
ghost use Rattle.fx_types.specs.Ground.{g_is};
ghost use Rattle.fx_types.specs.Instance.{ground};
ghost use Rattle.fx_types.specs.Shape.{term};
ghost use Rattle.fx_types.specs.Size.{Pipes};
ghost use Rattle.fx_types.specs.Term.{type_variable};
ghost use Rattle.fx_unify.specs.Counted.{Counted, HasNodes};
ghost use Rattle.fx_unify.specs.Measure.{least, Admits, Measured};
ghost use Rattle.fx_unify.specs.Part.{p_is, type_node};
ghost use Rattle.fx_unify.specs.Store.{entry};
ghost use Rattle.fx_unify.specs.declared.sorts.Sorts as declared;

use crate::counts::Counts;
use crate::head::type_bound;
use crate::store::Store;
use fx_types::Ty;

/// More steps than any machine takes.
const FUEL: u64 = u64::MAX;

impl Store {
    /// What is kept of the variable, or of one that it is bound to.
    pub(crate) fn kept_nodes(&self, counts: &Counts, variable: usize) -> Option<u64>
        ensures { (ks : List declared.Sorts) → Counted self.now ks counts.now → MatchOption result (Unit {0}) (λ n. HasNodes self.now ks variable n) }
    {
        let mut current = variable;
        for _step in 0..FUEL {
            if let Some(nodes) = counts.at(current) {
                return Some(nodes);
            }
            match self.variable_after(current) {
                Some(next) => current = next as usize,
                None => return None,
            }
        }
        None
    }

    /// Keeps the count of the variable and of those that it is bound to.
    pub(crate) fn keep_nodes(&self, counts: &mut Counts, variable: usize, nodes: u64)
        ensures { (ks : List declared.Sorts) → Counted self.now ks counts.old → HasNodes self.now ks variable nodes → Counted self.now ks counts.new }
    {
        let mut current = variable;
        for _step in 0..FUEL {
            // then those that follow are kept too
            if counts.at(current).is_some() {
                return;
            }
            counts.keep(current, nodes);
            match self.variable_after(current) {
                Some(next) => current = next as usize,
                None => return,
            }
        }
    }

    /// What is kept of the type, where it is a variable.
    pub(crate) fn kept_type(&self, counts: &Counts, ty: &Ty) -> Option<u64>
        ensures { (ks : List declared.Sorts) → Counted self.now ks counts.now
            → MatchOption result (Unit {0}) (λ n. Measured (least self.now ks) (Admits self.now ks) Pipes (λ s. g_is (ground s (term ty.now))) n) }
    {
        match ty {
            Ty::Var(number) => self.kept_nodes(counts, *number as usize),
            _ => None,
        }
    }

    /// Keeps the count of the type, where it is a variable.
    pub(crate) fn keep_type(&self, counts: &mut Counts, ty: &Ty, nodes: u64)
        ensures { (ks : List declared.Sorts) → Counted self.now ks counts.old
            → Measured (least self.now ks) (Admits self.now ks) Pipes (λ s. g_is (ground s (term ty.now))) nodes → Counted self.now ks counts.new }
    {
        if let Ty::Var(number) = ty {
            self.keep_nodes(counts, *number as usize, nodes);
        }
    }

    /// The type variable that the variable is bound to.
    pub(crate) fn variable_after(&self, variable: usize) -> Option<u32>
        ensures { MatchOption result (Unit {0}) (λ v. entry self.now (type_node variable) ≡ Some (p_is (type_variable v))) }
    {
        match type_bound(self.types.as_slice(), variable) {
            Some(ty) => number_of(ty),
            None => None,
        }
    }
}

/// The number of the type variable that the type is.
fn number_of(ty: &Ty) -> Option<u32>
    ensures { MatchOption result (Unit {0}) (λ v. term ty.now ≡ type_variable v) }
{
    match ty {
        Ty::Var(number) => Some(*number),
        _ => None,
    }
}
