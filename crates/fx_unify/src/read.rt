//! What bindings bind, for those who make schemes of it.

ghost use Rattle.std.specs.Prelude.{◌≡◌, ◌≤◌, false, length, None, IfOk, OnOk};
ghost use Rattle.fx_types.specs.Ground.{listed};
ghost use Rattle.fx_types.specs.Instance.{Solution, ground_tail};
ghost use Rattle.fx_types.specs.Shape.{term, rest_term};
ghost use Rattle.fx_types.specs.Term.{Label};
ghost use Rattle.fx_unify.specs.Bounds.{Narrowed, AllMet};
ghost use Rattle.fx_unify.specs.Least.{Leads, RestLeads};
ghost use Rattle.fx_unify.specs.Part.{p_is, value, Solved};
ghost use Rattle.fx_unify.specs.Rows.{Grows};
ghost use Rattle.fx_unify.specs.Solutions.{HasLeast};
ghost use Rattle.fx_unify.specs.Store.{entry, bound_to, root_at, IsFree, KeepsRoot};
ghost use Rattle.fx_unify.specs.View.{part_seen};

use crate::bindings::Bindings;
use crate::fault::UnifyFault;
use crate::sorts::Sorts;
use crate::store::Root;
use crate::view::View;
use fx_base::{Memory, Text};
use fx_types::{Rest, Ty};
use std::alloc::Global;

impl Bindings {
    /// Follows bound type variables up to a type that is none.
    pub fn head<'a>(&'a self, ty: &'a Ty) -> Result<&'a Ty, Memory>
        ensures same { IfOk result (λ t. (s : Solution) → Solved s (entry self.now.store) → value s (p_is (term t.now)) ≡ value s (p_is (term ty.now))) }
        ensures leads { IfOk result (λ t. Leads (entry self.now.store) (p_is (term ty.now)) (p_is (term t.now))) }
        ensures free { IfOk result (λ t. bound_to (entry self.now.store) (p_is (term t.now)) ≡ None) }
    {
        self.store.head(ty)
    }

    /// Follows bound variables up to a field that is none.
    pub fn seen<'a>(&'a self, view: View<'a>) -> Result<View<'a>, Memory>
        ensures same { IfOk result (λ v. (s : Solution) → Solved s (entry self.now.store) → value s (part_seen v) ≡ value s (part_seen view.entry)) }
        ensures leads { IfOk result (λ v. Leads (entry self.now.store) (part_seen view.entry) (part_seen v)) }
        ensures free { IfOk result (λ v. bound_to (entry self.now.store) (part_seen v) ≡ None) }
    {
        self.store.seen(view)
    }

    /// Follows bound row variables up to a default or to a free variable. The labels at which one
    /// of them is kept apart from its rest are added to the list; off it, all have the same.
    pub fn follow(&self, alloc: Global, rest: &Rest, labels: &mut Vec<Text>) -> Result<Root, Memory>
        ensures same { IfOk result (λ r. (s : Solution) → Solved s (entry self.now.store) → (l : Label) → listed l labels.new.items ≡ false
            → value s (root_at l r) ≡ ground_tail s (rest_term rest.now) l) }
        ensures leads { IfOk result (λ r. RestLeads self.now.store labels.new.items (rest_term rest.now) r) }
        ensures free { IfOk result (λ r. IsFree self.now.store r) }
        ensures kept { IfOk result (λ r. KeepsRoot self.now.store r labels.new.items) }
        ensures grows { OnOk result (Grows labels.old.items labels.new.items) }
    {
        self.store.follow(alloc, rest, labels)
    }

    /// More than the number of each variable that something is bound to.
    pub fn variables(&self) -> usize
        ensures types { length self.now.store.types.items ≤ result }
        ensures fields { length self.now.store.fields.items ≤ result }
        ensures slots { length self.now.store.slots.items ≤ result }
        ensures apart { length self.now.store.apart.items ≤ result }
        ensures rests { length self.now.store.rests.items ≤ result }
    {
        let types = self.store.types.len().max(self.store.fields.len());
        let rows = self.store.rows().max(self.store.apart.len());
        types.max(rows)
    }

    /// The terms that are to be types.
    pub fn types(&self) -> &[Ty]
        ensures { result.now ≡ self.now.also.items }
    {
        self.also.as_slice()
    }

    /// What the bounds leave to the type variables that are free.
    pub fn left(&self, alloc: Global) -> Result<Vec<Sorts>, Memory>
        requires { HasLeast self.now }
        ensures narrowed { IfOk result (λ v. Narrowed self.now.store v.items self.now.bounds.items) }
        ensures met { IfOk result (λ v. AllMet self.now.store v.items self.now.bounds.items) }
    {
        match self.store.sorts_of(alloc, self.bounds.as_slice()) {
            Ok(sorts) => Ok(sorts),
            Err(UnifyFault::Memory) => Err(Memory),
            Err(UnifyFault::Clash) => unreachable!(),
        }
    }
}
