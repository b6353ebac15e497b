//! Whether a solution is left of what was asked.

ghost use Rattle.std.specs.Prelude.{◌≡◌, ◌↔◌, IfOk};
ghost use Rattle.fx_types.specs.Instance.{Solution};
ghost use Rattle.fx_unify.specs.Judge.{Judging};
ghost use Rattle.fx_unify.specs.Solutions.{Solves, HasLeast, next_of};
ghost use Rattle.fx_unify.specs.Work.{Within, Refuses};

use crate::bindings::Bindings;
use crate::bound::Bound;
use crate::counts::Counts;
use crate::fault::UnifyFault;
use crate::store::Store;
use fx_types::Ty;
use std::alloc::Global;

impl Bindings {
    /// Solves the equations that are left, and sees that a solution is.
    pub fn settle(self, alloc: Global) -> Result<Bindings, UnifyFault>
        ensures ok { IfOk result (λ r. (s : Solution) → Solves s r ↔ Solves s self) }
        ensures least { IfOk result HasLeast }
        ensures next { IfOk result (λ r. next_of r ≡ next_of self) }
        ensures clash { Refuses result ((s : Solution) → Solves s self → Within s → ⊥) }
    {
        let Bindings {
            mut store,
            bounds,
            also,
            next,
        } = self;
        match store.run(alloc) {
            Ok(()) => {}
            Err(fault) => return Err(fault),
        }
        match judge(alloc, &store, bounds.as_slice(), also.as_slice()) {
            Ok(()) => {}
            Err(fault) => return Err(fault),
        }
        Ok(Bindings {
            store,
            bounds,
            also,
            next,
        })
    }
}

fn judge(alloc: Global, store: &Store, bounds: &[Bound], also: &[Ty]) -> Result<(), UnifyFault>
    ensures { Judging result store.now bounds.now also.now }
{
    let sorts = match store.sorts_of(alloc, bounds) {
        Ok(sorts) => sorts,
        Err(fault) => return Err(fault),
    };
    let sets = sorts.as_slice();
    let mut counts = Counts::none(alloc, store.types.len(), store.rows())?;
    match store.decide(sets, &mut counts) {
        Ok(()) => {}
        Err(fault) => return Err(fault),
    }
    store.check_terms(sets, &mut counts, also)
}
