//! Bounds on type variables, and what they leave to each free one.

ghost use Rattle.std.specs.Prelude.{IfOk};
ghost use Rattle.fx_types.specs.Instance.{Solution};
ghost use Rattle.fx_unify.specs.Bounds.{Keeps, Narrowed, AllMet, NarrowingBy, NarrowingAt};
ghost use Rattle.fx_unify.specs.Part.{Solved};
ghost use Rattle.fx_unify.specs.Store.{entry};
ghost use Rattle.fx_unify.specs.Work.{Refuses};

use crate::bound::Bound;
use crate::fault::UnifyFault;
use crate::sorts::{Sorts, put_sorts, sorts_at};
use crate::store::Store;
use fx_types::Ty;
use std::alloc::Global;

impl Store {
    /// What the bounds leave to the type variables that are free.
    pub(crate) fn sorts_of(&self, alloc: Global, bounds: &[Bound]) -> Result<Vec<Sorts>, UnifyFault>
        ensures ok { IfOk result (λ v. Narrowed self.now v.items bounds.now) }
        ensures met { IfOk result (λ v. AllMet self.now v.items bounds.now) }
        ensures clash { Refuses result ((s : Solution) → Solved s (entry self.now) → Keeps s bounds.now → ⊥) }
    {
        let mut sorts = Vec::new(alloc);
        for bound in bounds {
            match self.narrow(&mut sorts, bound) {
                Ok(()) => {}
                Err(fault) => return Err(fault),
            }
        }
        Ok(sorts)
    }

    /// Takes one more bound.
    fn narrow(&self, sorts: &mut Vec<Sorts>, bound: &Bound) -> Result<(), UnifyFault>
        ensures { NarrowingBy result self.now sorts.old.items sorts.new.items bound.now }
    {
        let ty = Ty::Var(bound.var);
        let head = self.head(&ty)?;
        if let Ty::Var(number) = head {
            return narrow_at(sorts, *number, &bound.sorts);
        }
        if bound.sorts.holds(head) {
            return Ok(());
        }
        Err(UnifyFault::Clash)
    }
}

fn narrow_at(sorts: &mut Vec<Sorts>, number: u32, set: &Sorts) -> Result<(), UnifyFault>
    ensures { NarrowingAt result sorts.old.items sorts.new.items number set.now }
{
    let left = sorts_at(sorts.as_slice(), number).meet(set);
    if left.is_empty() {
        return Err(UnifyFault::Clash);
    }
    put_sorts(sorts, number, left)?;
    Ok(())
}
