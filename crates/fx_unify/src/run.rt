ghost use Rattle.std.specs.Prelude.{◌≡◌, OnOk, []};
ghost use Rattle.fx_types.specs.Instance.{Solution};
ghost use Rattle.fx_unify.specs.Part.{Solved};
ghost use Rattle.fx_unify.specs.Store.{entry};
ghost use Rattle.fx_unify.specs.Work.{Within, Refuses, Solving, nothing_more};

use crate::counts::Counts;
use crate::fault::UnifyFault;
use crate::store::Store;
use std::alloc::Global;

/// More steps than any machine takes.
const FUEL: u64 = u64::MAX;

/// So many steps are taken before what is bound is looked at for the first time.
const FIRST_LOOK: u64 = 4096;

impl Store {
    /// Solves the equations that are left, the newest first. What is bound is looked at whenever the
    /// steps have doubled: equations between variables that stand in themselves would go on without
    /// end.
    pub(crate) fn run(&mut self, alloc: Global) -> Result<(), UnifyFault>
        ensures solved { Solving result self.old self.new nothing_more }
        ensures done { OnOk result (self.new.work.items ≡ []) }
    {
        let mut look = FIRST_LOOK;
        for step in 0..FUEL {
            if step == look {
                match self.look(alloc) {
                    Ok(()) => {}
                    Err(fault) => return Err(fault),
                }
                look = look.saturating_mul(2);
            }
            match self.work.pop() {
                None => return Ok(()),
                Some(pair) => match self.step(alloc, pair.left, pair.right) {
                    Ok(()) => {}
                    Err(fault) => return Err(fault),
                },
            }
        }
        Err(UnifyFault::Memory)
    }

    /// Clash where what is bound has no solution within the limit on nodes.
    fn look(&self, alloc: Global) -> Result<(), UnifyFault>
        ensures { Refuses result ((s : Solution) → Solved s (entry self.now) → Within s → ⊥) }
    {
        let mut counts = Counts::none(alloc, self.types.len(), self.rows())?;
        self.decide(&[], &mut counts)
    }
}
