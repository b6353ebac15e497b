//! Ways along the rests of row variables.

ghost use Rattle.std.specs.Prelude.{◌≡◌, false, IfOk, OnOk};
ghost use Rattle.fx_types.specs.Ground.{listed};
ghost use Rattle.fx_types.specs.Instance.{Solution, ground_tail};
ghost use Rattle.fx_types.specs.Shape.{rest_term};
ghost use Rattle.fx_types.specs.Term.{Label};
ghost use Rattle.fx_unify.specs.Least.{RestLeads, RowLeads};
ghost use Rattle.fx_unify.specs.Part.{value, Solved};
ghost use Rattle.fx_unify.specs.Rows.{Grows};
ghost use Rattle.fx_unify.specs.Store.{entry, root_at, AreKept, KeepsRoot, IsFree};

use crate::labels::{add_slots, add_texts};
use crate::store::{Root, Store};
use fx_base::{Memory, Text};
use fx_types::Rest;
use std::alloc::Global;

/// More steps than any machine takes.
const FUEL: u64 = u64::MAX;

impl Store {
    /// Follows bound row variables up to a default or to a free variable. The labels at which one
    /// of them is kept apart from its rest are added to the list; off it, all have the same.
    pub(crate) fn follow(
        &self,
        alloc: Global,
        rest: &Rest,
        labels: &mut Vec<Text>,
    ) -> Result<Root, Memory>
        ensures same { IfOk result (λ r. (s : Solution) → Solved s (entry self.now) → (l : Label) → listed l labels.new.items ≡ false
            → value s (root_at l r) ≡ ground_tail s (rest_term rest.now) l) }
        ensures leads { IfOk result (λ r. RestLeads self.now labels.new.items (rest_term rest.now) r) }
        ensures free { IfOk result (λ r. IsFree self.now r) }
        ensures kept { IfOk result (λ r. KeepsRoot self.now r labels.new.items) }
        ensures grows { OnOk result (Grows labels.old.items labels.new.items) }
    {
        match rest {
            Rest::Default(field) => Ok(Root::Default(field.copy(alloc)?)),
            Rest::Var(row) => self.follow_row(alloc, *row, labels),
        }
    }

    fn follow_row(&self, alloc: Global, row: u32, labels: &mut Vec<Text>) -> Result<Root, Memory>
        ensures same { IfOk result (λ r. (s : Solution) → Solved s (entry self.now) → (l : Label) → listed l labels.new.items ≡ false
            → value s (root_at l r) ≡ s.row_of row l) }
        ensures leads { IfOk result (λ r. RowLeads self.now labels.new.items row r) }
        ensures free { IfOk result (λ r. IsFree self.now r) }
        ensures kept { IfOk result (λ r. KeepsRoot self.now r labels.new.items) }
        ensures grows { OnOk result (Grows labels.old.items labels.new.items) }
    {
        let mut current = row;
        for _step in 0..FUEL {
            self.add_kept(alloc, current, labels)?;
            match self.rest_of(current) {
                Some(Root::Default(field)) => return Ok(Root::Default(field.copy(alloc)?)),
                Some(Root::Var(next)) => current = *next,
                None => return Ok(Root::Var(current)),
            }
        }
        Err(Memory)
    }

    /// Adds the labels at which the row variable is kept apart from its rest.
    pub(crate) fn add_kept(
        &self,
        alloc: Global,
        row: u32,
        labels: &mut Vec<Text>,
    ) -> Result<(), Memory>
        ensures kept { OnOk result (AreKept self.now row labels.new.items) }
        ensures grows { OnOk result (Grows labels.old.items labels.new.items) }
    {
        add_slots(alloc, labels, self.slots_of(row))?;
        add_texts(alloc, labels, self.apart_of(row))
    }
}
