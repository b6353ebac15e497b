//! What is kept of each row variable.

ghost use Rattle.std.specs.Prelude.{◌≡◌, ◌≤◌, length, false, MatchOption, None, Some, Option};
ghost use Rattle.fx_types.specs.Ground.{listed};
ghost use Rattle.fx_unify.specs.Part.{Part, part};
ghost use Rattle.fx_unify.specs.Store.{slots_of, apart_of, rest_of, slot_in, slot_names};

use crate::field::Field;
use crate::store::{Root, Slot, Store};
use fx_base::Text;

impl Store {
    /// More than the number of each row variable that is bound somewhere.
    pub(crate) fn rows(&self) -> usize
        ensures slots { length self.now.slots.items ≤ result }
        ensures rests { length self.now.rests.items ≤ result }
    {
        self.slots.len().max(self.rests.len())
    }

    pub(crate) fn slots_of(&self, row: u32) -> &[Slot]
        ensures { result.now ≡ slots_of self.now row }
    {
        let at = row as usize;
        if at < self.slots.len() {
            return self.slots[at].as_slice();
        }
        &[]
    }

    pub(crate) fn apart_of(&self, row: u32) -> &[Text]
        ensures { result.now ≡ apart_of self.now row }
    {
        let at = row as usize;
        if at < self.apart.len() {
            return self.apart[at].as_slice();
        }
        &[]
    }

    pub(crate) fn rest_of(&self, row: u32) -> Option<&Root>
        ensures { MatchOption result (rest_of self.now row ≡ None) (λ root. rest_of self.now row ≡ Some root.now) }
    {
        let at = row as usize;
        if at < self.rests.len() {
            return self.rests[at].as_ref();
        }
        None
    }
}

/// The first of the slots with the label.
pub(crate) fn find_slot<'a>(slots: &'a [Slot], label: &Text) -> Option<&'a Field>
    ensures { MatchOption result (listed label.now (slot_names slots.now) ≡ false) (λ field. (other : Option Part) → slot_in slots.now label.now other ≡ Some (part field.now)) }
{
    for slot in slots {
        if *label == slot.label {
            return Some(&slot.field);
        }
    }
    None
}
