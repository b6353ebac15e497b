//! Copies of labels with values.
ghost use Rattle.std.specs.Prelude.{◌≡◌, IfOk, map};
ghost use Rattle.fx_values.specs.Shape.{slot, val};

use fx_base::{List, Memory, Text};
use fx_values::{Slot, Value};
use std::alloc::Global;

pub(crate) fn slot_of(label: Text, value: Value) -> Slot
    ensures { slot result ≡ record { label = label; value = val value } }
{
    Slot { label, value }
}

pub(crate) fn slot_copied(from: &Slot) -> Result<Slot, Memory>
    ensures { IfOk result (λ made. slot made ≡ slot from.now) }
{
    Ok(slot_of(from.label.copy()?, from.value.copy()?))
}

pub(crate) fn copied(alloc: Global, slots: &[Slot]) -> Result<List<Slot>, Memory>
    ensures { IfOk result (λ made. map slot made ≡ map slot slots.now) }
{
    let mut made = List::empty(alloc);
    for from in slots {
        made.push(slot_copied(from)?)?;
    }
    Ok(made)
}
