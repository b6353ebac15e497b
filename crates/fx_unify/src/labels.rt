//! Whether a label stands before, and lists of labels.

ghost use Rattle.std.specs.Prelude.{◌≡◌, true, IsTrue, Ok, OnOk, map};
ghost use Rattle.fx_types.specs.Ground.{listed};
ghost use Rattle.fx_types.specs.Size.{AreDistinct};
ghost use Rattle.fx_types.specs.Term.{Label};
ghost use Rattle.fx_unify.specs.Rows.{Grows};
ghost use Rattle.fx_unify.specs.Store.{slot_names};
ghost use Rattle.fx_unify.specs.Sums.{names, required_names};

use crate::fault::UnifyFault;
use crate::known::{Known, MANY};
use crate::store::Slot;
use fx_base::{Memory, Text};
use fx_types::{LabelField, LabelTy};
use std::alloc::Global;

/// Whether one of the entries has this label.
pub fn has_label(entries: &[LabelField], label: &Text) -> bool
    ensures { result ≡ listed label.now (names entries.now) }
{
    for entry in entries {
        if *label == entry.label {
            return true;
        }
    }
    false
}

/// Whether one of the entries has this label.
pub(crate) fn is_required(label: &Text, entries: &[LabelTy]) -> bool
    ensures { result ≡ listed label.now (required_names entries.now) }
{
    for entry in entries {
        if *label == entry.label {
            return true;
        }
    }
    false
}

/// Whether the label is one of these.
pub(crate) fn has_text(labels: &[Text], label: &Text) -> bool
    ensures { result ≡ listed label.now labels.now }
{
    for other in labels {
        if *label == *other {
            return true;
        }
    }
    false
}

/// Adds the label where it isn't there.
pub fn add_label(labels: &mut Vec<Text>, label: &Text) -> Result<(), Memory>
    ensures there { OnOk result (listed label.now labels.new.items ≡ true) }
    ensures grows { OnOk result (Grows labels.old.items labels.new.items) }
{
    if has_text(labels.as_slice(), label) {
        return Ok(());
    }
    labels.push(label.copy()?)?;
    Ok(())
}

/// Adds the labels of the entries.
pub(crate) fn add_names(
    alloc: Global,
    labels: &mut Vec<Text>,
    entries: &[LabelField],
) -> Result<(), Memory>
    ensures there { OnOk result ((l : Label) → listed l (names entries.now) ≡ true → listed l labels.new.items ≡ true) }
    ensures grows { OnOk result (Grows labels.old.items labels.new.items) }
{
    if entries.len() < MANY {
        for entry in entries {
            add_label(labels, &entry.label)?;
        }
        return Ok(());
    }
    let mut known = Known::of(alloc, labels.as_slice())?;
    for entry in entries {
        known.add(labels, &entry.label)?;
    }
    Ok(())
}

/// Adds the labels of the slots.
pub(crate) fn add_slots(alloc: Global, labels: &mut Vec<Text>, slots: &[Slot]) -> Result<(), Memory>
    ensures there { OnOk result ((l : Label) → listed l (slot_names slots.now) ≡ true → listed l labels.new.items ≡ true) }
    ensures grows { OnOk result (Grows labels.old.items labels.new.items) }
{
    if slots.len() < MANY {
        for slot in slots {
            add_label(labels, &slot.label)?;
        }
        return Ok(());
    }
    let mut known = Known::of(alloc, labels.as_slice())?;
    for slot in slots {
        known.add(labels, &slot.label)?;
    }
    Ok(())
}

/// Adds labels.
pub(crate) fn add_texts(
    alloc: Global,
    labels: &mut Vec<Text>,
    others: &[Text],
) -> Result<(), Memory>
    ensures there { OnOk result ((l : Label) → listed l others.now ≡ true → listed l labels.new.items ≡ true) }
    ensures grows { OnOk result (Grows labels.old.items labels.new.items) }
{
    if others.len() < MANY {
        for label in others {
            add_label(labels, label)?;
        }
        return Ok(());
    }
    let mut known = Known::of(alloc, labels.as_slice())?;
    for label in others {
        known.add(labels, label)?;
    }
    Ok(())
}

/// Whether the answer is that nothing is counted.
pub(crate) fn is_nothing(weight: &Result<u64, UnifyFault>) -> bool
    ensures { IsTrue result → weight.now ≡ Ok 0 }
{
    match weight {
        Ok(nodes) => *nodes == 0,
        Err(_) => false,
    }
}
