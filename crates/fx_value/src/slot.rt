ghost use Rattle.std.specs.Prelude.{◌≡◌, [], ◌∷◌, ◌++◌, IfOk, OnOk, IsTrue, MatchOption, MatchResult, None};
ghost use Rattle.std.specs.Cmp.Lexicographic.{pointwise};
ghost use Rattle.fx_base.specs.Text.{same_text};
ghost use Rattle.std.specs.FinMap.Entries.{find, put};
ghost use Rattle.fx_base.specs.Text.{text_cmp};
ghost use Rattle.std.specs.FinMap.{contains_key};
ghost use Rattle.std.specs.List.{filter_map, list_all};
ghost use Rattle.fx_value.specs.Row.{shared_cell};
ghost use Rattle.fx_value.specs.Place.{StandsAt, BelongsAt};
ghost use Rattle.fx_value.specs.Source.{is_first, is_second};
ghost use Rattle.fx_value.specs.Slots.{entry_of, entries_of, labels_of, is_alone, others, IsFoundAt, IsRising};

use crate::labels::Labels;
use crate::scalar::Scalar;
use crate::source::Source;
use fx_base::{List, Memory, Text};
use std::alloc::Global;
use std::cmp::Ordering;

/// A label with the source of its value.
#[derive(Debug, Drop)]
pub struct Slot {
    pub label: Text,
    pub source: Source,
}

impl Slot {
    pub fn copy(&self) -> Result<Slot, Memory>
        ensures { IfOk result (λ s. s ≡ self.now) }
    {
        Ok(Slot {
            label: self.label.copy()?,
            source: self.source.copy()?,
        })
    }

    fn is_same(&self, other: &Slot) -> bool
        ensures { IsTrue result → self.now ≡ other.now }
    {
        self.label == other.label && self.source.is_same(&other.source)
    }

    /// Adds the label and the value, where all rows share it.
    fn share(&self, cells: &mut Vec<(Text, Scalar)>) -> Result<(), Memory>
        ensures { OnOk result (cells.new.items ≡ cells.old.items ++ filter_map shared_cell (entry_of self.now ∷ [])) }
    {
        match &self.source {
            Source::Fixed(value) => {
                cells.push((self.label.copy()?, value.copy()?))?;
                Ok(())
            }
            Source::First | Source::Second => Ok(()),
        }
    }

    fn refill(&mut self, source: Source)
        ensures { self.new ≡ record self.old { source = source } }
    {
        self.source = source;
    }
}

/// Where the label stands among slots whose labels rise, or else where it belongs.
pub fn place_of(slots: &Vec<Slot>, label: &Text) -> Result<usize, usize>
    ensures { MatchResult result (StandsAt text_cmp label.now (entries_of slots.now.items)) (BelongsAt text_cmp label.now (entries_of slots.now.items)) }
{
    for (i, slot) in slots.iter().enumerate() {
        match label.cmp(&slot.label) {
            Ordering::Less => return Err(i),
            Ordering::Equal => return Ok(i),
            Ordering::Greater => {}
        }
    }
    Err(slots.len())
}

/// Where the label stands among the slots, or None where it doesn't. Labels of other lengths are
/// told apart without a look at their bytes.
pub fn index_of(slots: &Vec<Slot>, label: &Text) -> Option<usize>
    ensures { MatchOption result (find text_cmp label.now (entries_of slots.now.items) ≡ None) (IsFoundAt slots.now.items label.now) }
{
    for (i, slot) in slots.iter().enumerate() {
        if slot.label == *label {
            return Some(i);
        }
    }
    None
}

/// The same among slots whose labels rise, where the search begins at a place at which the label is
/// awaited.
pub fn index_near(slots: &Vec<Slot>, label: &Text, place: usize) -> Option<usize>
    requires { IsRising (entries_of slots.now.items) }
    ensures { MatchOption result (find text_cmp label.now (entries_of slots.now.items) ≡ None) (IsFoundAt slots.now.items label.now) }
{
    for i in place..slots.len() {
        if slots[i].label == *label {
            return Some(i);
        }
    }
    index_of(slots, label)
}

/// The same slots, with room for one more. Their texts are shared.
pub fn copy_of(alloc: Global, slots: &Vec<Slot>) -> Result<Vec<Slot>, Memory>
    ensures { IfOk result (λ v. v.items ≡ slots.now.items) }
{
    let mut copies = Vec::with_capacity(alloc, slots.len() + 1)?;
    for slot in slots {
        copies.push(slot.copy()?)?;
    }
    Ok(copies)
}

/// Copies of the slots, with this source at this label.
pub fn with_source(
    alloc: Global,
    slots: &Vec<Slot>,
    label: &Text,
    source: Source,
) -> Result<Vec<Slot>, Memory>
    ensures { IfOk result (λ v. entries_of v.items ≡ put text_cmp label.now source (entries_of slots.now.items)) }
{
    let mut copies = copy_of(alloc, slots)?;
    match place_of(&copies, label) {
        Ok(i) => copies[i].refill(source),
        Err(i) => {
            let label = label.copy()?;
            copies.insert(i, Slot { label, source })?;
        }
    }
    Ok(copies)
}

/// The labels of the slots whose value is shared, with that value, in their order.
pub fn shared_in(alloc: Global, slots: &Vec<Slot>) -> Result<Vec<(Text, Scalar)>, Memory>
    ensures { IfOk result (λ v. v.items ≡ filter_map shared_cell (entries_of slots.now.items)) }
{
    let mut cells = Vec::with_capacity(alloc, slots.len())?;
    for slot in slots {
        slot.share(&mut cells)?;
    }
    Ok(cells)
}

/// The labels of the slots, in their order.
pub fn labels_in(alloc: Global, slots: &Vec<Slot>) -> Result<List<Text>, Memory>
    ensures { IfOk result (λ v. v ≡ labels_of slots.now.items) }
{
    let mut labels = Vec::with_capacity(alloc, slots.len())?;
    for slot in slots {
        labels.push(slot.label.copy()?)?;
    }
    Ok(List::of(labels))
}

/// Whether the slots have the same labels in the same order.
pub fn have_same_labels(slots: &Vec<Slot>, others: &Vec<Slot>) -> bool
    ensures { result ≡ pointwise same_text (labels_of slots.now.items) (labels_of others.now.items) }
{
    if slots.len() != others.len() {
        return false;
    }
    for (i, slot) in slots.iter().enumerate() {
        if slot.label != others[i].label {
            return false;
        }
    }
    true
}

/// Whether no slot with another label has a row's first value as its source.
pub fn is_first_alone(slots: &Vec<Slot>, label: &Text) -> bool
    ensures { result ≡ is_alone is_first label.now slots.now.items }
{
    slots
        .iter()
        .all(|slot| !slot.source.is_first() || slot.label == *label)
}

/// Whether no slot with another label has a row's second value as its source.
pub fn is_second_alone(slots: &Vec<Slot>, label: &Text) -> bool
    ensures { result ≡ is_alone is_second label.now slots.now.items }
{
    slots
        .iter()
        .all(|slot| !slot.source.is_second() || slot.label == *label)
}

/// Whether the label of each slot is one of these.
pub fn are_in(slots: &Vec<Slot>, labels: &Labels) -> bool
    ensures { result ≡ list_all (λ s. contains_key labels.now s.label) slots.now.items }
{
    slots.iter().all(|slot| labels.has(&slot.label))
}

/// Copies of the slots with other labels.
pub fn without_label(alloc: Global, slots: &Vec<Slot>, label: &Text) -> Result<Vec<Slot>, Memory>
    ensures { IfOk result (λ v. v.items ≡ others label.now slots.now.items) }
{
    let mut kept = Vec::new(alloc);
    for slot in slots {
        if slot.label != *label {
            kept.push(slot.copy()?)?;
        }
    }
    Ok(kept)
}

/// Whether the slots are the same.
pub fn are_same(slots: &Vec<Slot>, others: &Vec<Slot>) -> bool
    ensures { IsTrue result → slots.now.items ≡ others.now.items }
{
    if slots.len() != others.len() {
        return false;
    }
    for (i, slot) in slots.iter().enumerate() {
        if !slot.is_same(&others[i]) {
            return false;
        }
    }
    true
}
