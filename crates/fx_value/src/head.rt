ghost use Rattle.std.specs.Prelude.{◌≡◌, ◌↔◌, IfOk, IfSome, IsTrue, Some};
ghost use Rattle.std.specs.Option.{option_map};
ghost use Rattle.std.specs.FinMap as map;
ghost use Rattle.fx_value.specs.Labels.{laid, HasAll};
ghost use Rattle.fx_value.specs.Own.{source_of};
ghost use Rattle.fx_value.specs.Row.{IsOnly, shared};

use crate::labels::Labels;
use crate::scalar::Scalar;
use crate::slot::{
    Slot, are_in, are_same, copy_of, have_same_labels, index_near, index_of, is_first_alone,
    is_second_alone, labels_in, shared_in, with_source, without_label,
};
use crate::source::Source;
use fx_base::{List, Memory, Text};
use std::alloc::Global;
use std::marker::Model;

/// Which of its own values a row gives.
#[derive(Clone, Copy)]
pub(crate) enum OwnPlace {
    First,
    Second,
}

/// The labels of the rows of a table, with the values that all of them share. Contracts see the
/// map from labels to sources.
#[derive(Debug, Drop)]
pub struct Head {
    slots: Vec<Slot>,
}

impl Model for Head {
    ghost use Rattle.std.specs.Coded.{coded_list, coded_ℕ};
    ghost use Rattle.std.specs.FinMap as map;
    ghost use Rattle.fx_base.specs.Text.{text_cmp};
    ghost use Rattle.fx_value.specs.declared.source.Source.{Source};
    ghost use Rattle.fx_value.specs.contracts.source.Source.{the_row};

    ghost Value = { map.FinMap text_cmp Source };

    ghost coded = { map.code (coded_list coded_ℕ) the_row.coded };

    ghost use Rattle.fx_value.specs.Slots.{entries_of, IsRising};

    ghost view = { λ h. map.from_sorted (entries_of h.slots.items) };

    ghost invariant = { λ h. IsRising (entries_of h.slots.items) };
}

impl Head {
    /// The head without labels.
    pub fn empty(alloc: Global) -> Head
        ensures { result ≡ map.empty }
    {
        Head {
            slots: Vec::new(alloc),
        }
    }

    /// The source of a label, or None where the label isn't there.
    pub fn get(&self, label: &Text) -> Option<&Source>
        ensures { option_map (λ s. s.now) result ≡ map.get self.now label.now }
    {
        match index_of(&self.slots, label) {
            Some(i) => Some(&self.slots[i].source),
            None => None,
        }
    }

    /// The same. The search begins at the place, and leaves there where the label stands.
    pub(crate) fn get_near(&self, label: &Text, place: &mut usize) -> Option<&Source>
        ensures { option_map (λ s. s.now) result ≡ map.get self.now label.now }
    {
        match index_near(&self.slots, label, *place) {
            Some(i) => {
                *place = i;
                Some(&self.slots[i].source)
            }
            None => None,
        }
    }

    /// The head in which this label has this source, and any other label the source that it has
    /// here.
    pub fn with(&self, alloc: Global, label: &Text, source: Source) -> Result<Head, Memory>
        ensures { IfOk result (λ h. h ≡ map.insert self.now label.now source) }
    {
        let slots = with_source(alloc, &self.slots, label, source)?;
        Ok(Head { slots })
    }

    /// The labels, rising by bytes.
    pub fn labels(&self, alloc: Global) -> Result<List<Text>, Memory>
        ensures { IfOk result (λ v. v ≡ map.keys self.now) }
    {
        labels_in(alloc, &self.slots)
    }

    /// The labels whose value all rows share, with that value, rising by bytes.
    pub fn shared(&self, alloc: Global) -> Result<Vec<(Text, Scalar)>, Memory>
        ensures { IfOk result (λ v. v.items ≡ shared self.now) }
    {
        shared_in(alloc, &self.slots)
    }

    /// Whether the heads have the same labels.
    pub fn same_labels(&self, other: &Head) -> bool
        ensures { IsTrue result ↔ (map.keys self.now ≡ map.keys other.now) }
    {
        have_same_labels(&self.slots, &other.slots)
    }

    /// Whether the heads are the same; false says nothing.
    pub(crate) fn is_same(&self, other: &Head) -> bool
        ensures { IsTrue result → self.now ≡ other.now }
    {
        are_same(&self.slots, &other.slots)
    }

    /// The head without this label.
    pub fn without(&self, alloc: Global, label: &Text) -> Result<Head, Memory>
        ensures { IfOk result (λ h. h ≡ map.remove self.now label.now) }
    {
        let slots = without_label(alloc, &self.slots, label)?;
        Ok(Head { slots })
    }

    /// This head with the labels of another one over its own.
    pub(crate) fn under(&self, alloc: Global, over: &Head) -> Result<Head, Memory>
        ensures { IfOk result (λ h. h ≡ laid (Some over.now) self.now) }
    {
        let mut slots = copy_of(alloc, &self.slots)?;
        for slot in &over.slots {
            slots = with_source(alloc, &slots, &slot.label, slot.source.copy()?)?;
        }
        Ok(Head { slots })
    }

    /// Whether each label is one of these.
    pub(crate) fn is_in(&self, labels: &Labels) -> bool
        ensures { IsTrue result ↔ HasAll labels.now self.now }
    {
        are_in(&self.slots, labels)
    }

    /// The own value of a row that this label has, if no other label has it.
    pub(crate) fn own_place(&self, label: &Text) -> Option<OwnPlace>
        ensures { IfSome result (λ own. IsOnly self.now label.now (source_of own)) }
    {
        match self.get(label) {
            Some(Source::First) if is_first_alone(&self.slots, label) => Some(OwnPlace::First),
            Some(Source::Second) if is_second_alone(&self.slots, label) => Some(OwnPlace::Second),
            _ => None,
        }
    }
}
