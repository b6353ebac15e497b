//! Labels of a list by their hashes: where many are looked for, they needn't be compared pair by pair.

ghost use Rattle.std.specs.Prelude.{◌≡◌, ◌++◌, ◌∷◌, [], true, List, IfOk, OnOk};
ghost use Rattle.fx_types.specs.Ground.{listed};
ghost use Rattle.fx_types.specs.Term.{Label};
ghost use Rattle.fx_unify.specs.Known.{Knows};
ghost use Rattle.fx_unify.specs.Rows.{Grows};

use fx_base::{Memory, Text};
use indexmap::IndexSet;
use std::alloc::Global;

/// So many labels are hashed; fewer are found sooner without.
pub(crate) const MANY: usize = 16;

/// The labels of a list.
#[derive(Drop)]
pub(crate) struct Known {
    labels: IndexSet<Text>,
}

impl Known {
    pub(crate) fn of(alloc: Global, labels: &[Text]) -> Result<Known, Memory>
        ensures { IfOk result (λ k. Knows k labels.now) }
    {
        let mut hashed = IndexSet::new(alloc);
        hash_all(&mut hashed, labels)?;
        Ok(Known { labels: hashed })
    }

    /// Whether the label stands in the list.
    pub(crate) fn has(&self, label: &Text) -> bool
        ensures { (ls : List Label) → Knows self.now ls → result ≡ listed label.now ls }
    {
        self.labels.contains(label)
    }

    /// The list got the label.
    pub(crate) fn note(&mut self, label: &Text) -> Result<(), Memory>
        ensures { OnOk result ((ls : List Label) → Knows self.old ls → Knows self.new (ls ++ label.now ∷ [])) }
    {
        self.labels.insert(label.copy()?)?;
        Ok(())
    }

    /// Adds the label to the list where it isn't there.
    pub(crate) fn add(&mut self, labels: &mut Vec<Text>, label: &Text) -> Result<(), Memory>
        requires { Knows self.old labels.old.items }
        ensures knows { OnOk result (Knows self.new labels.new.items) }
        ensures there { OnOk result (listed label.now labels.new.items ≡ true) }
        ensures grows { OnOk result (Grows labels.old.items labels.new.items) }
    {
        if self.has(label) {
            return Ok(());
        }
        self.note(label)?;
        labels.push(label.copy()?)?;
        Ok(())
    }
}

/// Adds labels to those that are hashed.
fn hash_all(hashed: &mut IndexSet<Text>, labels: &[Text]) -> Result<(), Memory>
    requires { hashed.old.keys ≡ [] }
    ensures { OnOk result ((l : Label) → listed l hashed.new.keys ≡ listed l labels.now) }
{
    for label in labels {
        hashed.insert(label.copy()?)?;
    }
    Ok(())
}
