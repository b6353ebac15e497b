ghost use Rattle.std.specs.Prelude.{◌≡◌, ◌↔◌, false, IfOk, IsTrue};
ghost use Rattle.std.specs.Cmp.{IsTotalOrder};
ghost use Rattle.std.specs.FinMap.{IsAntisymmetric};
ghost use Rattle.fx_data.specs.Key.{key_cmp};
ghost use Rattle.fx_data.specs.declared.key.KeyEntry.{KeyEntry as AnyKeyEntry};

use fx_base::{List, Memory, Text};
use fx_value::Scalar;
use std::alloc::Global;
use std::cmp::Ordering;

/// A label by which a table is grouped, with the value that its rows share. A pinned entry is no
/// column of the rows.
#[derive(Debug, PartialEq, Eq, PartialOrd, Ord, Drop)]
pub struct KeyEntry {
    pub label: Text,
    pub value: Scalar,
    pub pinned: bool,
}

/// What names a table: its entries, whose labels rise.
#[derive(Debug, PartialEq, Eq, PartialOrd, Ord, Drop)]
pub struct Key {
    pub entries: List<KeyEntry>,
}

impl KeyEntry {
    pub fn copy(&self) -> Result<KeyEntry, Memory>
        ensures { IfOk result (λ e. e ≡ self.now) }
    {
        Ok(KeyEntry {
            label: self.label.copy()?,
            value: self.value.copy()?,
            pinned: self.pinned,
        })
    }

    /// Whether this is the entry of a column with this label and value; false says nothing.
    pub(crate) fn is_column(&self, label: &Text, value: &Scalar) -> bool
        ensures { IsTrue result → ◌≡◌ {A = AnyKeyEntry} self.now (record { label = label.now; value = value.now; pinned = false }) }
    {
        !self.pinned && self.label == *label && self.value.is_same(value)
    }

    /// Whether the entries are the same; false says nothing.
    pub(crate) fn is_same(&self, other: &KeyEntry) -> bool
        ensures { IsTrue result → self.now ≡ other.now }
    {
        self.pinned == other.pinned && self.label == other.label && self.value.is_same(&other.value)
    }
}

impl Key {
    pub fn copy(&self, alloc: Global) -> Result<Key, Memory>
        ensures { IfOk result (λ k. k ≡ self.now) }
    {
        let entries = self.entries.as_slice();
        let mut copies = Vec::with_capacity(alloc, entries.len())?;
        for entry in entries {
            copies.push(entry.copy()?)?;
        }
        Ok(Key {
            entries: List::of(copies),
        })
    }
}

/// Entry by entry: the label by bytes, then the value, then an unpinned entry before a pinned one. A
/// proper prefix comes first.
pub fn key_order(a: &Key, b: &Key) -> Ordering
    ensures { result ≡ key_cmp a.now b.now }
{
    a.cmp(b)
}

/// The law of the order: it is total, and only equal keys tie.
pub fn key_order_is_total()
    ensures total { IsTotalOrder key_cmp }
    ensures ties { IsAntisymmetric key_cmp }
{}
