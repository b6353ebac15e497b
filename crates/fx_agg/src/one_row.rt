ghost use Rattle.std.specs.Prelude.{◌≡◌, [], ◌∷◌, IfOk};
ghost use Rattle.fx_data.specs.Table.{HasRisingLabels};
ghost use Rattle.fx_group.specs.Turned.{with_rows};
ghost use Rattle.fx_agg.specs.Mould.{key_head, from_mould, IsMould};
ghost use Rattle.fx_agg.specs.OneRow.{is_time, time_pinned};

use fx_base::{List, Memory, Text};
use fx_data::{Key, KeyEntry, Runs};
use fx_value::{Head, Row, Scalar, Shape, Source};
use std::alloc::Global;

fn is_time(entry: &KeyEntry) -> bool
    ensures { result ≡ is_time entry.now }
{
    entry.label.as_str() == "_time"
}

/// What the aggregate rows of a table have alike, made once for all of them: their labels, with the
/// values that come from the table's key, and the key under which they go.
#[derive(Drop)]
pub(crate) struct Mould {
    shape: Shape,
    key: Key,
}

impl Mould {
    /// For the aggregate rows of a table with this key, whose value goes to the column.
    pub(crate) fn of(alloc: Global, key: &Key, column: &Text) -> Result<Mould, Memory>
        ensures { IfOk result (IsMould key.now column.now) }
    {
        let columns = key_head(alloc, key)?;
        let head = columns.with(alloc, column, Source::First)?;
        let shape = Shape::of(alloc, head)?;
        let pinned = time_pinned(alloc, key)?;
        Ok(Mould { shape, key: pinned })
    }

    /// Puts the row of the value behind the runs. It takes no memory but for the row.
    pub(crate) fn push(&self, alloc: Global, runs: Runs, value: Scalar) -> Result<Runs, Memory>
        requires { HasRisingLabels self.now.key }
        ensures { IfOk result (λ r. r ≡ with_rows runs (from_mould self.now value ∷ [])) }
    {
        let row = Row::of(&self.shape, value, Scalar::Null)?;
        runs.push(alloc, &self.key, row)
    }
}

/// The columns that come from the key.
fn key_head(alloc: Global, key: &Key) -> Result<Head, Memory>
    ensures { IfOk result (λ h. h ≡ key_head key.now) }
{
    let entries = key.entries.as_slice();
    let mut head = Head::empty(alloc);
    for entry in entries {
        if !entry.pinned && !is_time(entry) {
            head = head.with(alloc, &entry.label, Source::Fixed(entry.value.copy()?))?;
        }
    }
    Ok(head)
}

/// The key with its label `_time` pinned.
pub(crate) fn time_pinned(alloc: Global, key: &Key) -> Result<Key, Memory>
    ensures { IfOk result (λ k. k ≡ time_pinned key.now) }
{
    let old = key.entries.as_slice();
    let mut entries = Vec::with_capacity(alloc, old.len())?;
    for entry in old {
        entries.push(KeyEntry {
            label: entry.label.copy()?,
            value: entry.value.copy()?,
            pinned: entry.pinned || is_time(entry),
        })?;
    }
    Ok(Key {
        entries: List::of(entries),
    })
}
