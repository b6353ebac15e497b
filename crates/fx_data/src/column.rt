ghost use Rattle.std.specs.Prelude.{◌≡◌, false, map, IfOk, MatchResult};
ghost use Rattle.std.specs.FinMap.Entries.{put};
ghost use Rattle.fx_base.specs.Text.{text_cmp};
ghost use Rattle.fx_value.specs.Place.{BelongsAt, StandsAt};
ghost use Rattle.fx_data.specs.Columns.{key_with, parts_of};

use crate::key::{Key, KeyEntry};
use fx_base::{List, Memory, Text};
use fx_value::Scalar;
use std::alloc::Global;
use std::cmp::Ordering;

/// Where the label stands among entries whose labels rise, or else where it belongs.
fn place_of(entries: &Vec<KeyEntry>, label: &Text) -> Result<usize, usize>
    ensures { MatchResult result (StandsAt text_cmp label.now (map parts_of entries.now.items)) (BelongsAt text_cmp label.now (map parts_of entries.now.items)) }
{
    for (i, entry) in entries.iter().enumerate() {
        match label.cmp(&entry.label) {
            Ordering::Less => return Err(i),
            Ordering::Equal => return Ok(i),
            Ordering::Greater => {}
        }
    }
    Err(entries.len())
}

/// The same entries, with room for one more.
fn copies_of(alloc: Global, key: &Key) -> Result<Vec<KeyEntry>, Memory>
    ensures { IfOk result (λ v. v.items ≡ key.now.entries) }
{
    let entries = key.entries.as_slice();
    let mut copies = Vec::with_capacity(alloc, entries.len() + 1)?;
    for entry in entries {
        copies.push(entry.copy()?)?;
    }
    Ok(copies)
}

fn refill(entry: &mut KeyEntry, value: Scalar)
    ensures { entry.new ≡ record entry.old { value = value; pinned = false } }
{
    entry.value = value;
    entry.pinned = false;
}

fn with_column(
    alloc: Global,
    key: &Key,
    label: &Text,
    value: Scalar,
) -> Result<Vec<KeyEntry>, Memory>
    ensures { IfOk result (λ v. map parts_of v.items ≡ put text_cmp label.now (value, false) (map parts_of key.now.entries)) }
{
    let mut entries = copies_of(alloc, key)?;
    match place_of(&entries, label) {
        Ok(i) => refill(&mut entries[i], value),
        Err(i) => {
            let label = label.copy()?;
            entries.insert(
                i,
                KeyEntry {
                    label,
                    value,
                    pinned: false,
                },
            )?;
        }
    }
    Ok(entries)
}

/// The key with an unpinned entry of this label and value, in place of the one that has the label.
pub fn key_with(alloc: Global, key: &Key, label: &Text, value: &Scalar) -> Result<Key, Memory>
    ensures { IfOk result (λ k. k ≡ key_with key.now label.now value.now) }
{
    let entries = with_column(alloc, key, label, value.copy()?)?;
    Ok(Key {
        entries: List::of(entries),
    })
}
