ghost use Rattle.std.specs.Prelude.{◌≡◌, ◌≤◌, [], ◌∷◌, ◌++◌, filter_map, length, take, IfOk, IfSome, IsTrue, OnOk};
ghost use Rattle.std.specs.Option.{option_map};
ghost use Rattle.fx_data.specs.Regrouped.{after, entry_after, new_key};

use crate::key::{Key, KeyEntry};
use fx_base::{List, Memory};
use fx_value::{Row, Scalar};
use std::alloc::Global;

/// What a row's new key has in place of the old entry, where this is the row's value at its label.
fn entry_after(entry: &KeyEntry, value: Option<&Scalar>) -> Result<Option<KeyEntry>, Memory>
    ensures { IfOk result (λ e. e ≡ entry_after entry.now (option_map (λ v. v.now) value.entry)) }
{
    match value {
        Some(value) => Ok(Some(KeyEntry {
            label: entry.label.copy()?,
            value: value.copy()?,
            pinned: false,
        })),
        None if entry.pinned => Ok(Some(entry.copy()?)),
        None => Ok(None),
    }
}

fn push_after(entries: &mut Vec<KeyEntry>, entry: &KeyEntry, row: &Row) -> Result<(), Memory>
    ensures { OnOk result (entries.new.items ≡ entries.old.items ++ filter_map (after row.now) (entry.now ∷ [])) }
{
    match entry_after(entry, row.get(&entry.label))? {
        None => {}
        Some(new) => entries.push(new)?,
    }
    Ok(())
}

/// The key of a row that comes from a table with the old key: at each label of it the row's value,
/// unpinned; where the row has no such column, the old entry if it is pinned.
pub fn new_key(alloc: Global, old: &Key, row: &Row) -> Result<Key, Memory>
    ensures { IfOk result (λ k. k ≡ new_key old.now row.now) }
{
    let old = old.entries.as_slice();
    let mut entries = Vec::with_capacity(alloc, old.len())?;
    for entry in old {
        push_after(&mut entries, entry, row)?;
    }
    Ok(Key {
        entries: List::of(entries),
    })
}

/// How many of the known entries stand before those that come after this old one, if it becomes the
/// next of them or none. The labels of a key rise as those of rows do: the row's label is looked for
/// from the place of the last one on.
fn matched(
    known: &[KeyEntry],
    done: usize,
    entry: &KeyEntry,
    row: &Row,
    place: &mut usize,
) -> Option<usize>
    requires { done ≤ length known.now }
    ensures within { IfSome result (λ next. next ≤ length known.now) }
    ensures same { IfSome result (λ next. take next known.now ≡ take done known.now ++ filter_map (after row.now) (entry.now ∷ [])) }
{
    match row.get_near(&entry.label, place) {
        Some(value) => {
            if done < known.len() && known[done].is_column(&entry.label, value) {
                return Some(done + 1);
            }
            None
        }
        None => {
            if !entry.pinned {
                return Some(done);
            }
            if done < known.len() && known[done].is_same(entry) {
                return Some(done + 1);
            }
            None
        }
    }
}

/// Whether the known key is the new key of the row; false says nothing. It takes no memory.
pub(crate) fn is_new_key(known: &Key, old: &Key, row: &Row) -> bool
    ensures { IsTrue result → known.now ≡ new_key old.now row.now }
{
    let entries = known.entries.as_slice();
    let mut done = 0;
    let mut place = 0;
    for entry in old.entries.as_slice() {
        match matched(entries, done, entry, row, &mut place) {
            None => return false,
            Some(next) => done = next,
        }
    }
    done == entries.len()
}
