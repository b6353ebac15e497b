ghost use Rattle.std.specs.Prelude.{◌≡◌, ℕ, ◌==◌, ◌++◌, IfOk, OnOk, Some, None, [], ◌∷◌, slice_index_or, if◌then◌else◌};

use fx_base::{List, Memory};
use std::alloc::Global;
use std::mem;

/// Sets the item of this number; the ones before it that aren't there are none.
pub(crate) fn put<T: Drop>(items: &mut Vec<Option<T>>, number: u32, value: T) -> Result<(), Memory>
    ensures { OnOk result ((n : ℕ) → slice_index_or items.new.items n None ≡ (if n == number then Some value else slice_index_or items.old.items n None)) }
{
    let _was = replace(items, number, value)?;
    Ok(())
}

/// Sets the item of this number as `put` does, and gives the one that was there.
pub(crate) fn replace<T: Drop>(
    items: &mut Vec<Option<T>>,
    number: u32,
    value: T,
) -> Result<Option<T>, Memory>
    ensures was { IfOk result (λ o. o ≡ slice_index_or items.old.items number None) }
    ensures set { OnOk result ((n : ℕ) → slice_index_or items.new.items n None ≡ (if n == number then Some value else slice_index_or items.old.items n None)) }
{
    let at = number as usize;
    while items.len() <= at {
        items.push(None)?;
    }
    Ok(mem::replace(&mut items[at], Some(value)))
}

/// Adds an item to the list of this number; the ones before it that aren't there are empty.
pub(crate) fn add<T: Drop>(
    alloc: Global,
    lists: &mut Vec<List<T>>,
    number: u32,
    value: T,
) -> Result<(), Memory>
    ensures { OnOk result ((n : ℕ) → slice_index_or lists.new.items n [] ≡ (if n == number then slice_index_or lists.old.items number [] ++ value ∷ [] else slice_index_or lists.old.items n [])) }
{
    let at = number as usize;
    while lists.len() <= at {
        lists.push(List::empty(alloc))?;
    }
    lists[at].push(value)
}
