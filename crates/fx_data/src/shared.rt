ghost use Rattle.std.specs.Prelude.{◌≡◌, IfOk};
ghost use Rattle.fx_data.specs.Shared.{key_of};

use crate::key::{Key, KeyEntry};
use fx_base::{List, Memory};
use fx_value::Head;
use std::alloc::Global;

/// The key of the labels whose values all rows of a head share; none of them is pinned.
pub fn shared_key(alloc: Global, head: &Head) -> Result<Key, Memory>
    ensures { IfOk result (λ k. k ≡ key_of head.now) }
{
    let mut entries = Vec::new(alloc);
    for (label, value) in head.shared(alloc)? {
        entries.push(KeyEntry {
            label,
            value,
            pinned: false,
        })?;
    }
    Ok(Key {
        entries: List::of(entries),
    })
}
