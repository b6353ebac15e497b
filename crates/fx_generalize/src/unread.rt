//! Why a term wasn't read.

use crate::names::FieldName;
use fx_base::Memory;

/// A variable that has no number yet, or no memory.
#[derive(Drop)]
pub(crate) enum Unread {
    Type(u32),
    Field(FieldName),
    Row(u32),
    Memory,
}

impl From<Memory> for Unread {
    ghost use Rattle.std.specs.Prelude.{◌≡◌};
    ghost use Rattle.fx_generalize.specs.declared.unread.Unread.TheVariants as unread;

    ghost from_gives = { λ _ e. e ≡ unread.Memory };

    fn from(_: Memory) -> Unread {
        Unread::Memory
    }
}
