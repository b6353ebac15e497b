use fx_base::{Memory, Place};

/// Why a script has no tree.
#[derive(Clone, Copy, Debug, PartialEq, Eq, thiserror::Error)]
pub enum ParseFault {
    /// The token at the place, or the text's end, goes on with no script of at most 64 levels.
    #[error("no syntax at byte {}", place.at)]
    Refused {
        place: Place,
        /// More levels would let it go on.
        deep: bool,
    },
    #[error("out of memory")]
    Memory,
}

impl From<Memory> for ParseFault {
    ghost use Rattle.std.specs.Prelude.{◌≡◌};
    ghost use Rattle.fx_parse.specs.declared.fault.ParseFault.TheVariants as fault;

    ghost from_gives = { λ _ e. e ≡ fault.Memory };

    fn from(_: Memory) -> ParseFault {
        ParseFault::Memory
    }
}
