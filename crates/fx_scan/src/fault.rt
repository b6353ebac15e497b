use fx_base::{Memory, Place};
use std::alloc::AllocError;

/// Why a script has no tokens.
#[derive(Clone, Copy, Debug, PartialEq, Eq, thiserror::Error)]
pub enum ScanFault {
    /// At the place no token, blank or comment begins.
    #[error("no token at byte {}", place.at)]
    NoToken { place: Place },
    #[error("out of memory")]
    Memory,
}

impl From<Memory> for ScanFault {
    ghost use Rattle.std.specs.Prelude.{◌≡◌};
    ghost use Rattle.fx_scan.specs.declared.fault.ScanFault.TheVariants as fault;

    ghost from_gives = { λ _ e. e ≡ fault.Memory };

    fn from(_: Memory) -> ScanFault {
        ScanFault::Memory
    }
}
