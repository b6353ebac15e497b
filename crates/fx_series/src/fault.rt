use fx_base::Memory;
use fx_value::Kind;
use std::alloc::AllocFailed;

/// Why a point was not put.
#[derive(Clone, Copy, Debug, PartialEq, Eq)]
pub enum PutFault {
    /// No bucket of this name was added.
    NoBucket,
    /// The series with this number has points of the kind `old`, and the point is of the kind
    /// `new`.
    KindConflict { series: u32, old: Kind, new: Kind },
    Memory,
}

impl From<Memory> for PutFault {
    ghost use Rattle.std.specs.Prelude.{◌≡◌};
    ghost use Rattle.fx_series.specs.declared.fault.PutFault.TheVariants as fault;

    ghost from_gives = { λ _ e. e ≡ fault.Memory };

    fn from(_: Memory) -> PutFault {
        PutFault::Memory
    }
}

impl<T: Drop> From<AllocFailed<T>> for PutFault {
    ghost use Rattle.std.specs.Prelude.{◌≡◌};
    ghost use Rattle.fx_series.specs.declared.fault.PutFault.TheVariants as fault;

    ghost from_gives = { λ _ e. e ≡ fault.Memory };

    fn from(_: AllocFailed<T>) -> PutFault {
        PutFault::Memory
    }
}
