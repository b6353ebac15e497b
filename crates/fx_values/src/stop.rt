ghost use Rattle.std.specs.Prelude.{◌≡◌};
ghost use Rattle.fx_values.specs.Told.{stop_at};

use fx_base::{Fault, FaultKind, Memory, Place};
use fx_ops::OpFault;
use std::alloc::{AllocError, AllocFailed};

/// Why evaluation ended without a value.
#[derive(Clone, Copy, Debug, PartialEq, Eq)]
pub enum Stop {
    /// The script went wrong.
    Fault(Fault),
    /// The budget was passed; `ticks` is greater than the budget.
    Budget { ticks: u64 },
    Memory,
    /// No rule says what comes next.
    Stuck,
}

impl Stop {
    /// A fault at a place.
    pub fn fault(place: Place, kind: FaultKind) -> Stop
        ensures { result ≡ stop_at place (OpFault.Kind kind) }
    {
        Stop::Fault(Fault { kind, place })
    }

    /// What an operator's fault is at a place.
    pub fn at(place: Place, fault: OpFault) -> Stop
        ensures { result ≡ stop_at place fault }
    {
        match fault {
            OpFault::Kind(kind) => Stop::Fault(Fault { kind, place }),
            OpFault::Memory => Stop::Memory,
        }
    }
}

impl From<Memory> for Stop {
    ghost use Rattle.std.specs.Prelude.{◌≡◌};
    ghost use Rattle.fx_values.specs.declared.stop.Stop.TheVariants as stop;

    ghost from_gives = { λ _ e. e ≡ stop.Memory };

    fn from(_: Memory) -> Stop {
        Stop::Memory
    }
}

impl From<AllocError> for Stop {
    ghost use Rattle.std.specs.Prelude.{◌≡◌};
    ghost use Rattle.fx_values.specs.declared.stop.Stop.TheVariants as stop;

    ghost from_gives = { λ _ e. e ≡ stop.Memory };

    fn from(_: AllocError) -> Stop {
        Stop::Memory
    }
}

impl<T: Drop> From<AllocFailed<T>> for Stop {
    ghost use Rattle.std.specs.Prelude.{◌≡◌};
    ghost use Rattle.fx_values.specs.declared.stop.Stop.TheVariants as stop;

    ghost from_gives = { λ _ e. e ≡ stop.Memory };

    fn from(_: AllocFailed<T>) -> Stop {
        Stop::Memory
    }
}
