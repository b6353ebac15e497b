use fx_base::Memory;
use std::alloc::{AllocError, AllocFailed};

/// Why bindings took no more.
#[derive(Clone, Copy, Debug, PartialEq, Eq)]
pub enum UnifyFault {
    /// No types are left under which all that was asked holds.
    Clash,
    Memory,
}

impl From<Memory> for UnifyFault {
    ghost use Rattle.std.specs.Prelude.{◌≡◌};
    ghost use Rattle.fx_unify.specs.declared.fault.UnifyFault.TheVariants as fault;

    ghost from_gives = { λ _ e. e ≡ fault.Memory };

    fn from(_: Memory) -> UnifyFault {
        UnifyFault::Memory
    }
}

impl From<AllocError> for UnifyFault {
    ghost use Rattle.std.specs.Prelude.{◌≡◌};
    ghost use Rattle.fx_unify.specs.declared.fault.UnifyFault.TheVariants as fault;

    ghost from_gives = { λ _ e. e ≡ fault.Memory };

    fn from(_: AllocError) -> UnifyFault {
        UnifyFault::Memory
    }
}

impl<T: Drop> From<AllocFailed<T>> for UnifyFault {
    ghost use Rattle.std.specs.Prelude.{◌≡◌};
    ghost use Rattle.fx_unify.specs.declared.fault.UnifyFault.TheVariants as fault;

    ghost from_gives = { λ _ e. e ≡ fault.Memory };

    fn from(_: AllocFailed<T>) -> UnifyFault {
        UnifyFault::Memory
    }
}
