use fx_base::Memory;

/// Why reading stops. The cursor stands at the item that is refused.
#[derive(Clone, Copy, Debug)]
pub(crate) enum Stop {
    Refused {
        /// More levels would let it go on.
        deep: bool,
    },
    Memory,
}

impl From<Memory> for Stop {
    ghost use Rattle.std.specs.Prelude.{◌≡◌};
    ghost use Rattle.fx_parse.specs.declared.stop.Stop.TheVariants as stop;

    ghost from_gives = { λ _ e. e ≡ stop.Memory };

    fn from(_: Memory) -> Stop {
        Stop::Memory
    }
}
