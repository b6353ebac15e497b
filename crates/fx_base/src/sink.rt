ghost use Rattle.std.specs.Prelude.{ℕ, List, Option};
ghost use Rattle.fx_base.specs.Outside.{Writes, WriteCause};

/// Why a piece was not written whole.
#[derive(Clone, Copy, Debug, PartialEq, Eq)]
pub enum SinkFault {
    /// The system refused; a prefix of the piece was written.
    Failed,
    Memory,
}

/// A sink of bytes.
pub trait Sink {
    /// The bytes that were written so far, where the object tells them.
    ghost written: { Self → Option (List ℕ) };
    /// How many writes the object refused. It never falls.
    ghost faults: { Self → ℕ };

    /// Writes the whole piece, or a prefix of it before a refusal.
    fn write(&mut self, piece: &[u8]) -> Result<(), SinkFault>
        ensures bytes { Writes (written self.old) piece.now result (written self.new) }
        ensures cause { WriteCause (faults self.old) (faults self.new) result };
}
