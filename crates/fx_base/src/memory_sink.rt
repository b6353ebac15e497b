ghost use Rattle.std.specs.Prelude.{◌≡◌, Some, []};

use crate::list::List;
use crate::sink::{Sink, SinkFault};
use std::alloc::Global;

/// A sink in memory, some of whose writes fail.
#[derive(Debug, Drop)]
pub struct MemorySink {
    bytes: List<u8>,
    failing: List<u64>,
    calls: u64,
    faults: u64,
}

impl MemorySink {
    /// An empty sink. The writes with the numbers `calls` fail, counted from 1: such a write
    /// appends the first half of its piece, rounded down.
    pub fn failing(alloc: Global, calls: List<u64>) -> MemorySink
        ensures { ⟦<MemorySink as Sink>⟧.written result ≡ Some [] }
    {
        MemorySink {
            bytes: List::empty(alloc),
            failing: calls,
            calls: 0,
            faults: 0,
        }
    }

    /// The bytes that were written so far.
    pub fn bytes(&self) -> &List<u8>
        ensures { ⟦<MemorySink as Sink>⟧.written self.now ≡ Some result.now }
    {
        &self.bytes
    }
}

impl Sink for MemorySink {
    ghost written = { λ m. Some m.bytes };

    ghost faults = { λ m. m.faults };

    fn write(&mut self, piece: &[u8]) -> Result<(), SinkFault> {
        self.calls = self.calls.saturating_add(1);
        if self.failing.as_slice().contains(&self.calls) {
            self.faults = self.faults.saturating_add(1);
            return match self.bytes.extend(&piece[..piece.len() / 2]) {
                Ok(()) => Err(SinkFault::Failed),
                Err(_) => Err(SinkFault::Failed),
            };
        }
        match self.bytes.extend(piece) {
            Ok(()) => Ok(()),
            Err(_) => Err(SinkFault::Memory),
        }
    }
}
