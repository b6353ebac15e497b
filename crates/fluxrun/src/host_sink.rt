ghost use Rattle.std.specs.Prelude.{◌≡◌};

use fx_base::{Sink, SinkFault};
use std::io::Write;

/// A stream of the system, as the standard output. It tells nothing of what was written.
#[derive(Drop)]
pub struct HostSink<W: Write + Drop> {
    stream: W,
    faults: u64,
}

impl<W: Write + Drop> HostSink<W> {
    /// Over this stream. No write was refused yet.
    pub fn new(stream: W) -> HostSink<W>
        ensures { result.faults ≡ 0 }
    {
        HostSink { stream, faults: 0 }
    }
}

impl<W: Write + Drop> Sink for HostSink<W> {
    ghost use Rattle.std.specs.Prelude.{None};

    ghost written = { λ _. None };

    ghost faults = { λ h. h.faults };

    fn write(&mut self, piece: &[u8]) -> Result<(), SinkFault> {
        match self.stream.write_all(piece) {
            Ok(()) => Ok(()),
            Err(_) => {
                self.faults = self.faults.saturating_add(1);
                Err(SinkFault::Failed)
            }
        }
    }
}
