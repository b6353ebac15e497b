ghost use Rattle.std.specs.Prelude.{◌≡◌, ℕ, ◌<◌, ◌-◌, ◌^◌};
ghost use Rattle.fx_base.specs.Outside.{Content, Loads, LoadCause};

use crate::text::Text;
use std::alloc::Global;

/// Why a file was not loaded.
#[derive(Clone, Copy, Debug, PartialEq, Eq)]
pub enum FileFault {
    /// The system refused, or there is no such file.
    Failed,
    /// The file holds more bytes than the limit; `taken` is the limit plus 1.
    TooLong { taken: u64 },
    Memory,
}

/// A source of whole files by name.
pub trait Files {
    /// The bytes of each file, where the object tells them. No call changes them.
    ghost content: { Self → Content };
    /// How many loads the object refused. It never falls.
    ghost faults: { Self → ℕ };

    /// The bytes of a file of at most `limit` bytes.
    fn load(&mut self, alloc: Global, name: &Text, limit: u64) -> Result<Vec<u8>, FileFault>
        requires { limit < 2 ^ 64 - 1 }
        ensures same { content self.new ≡ content self.old }
        ensures bytes { Loads (content self.old) name.now limit result }
        ensures cause { LoadCause limit (faults self.old) (faults self.new) result };
}
