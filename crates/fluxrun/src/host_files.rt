ghost use Rattle.std.specs.Prelude.{◌≡◌};

use fx_base::{FileFault, Files, Text};
use std::alloc::Global;
use std::io::{ErrorKind, Read};
use std::{fs, rt};

/// The files of the system. It tells nothing of their content.
#[derive(Drop)]
pub struct HostFiles<'a, R: rt::Files> {
    runtime: &'a R,
    faults: u64,
}

impl<R: rt::Files> HostFiles<'_, R> {
    /// Over the files of this runtime. No load was refused yet.
    pub fn new(runtime: &R) -> HostFiles<'_, R>
        ensures { result.faults ≡ 0 }
    {
        HostFiles { runtime, faults: 0 }
    }
}

impl<R: rt::Files> Files for HostFiles<'_, R> {
    ghost use Rattle.std.specs.Prelude.{None};

    ghost content = { λ _. None };

    ghost faults = { λ h. h.faults };

    fn load(&mut self, alloc: Global, name: &Text, limit: u64) -> Result<Vec<u8>, FileFault> {
        let mut bytes = Vec::new(alloc);
        // One byte more than the limit tells a file that is too long.
        let read = match fs::open(self.runtime, name.as_str()) {
            Ok(file) => file.take(limit + 1).read_to_end(&mut bytes),
            Err(error) => Err(error),
        };
        match read {
            Ok(_) if bytes.len() as u64 <= limit => Ok(bytes),
            Ok(_) => Err(FileFault::TooLong { taken: limit + 1 }),
            Err(error) if error.kind() == ErrorKind::OutOfMemory => Err(FileFault::Memory),
            Err(_) => {
                self.faults = self.faults.saturating_add(1);
                Err(FileFault::Failed)
            }
        }
    }
}
