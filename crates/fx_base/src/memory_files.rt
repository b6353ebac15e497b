ghost use Rattle.std.specs.Prelude.{◌≡◌, ℕ, List, Some};
ghost use Rattle.std.specs.Option.{option_map};
ghost use Rattle.fx_base.specs.Files.{file_of};

use crate::files::{FileFault, Files};
use crate::list::List;
use crate::text::Text;
use std::alloc::Global;

/// A file in memory.
#[derive(Debug, Drop)]
pub struct NamedFile {
    pub name: Text,
    pub bytes: List<u8>,
}

/// Files in memory, some of whose loads fail.
#[derive(Debug, Drop)]
pub struct MemoryFiles {
    files: List<NamedFile>,
    failing: List<u64>,
    calls: u64,
    faults: u64,
}

impl MemoryFiles {
    /// Holds these files. The loads with the numbers `failing` fail, counted from 1.
    pub fn holding(files: List<NamedFile>, failing: List<u64>) -> MemoryFiles
        ensures { ⟦<MemoryFiles as Files>⟧.content result ≡ Some (file_of files) }
    {
        MemoryFiles {
            files,
            failing,
            calls: 0,
            faults: 0,
        }
    }
}

fn find<'a>(files: &'a [NamedFile], name: &Text) -> Option<&'a List<u8>>
    ensures { option_map (λ b. b.now) result ≡ file_of files.now name.now }
{
    for file in files {
        if file.name == *name {
            return Some(&file.bytes);
        }
    }
    None
}

impl Files for MemoryFiles {
    ghost content = { λ m. Some (file_of m.files) };

    ghost faults = { λ m. m.faults };

    fn load(&mut self, alloc: Global, name: &Text, limit: u64) -> Result<Vec<u8>, FileFault> {
        self.calls = self.calls.saturating_add(1);
        if self.failing.as_slice().contains(&self.calls) {
            self.faults = self.faults.saturating_add(1);
            return Err(FileFault::Failed);
        }
        match find(self.files.as_slice(), name) {
            None => {
                self.faults = self.faults.saturating_add(1);
                Err(FileFault::Failed)
            }
            Some(bytes) if bytes.as_slice().len() as u64 > limit => {
                Err(FileFault::TooLong { taken: limit + 1 })
            }
            Some(bytes) => match Vec::from_slice(alloc, bytes.as_slice()) {
                Ok(copy) => Ok(copy),
                Err(_) => Err(FileFault::Memory),
            },
        }
    }
}
