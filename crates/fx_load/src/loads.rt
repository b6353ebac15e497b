//! Files, one after another, into the buckets of a store.
ghost use Rattle.std.specs.Prelude.{◌≡◌, ◌<◌, ℕ, List, Some, length, OnOk, IsTrue};
ghost use Rattle.fx_base.specs.Outside.{Told};
ghost use Rattle.fx_line.specs.Line.{is_factor};
ghost use Rattle.fx_line.specs.Stored.{StoredPoint};
ghost use Rattle.fx_series.specs.Store.{StandsFor};
ghost use Rattle.fx_load.specs.Loads.{AreReady, IsReadyFor, OneLoads, FilesLoad, OneCauses, FilesCauses, StaysReady, stop_of};

use crate::cause::LineCause;
use crate::load::{LoadStop, load_file};
use fx_base::{FileFault, Files, Text};
use fx_line::LineMode;
use fx_series::Store;
use std::alloc::Global;

/// How many bytes a data file may have.
pub const MOST_FILE_BYTES: u64 = 67_108_864;

/// A file whose lines go into a bucket.
#[derive(Debug, Drop)]
pub struct Load {
    pub bucket: Text,
    pub file: Text,
}

/// Why a file was not stored; lines count from 1.
#[derive(Clone, Copy, Debug, PartialEq, Eq)]
pub enum FileStop {
    /// The system refused the file.
    Failed,
    /// The file is too long; this many bytes were taken.
    TooLong { taken: u64 },
    Line { line: u64, cause: LineCause },
    TooMany { line: u64 },
    Memory,
}

/// The file at this place, counted from 0, was not stored.
#[derive(Clone, Copy, Debug, PartialEq, Eq)]
pub struct LoadsStop {
    pub place: usize,
    pub stop: FileStop,
}

fn stop_of(stop: LoadStop) -> FileStop
    ensures { result ≡ stop_of stop }
{
    match stop {
        LoadStop::Line { line, cause } => FileStop::Line { line, cause },
        LoadStop::TooMany { line } => FileStop::TooMany { line },
        LoadStop::Memory => FileStop::Memory,
    }
}

/// Stores the points of a file's lines in its bucket; the file's bytes are let go.
fn load_one<F: Files>(
    alloc: Global,
    load: &Load,
    mode: LineMode,
    files: &mut F,
    store: &mut Store,
) -> Result<(), FileStop>
    requires factor { IsTrue (is_factor mode.factor) }
    requires ready { IsReadyFor store.old load.now }
    ensures same { F.content files.new ≡ F.content files.old }
    ensures told { (told : Told) (buckets : List (List ℕ)) (stored : List StoredPoint) → F.content files.old ≡ Some told → StandsFor store.old buckets stored → OneLoads mode told buckets load.now stored store.new result }
    ensures causes { OneCauses (F.faults files.old) (F.faults files.new) result }
    ensures stays { OnOk result (StaysReady store.old store.new) }
{
    let bytes = match files.load(alloc, &load.file, MOST_FILE_BYTES) {
        Ok(bytes) => bytes,
        Err(FileFault::Failed) => return Err(FileStop::Failed),
        Err(FileFault::TooLong { taken }) => return Err(FileStop::TooLong { taken }),
        Err(FileFault::Memory) => return Err(FileStop::Memory),
    };
    match load_file(alloc, bytes.as_slice(), mode, &load.bucket, store) {
        Ok(()) => Ok(()),
        Err(stop) => Err(stop_of(stop)),
    }
}

/// Stores the points of files, each in its bucket, up to the first file that stops it. No two files
/// are held at once.
pub fn load_files<F: Files>(
    alloc: Global,
    loads: &[Load],
    mode: LineMode,
    files: &mut F,
    store: &mut Store,
) -> Result<(), LoadsStop>
    requires factor { IsTrue (is_factor mode.factor) }
    requires ready { AreReady store.old loads.now }
    ensures same { F.content files.new ≡ F.content files.old }
    ensures told { (told : Told) (buckets : List (List ℕ)) (stored : List StoredPoint) → F.content files.old ≡ Some told → StandsFor store.old buckets stored → FilesLoad mode told buckets loads.now stored store.new result }
    ensures causes { FilesCauses (length loads.now) (F.faults files.old) (F.faults files.new) result }
    ensures ready { OnOk result (AreReady store.new loads.now) }
{
    for (place, load) in loads.iter().enumerate() {
        match load_one(alloc, load, mode, files, store) {
            Ok(()) => {}
            Err(stop) => return Err(LoadsStop { place, stop }),
        }
    }
    Ok(())
}
