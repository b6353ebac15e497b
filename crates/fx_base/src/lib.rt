//! What every layer of the engine stands on: texts and lists as contracts see them, places and
//! faults of a script, and the outside as traits that count their faults.
#![tactic(auto)]

mod boxed;
mod fault;
mod files;
mod halt;
mod list;
mod memory;
mod memory_files;
mod memory_patterns;
mod memory_sink;
mod meter;
mod patterns;
mod place;
mod shared;
mod sink;
mod steps;
mod text;

pub use boxed::Boxed;
pub use fault::{Fault, FaultKind};
pub use files::{FileFault, Files};
pub use halt::Halt;
pub use list::List;
pub use memory::Memory;
pub use memory_files::{MemoryFiles, NamedFile};
pub use memory_patterns::MemoryPatterns;
pub use memory_sink::MemorySink;
pub use meter::Meter;
pub use patterns::{PatternFault, Patterns};
pub use place::Place;
pub use shared::Shared;
pub use sink::{Sink, SinkFault};
pub use steps::Steps;
pub use text::{Text, TextFault};
