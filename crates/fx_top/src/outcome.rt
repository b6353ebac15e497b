ghost use Rattle.std.specs.Prelude.{◌≡◌};
ghost use Rattle.fx_top.specs.Message.{status_of};

use fx_base::{Fault, Place, Text};
use fx_load::LineCause;

/// How a call of the program ends.
#[derive(Debug, PartialEq, Eq, Drop)]
pub enum Outcome {
    /// All yields were written.
    Done,
    /// The words are no form of a command.
    Usage,
    /// The system refused this file.
    FileFault {
        name: Text,
    },
    /// This file holds more bytes than its limit; `taken` is the limit plus 1.
    TooLong {
        name: Text,
        taken: u64,
    },
    /// The script isn't UTF-8, or has no tokens, from this place on.
    Syntax {
        place: Place,
        deep: bool,
    },
    /// The script has a form that isn't built yet.
    NotBuilt,
    /// This line of a data file, counted from 1, is refused.
    Line {
        file: Text,
        line: u64,
        cause: LineCause,
    },
    /// The script ended with a fault, after the yields before it.
    Fault {
        fault: Fault,
    },
    /// The system refused a write of the output.
    SinkFault,
    /// Want of memory.
    Memory,
    /// This line, counted from 1, holds a point when as many are loaded as may be.
    TooMany {
        file: Text,
        line: u64,
    },
}

impl Outcome {
    /// The exit status of the program.
    pub fn status(&self) -> u8
        ensures { result ≡ status_of self.now }
    {
        match self {
            Outcome::Done => 0,
            Outcome::Usage => 1,
            Outcome::FileFault { .. } => 2,
            Outcome::TooLong { .. } => 3,
            Outcome::Line { .. } => 4,
            Outcome::Syntax { .. } => 5,
            Outcome::Fault { .. } => 7,
            Outcome::SinkFault => 9,
            Outcome::Memory => 10,
            Outcome::TooMany { .. } => 12,
            Outcome::NotBuilt => 13,
        }
    }
}
