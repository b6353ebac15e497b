use crate::point::Point;
use fx_base::{List, Memory};

/// Why a line is refused, in the order in which the causes are looked for.
#[derive(Clone, Copy, Debug, PartialEq, Eq)]
pub enum LineError {
    /// The line is neither empty nor spelled as a line has to be.
    Syntax,
    /// The line has more than 64 tags.
    TooManyTags,
    /// A name is one of the engine's own.
    NameReserved,
    /// A field's value is a float.
    FloatField,
    /// A field's value is an unsigned integer.
    UintField,
    /// An integer is not one of 64 bits with a sign.
    IntRange,
    /// A time is no time of a point.
    TimeRange,
}

/// What a line gives: its points, and how many of its fields were left out.
#[derive(Debug, Drop)]
pub struct LineRead {
    pub points: List<Point>,
    pub skipped: u32,
}

/// How a line is read: how many nanoseconds one count of a timestamp stands for, the time of a line
/// without one, and whether a float is left out rather than refused.
#[derive(Clone, Copy, Debug)]
pub struct LineMode {
    pub factor: i64,
    pub moment: i64,
    pub skip_floats: bool,
}

/// Why a line gives nothing.
#[derive(Clone, Copy, Debug, PartialEq, Eq)]
pub enum LineFault {
    /// The line is refused.
    Refused(LineError),
    /// Want of memory.
    Memory,
}

impl From<Memory> for LineFault {
    ghost use Rattle.std.specs.Prelude.{◌≡◌};
    ghost use Rattle.fx_line.specs.declared.line.LineFault.TheVariants as fault;

    ghost from_gives = { λ _ e. e ≡ fault.Memory };

    fn from(_: Memory) -> LineFault {
        LineFault::Memory
    }
}
