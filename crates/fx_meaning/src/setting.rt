use fx_base::{List, Place};

/// A pattern literal of the script, by its place, and the number of its built pattern.
#[derive(Clone, Copy, Debug, PartialEq, Eq)]
pub struct Placed {
    pub place: Place,
    pub number: u32,
}

/// What a run gives to all expressions: its moment, in nanoseconds since 1970-01-01T00:00:00Z, and
/// the numbers of the pattern literals.
#[derive(Debug, Drop)]
pub struct Setting {
    pub moment: i64,
    pub patterns: List<Placed>,
}
