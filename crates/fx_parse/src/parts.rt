use crate::measured::Measured;
use fx_base::Text;

/// An element of an array.
#[derive(Drop)]
pub(crate) struct Element {
    pub(crate) value: Measured,
    /// The array ends after it.
    pub(crate) last: bool,
}

/// A hole of a text.
#[derive(Drop)]
pub(crate) struct Hole {
    pub(crate) inner: Measured,
    /// The piece after it.
    pub(crate) piece: Text,
    /// The text ends after that.
    pub(crate) last: bool,
}

/// A label and its value.
#[derive(Drop)]
pub(crate) struct Labelled {
    pub(crate) label: Text,
    pub(crate) value: Measured,
    /// The list ends after them.
    pub(crate) last: bool,
}
