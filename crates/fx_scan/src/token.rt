use fx_base::Place;

/// What a token is.
#[derive(Clone, Copy, Debug, PartialEq, Eq)]
pub enum TokenKind {
    /// A name that isn't reserved.
    Name,
    /// A reserved word.
    Word,
    /// An integer from 0 to 9223372036854775807.
    Int,
    /// Digits and units, as `1h30m`.
    Span,
    /// A date, or a date with a clock's time and zone, after RFC 3339.
    Time,
    /// A text without interpolation.
    Plain,
    /// A text up to its first `${`.
    Head,
    /// A text from a `}` to the next `${`.
    Mid,
    /// A text from its last `}` on.
    Tail,
    /// A regular expression between slashes.
    Pattern,
    /// An operator or a mark.
    Symbol,
}

/// A slice of the script: `len` bytes from `place` on.
#[derive(Clone, Copy, Debug, PartialEq, Eq)]
pub struct Token {
    pub kind: TokenKind,
    pub place: Place,
    pub len: u32,
}
