use fx_base::{Place, Text};
use fx_scan::{Symbol, Word};
use fx_time::Span;

/// A token with what it says.
#[derive(Debug, Drop)]
pub(crate) struct Item {
    pub(crate) place: Place,
    pub(crate) lexeme: Lexeme,
}

/// What a token says. Texts and patterns are those that are meant: without quotes, braces and
/// slashes around them, and without escapes.
#[derive(Debug, Drop)]
pub(crate) enum Lexeme {
    Name(Text),
    Word(Word),
    Int(i64),
    Span(Span),
    /// Nanoseconds since 1970-01-01T00:00:00Z.
    Time(i64),
    /// A text without interpolation.
    Plain(Text),
    /// A text's piece up to its first hole.
    Head(Text),
    /// A text's piece between two holes.
    Mid(Text),
    /// A text's piece after its last hole.
    Tail(Text),
    Pattern(Text),
    Symbol(Symbol),
}
