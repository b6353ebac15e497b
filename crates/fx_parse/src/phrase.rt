/// What is read as an expression within another.
#[derive(Clone, Copy, Debug)]
pub(crate) enum Phrase {
    Whole,
    /// A postfix that ends in a call.
    Called,
    /// A phrase of a line of the grammar, from 0, a postfix, to 8, an `or`.
    Line(u8),
}
