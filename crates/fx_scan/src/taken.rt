use crate::token::TokenKind;

/// The token at a place: its kind, and its length in bytes.
#[derive(Clone, Copy)]
pub(crate) struct Taken {
    pub(crate) kind: TokenKind,
    pub(crate) len: usize,
}
