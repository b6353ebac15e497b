ghost use Rattle.std.specs.Prelude.{◌≡◌};
ghost use Rattle.fx_scan.specs.Tables.{symbol_of};

use crate::symbol_table::{SymbolTable, symbol_rows};

/// The symbols, by what they mean or look like.
#[derive(Clone, Copy, Debug, PartialEq, Eq)]
pub enum Symbol {
    /// `+`
    Plus,
    /// `-`
    Minus,
    /// `*`
    Star,
    /// `/` as a division
    Slash,
    /// `%`
    Percent,
    /// `==`
    Equal,
    /// `!=`
    NotEqual,
    /// `<`
    Less,
    /// `>`
    Greater,
    /// `<=`
    AtMost,
    /// `>=`
    AtLeast,
    /// `=~`
    Matches,
    /// `!~`
    MatchesNot,
    /// `=`
    Assign,
    /// `=>`
    Arrow,
    /// `<-`
    PipeParameter,
    /// `(`
    OpenParen,
    /// `)`
    CloseParen,
    /// `[`
    OpenBracket,
    /// `]`
    CloseBracket,
    /// `{`
    OpenBrace,
    /// `}` outside of an interpolation
    CloseBrace,
    /// `,`
    Comma,
    /// `:`
    Colon,
    /// `.`
    Dot,
    /// `|>`
    Pipe,
}

/// The symbol that is this text, or None where it is none.
pub fn symbol_of(text: &[u8]) -> Option<Symbol>
    ensures { result ≡ symbol_of text.now }
{
    let rows = symbol_rows();
    SymbolTable::over(&rows).find(text)
}
