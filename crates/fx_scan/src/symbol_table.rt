//! The table of the symbols, for any number of lookups.
ghost use Rattle.std.specs.Prelude.{◌≡◌};
ghost use Rattle.fx_scan.specs.Tables.{symbol_of, symbols, texts};

use crate::symbols::Symbol;
use fx_table::CaseTable;

/// The symbols by rising text, with an order that was tested once.
#[derive(Drop)]
pub(crate) struct SymbolTable<'t> {
    table: CaseTable<'t, &'t [u8], Symbol, 26>,
    ghost whole: { texts table.rows.now ≡ symbols },
}

impl<'t> SymbolTable<'t> {
    /// The table over its rows.
    pub(crate) fn over(rows: &'t [(&'t [u8], Symbol); 26]) -> SymbolTable<'t>
        requires { texts rows.now ≡ symbols }
    {
        match CaseTable::over(rows) {
            Some(table) => SymbolTable { table },
            None => unreachable!(),
        }
    }

    /// The symbol that is this text, or None where it is none.
    pub(crate) fn find(&self, text: &'t [u8]) -> Option<Symbol>
        ensures { result ≡ symbol_of text.now }
    {
        self.table.find(&text).copied()
    }
}

macro_rules! symbols {
    ($($text:literal is $symbol:ident),*) => { [$(($text, Symbol::$symbol)),*] };
}

/// The rows of the table.
#[tactic(auto, unfolding(crate::specs::Tables::symbols))]
pub(crate) fn symbol_rows<'t>() -> [(&'t [u8], Symbol); 26]
    ensures { texts result ≡ symbols }
{
    symbols![
        b"!=" is NotEqual, b"!~" is MatchesNot, b"%" is Percent, b"(" is OpenParen,
        b")" is CloseParen, b"*" is Star, b"+" is Plus, b"," is Comma,
        b"-" is Minus, b"." is Dot, b"/" is Slash, b":" is Colon,
        b"<" is Less, b"<-" is PipeParameter, b"<=" is AtMost, b"=" is Assign,
        b"==" is Equal, b"=>" is Arrow, b"=~" is Matches, b">" is Greater,
        b">=" is AtLeast, b"[" is OpenBracket, b"]" is CloseBracket, b"{" is OpenBrace,
        b"|>" is Pipe, b"}" is CloseBrace
    ]
}
