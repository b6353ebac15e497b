//! What an item says.

ghost use Rattle.std.specs.Prelude.{◌≡◌, IfOk};
ghost use Rattle.fx_parse.specs.declared.item.Lexeme.TheVariants as lexeme;
ghost use Rattle.fx_parse.specs.Items.{infix_of, label, literal_shape, prefix_of};

use crate::item::{Item, Lexeme};
use fx_ast::{Infix, Prefix};
use fx_base::{Memory, Text};
use fx_scan::{Symbol, Word};
use std::alloc::Global;

/// The bytes of a name, of a text or of a text's piece. No other item has any.
#[tactic(auto, unfolding(crate::specs::Items::bytes_of))]
pub(crate) fn label(alloc: Global, item: &Item) -> Result<Text, Memory>
    ensures { IfOk result (λ t. t ≡ label item.now) }
{
    match &item.lexeme {
        Lexeme::Name(text) => text.copy(),
        Lexeme::Plain(text) => text.copy(),
        Lexeme::Head(text) => text.copy(),
        Lexeme::Mid(text) => text.copy(),
        Lexeme::Tail(text) => text.copy(),
        _ => Text::of(alloc, ""),
    }
}

/// Which operator between operands it is. No other item is asked.
#[tactic(auto, unfolding(crate::specs::Items::infix_of))]
pub(crate) fn infix(item: &Item) -> Infix
    ensures { result ≡ infix_of item.now.lexeme }
{
    match &item.lexeme {
        Lexeme::Word(word) => infix_word(*word),
        Lexeme::Symbol(symbol) => infix_symbol(*symbol),
        _ => Infix::Or,
    }
}

#[tactic(auto, unfolding(crate::specs::Items::infix_of))]
fn infix_word(word: Word) -> Infix
    ensures { result ≡ infix_of (lexeme.Word word) }
{
    match word {
        Word::And => Infix::And,
        _ => Infix::Or,
    }
}

#[tactic(auto, unfolding(crate::specs::Items::infix_of))]
fn infix_symbol(symbol: Symbol) -> Infix
    ensures { result ≡ infix_of (lexeme.Symbol symbol) }
{
    match symbol {
        Symbol::Equal => Infix::Eq,
        Symbol::NotEqual => Infix::Ne,
        Symbol::Less => Infix::Lt,
        Symbol::AtMost => Infix::Le,
        Symbol::Greater => Infix::Gt,
        Symbol::AtLeast => Infix::Ge,
        Symbol::Matches => Infix::Like,
        Symbol::MatchesNot => Infix::NotLike,
        Symbol::Plus => Infix::Add,
        Symbol::Minus => Infix::Sub,
        Symbol::Star => Infix::Mul,
        Symbol::Slash => Infix::Div,
        Symbol::Percent => Infix::Rem,
        _ => Infix::Or,
    }
}

/// Which operator before an operand it is. No other item is asked.
#[tactic(auto, unfolding(crate::specs::Items::prefix_of))]
pub(crate) fn prefix(item: &Item) -> Prefix
    ensures { result ≡ prefix_of item.now.lexeme }
{
    match &item.lexeme {
        Lexeme::Word(word) => prefix_word(*word),
        Lexeme::Symbol(symbol) => prefix_symbol(*symbol),
        _ => Prefix::Plus,
    }
}

#[tactic(auto, unfolding(crate::specs::Items::prefix_of))]
fn prefix_word(word: Word) -> Prefix
    ensures { result ≡ prefix_of (lexeme.Word word) }
{
    match word {
        Word::Not => Prefix::Not,
        Word::Exists => Prefix::Exists,
        _ => Prefix::Plus,
    }
}

#[tactic(auto, unfolding(crate::specs::Items::prefix_of))]
fn prefix_symbol(symbol: Symbol) -> Prefix
    ensures { result ≡ prefix_of (lexeme.Symbol symbol) }
{
    match symbol {
        Symbol::Minus => Prefix::Minus,
        _ => Prefix::Plus,
    }
}
