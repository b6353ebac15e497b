//! Tests of one item.

ghost use Rattle.std.specs.Prelude.{◌≡◌};
ghost use Rattle.fx_parse.specs.Items.{one_of, among, sort, is_literal, is_name, is_plain, is_label, is_head, is_mid, is_tail, is_word, is_symbol, is_called, a_symbol, a_word};
ghost use Rattle.fx_parse.specs.Grammar.{joins, joining};
ghost use Rattle.fx_parse.specs.ReadPrimary.{begins, beginning};
ghost use Rattle.fx_parse.specs.ReadRuns.{suffix_starters};
ghost use Rattle.fx_parse.specs.Cursor.{operator_line, prefix_line};

use crate::item::{Item, Lexeme};
use fx_scan::{Symbol, Word};

pub(crate) fn is_symbol(item: &Item, symbol: Symbol) -> bool
    ensures { result ≡ is_symbol symbol item.now }
{
    match &item.lexeme {
        Lexeme::Symbol(found) => *found == symbol,
        _ => false,
    }
}

pub(crate) fn is_word(item: &Item, word: Word) -> bool
    ensures { result ≡ is_word word item.now }
{
    match &item.lexeme {
        Lexeme::Word(found) => *found == word,
        _ => false,
    }
}

pub(crate) fn is_name(item: &Item) -> bool
    ensures { result ≡ is_name item.now }
{
    match &item.lexeme {
        Lexeme::Name(_) => true,
        _ => false,
    }
}

pub(crate) fn is_plain(item: &Item) -> bool
    ensures { result ≡ is_plain item.now }
{
    match &item.lexeme {
        Lexeme::Plain(_) => true,
        _ => false,
    }
}

pub(crate) fn is_head(item: &Item) -> bool
    ensures { result ≡ is_head item.now }
{
    match &item.lexeme {
        Lexeme::Head(_) => true,
        _ => false,
    }
}

pub(crate) fn is_mid(item: &Item) -> bool
    ensures { result ≡ is_mid item.now }
{
    match &item.lexeme {
        Lexeme::Mid(_) => true,
        _ => false,
    }
}

pub(crate) fn is_tail(item: &Item) -> bool
    ensures { result ≡ is_tail item.now }
{
    match &item.lexeme {
        Lexeme::Tail(_) => true,
        _ => false,
    }
}

/// Whether it may be the label of a property of a record.
pub(crate) fn is_label(item: &Item) -> bool
    ensures { result ≡ is_label item.now }
{
    is_name(item) || is_plain(item)
}

/// Whether it is an expression by itself.
pub(crate) fn is_literal(item: &Item) -> bool
    ensures { result ≡ is_literal item.now }
{
    match &item.lexeme {
        Lexeme::Int(_) => true,
        Lexeme::Span(_) => true,
        Lexeme::Time(_) => true,
        Lexeme::Plain(_) => true,
        Lexeme::Pattern(_) => true,
        Lexeme::Name(_) => true,
        Lexeme::Word(_) => false,
        Lexeme::Head(_) => false,
        Lexeme::Mid(_) => false,
        Lexeme::Tail(_) => false,
        Lexeme::Symbol(_) => false,
    }
}

/// Whether it is a name with these bytes.
pub(crate) fn is_called(item: &Item, name: &str) -> bool
    ensures { result ≡ is_called name.now item.now }
{
    match &item.lexeme {
        Lexeme::Name(found) => found.as_str() == name,
        _ => false,
    }
}

/// The line of the grammar between whose operands it stands, or 0.
pub(crate) fn operator_line(item: &Item) -> u8
    ensures { result ≡ operator_line (sort item.now.lexeme) }
{
    match &item.lexeme {
        Lexeme::Symbol(symbol) => symbol_line(*symbol),
        Lexeme::Word(word) => word_line(*word),
        _ => 0,
    }
}

fn symbol_line(symbol: Symbol) -> u8
    ensures { result ≡ operator_line (a_symbol symbol) }
{
    match symbol {
        Symbol::Pipe => 2,
        Symbol::Star | Symbol::Slash | Symbol::Percent => 3,
        Symbol::Plus | Symbol::Minus => 4,
        Symbol::Equal
        | Symbol::NotEqual
        | Symbol::Less
        | Symbol::AtMost
        | Symbol::Greater
        | Symbol::AtLeast
        | Symbol::Matches
        | Symbol::MatchesNot => 5,
        _ => 0,
    }
}

fn word_line(word: Word) -> u8
    ensures { result ≡ operator_line (a_word word) }
{
    match word {
        Word::And => 7,
        Word::Or => 8,
        _ => 0,
    }
}

/// The line of the grammar before whose operands it stands, or 0.
pub(crate) fn prefix_line(item: &Item) -> u8
    ensures { result ≡ prefix_line (sort item.now.lexeme) }
{
    match &item.lexeme {
        Lexeme::Symbol(symbol) => symbol_before(*symbol),
        Lexeme::Word(word) => word_before(*word),
        _ => 0,
    }
}

fn symbol_before(symbol: Symbol) -> u8
    ensures { result ≡ prefix_line (a_symbol symbol) }
{
    match symbol {
        Symbol::Plus | Symbol::Minus => 1,
        _ => 0,
    }
}

fn word_before(word: Word) -> u8
    ensures { result ≡ prefix_line (a_word word) }
{
    match word {
        Word::Not | Word::Exists => 6,
        _ => 0,
    }
}

/// Whether it begins what stands after a primary.
pub(crate) fn begins_suffix(item: &Item) -> bool
    ensures { result ≡ one_of suffix_starters item.now }
{
    match &item.lexeme {
        Lexeme::Symbol(symbol) => suffix_symbol(*symbol),
        _ => false,
    }
}

fn suffix_symbol(symbol: Symbol) -> bool
    ensures { result ≡ among suffix_starters (a_symbol symbol) }
{
    match symbol {
        Symbol::OpenParen | Symbol::OpenBracket | Symbol::Dot => true,
        _ => false,
    }
}

/// Whether a statement that follows another can't begin with it.
pub(crate) fn joins(item: &Item) -> bool
    ensures { result ≡ joins item.now }
{
    match &item.lexeme {
        Lexeme::Symbol(symbol) => joining_symbol(*symbol),
        _ => false,
    }
}

fn joining_symbol(symbol: Symbol) -> bool
    ensures { result ≡ among joining (a_symbol symbol) }
{
    match symbol {
        Symbol::OpenParen | Symbol::OpenBracket | Symbol::Plus | Symbol::Minus => true,
        _ => false,
    }
}

/// Whether an expression may begin with it.
pub(crate) fn begins(item: &Item) -> bool
    ensures { result ≡ begins item.now }
{
    match &item.lexeme {
        Lexeme::Symbol(symbol) => beginning_symbol(*symbol),
        Lexeme::Word(word) => beginning_word(*word),
        Lexeme::Mid(_) => false,
        Lexeme::Tail(_) => false,
        _ => true,
    }
}

fn beginning_symbol(symbol: Symbol) -> bool
    ensures { result ≡ among beginning (a_symbol symbol) }
{
    match symbol {
        Symbol::OpenParen
        | Symbol::OpenBracket
        | Symbol::OpenBrace
        | Symbol::Plus
        | Symbol::Minus => true,
        _ => false,
    }
}

fn beginning_word(word: Word) -> bool
    ensures { result ≡ among beginning (a_word word) }
{
    match word {
        Word::If | Word::Not | Word::Exists => true,
        _ => false,
    }
}
