ghost use Rattle.std.specs.Prelude.{◌≡◌, pos, false, Some, IfOk};
ghost use Rattle.std.specs.Str.{IsUtf8};
ghost use Rattle.fx_time.specs.Time.{IsTime};
ghost use Rattle.fx_scan.specs.declared.token.TokenKind.TheVariants as kind;
ghost use Rattle.fx_scan.specs.Forms.{Form, IsFormed, number_of};
ghost use Rattle.fx_scan.specs.Tables.{word_of, symbol_of};
ghost use Rattle.fx_scan.specs.Tokens.{IsTokenList};
ghost use Rattle.fx_parse.specs.Escapes.{taken};
ghost use Rattle.fx_parse.specs.Items.{Items};
ghost use Rattle.fx_parse.specs.Lexemes.{Tells, ReadsAs, AllRead};
ghost use Rattle.fx_parse.specs.Slices.{HasInner, inner_of, IsReadable};

use crate::escapes::{self, Quotes};
use crate::item::{Item, Lexeme};
use crate::{number, span};
use fx_base::{List, Memory, Text};
use fx_scan::{Symbol, Token, TokenKind, Word, reserved, symbol_of};
use fx_time::read_time;
use std::alloc::Global;

fn word(slice: &[u8]) -> Word
    requires { Form kind.Word slice.now }
    ensures { word_of slice.now ≡ Some result }
{
    match reserved(slice) {
        Some(word) => word,
        None => unreachable!(),
    }
}

fn symbol(slice: &[u8]) -> Symbol
    requires { Form kind.Symbol slice.now }
    ensures { symbol_of slice.now ≡ Some result }
{
    match symbol_of(slice) {
        Some(symbol) => symbol,
        None => unreachable!(),
    }
}

fn int(slice: &[u8]) -> i64
    requires { Form kind.Int slice.now }
    ensures { result ≡ pos (number_of slice.now) }
{
    number::number_of(slice) as i64
}

fn time(slice: &[u8]) -> i64
    requires { Form kind.Time slice.now }
    ensures { IsTime slice.now result }
{
    match read_time(slice) {
        Some(time) => time,
        None => unreachable!(),
    }
}

/// What stands between the first byte and so many at the end, with its escapes taken out.
fn quoted(alloc: Global, slice: &[u8], end: usize, quotes: Quotes) -> Result<Text, Memory>
    requires { HasInner end slice.now }
    ensures { IfOk result (λ t. t ≡ taken quotes false (inner_of end slice.now)) }
{
    escapes::meant(alloc, &slice[1..slice.len() - end], quotes)
}

/// What a token's slice says.
fn lexeme(alloc: Global, kind: TokenKind, slice: &[u8]) -> Result<Lexeme, Memory>
    requires form { Form kind slice.now }
    requires readable { IsReadable kind slice.now }
    ensures { IfOk result (Tells kind slice.now) }
{
    match kind {
        TokenKind::Name => Ok(Lexeme::Name(escapes::text_of(alloc, slice)?)),
        TokenKind::Word => Ok(Lexeme::Word(word(slice))),
        TokenKind::Int => Ok(Lexeme::Int(int(slice))),
        TokenKind::Span => Ok(Lexeme::Span(span::span_of(slice))),
        TokenKind::Time => Ok(Lexeme::Time(time(slice))),
        TokenKind::Plain => Ok(Lexeme::Plain(quoted(alloc, slice, 1, Quotes::Text)?)),
        TokenKind::Head => Ok(Lexeme::Head(quoted(alloc, slice, 2, Quotes::Text)?)),
        TokenKind::Mid => Ok(Lexeme::Mid(quoted(alloc, slice, 2, Quotes::Text)?)),
        TokenKind::Tail => Ok(Lexeme::Tail(quoted(alloc, slice, 1, Quotes::Text)?)),
        TokenKind::Pattern => Ok(Lexeme::Pattern(quoted(alloc, slice, 1, Quotes::Pattern)?)),
        TokenKind::Symbol => Ok(Lexeme::Symbol(symbol(slice))),
    }
}

/// The item of a token.
fn item(alloc: Global, text: &[u8], token: &Token) -> Result<Item, Memory>
    requires utf8 { IsUtf8 text.now }
    requires formed { IsFormed text.now token.now }
    ensures { IfOk result (ReadsAs text.now token.now) }
{
    let start = token.place.at as usize;
    let slice = &text[start..start + token.len as usize];
    Ok(Item {
        place: token.place,
        lexeme: lexeme(alloc, token.kind, slice)?,
    })
}

/// The items of a text's tokens, in their order.
pub(crate) fn items_of(
    alloc: Global,
    text: &Text,
    tokens: &List<Token>,
) -> Result<Vec<Item>, Memory>
    requires { IsTokenList text.now tokens.now }
    ensures read { IfOk result (λ items. AllRead text.now tokens.now items.items) }
    ensures only { IfOk result (λ items. (others : Items) → AllRead text.now tokens.now others → others ≡ items.items) }
{
    let bytes = text.as_str().as_bytes();
    let mut items = Vec::new(alloc);
    for token in tokens.as_slice() {
        items.push(item(alloc, bytes, token)?)?;
    }
    Ok(items)
}
