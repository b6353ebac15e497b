//! The token at the front of what is left.
ghost use Rattle.std.specs.Prelude.{◌≡◌};
ghost use Rattle.fx_scan.specs.declared.group.Group.TheVariants as group;
ghost use Rattle.fx_scan.specs.Readers as spec;

use crate::bytes::{begins_byte, begins_second, begins_slash, digits_len, front, name_len, past};
use crate::clock::time_len;
use crate::digits::is_int;
use crate::enclosed::{Open, end_of};
use crate::group::{Group, group_by};
use crate::mode::Mode;
use crate::spans::span_len;
use crate::symbol_table::SymbolTable;
use crate::taken::Taken;
use crate::token::TokenKind;
use crate::words::reserved;

/// The longest token at the front, or None where no token stands there.
pub(crate) fn token_at(symbols: &SymbolTable<'_>, mode: Mode, s: &[u8]) -> Option<Taken>
    ensures { spec.IsFound mode s.now result }
{
    match group_at(mode, s) {
        Group::Names => Some(name_at(mode, s)),
        Group::Numbers => number_at(mode, s),
        Group::Texts => text_at(mode, s),
        Group::Patterns => pattern_at(mode, s),
        Group::Symbols => symbol_at(symbols, mode, s),
        Group::Nothing => None,
    }
}

fn group_at(mode: Mode, s: &[u8]) -> Group
    ensures { result ≡ spec.group_at mode s.now }
{
    match s {
        [b, ..] => group_by(mode, *b),
        [] => Group::Nothing,
    }
}

fn name_at(mode: Mode, s: &[u8]) -> Taken
    requires { spec.group_at mode s.now ≡ group.Names }
    ensures { spec.IsTaken mode s.now result.kind result.len }
{
    let len = name_len(s);
    let kind = match reserved(front(s, len)) {
        Some(_) => TokenKind::Word,
        None => TokenKind::Name,
    };
    Taken { kind, len }
}

fn number_at(mode: Mode, s: &[u8]) -> Option<Taken>
    requires { spec.group_at mode s.now ≡ group.Numbers }
    ensures { spec.IsFound mode s.now result }
{
    match time_len(s) {
        Some(len) => Some(Taken {
            kind: TokenKind::Time,
            len,
        }),
        None => span_at(mode, s),
    }
}

fn span_at(mode: Mode, s: &[u8]) -> Option<Taken>
    requires digits { spec.group_at mode s.now ≡ group.Numbers }
    requires no_time { spec.IsTimeLen s.now None }
    ensures { spec.IsFound mode s.now result }
{
    let len = span_len(s);
    if len > 0 {
        return Some(Taken {
            kind: TokenKind::Span,
            len,
        });
    }
    int_at(mode, s)
}

fn int_at(mode: Mode, s: &[u8]) -> Option<Taken>
    requires digits { spec.group_at mode s.now ≡ group.Numbers }
    requires no_time { spec.IsTimeLen s.now None }
    requires no_span { spec.span_len s.now ≡ 0 }
    ensures { spec.IsFound mode s.now result }
{
    let len = digits_len(s);
    if is_int(front(s, len), past(s, len)) {
        Some(Taken {
            kind: TokenKind::Int,
            len,
        })
    } else {
        None
    }
}

fn text_at(mode: Mode, s: &[u8]) -> Option<Taken>
    requires { spec.group_at mode s.now ≡ group.Texts }
    ensures { spec.IsFound mode s.now result }
{
    let end = end_of(Open::Text, past(s, 1))?;
    let kind = piece_kind(mode, begins_byte(b'"', s), end.opens)?;
    Some(Taken {
        kind,
        len: end.len + 1,
    })
}

/// The kind of a text after a quote, or after a `}`. A text in an interpolation has none of its own.
fn piece_kind(mode: Mode, quoted: bool, opens: bool) -> Option<TokenKind>
    ensures { result ≡ spec.piece_kind mode quoted opens }
{
    match (quoted, opens) {
        (true, false) => Some(TokenKind::Plain),
        (true, true) if mode.in_hole => None,
        (true, true) => Some(TokenKind::Head),
        (false, true) => Some(TokenKind::Mid),
        (false, false) => Some(TokenKind::Tail),
    }
}

fn pattern_at(mode: Mode, s: &[u8]) -> Option<Taken>
    requires { spec.group_at mode s.now ≡ group.Patterns }
    ensures { spec.IsFound mode s.now result }
{
    let rest = past(s, 1);
    if begins_slash(rest) {
        return None;
    }
    let end = end_of(Open::Pattern, rest)?;
    Some(Taken {
        kind: TokenKind::Pattern,
        len: end.len + 1,
    })
}

fn symbol_at(symbols: &SymbolTable<'_>, mode: Mode, s: &[u8]) -> Option<Taken>
    requires { spec.group_at mode s.now ≡ group.Symbols }
    ensures { spec.IsFound mode s.now result }
{
    let len = symbol_len(symbols, s)?;
    Some(Taken {
        kind: TokenKind::Symbol,
        len,
    })
}

/// How long the symbol at the front is. No symbol has more than two bytes.
fn symbol_len(symbols: &SymbolTable<'_>, s: &[u8]) -> Option<usize>
    ensures { result ≡ spec.symbol_len s.now }
{
    if begins_double(symbols, s) {
        Some(2)
    } else if symbols.find(front(s, 1)).is_some() {
        Some(1)
    } else {
        None
    }
}

/// Whether the first two bytes are a symbol. Most bytes are second in none, and so need no lookup.
fn begins_double(symbols: &SymbolTable<'_>, s: &[u8]) -> bool
    ensures { result ≡ spec.begins_double s.now }
{
    begins_second(past(s, 1)) && symbols.find(front(s, 2)).is_some()
}
