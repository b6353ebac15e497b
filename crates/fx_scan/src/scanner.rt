ghost use Rattle.std.specs.Prelude.{◌≡◌, ◌+◌, ◌≤◌, ℕ, List, length, IfOk, IsErrOf};
ghost use Rattle.std.specs.List.{All};
ghost use Rattle.fx_scan.specs.declared.fault.ScanFault.TheVariants.{NoToken};
ghost use Rattle.fx_scan.specs.declared.token.Token.{Token};
ghost use Rattle.fx_scan.specs.Forms.{IsFormed};
ghost use Rattle.fx_scan.specs.Readers as spec;
ghost use Rattle.fx_scan.specs.Tokens.{IsTokenList, IsInOrder, IsStuck, after, ends_operand, stays_open};

use crate::bytes::{begins_blank, begins_closing, begins_comment, front, line_len, past};
use crate::fault::ScanFault;
use crate::front::token_at;
use crate::mode::Mode;
use crate::symbol_table::{SymbolTable, symbol_rows};
use crate::taken::Taken;
use crate::token::{Token, TokenKind};
use fx_base::{List, Place, Text};
use std::alloc::Global;

/// What stands at a place.
#[derive(Clone, Copy)]
enum Front {
    Blank,
    Comment(usize),
    Token(Taken),
    Nothing,
}

/// The tokens of a script of at most 65,536 bytes, or the first place at which no token, blank or
/// comment begins.
pub fn scan(alloc: Global, text: &Text) -> Result<List<Token>, ScanFault>
    requires { length text.now ≤ 65_536 }
    ensures ok { IfOk result (λ ts. IsTokenList text.now ts) }
    ensures only { IfOk result (λ ts. (us : List Token) → IsTokenList text.now us → us ≡ ts) }
    ensures formed { IfOk result (λ ts. All (IsFormed text.now) ts) }
    ensures in_order { IfOk result (λ ts. IsInOrder 0 ts) }
    ensures stuck { (at : ℕ) → IsErrOf result (NoToken (record { at = at })) → IsStuck text.now at }
    ensures none { (at : ℕ) → IsErrOf result (NoToken (record { at = at })) → (ts : List Token) → IsTokenList text.now ts → ⊥ }
{
    let rows = symbol_rows();
    let symbols = SymbolTable::over(&rows);
    let bytes = text.as_bytes();
    let mut tokens = List::empty(alloc);
    let mut mode = Mode {
        divides: false,
        in_hole: false,
    };
    let mut at = 0;
    'places: while at < bytes.len() {
        let left = past(bytes, at);
        match front_of(&symbols, mode, left) {
            Front::Blank => at += 1,
            Front::Comment(len) => at += len,
            Front::Token(taken) => {
                tokens.push(token_of(at, taken))?;
                mode = after(mode, taken.kind, front(left, taken.len));
                at += taken.len;
            }
            Front::Nothing => {
                return Err(ScanFault::NoToken {
                    place: place_of(at),
                });
            }
        }
    }
    Ok(tokens)
}

fn place_of(at: usize) -> Place
    requires { at ≤ 65_536 }
    ensures { result ≡ record { at = at } }
{
    Place { at: at as u32 }
}

/// The token that begins at a place.
fn token_of(start: usize, taken: Taken) -> Token
    requires { start + taken.len ≤ 65_536 }
    ensures { result ≡ record { kind = taken.kind; place = record { at = start }; len = taken.len } }
{
    Token {
        kind: taken.kind,
        place: place_of(start),
        len: taken.len as u32,
    }
}

/// What stands at the front of what is left.
fn front_of(symbols: &SymbolTable<'_>, mode: Mode, left: &[u8]) -> Front
    ensures { spec.IsFront mode left.now result }
{
    if begins_blank(left) {
        Front::Blank
    } else if begins_comment(left) {
        Front::Comment(line_len(left))
    } else {
        match token_at(symbols, mode, left) {
            Some(taken) => Front::Token(taken),
            None => Front::Nothing,
        }
    }
}

/// The mode after a token.
fn after(mode: Mode, kind: TokenKind, slice: &[u8]) -> Mode
    ensures { result ≡ after mode kind slice.now }
{
    Mode {
        divides: ends_operand(kind, slice),
        in_hole: stays_open(mode.in_hole, kind),
    }
}

/// Whether a `/` divides directly after the token.
fn ends_operand(kind: TokenKind, slice: &[u8]) -> bool
    ensures { result ≡ ends_operand kind slice.now }
{
    match kind {
        TokenKind::Symbol => begins_closing(slice),
        TokenKind::Word | TokenKind::Head | TokenKind::Mid => false,
        _ => true,
    }
}

/// Whether an interpolation is open after the token.
fn stays_open(held: bool, kind: TokenKind) -> bool
    ensures { result ≡ stays_open held kind }
{
    match kind {
        TokenKind::Head => true,
        TokenKind::Tail => false,
        _ => held,
    }
}
