ghost use Rattle.std.specs.Prelude.{◌≡◌, ◌≤◌, false, IfOk, IfSome, IfNone, List, ℕ, IsTrue, length};
ghost use Rattle.std.specs.Option.{option_map};
ghost use Rattle.fx_line.specs.Line.{Pair};
ghost use Rattle.fx_line.specs.Reading.{skip, ends_pair, is_pair, text_len, bare_len, field_value_len, value_len, with_value, pair_at, ends_all, More, HasMore};

use crate::value::{is_bare, is_value};
use crate::word::Word;
use fx_base::Memory;
use std::marker::Model;

/// A tag or a field as it stands in a line.
#[derive(Drop)]
pub struct PairBytes<'a> {
    pub key: &'a [u8],
    pub value: &'a [u8],
}

impl<'a> Model for PairBytes<'a> {
    ghost use Rattle.fx_line.specs.Line.{Pair};

    ghost Value = { Pair };

    ghost view = { λ p. record { key = p.key.now; value = p.value.now } };
}

/// Where a pair stands, which tells what its value may be.
#[derive(Clone, Copy)]
pub enum Side {
    Tag,
    Field,
}

/// A pair, and what stands behind it.
#[derive(Drop)]
pub struct PairRead<'a> {
    pub pair: PairBytes<'a>,
    pub rest: &'a [u8],
}

/// Pairs, and what stands behind them.
#[derive(Drop)]
pub struct PairsRead<'a> {
    pub pairs: Vec<PairBytes<'a>>,
    pub rest: &'a [u8],
}

/// What stands behind a byte that the bytes begin with.
pub fn skip(bytes: &[u8], byte: u8) -> Option<&[u8]>
    ensures { option_map (λ r. r.now) result ≡ skip byte bytes.now }
{
    match bytes {
        [first, rest @ ..] if *first == byte => Some(rest),
        _ => None,
    }
}

fn ends_pair(rest: &[u8]) -> bool
    ensures { result ≡ ends_pair rest.now }
{
    matches!(rest, [] | [b',' | b' ', ..])
}

/// How far a text goes, up to and with its closing quote.
fn text_len(bytes: &[u8]) -> usize
    ensures value { result ≡ text_len false bytes.now }
    ensures within { result ≤ length bytes.now }
{
    let mut len = 0;
    let mut behind = false;
    let mut rest = bytes;
    while let [byte, after @ ..] = rest {
        len += 1;
        if !behind && *byte == b'"' {
            return len;
        }
        behind = Word::Quoted.is_escape(behind, *byte);
        rest = after;
    }
    len
}

/// How many bytes stand before one that ends a value that is no text.
fn bare_len(bytes: &[u8]) -> usize
    ensures value { result ≡ bare_len bytes.now }
    ensures within { result ≤ length bytes.now }
{
    let mut len = 0;
    let mut rest = bytes;
    while let [byte, after @ ..] = rest {
        if !is_bare(*byte) {
            return len;
        }
        len += 1;
        rest = after;
    }
    len
}

fn field_value_len(bytes: &[u8]) -> usize
    ensures value { result ≡ field_value_len bytes.now }
    ensures within { result ≤ length bytes.now }
{
    match bytes {
        [b'"', rest @ ..] => 1 + text_len(rest),
        _ => bare_len(bytes),
    }
}

impl Side {
    fn value_len(self, bytes: &[u8]) -> usize
        ensures value { result ≡ value_len self bytes.now }
        ensures within { result ≤ length bytes.now }
    {
        match self {
            Side::Tag => Word::Name.cut(bytes).0.len(),
            Side::Field => field_value_len(bytes),
        }
    }

    fn is_pair(self, key: &[u8], value: &[u8]) -> bool
        ensures { result ≡ is_pair self (record { key = key.now; value = value.now }) }
    {
        match self {
            Side::Tag => Word::Name.is_word(key) && Word::Name.is_word(value),
            Side::Field => Word::Name.is_word(key) && is_value(value),
        }
    }

    fn ends_all(self, rest: &[u8]) -> bool
        ensures { result ≡ ends_all self rest.now }
    {
        match self {
            Side::Tag => matches!(rest, [b' ', ..]),
            Side::Field => matches!(rest, [] | [b' ', ..]),
        }
    }

    /// The pair with this key, by what stands behind its `=`.
    fn with_value<'a>(self, key: &'a [u8], bytes: &'a [u8]) -> Option<PairRead<'a>>
        ensures { option_map (λ r. (r.pair, r.rest.now)) result ≡ with_value self key.now bytes.now }
    {
        let (value, rest) = bytes.split_at(self.value_len(bytes));
        if self.is_pair(key, value) && ends_pair(rest) {
            let pair = PairBytes { key, value };
            Some(PairRead { pair, rest })
        } else {
            None
        }
    }

    /// The pair that the bytes begin with.
    pub fn read_pair(self, bytes: &[u8]) -> Option<PairRead<'_>>
        ensures { option_map (λ r. (r.pair, r.rest.now)) result ≡ pair_at self bytes.now }
    {
        let (key, rest) = Word::Name.cut(bytes);
        match skip(rest, b'=') {
            Some(behind) => self.with_value(key, behind),
            None => None,
        }
    }

    /// The pairs that the bytes begin with, each behind a comma, put behind the others.
    pub fn read_more<'a>(
        self,
        bytes: &'a [u8],
        mut pairs: Vec<PairBytes<'a>>,
    ) -> Result<Option<PairsRead<'a>>, Memory>
        requires { IsTrue (ends_pair bytes.now) }
        ensures found { IfOk result (λ o. IfSome o (λ r. HasMore self bytes.now pairs.entry.items r.pairs.items r.rest.now)) }
        ensures none { IfOk result (λ o. IfNone o ((ps : List Pair) (rest : List ℕ) → More self bytes.now ps rest → ⊥)) }
    {
        let mut rest = bytes;
        while let Some(after) = skip(rest, b',') {
            let Some(read) = self.read_pair(after) else {
                return Ok(None);
            };
            pairs.push(read.pair)?;
            rest = read.rest;
        }
        if self.ends_all(rest) {
            Ok(Some(PairsRead { pairs, rest }))
        } else {
            Ok(None)
        }
    }
}
