ghost use Rattle.std.specs.Prelude.{◌≡◌, ◌&&◌, not, false, IfOk};
ghost use Rattle.std.specs.Str.{IsUtf8};
ghost use Rattle.fx_line.specs.Word.{ends, yields, is_escape, is_whole, is_word, begins, said, front, back};

use fx_base::{Memory, Text, TextFault};
use std::alloc::Global;

/// Where a word stands, which tells what ends it and what a backslash takes the force from.
#[derive(Clone, Copy)]
pub enum Word {
    Measurement,
    /// A key, or a tag's value.
    Name,
    /// A text between quotes.
    Quoted,
}

impl Word {
    fn ends(self, byte: u8) -> bool
        ensures { result ≡ ends self byte }
    {
        match self {
            Word::Measurement => byte == b',' || byte == b' ',
            Word::Name => byte == b',' || byte == b'=' || byte == b' ',
            Word::Quoted => byte == b'"',
        }
    }

    fn yields(self, byte: u8) -> bool
        ensures { result ≡ yields self byte }
    {
        match self {
            Word::Measurement => byte == b',' || byte == b' ',
            Word::Name => byte == b',' || byte == b'=' || byte == b' ',
            Word::Quoted => byte == b'"' || byte == b'\\',
        }
    }

    /// Whether a byte is a backslash with force, by whether one stands before it.
    pub fn is_escape(self, behind: bool, byte: u8) -> bool
        ensures { result ≡ is_escape self behind byte }
    {
        byte == b'\\' && !(behind && self.yields(byte))
    }

    /// Whether a byte with force ends the word here.
    fn stops(self, behind: bool, byte: u8) -> bool
        ensures { result ≡ (not behind && ends self byte) }
    {
        !behind && self.ends(byte)
    }

    /// What stands from the first byte on that ends the word.
    fn back(self, bytes: &[u8]) -> &[u8]
        ensures { result.now ≡ back self false bytes.now }
    {
        let mut behind = false;
        let mut rest = bytes;
        while let [byte, after @ ..] = rest {
            if self.stops(behind, *byte) {
                return rest;
            }
            behind = self.is_escape(behind, *byte);
            rest = after;
        }
        rest
    }

    /// The word that the bytes begin with, and what stands behind it.
    pub fn cut(self, bytes: &[u8]) -> (&[u8], &[u8])
        ensures word { result.0.now ≡ front self false bytes.now }
        ensures rest { result.1.now ≡ back self false bytes.now }
    {
        let rest = self.back(bytes);
        bytes.split_at(bytes.len() - rest.len())
    }

    fn is_whole(self, bytes: &[u8]) -> bool
        ensures { result ≡ is_whole self false bytes.now }
    {
        let mut behind = false;
        let mut rest = bytes;
        while let [byte, after @ ..] = rest {
            if self.stops(behind, *byte) {
                return false;
            }
            behind = self.is_escape(behind, *byte);
            rest = after;
        }
        !behind
    }

    /// Whether the bytes are a word.
    pub fn is_word(self, bytes: &[u8]) -> bool
        ensures { result ≡ is_word self bytes.now }
    {
        match bytes {
            [] => false,
            [_, ..] => self.is_whole(bytes),
        }
    }

    /// Whether the bytes begin with one whose force a backslash takes.
    fn begins_yielding(self, bytes: &[u8]) -> bool
        ensures { result ≡ begins (yields self) bytes.now }
    {
        match bytes {
            [first, ..] => self.yields(*first),
            [] => false,
        }
    }

    /// What a word says.
    fn said(self, alloc: Global, bytes: &[u8]) -> Result<Vec<u8>, Memory>
        ensures { IfOk result (λ v. v.items ≡ said self false bytes.now) }
    {
        let mut out = Vec::with_capacity(alloc, bytes.len())?;
        let mut plain = false;
        let mut rest = bytes;
        while let [byte, after @ ..] = rest {
            plain = !plain && *byte == b'\\' && self.begins_yielding(after);
            if !plain {
                out.push(*byte)?;
            }
            rest = after;
        }
        Ok(out)
    }

    /// What a word says, as a text.
    pub fn text(self, alloc: Global, bytes: &[u8]) -> Result<Text, Memory>
        requires { IsUtf8 bytes.now }
        ensures { IfOk result (λ t. t ≡ said self false bytes.now) }
    {
        let said = self.said(alloc, bytes)?;
        match Text::read(alloc, said.as_slice()) {
            Ok(text) => Ok(text),
            Err(TextFault::NotUtf8 { .. }) => unreachable!(),
            Err(TextFault::Memory) => Err(Memory),
        }
    }
}
