ghost use Rattle.std.specs.Prelude.{◌≡◌, ◌∷◌, ◌++◌, false, IfOk, OnOk};
ghost use Rattle.std.specs.Str.{IsUtf8};
ghost use Rattle.fx_parse.specs.Escapes.{escaped, in_pattern, in_text, taken};
ghost use Rattle.fx_scan.specs.Forms.{Bytes};

use fx_base::{Memory, Text, TextFault};
use std::alloc::Global;

/// What stands around bytes, and so what a backslash does between them.
#[derive(Clone, Copy)]
pub(crate) enum Quotes {
    Text,
    Pattern,
}

/// The text of bytes that are UTF-8.
pub(crate) fn text_of(alloc: Global, bytes: &[u8]) -> Result<Text, Memory>
    requires { IsUtf8 bytes.now }
    ensures { IfOk result (λ t. t ≡ bytes.now) }
{
    match Text::read(alloc, bytes) {
        Ok(text) => Ok(text),
        Err(TextFault::Memory) => Err(Memory),
        Err(TextFault::NotUtf8 { .. }) => unreachable!(),
    }
}

/// The byte that a backslash and this byte stand for in a text.
#[tactic(auto, unfolding(crate::specs::Escapes::in_text))]
fn in_text(byte: u8) -> u8
    ensures { result ≡ in_text byte }
{
    match byte {
        b'n' => b'\n',
        b'r' => b'\r',
        b't' => b'\t',
        _ => byte,
    }
}

/// Adds what a backslash and the byte stand for in a pattern.
#[tactic(auto, unfolding(crate::specs::Escapes::in_pattern))]
fn push_in_pattern(bytes: &mut Vec<u8>, byte: u8) -> Result<(), Memory>
    ensures { OnOk result (bytes.new.items ≡ bytes.old.items ++ in_pattern byte) }
{
    if byte == b'/' {
        return Ok(bytes.push(byte)?);
    }
    bytes.push(b'\\')?;
    bytes.push(byte)?;
    Ok(())
}

/// Adds what a backslash and the byte stand for.
fn push_escape(bytes: &mut Vec<u8>, quotes: Quotes, byte: u8) -> Result<(), Memory>
    ensures { OnOk result (bytes.new.items ≡ bytes.old.items ++ escaped quotes byte) }
{
    match quotes {
        Quotes::Text => Ok(bytes.push(in_text(byte))?),
        Quotes::Pattern => push_in_pattern(bytes, byte),
    }
}

/// Adds what the byte means, after a backslash or not, and tells whether it is a backslash that
/// waits for its byte.
fn push_meant(
    bytes: &mut Vec<u8>,
    quotes: Quotes,
    after_backslash: bool,
    byte: u8,
) -> Result<bool, Memory>
    ensures { (rest : Bytes) → IfOk result (λ waits. bytes.new.items ++ taken quotes waits rest
        ≡ bytes.old.items ++ taken quotes after_backslash (byte ∷ rest)) }
{
    if after_backslash {
        push_escape(bytes, quotes, byte)?;
        return Ok(false);
    }
    if byte == b'\\' {
        return Ok(true);
    }
    bytes.push(byte)?;
    Ok(false)
}

/// The text that the bytes between two ends mean: their escapes are taken out.
pub(crate) fn meant(alloc: Global, inner: &[u8], quotes: Quotes) -> Result<Text, Memory>
    requires { IsUtf8 inner.now }
    ensures { IfOk result (λ t. t ≡ taken quotes false inner.now) }
{
    let mut bytes = Vec::new(alloc);
    let mut after_backslash = false;
    for byte in inner {
        after_backslash = push_meant(&mut bytes, quotes, after_backslash, *byte)?;
    }
    text_of(alloc, bytes.as_slice())
}
