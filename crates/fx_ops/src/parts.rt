ghost use Rattle.std.specs.Prelude.{◌≡◌, ◌<◌, length, map, IfOk, IsTrue};
ghost use Rattle.std.specs.List.{join_by, list_all};
ghost use Rattle.fx_ops.specs.Answer.{Gives};
ghost use Rattle.fx_ops.specs.Limit.{is_short};
ghost use Rattle.fx_ops.specs.Parts.{parts, parts_past, all_limited};

use crate::fault::OpFault;
use crate::limit::MOST;
use fx_base::{FaultKind, List, Memory, Text};
use std::alloc::Global;

/// The parts of a text between the separators from the left, one part where the separator is
/// empty; TooLarge where a part has more than 1,048,576 bytes. The parts with the separator
/// between them are the text again.
pub fn split_text(alloc: Global, a: &Text, by: &Text) -> Result<List<Text>, OpFault>
    ensures answer { Gives (all_limited (parts by.now a.now)) result }
    ensures whole { IfOk result (λ found. join_by (λ part. part) by.now found ≡ a.now) }
    ensures range { IfOk result (λ found. IsTrue (list_all is_short found)) }
{
    let parts = parts(alloc, a.as_str(), by.as_str())?;
    texts_of(alloc, parts.as_slice())
}

/// The parts of a text between the separators.
pub fn parts<'a>(alloc: Global, text: &'a str, by: &str) -> Result<Vec<&'a str>, Memory>
    ensures { IfOk result (λ found. map (λ part. part.now) found.items ≡ parts by.now text.now) }
{
    if by.is_empty() {
        let mut whole = Vec::new(alloc);
        whole.push(text)?;
        return Ok(whole);
    }
    cut(alloc, text, by)
}

fn cut<'a>(alloc: Global, text: &'a str, by: &str) -> Result<Vec<&'a str>, Memory>
    requires { 0 < length by.now }
    ensures { IfOk result (λ found. map (λ part. part.now) found.items ≡ parts_past by.now 0 text.now) }
{
    let mut found = Vec::new(alloc);
    let mut rest = text;
    'parts: while let Some((part, after)) = rest.split_once(by) {
        found.push(part)?;
        rest = after;
    }
    found.push(rest)?;
    Ok(found)
}

fn texts_of(alloc: Global, parts: &[&str]) -> Result<List<Text>, OpFault>
    ensures { Gives (all_limited (map (λ part. part.now) parts.now)) result }
{
    let mut texts = List::empty(alloc);
    for part in parts {
        if part.len() > MOST {
            return Err(OpFault::Kind(FaultKind::TooLarge));
        }
        texts.push(Text::of(alloc, part)?)?;
    }
    Ok(texts)
}
