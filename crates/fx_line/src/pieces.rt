ghost use Rattle.std.specs.Prelude.{◌≡◌, ◌++◌, ◌∷◌, [], map, IfOk, IfSome, OnOk, IsTrue};
ghost use Rattle.fx_line.specs.declared.line.LineMode.{LineMode as AnyMode};
ghost use Rattle.fx_line.specs.Line.{is_factor, more_text, Gives};
ghost use Rattle.fx_line.specs.Pieces.{BeginsWithInt, AreFilled, IsFilled, ArePieces, head_text, pieces_from, pieces_of};

use crate::check::stamp_time;
use crate::line::LineMode;
use crate::number::{begins_with_digit, behind_digits, is_stamp, to_int, without_minus};
use crate::pair::{PairBytes, skip};
use crate::parts::{LineParts, read_parts};
use crate::point::Point;
use crate::trim::trimmed;
use fx_base::{List, Memory};
use std::alloc::Global;
use std::marker::Model;

/// The bytes of a line up to the value of each of its fields. Another line of these bytes, with an
/// integer behind each of them and then a space and a timestamp, gives points of the same series.
#[derive(Debug, Drop)]
pub struct Pieces {
    texts: List<List<u8>>,
}

impl Model for Pieces {
    ghost use Rattle.std.specs.Prelude.{List, ℕ};

    ghost Value = { List (List ℕ) };

    ghost view = { λ p. p.texts };
}

/// Adds a tag and the comma before it.
fn push_tag(text: &mut List<u8>, tag: &PairBytes<'_>) -> Result<(), Memory>
    ensures { OnOk result (text.new ≡ text.old ++ more_text tag.now) }
{
    text.push(b',')?;
    text.extend(tag.key)?;
    text.push(b'=')?;
    text.extend(tag.value)
}

/// Adds a field's key and its `=`.
fn push_key(text: &mut List<u8>, field: &PairBytes<'_>) -> Result<(), Memory>
    ensures { OnOk result (text.new ≡ text.old ++ (field.now.key ++ 61 ∷ [])) }
{
    text.extend(field.key)?;
    text.push(b'=')
}

fn comma(alloc: Global) -> Result<List<u8>, Memory>
    ensures { IfOk result (λ t. t ≡ 44 ∷ []) }
{
    let mut text = List::empty(alloc);
    text.push(b',')?;
    Ok(text)
}

/// What stands before a line's fields, with one space.
fn head_text(alloc: Global, parts: &LineParts<'_>) -> Result<List<u8>, Memory>
    ensures { IfOk result (λ t. t ≡ head_text parts.now) }
{
    let mut text = List::empty(alloc);
    text.extend(parts.measurement)?;
    for tag in parts.tags.as_slice() {
        push_tag(&mut text, tag)?;
    }
    text.push(b' ')?;
    Ok(text)
}

/// The bytes up to the value of each field, behind those before the first key.
fn pieces_from(
    alloc: Global,
    front: List<u8>,
    fields: &[PairBytes<'_>],
) -> Result<List<List<u8>>, Memory>
    ensures { IfOk result (λ ps. ps ≡ pieces_from front fields.now) }
{
    let mut pieces = List::empty(alloc);
    let mut piece = front;
    for field in fields {
        push_key(&mut piece, field)?;
        pieces.push(piece)?;
        piece = comma(alloc)?;
    }
    Ok(pieces)
}

/// The pieces of a line that gives these points, where each of its fields gives one.
pub fn pieces_of(alloc: Global, line: &[u8], points: &[Point]) -> Result<Option<Pieces>, Memory>
    ensures { IfOk result (λ o. IfSome o (λ p. (mode : AnyMode) → Gives mode line.now points.now → ArePieces mode p (map (λ q. q.series) points.now))) }
{
    let Some(parts) = read_parts(alloc, trimmed(line))? else {
        return Ok(None);
    };
    if parts.fields.len() != points.len() {
        return Ok(None);
    }
    let head = head_text(alloc, &parts)?;
    let texts = pieces_from(alloc, head, parts.fields.as_slice())?;
    Ok(Some(Pieces { texts }))
}

/// The integer that the bytes begin with, and what stands behind it.
fn read_int(bytes: &[u8]) -> Option<(i64, &[u8])>
    ensures { IfSome result (λ r. BeginsWithInt bytes.now r.0 r.1.now) }
{
    let digits = without_minus(bytes);
    if !begins_with_digit(digits) {
        return None;
    }
    let behind = skip(behind_digits(digits), b'i')?;
    let (value, rest) = bytes.split_at(bytes.len() - behind.len());
    let number = to_int(value)?;
    Some((number, rest))
}

/// What stands behind a piece that the bytes begin with.
fn behind<'a>(bytes: &'a [u8], piece: &[u8]) -> Option<&'a [u8]>
    ensures { IfSome result (λ r. bytes.now ≡ piece.now ++ r.now) }
{
    bytes.strip_prefix(piece)
}

fn push_int(values: &mut Vec<i64>, value: i64) -> Option<()>
    ensures { IfSome result (λ _. values.new.items ≡ values.old.items ++ value ∷ []) }
{
    values.push(value).ok()
}

/// The integers behind the pieces, which the bytes begin with, and what stands behind them all.
fn read_ints<'a>(pieces: &[List<u8>], line: &'a [u8], values: &mut Vec<i64>) -> Option<&'a [u8]>
    ensures { IfSome result (λ r. AreFilled pieces.now line.now values.new.items r.now) }
{
    values.clear();
    let mut rest = line;
    for piece in pieces {
        let bytes = behind(rest, piece.as_slice())?;
        let (value, left) = read_int(bytes)?;
        push_int(values, value)?;
        rest = left;
    }
    Some(rest)
}

impl Pieces {
    /// The time of a line of these pieces, and its integers, which are put in place of `values`.
    /// None says nothing of the line.
    pub fn read(&self, line: &[u8], mode: LineMode, values: &mut Vec<i64>) -> Option<i64>
        requires { IsTrue (is_factor mode.factor) }
        ensures { IfSome result (λ t. IsFilled mode self.now line.now values.new.items t) }
    {
        let rest = read_ints(self.texts.as_slice(), line, values)?;
        let stamp = skip(rest, b' ')?;
        if !is_stamp(stamp) {
            return None;
        }
        stamp_time(stamp, mode)
    }
}
