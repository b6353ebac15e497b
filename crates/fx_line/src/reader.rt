ghost use Rattle.std.specs.Prelude.{◌≡◌, ◌≤◌, ◌<◌, true, false, map, length, All, IfOk, IfSome, IfNone, IsErrOf, IsTrue};
ghost use Rattle.std.specs.List.{IsDistinct};
ghost use Rattle.std.specs.Str.{IsUtf8};
ghost use Rattle.fx_base.specs.Text.{same_text};
ghost use Rattle.fx_line.specs.declared.line.LineError.{LineError};
ghost use Rattle.fx_line.specs.Collected.{IsTextPair, AreTexts, IsMade, IsWrong};
ghost use Rattle.fx_line.specs.Line.{Written, IsSpelled, trimmed, is_blank, is_factor, name_said, tag_said, sort_tags, Gives, Skips, IsRefused};
ghost use Rattle.fx_line.specs.Stored.{IsLawful};

use crate::line::{LineError, LineFault, LineMode, LineRead};
use crate::order::sorted_tags;
use crate::parts::{LineParts, read_parts};
use crate::point::Tag;
use crate::points::{Head, points_of, tags_said};
use crate::trim::{is_blank, trimmed};
use crate::word::Word;
use fx_base::{List, Memory};
use std::alloc::Global;
use std::str;

fn is_text(bytes: &[u8]) -> bool
    ensures yes { result ≡ true → IsUtf8 bytes.now }
    ensures no { result ≡ false → IsUtf8 bytes.now → ⊥ }
{
    str::from_utf8(bytes).is_ok()
}

/// The parts of a line that is a text.
fn read_text(alloc: Global, line: &[u8]) -> Result<Option<LineParts<'_>>, Memory>
    ensures found { IfOk result (λ o. IfSome o (λ w. IsUtf8 line.now × IsSpelled (trimmed line.now) w)) }
    ensures none { IfOk result (λ o. IfNone o ((w : Written) → IsUtf8 line.now → IsSpelled (trimmed line.now) w → ⊥)) }
{
    if is_text(line) {
        read_parts(alloc, trimmed(line))
    } else {
        Ok(None)
    }
}

/// The tags by rising key, or None where a key is repeated.
fn read_tags(alloc: Global, parts: &LineParts<'_>) -> Result<Option<Vec<Tag>>, Memory>
    requires { All IsTextPair parts.now.tags }
    ensures found { IfOk result (λ o. IfSome o (λ v. IsDistinct same_text (map name_said parts.now.tags) × (v.items ≡ sort_tags (map tag_said parts.now.tags)))) }
    ensures none { IfOk result (λ o. IfNone o (IsDistinct same_text (map name_said parts.now.tags) → ⊥)) }
{
    sorted_tags(tags_said(alloc, parts.tags.as_slice())?)
}

/// The points of a line by its parts, or why they are refused.
fn read_points(alloc: Global, parts: &LineParts<'_>, mode: LineMode) -> Result<LineRead, LineFault>
    requires texts { AreTexts parts.now }
    requires few { length parts.now.fields < 4294967296 }
    requires factor { IsTrue (is_factor mode.factor) }
    ensures made { IfOk result (λ r. IsMade mode parts.now r) }
    ensures wrong { (e : LineError) → IsErrOf result (LineFault.Refused e) → IsWrong mode parts.now e }
{
    let Some(tags) = read_tags(alloc, parts)? else {
        return Err(LineFault::Refused(LineError::Syntax));
    };
    let time = match parts.check(mode) {
        Ok(time) => time,
        Err(error) => return Err(LineFault::Refused(error)),
    };
    let head = Head {
        measurement: Word::Measurement.text(alloc, parts.measurement)?,
        tags,
        time,
    };
    Ok(points_of(alloc, &head, parts.fields.as_slice())?)
}

/// The points of a line, or why it is refused.
pub fn read_line(alloc: Global, line: &[u8], mode: LineMode) -> Result<LineRead, LineFault>
    requires bytes { length line.now ≤ 67108864 }
    requires factor { IsTrue (is_factor mode.factor) }
    ensures points { IfOk result (λ r. Gives mode line.now r.points) }
    ensures skipped { IfOk result (λ r. Skips line.now r.skipped) }
    ensures lawful { IfOk result (λ r. All IsLawful r.points) }
    ensures refused { (e : LineError) → IsErrOf result (LineFault.Refused e) → IsRefused mode line.now e }
{
    if is_blank(trimmed(line)) {
        let points = List::empty(alloc);
        return Ok(LineRead { points, skipped: 0 });
    }
    match read_text(alloc, line)? {
        Some(parts) => read_points(alloc, &parts, mode),
        None => Err(LineFault::Refused(LineError::Syntax)),
    }
}
