ghost use Rattle.std.specs.Prelude.{◌≡◌, ◌<◌, ◌≤◌, ◌+◌, true, false, map, length, IfOk, OnOk, All, List, ◌∷◌};
ghost use Rattle.std.specs.List.{list_any};
ghost use Rattle.std.specs.Str.{IsUtf8};
ghost use Rattle.fx_line.specs.Value.{is_text, inside, text_of, scalar_of};
ghost use Rattle.fx_line.specs.Line.{Pair, tag_said, name_said, is_wide, point_of};
ghost use Rattle.fx_line.specs.Collected.{IsTextPair, AreCollected, IsCollected};

use crate::line::LineRead;
use crate::number::to_int;
use crate::pair::PairBytes;
use crate::point::{Point, SeriesKey, Tag, copied_tags};
use crate::value::{is_float, is_integer, is_text, is_true};
use crate::word::Word;
use fx_base::{List, Memory, Text};
use fx_value::Scalar;
use indexmap::IndexSet;
use std::alloc::Global;

/// A tag as it is said.
fn tag_said(alloc: Global, tag: &PairBytes<'_>) -> Result<Tag, Memory>
    requires { IsTextPair tag.now }
    ensures { IfOk result (λ t. t ≡ tag_said tag.now) }
{
    Ok(Tag {
        key: Word::Name.text(alloc, tag.key)?,
        value: Word::Name.text(alloc, tag.value)?,
    })
}

/// Tags as they are said, in the order of the line.
pub fn tags_said(alloc: Global, tags: &[PairBytes<'_>]) -> Result<Vec<Tag>, Memory>
    requires { All IsTextPair tags.now }
    ensures { IfOk result (λ v. v.items ≡ map tag_said tags.now) }
{
    let mut said = Vec::with_capacity(alloc, tags.len())?;
    for tag in tags {
        said.push(tag_said(alloc, tag)?)?;
    }
    Ok(said)
}

/// What stands between the quotes of a text.
fn inside(value: &[u8]) -> &[u8]
    ensures { result.now ≡ inside value.now }
{
    match value {
        [_, rest @ ..] => Word::Quoted.cut(rest).0,
        [] => value,
    }
}

/// What a text says between its quotes.
fn text_said(alloc: Global, value: &[u8]) -> Result<Text, Memory>
    requires utf8 { IsUtf8 value.now }
    requires quoted { is_text value.now ≡ true }
    ensures { IfOk result (λ t. t ≡ text_of value.now) }
{
    Word::Quoted.text(alloc, inside(value))
}

/// The value of a field.
fn scalar_of(alloc: Global, field: &PairBytes<'_>) -> Result<Scalar, Memory>
    requires text { IsUtf8 field.now.value }
    requires narrow { is_wide field.now ≡ false }
    ensures { IfOk result (λ s. s ≡ scalar_of field.now.value) }
{
    if is_text(field.value) {
        return Ok(Scalar::Text(text_said(alloc, field.value)?));
    }
    if !is_integer(field.value) {
        return Ok(Scalar::Bool(is_true(field.value)));
    }
    match to_int(field.value) {
        Some(number) => Ok(Scalar::Int(number)),
        None => unreachable!(),
    }
}

/// What all points of a line share.
#[derive(Drop)]
pub struct Head {
    pub measurement: Text,
    pub tags: Vec<Tag>,
    pub time: i64,
}

impl Head {
    /// The point of a field, whose key says this name.
    fn point(&self, alloc: Global, name: Text, field: &PairBytes<'_>) -> Result<Point, Memory>
        requires name { name ≡ name_said field.now }
        requires text { IsUtf8 field.now.value }
        requires narrow { is_wide field.now ≡ false }
        ensures { IfOk result (λ p. p ≡ point_of self.now.measurement self.now.tags.items self.now.time field.now) }
    {
        let series = SeriesKey {
            measurement: self.measurement.copy()?,
            tags: copied_tags(alloc, self.tags.as_slice())?,
            field: name,
        };
        Ok(Point {
            series,
            time: self.time,
            value: scalar_of(alloc, field)?,
        })
    }
}

/// The points of the last fields of a line, the last one first.
#[derive(Drop)]
struct Collected {
    names: IndexSet<Text>,
    points: Vec<Point>,
    skipped: u32,
}

impl Collected {
    /// Goes on with the field before those that were seen.
    fn take(&mut self, alloc: Global, head: &Head, field: &PairBytes<'_>) -> Result<(), Memory>
        requires room { self.old.skipped < 4294967295 }
        requires text { IsTextPair field.now }
        requires narrow { is_wide field.now ≡ false }
        ensures more { (later : List Pair) → IsCollected head.now.measurement head.now.tags.items head.now.time later self.old → OnOk result (IsCollected head.now.measurement head.now.tags.items head.now.time (field.now ∷ later) self.new) }
    {
        let name = Word::Name.text(alloc, field.key)?;
        if self.names.contains(&name) {
            return Ok(());
        }
        self.names.insert(name.copy()?)?;
        if is_float(field.value) {
            self.skipped += 1;
            return Ok(());
        }
        self.points.push(head.point(alloc, name, field)?)?;
        Ok(())
    }
}

/// The points of a line's fields, and how many of them are skipped.
pub fn points_of(alloc: Global, head: &Head, fields: &[PairBytes<'_>]) -> Result<LineRead, Memory>
    requires few { length fields.now < 4294967296 }
    requires text { All IsTextPair fields.now }
    requires narrow { list_any is_wide fields.now ≡ false }
    ensures { IfOk result (λ r. AreCollected head.now.measurement head.now.tags.items head.now.time fields.now r) }
{
    let mut collected = Collected {
        names: IndexSet::new(alloc),
        points: Vec::new(alloc),
        skipped: 0,
    };
    let mut left = fields.len();
    while left > 0 {
        left -= 1;
        collected.take(alloc, head, &fields[left])?;
    }
    let Collected {
        mut points,
        skipped,
        ..
    } = collected;
    points.reverse();
    Ok(LineRead {
        points: List::of(points),
        skipped,
    })
}
