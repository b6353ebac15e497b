ghost use Rattle.std.specs.Prelude.{◌≡◌, IfOk};

use fx_base::{List, Memory, Text};
use fx_value::Scalar;
use std::alloc::Global;

/// A tag of a series: a key and its value.
#[derive(Debug, PartialEq, Eq, Hash, Drop)]
pub struct Tag {
    pub key: Text,
    pub value: Text,
}

/// What names a series in its bucket: the measurement, the tags in rising order of their keys, and
/// the field.
#[derive(Debug, PartialEq, Eq, Hash, Drop)]
pub struct SeriesKey {
    pub measurement: Text,
    pub tags: List<Tag>,
    pub field: Text,
}

/// One field of one line. The time counts nanoseconds since 1970-01-01T00:00:00Z.
#[derive(Debug, Drop)]
pub struct Point {
    pub series: SeriesKey,
    pub time: i64,
    pub value: Scalar,
}

fn copied_tag(tag: &Tag) -> Result<Tag, Memory>
    ensures { IfOk result (λ t. t ≡ tag.now) }
{
    Ok(Tag {
        key: tag.key.copy()?,
        value: tag.value.copy()?,
    })
}

pub fn copied_tags(alloc: Global, tags: &[Tag]) -> Result<List<Tag>, Memory>
    ensures { IfOk result (λ l. l ≡ tags.now) }
{
    let mut copies = List::of(Vec::with_capacity(alloc, tags.len())?);
    for tag in tags {
        copies.push(copied_tag(tag)?)?;
    }
    Ok(copies)
}

impl SeriesKey {
    pub fn copy(&self, alloc: Global) -> Result<SeriesKey, Memory>
        ensures { IfOk result (λ k. k ≡ self.now) }
    {
        Ok(SeriesKey {
            measurement: self.measurement.copy()?,
            tags: copied_tags(alloc, self.tags.as_slice())?,
            field: self.field.copy()?,
        })
    }
}
