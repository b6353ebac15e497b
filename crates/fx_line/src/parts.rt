ghost use Rattle.std.specs.Prelude.{◌≡◌, ℕ, List, Option, IfOk, IfSome, IfNone, option_map};
ghost use Rattle.fx_line.specs.Line.{Pair, Written, IsSpelled};
ghost use Rattle.fx_line.specs.Reading.{Fields, time_at};

use crate::number::is_stamp;
use crate::pair::{PairBytes, PairsRead, Side};
use crate::trim::without_spaces;
use crate::word::Word;
use fx_base::Memory;
use std::alloc::Global;
use std::marker::Model;

/// A line cut into its parts.
#[derive(Drop)]
pub struct LineParts<'a> {
    pub measurement: &'a [u8],
    pub tags: Vec<PairBytes<'a>>,
    pub fields: Vec<PairBytes<'a>>,
    pub time: Option<&'a [u8]>,
}

impl<'a> Model for LineParts<'a> {
    ghost use Rattle.std.specs.Prelude.{option_map};
    ghost use Rattle.fx_line.specs.Line.{Written};

    ghost Value = { Written };

    ghost view = { λ p. record { measurement = p.measurement.now; tags = p.tags.items; fields = p.fields.items; time = option_map (λ t. t.now) p.time } };
}

/// The fields that the bytes begin with.
fn read_fields(alloc: Global, bytes: &[u8]) -> Result<Option<PairsRead<'_>>, Memory>
    ensures found { IfOk result (λ o. IfSome o (λ r. Fields bytes.now r.pairs.items r.rest.now)) }
    ensures none { IfOk result (λ o. IfNone o ((fields : List Pair) (rest : List ℕ) → Fields bytes.now fields rest → ⊥)) }
{
    let Some(first) = Side::Field.read_pair(bytes) else {
        return Ok(None);
    };
    let mut pairs = Vec::new(alloc);
    pairs.push(first.pair)?;
    Side::Field.read_more(first.rest, pairs)
}

/// The timestamp behind the fields, where there is one.
fn read_time(rest: &[u8]) -> Option<Option<&[u8]>>
    ensures { option_map (option_map (λ t. t.now)) result ≡ time_at rest.now }
{
    match rest {
        [] => Some(None),
        [b' ', after @ ..] => {
            let stamp = without_spaces(after);
            if is_stamp(stamp) {
                Some(Some(stamp))
            } else {
                None
            }
        }
        _ => None,
    }
}

/// The parts of a line whose spaces are taken off.
pub fn read_parts(alloc: Global, body: &[u8]) -> Result<Option<LineParts<'_>>, Memory>
    ensures found { IfOk result (λ o. IfSome o (λ w. IsSpelled body.now w)) }
    ensures none { IfOk result (λ o. IfNone o ((w : Written) → IsSpelled body.now w → ⊥)) }
{
    let (measurement, behind) = Word::Measurement.cut(body);
    if !Word::Measurement.is_word(measurement) {
        return Ok(None);
    }
    let Some(tags) = Side::Tag.read_more(behind, Vec::new(alloc))? else {
        return Ok(None);
    };
    let Some(fields) = read_fields(alloc, without_spaces(tags.rest))? else {
        return Ok(None);
    };
    let Some(time) = read_time(fields.rest) else {
        return Ok(None);
    };
    Ok(Some(LineParts {
        measurement,
        tags: tags.pairs,
        fields: fields.pairs,
        time,
    }))
}
