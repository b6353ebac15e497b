//! What is remembered of a line that is stored the plain way.
ghost use Rattle.std.specs.Prelude.{◌≡◌, ℕ, List, map, IfOk, IfSome};
ghost use Rattle.fx_line.specs.declared.line.LineMode.{LineMode as AnyMode};
ghost use Rattle.fx_line.specs.Line.{Gives};
ghost use Rattle.fx_load.specs.Memo.{ids_of, AreSeries, Fits, FitsStore};

use crate::memo::{Known, Memo, start_of};
use fx_base::{Memory, Text};
use fx_line::{LineMode, Point, pieces_of};
use fx_series::Store;
use fx_value::{Kind, Scalar};
use std::alloc::Global;

/// The numbers of the integer series of points, where all of these are there.
fn numbers_of(
    alloc: Global,
    points: &[Point],
    bucket: &Text,
    store: &Store,
) -> Result<Option<Vec<u32>>, Memory>
    ensures { IfOk result (λ o. IfSome o (λ ns. AreSeries (ids_of store.now) bucket.now ns.items (map (λ p. p.series) points.now))) }
{
    let mut numbers = Vec::with_capacity(alloc, points.len())?;
    for point in points {
        let Some(number) = store.number_of(alloc, bucket, &point.series, Kind::Int)? else {
            return Ok(None);
        };
        numbers.push(number)?;
    }
    Ok(Some(numbers))
}

/// What a line that gives these points tells of others, where their series are there.
fn known_line(
    alloc: Global,
    line: &[u8],
    points: &[Point],
    bucket: &Text,
    store: &Store,
) -> Result<Option<Known>, Memory>
    ensures { IfOk result (λ o. IfSome o (λ k. (mode : AnyMode) → Gives mode line.now points.now → Fits mode bucket.now (ids_of store.now) k)) }
{
    let Some(numbers) = numbers_of(alloc, points, bucket, store)? else {
        return Ok(None);
    };
    let Some(pieces) = pieces_of(alloc, line, points)? else {
        return Ok(None);
    };
    Ok(Some(Known {
        pieces,
        numbers,
        start: start_of(line),
    }))
}

fn are_ints(points: &[Point]) -> bool {
    points.iter().all(|p| matches!(p.value, Scalar::Int(_)))
}

/// Remembers a line that gives these points, where all are integers and their series are there. Want
/// of memory is no fault: the line is not remembered.
pub fn learn(
    alloc: Global,
    memo: &mut Memo,
    line: &[u8],
    mode: LineMode,
    points: &[Point],
    bucket: &Text,
    store: &Store,
)
    requires given { Gives mode line.now points.now }
    requires fits { FitsStore mode bucket.now (ids_of store.now) memo.old }
    ensures { FitsStore mode bucket.now (ids_of store.now) memo.new }
{
    if !are_ints(points) || memo.is_crowded(start_of(line)) {
        return;
    }
    if let Ok(Some(known)) = known_line(alloc, line, points, bucket, store) {
        let _ = memo.add(known);
    }
}
