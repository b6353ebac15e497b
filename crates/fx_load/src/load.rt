ghost use Rattle.std.specs.Prelude.{◌≡◌, ℕ, ◌≤◌, ◌<◌, ◌+◌, ◌++◌, ◌∷◌, [], List, length, All, IsTrue, IfSome, IfNone, OnOk};
ghost use Rattle.fx_line.specs.Line.{is_factor};
ghost use Rattle.fx_line.specs.Stored.{StoredPoint, IsLawful};
ghost use Rattle.fx_series.specs.Store.{StandsFor};
ghost use Rattle.std.specs.Option.{option_map};
ghost use Rattle.fx_load.specs.Bytes.{lines_of, lines_left, bytes_left, without_return};
ghost use Rattle.fx_load.specs.Load.{IsReady, PointLoads, PointsLoad, LineLoads, FileLoads, stop_at};
ghost use Rattle.fx_load.specs.Memo.{ids_of, FitsStore};

use crate::bytes::cut;
use crate::cause::LineCause;
use crate::known::load_known;
use crate::learn::learn;
use crate::memo::Memo;
use fx_base::Text;
use fx_line::{LineFault, LineMode, Point, read_line};
use fx_series::{PutFault, Store};
use std::alloc::Global;

/// How many points a run may load in all.
pub const MOST_POINTS: u64 = 4_194_304;

/// Why a line's points were not stored.
#[derive(Clone, Copy, Debug, PartialEq, Eq)]
pub enum LineStop {
    Refused(LineCause),
    TooMany,
    Memory,
}

impl LineStop {
    /// The same of the line with this number.
    fn at_line(self, line: u64) -> LoadStop
        ensures { result ≡ stop_at line self }
    {
        match self {
            LineStop::Refused(cause) => LoadStop::Line { line, cause },
            LineStop::TooMany => LoadStop::TooMany { line },
            LineStop::Memory => LoadStop::Memory,
        }
    }
}

/// Why a file's points were not all stored; lines count from 1.
#[derive(Clone, Copy, Debug, PartialEq, Eq)]
pub enum LoadStop {
    Line { line: u64, cause: LineCause },
    TooMany { line: u64 },
    Memory,
}

/// Stores the points of a file's lines in a bucket, up to the first line that stops it.
pub fn load_file(
    alloc: Global,
    file: &[u8],
    mode: LineMode,
    bucket: &Text,
    store: &mut Store,
) -> Result<(), LoadStop>
    requires bytes { length file.now ≤ 67108864 }
    requires factor { IsTrue (is_factor mode.factor) }
    requires ready { IsReady store.old bucket.now }
    ensures { (buckets : List (List ℕ)) (stored : List StoredPoint) → StandsFor store.old buckets stored → FileLoads mode buckets bucket.now file.now stored store.new result }
{
    let mut memo = Memo::empty(alloc);
    let mut values = Vec::new(alloc);
    let mut rest = Some(file);
    let mut number: u64 = 0;
    while let Some(text) = rest {
        let (line, behind) = first_line(text);
        number += 1;
        match load_line(alloc, &mut memo, &mut values, line, mode, bucket, store) {
            Ok(()) => {}
            Err(stop) => return Err(stop.at_line(number)),
        }
        rest = behind;
    }
    Ok(())
}

/// What stands before a carriage return that the bytes end with.
fn before_return(bytes: &[u8]) -> Option<&[u8]>
    ensures found { IfSome result (λ r. bytes.now ≡ r.now ++ 13 ∷ []) }
    ensures none { IfNone result ((r : List ℕ) → bytes.now ≡ r ++ 13 ∷ [] → ⊥) }
{
    match bytes {
        [rest @ .., b'\r'] => Some(rest),
        _ => None,
    }
}

/// The bytes without a carriage return at the end.
fn without_return(bytes: &[u8]) -> &[u8]
    ensures { result.now ≡ without_return bytes.now }
{
    match before_return(bytes) {
        Some(rest) => rest,
        None => bytes,
    }
}

/// The first line of a text, and what stands behind its line feed.
fn first_line(text: &[u8]) -> (&[u8], Option<&[u8]>)
    ensures lines { lines_of text.now ≡ result.0.now ∷ lines_left (option_map (λ t. t.now) result.1) }
    ensures shorter { bytes_left (option_map (λ t. t.now) result.1) < length text.now + 1 }
    ensures small { length result.0.now ≤ length text.now }
{
    match cut(text, b'\n') {
        Some((line, behind)) => (without_return(line), Some(behind)),
        None => (text, None),
    }
}

/// Stores the points of one line in a bucket: the fast way where the line is known.
fn load_line(
    alloc: Global,
    memo: &mut Memo,
    values: &mut Vec<i64>,
    line: &[u8],
    mode: LineMode,
    bucket: &Text,
    store: &mut Store,
) -> Result<(), LineStop>
    requires bytes { length line.now ≤ 67108864 }
    requires factor { IsTrue (is_factor mode.factor) }
    requires ready { IsReady store.old bucket.now }
    requires fits { FitsStore mode bucket.now (ids_of store.old) memo.old }
    ensures loads { (buckets : List (List ℕ)) (stored : List StoredPoint) → StandsFor store.old buckets stored → LineLoads mode buckets bucket.now line.now stored store.new result }
    ensures fits { OnOk result (FitsStore mode bucket.now (ids_of store.new) memo.new) }
{
    match load_known(memo, values, line, mode, bucket, store) {
        Ok(true) => Ok(()),
        Ok(false) => load_new(alloc, memo, line, mode, bucket, store),
        Err(_) => Err(LineStop::Memory),
    }
}

/// Stores the points of a line as it is read, and remembers the line.
fn load_new(
    alloc: Global,
    memo: &mut Memo,
    line: &[u8],
    mode: LineMode,
    bucket: &Text,
    store: &mut Store,
) -> Result<(), LineStop>
    requires bytes { length line.now ≤ 67108864 }
    requires factor { IsTrue (is_factor mode.factor) }
    requires ready { IsReady store.old bucket.now }
    requires fits { FitsStore mode bucket.now (ids_of store.old) memo.old }
    ensures loads { (buckets : List (List ℕ)) (stored : List StoredPoint) → StandsFor store.old buckets stored → LineLoads mode buckets bucket.now line.now stored store.new result }
    ensures fits { OnOk result (FitsStore mode bucket.now (ids_of store.new) memo.new) }
{
    match read_line(alloc, line, mode) {
        Ok(read) => {
            learn(
                alloc,
                memo,
                line,
                mode,
                read.points.as_slice(),
                bucket,
                store,
            );
            put_points(read.points.into_vec(), bucket, store)
        }
        Err(LineFault::Refused(error)) => Err(LineStop::Refused(LineCause::Form(error))),
        Err(LineFault::Memory) => Err(LineStop::Memory),
    }
}

/// Stores points in a bucket, one after another, up to the first that is refused.
fn put_points(mut points: Vec<Point>, bucket: &Text, store: &mut Store) -> Result<(), LineStop>
    requires lawful { All IsLawful points.items }
    requires ready { IsReady store.old bucket.now }
    ensures { (buckets : List (List ℕ)) (stored : List StoredPoint) → StandsFor store.old buckets stored → PointsLoad buckets bucket.now points.items stored store.new result }
{
    points.reverse();
    while let Some(point) = points.pop() {
        match put_point(point, bucket, store) {
            Ok(()) => {}
            Err(stop) => return Err(stop),
        }
    }
    Ok(())
}

/// Stores one point in a bucket.
fn put_point(point: Point, bucket: &Text, store: &mut Store) -> Result<(), LineStop>
    requires lawful { IsLawful point }
    requires ready { IsReady store.old bucket.now }
    ensures { (buckets : List (List ℕ)) (stored : List StoredPoint) → StandsFor store.old buckets stored → PointLoads buckets bucket.now point stored store.new result }
{
    if store.points() >= MOST_POINTS {
        return Err(LineStop::TooMany);
    }
    match store.put(bucket, point) {
        Ok(()) => Ok(()),
        Err(PutFault::KindConflict { old, new, .. }) => {
            Err(LineStop::Refused(LineCause::KindConflict { old, new }))
        }
        Err(PutFault::NoBucket) => unreachable!(),
        Err(PutFault::Memory) => Err(LineStop::Memory),
    }
}
