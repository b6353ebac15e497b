ghost use Rattle.std.specs.Prelude.{◌≡◌, ◌≢◌, map, length, if◌then◌else◌, [], IfOk, List as AnyList};
ghost use Rattle.std.specs.Int.{int_min, int_max};
ghost use Rattle.std.specs.List.{AllByRecursion};
ghost use Rattle.fx_time.specs.Windows.{IsWindow};
ghost use Rattle.fx_value.specs.Ends.{End, Gives, Stuck};
ghost use Rattle.fx_data.specs.Gathered.{grouped};
ghost use Rattle.fx_data.specs.Regrouped.{all_joined, bare};
ghost use Rattle.fx_data.specs.Table.{HasKey, HasRisingLabels, IsLawfulTable};
ghost use Rattle.fx_window.specs.Cut.{bounds_of, cut_of, windows_of, windows_between, window_key, within};
ghost use Rattle.fx_window.specs.Numbers.{numbers};
ghost use Rattle.fx_window.specs.Plain.{IsFrame, bounds_after, wider};
ghost use Rattle.fx_window.specs.Reaches.{AreNear};
ghost use Rattle.fx_window.specs.declared.cutting.CutTable.{CutTable as AnyCutTable};

use crate::batch::batches_of;
use crate::reach::Reach;
use crate::standing::{Frame, Placed, frame_of, place_rows};
use crate::windowing::{copies, push_batches, push_windows};
use fx_base::Memory;
use fx_data::{Key, Runs, Table, Tables};
use fx_time::{Span, windows_at};
use std::alloc::Global;

/// A table cut into windows: its bounds, in nanoseconds since 1970, and the windows between them,
/// with their own bounds in their rows and keys.
#[derive(Debug, Drop)]
pub struct CutTable {
    pub start: i64,
    pub stop: i64,
    pub windows: Tables,
}

/// The least start and the greatest stop of rows.
#[derive(Clone, Copy)]
pub(crate) struct Bounds {
    pub start: i64,
    pub stop: i64,
}

fn lesser(a: i64, b: i64) -> i64
    ensures { result ≡ int_min a b }
{
    if b < a { b } else { a }
}

fn greater(a: i64, b: i64) -> i64
    ensures { result ≡ int_max a b }
{
    if b < a { a } else { b }
}

/// The bounds, made wide enough for those of one more row.
fn wider(bounds: Option<Bounds>, placed: &Placed) -> Bounds
    ensures { result ≡ wider bounds placed.now }
{
    match bounds {
        None => Bounds {
            start: placed.at.low,
            stop: placed.at.high,
        },
        Some(bounds) => Bounds {
            start: lesser(bounds.start, placed.at.low),
            stop: greater(bounds.stop, placed.at.high),
        },
    }
}

pub(crate) fn bounds_of(placed: &[Placed]) -> Option<Bounds>
    ensures { result ≡ bounds_of placed.now }
{
    let mut bounds = None;
    for placed in placed {
        bounds = Some(wider(bounds, placed));
    }
    bounds
}

fn put_within(bounds: Bounds, placed: &mut Placed)
    ensures { placed.new ≡ within bounds placed.old }
{
    placed.at.low = bounds.start;
    placed.at.high = bounds.stop;
}

/// The rows with these bounds in place of their own.
fn all_within(bounds: Bounds, mut placed: Vec<Placed>) -> Vec<Placed>
    ensures { result.items ≡ map (within bounds) placed.items }
{
    for placed in placed.iter_mut() {
        put_within(bounds, placed);
    }
    placed
}

/// The windows that hold a moment between the bounds.
fn reach_between(bounds: Bounds, every: Span) -> Reach
    requires { IsWindow every }
    ensures numbers { numbers result.first result.next ≡ windows_between every bounds }
    ensures near { AreNear every every result }
    ensures low { result.low ≡ bounds.start }
    ensures high { result.high ≡ bounds.stop }
{
    let Bounds { start, stop } = bounds;
    if stop <= start {
        return Reach {
            first: 0,
            next: 0,
            low: start,
            high: stop,
        };
    }
    let (first, _) = windows_at(start, every, every);
    let (_, next) = windows_at(stop - 1, every, every);
    Reach {
        first,
        next,
        low: start,
        high: stop,
    }
}

/// Puts windows without rows behind the runs, where they are wanted.
fn push_empty(
    alloc: Global,
    runs: Runs,
    frame: &Frame,
    bounds: Bounds,
    key: &Key,
    wanted: bool,
) -> Result<Runs, Memory>
    requires frame { IsFrame frame.now }
    requires same { frame.now.period ≡ frame.now.every }
    requires rising { HasRisingLabels key.now }
    ensures { IfOk result (λ r. r ≡ all_joined runs (map bare (if wanted then map (window_key frame.now.every bounds key.now) (windows_between frame.now.every bounds) else []))) }
{
    if !wanted {
        return Ok(runs);
    }
    let reach = reach_between(bounds, frame.every);
    push_windows(alloc, runs, frame, reach, key, &[])
}

/// The windows of rows between bounds.
fn windows_within(
    alloc: Global,
    frame: &Frame,
    bounds: Bounds,
    key: &Key,
    placed: Vec<Placed>,
    create_empty: bool,
) -> Result<Tables, Memory>
    requires frame { IsFrame frame.now }
    requires same { frame.now.period ≡ frame.now.every }
    requires rising { HasRisingLabels key.now }
    requires columns { AllByRecursion (λ p. HasKey key.now.entries p.row) placed.items }
    ensures { IfOk result (λ t. t ≡ windows_of frame.now.every create_empty bounds key.now placed.items) }
{
    let placed = all_within(bounds, placed);
    let batches = batches_of(alloc, frame, placed)?;
    let runs = push_batches(alloc, Runs::empty(alloc), frame, key, batches)?;
    let runs = push_empty(alloc, runs, frame, bounds, key, create_empty)?;
    runs.into_tables(alloc)
}

/// The table cut into windows of this length. Its bounds are the least `_start` and the greatest
/// `_stop` of rows that have a `_time` too; the others go. With `create_empty` each window between
/// the bounds is there, also without rows.
pub fn cut(
    alloc: Global,
    table: &Table,
    every: Span,
    create_empty: bool,
) -> Result<CutTable, Memory>
    requires window { IsWindow every }
    requires lawful { IsLawfulTable table.now }
    requires unstuck { ◌≢◌ {A = End AnyCutTable} (cut_of every create_empty table.now) Stuck }
    ensures { IfOk result (λ parts. cut_of every create_empty table.now ≡ Gives parts 0) }
{
    let frame = frame_of(alloc, every, every)?;
    let rows = copies(alloc, table.rows.as_slice())?;
    let placed = place_rows(alloc, &frame.labels, rows)?;
    match bounds_of(placed.as_slice()) {
        None => Ok(CutTable {
            start: 0,
            stop: 0,
            windows: Tables::empty(alloc),
        }),
        Some(bounds) => {
            let windows = windows_within(alloc, &frame, bounds, &table.key, placed, create_empty)?;
            Ok(CutTable {
                start: bounds.start,
                stop: bounds.stop,
                windows,
            })
        }
    }
}
