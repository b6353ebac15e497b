ghost use Rattle.std.specs.Prelude.{◌≡◌, ◌++◌, IfOk, OnOk};
ghost use Rattle.std.specs.Option.{option_map};
ghost use Rattle.fx_time.specs.Windows.{IsWindowPair};
ghost use Rattle.fx_window.specs.Plain.{AreLabels, IsFrame, time_in, stand_in, placed_all};
ghost use Rattle.fx_window.specs.Standing.{placed_by};

use fx_base::{List, Memory, Text};
use fx_time::Span;
use fx_value::{Row, Scalar};
use std::alloc::Global;

/// The labels of the times that place rows in windows.
#[derive(Drop)]
pub(crate) struct Labels {
    pub time: Text,
    pub start: Text,
    pub stop: Text,
}

/// The lengths of windows, and these labels.
#[derive(Drop)]
pub(crate) struct Frame {
    pub every: Span,
    pub period: Span,
    pub labels: Labels,
}

/// The time of a row, and the bounds between which its windows lie, in nanoseconds since 1970.
#[derive(Clone, Copy)]
pub(crate) struct Stand {
    pub time: i64,
    pub low: i64,
    pub high: i64,
}

/// A row with its times.
#[derive(Drop)]
pub(crate) struct Placed {
    pub at: Stand,
    pub row: Row,
}

pub(crate) fn engine_labels(alloc: Global) -> Result<Labels, Memory>
    ensures { IfOk result AreLabels }
{
    Ok(Labels {
        time: Text::of(alloc, "_time")?,
        start: Text::of(alloc, "_start")?,
        stop: Text::of(alloc, "_stop")?,
    })
}

pub(crate) fn frame_of(alloc: Global, every: Span, period: Span) -> Result<Frame, Memory>
    requires { IsWindowPair every period }
    ensures frame { IfOk result IsFrame }
    ensures every { IfOk result (λ f. f.every ≡ every) }
    ensures period { IfOk result (λ f. f.period ≡ period) }
{
    Ok(Frame {
        every,
        period,
        labels: engine_labels(alloc)?,
    })
}

fn time_in(value: Option<&Scalar>) -> Option<i64>
    ensures { result ≡ time_in (option_map (λ v. v.now) value.entry) }
{
    match value {
        Some(Scalar::Time(time)) => Some(*time),
        _ => None,
    }
}

/// Where rows had the three times.
#[derive(Drop)]
struct Places {
    time: usize,
    start: usize,
    stop: usize,
}

/// The three times of the row, where it has all of them.
fn stand_in(labels: &Labels, places: &mut Places, row: &Row) -> Option<Stand>
    requires { AreLabels labels.now }
    ensures { result ≡ stand_in row.now }
{
    let time = time_in(row.get_near(&labels.time, &mut places.time));
    let low = time_in(row.get_near(&labels.start, &mut places.start));
    let high = time_in(row.get_near(&labels.stop, &mut places.stop));
    match (time, low, high) {
        (Some(time), Some(low), Some(high)) => Some(Stand { time, low, high }),
        _ => None,
    }
}

fn push_placed(placed: &mut Vec<Placed>, at: Option<Stand>, row: Row) -> Result<(), Memory>
    ensures { OnOk result (placed.new.items ≡ placed.old.items ++ placed_by row at) }
{
    match at {
        None => {}
        Some(at) => placed.push(Placed { at, row })?,
    }
    Ok(())
}

/// The rows that have all three times, each with these.
pub(crate) fn place_rows(
    alloc: Global,
    labels: &Labels,
    rows: List<Row>,
) -> Result<Vec<Placed>, Memory>
    requires { AreLabels labels.now }
    ensures { IfOk result (λ v. v.items ≡ placed_all rows) }
{
    let mut placed = Vec::new(alloc);
    let mut places = Places {
        time: 0,
        start: 0,
        stop: 0,
    };
    for row in rows.into_vec() {
        let at = stand_in(labels, &mut places, &row);
        push_placed(&mut placed, at, row)?;
    }
    Ok(placed)
}
