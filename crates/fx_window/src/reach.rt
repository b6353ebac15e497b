ghost use Rattle.std.specs.Prelude.{◌≡◌, ◌^◌, ◌-◌, ℤ, pos, neg_ℤ, ◌≤ℤ◌, IfSome, IsTrue};
ghost use Rattle.std.specs.Int.{int_min, int_max};
ghost use Rattle.fx_time.specs.Windows.{IsNear, IsWindowPair};
ghost use Rattle.fx_data.specs.declared.key.Key.{Key as AnyKey};
ghost use Rattle.fx_group.specs.Answer.{Row as AnyRow};
ghost use Rattle.fx_window.specs.Clip.{raised, lowered};
ghost use Rattle.fx_window.specs.Reaches.{AreApart, AreNear, copies_by};
ghost use Rattle.fx_window.specs.Window.{copies};

use crate::standing::Stand;
use fx_time::{Span, window_bounds, windows_at};

/// The windows from the first number on and below the next, between two bounds, in nanoseconds
/// since 1970.
#[derive(Clone, Copy, PartialEq, Eq)]
pub(crate) struct Reach {
    pub first: i128,
    pub next: i128,
    pub low: i64,
    pub high: i64,
}

/// The windows to which a row with these times goes, or None where its time doesn't lie between the
/// bounds.
pub(crate) fn reach_of(at: Stand, every: Span, period: Span) -> Option<Reach>
    requires { IsWindowPair every period }
    ensures rows { (key : AnyKey) (row : AnyRow) → copies every period key (record { at = at; row = row }) ≡ copies_by every period result key row }
    ensures near { IfSome result (AreNear every period) }
{
    if at.time < at.low || at.high <= at.time {
        return None;
    }
    let (first, next) = windows_at(at.time, every, period);
    Some(Reach {
        first,
        next,
        low: at.low,
        high: at.high,
    })
}

fn raised(low: i64, start: i128) -> i64
    requires { start ≤ℤ pos (2 ^ 63 - 1) }
    ensures { result ≡ int_max low start }
{
    if start < low as i128 {
        low
    } else {
        start as i64
    }
}

fn lowered(high: i64, stop: i128) -> i64
    requires { neg_ℤ (pos (2 ^ 63)) ≤ℤ stop }
    ensures { result ≡ int_min high stop }
{
    if stop < high as i128 {
        stop as i64
    } else {
        high
    }
}

/// The start and the stop of window `k` between the bounds.
pub(crate) fn clipped(reach: Reach, every: Span, period: Span, k: i128) -> (i64, i64)
    requires pair { IsWindowPair every period }
    requires near { IsNear every period k }
    ensures start { result.0 ≡ raised every reach.low k }
    ensures stop { result.1 ≡ lowered every period reach.high k }
{
    let (start, stop) = window_bounds(k, every, period);
    (raised(reach.low, start), lowered(reach.high, stop))
}

/// Whether no two of the windows are clipped to the same bounds; false says nothing.
pub(crate) fn are_apart(reach: Reach, every: Span, period: Span) -> bool
    requires pair { IsWindowPair every period }
    requires near { AreNear every period reach }
    ensures { IsTrue result → AreApart every period reach }
{
    if reach.next <= reach.first || reach.next - 1 <= reach.first {
        return true;
    }
    let (start, _) = window_bounds(reach.first + 1, every, period);
    let (_, stop) = window_bounds(reach.next - 2, every, period);
    (reach.low as i128) < start || stop < reach.high as i128
}
