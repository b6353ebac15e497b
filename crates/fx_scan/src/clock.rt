//! The time at the front of a text.
ghost use Rattle.std.specs.Prelude.{◌≡◌, ◌≤◌, length};
ghost use Rattle.fx_scan.specs.Readers as spec;

use crate::bytes::{begins_byte, begins_name_byte, digits_len, front, past};
use fx_time::read_time;

/// How long the fraction of a second is with its dot, or 0 where there is no dot.
fn fraction_len(s: &[u8]) -> usize
    ensures value { result ≡ spec.fraction_len s.now }
    ensures within { result ≤ length s.now }
{
    if begins_byte(b'.', s) {
        1 + digits_len(past(s, 1))
    } else {
        0
    }
}

/// How long a zone is: `Z`, or as `+05:30`.
fn zone_len(s: &[u8]) -> usize
    ensures { result ≡ spec.zone_len s.now }
{
    if begins_byte(b'Z', s) { 1 } else { 6 }
}

/// How long a time is at the front, where there is one.
fn len_by_form(s: &[u8]) -> usize
    ensures { result ≡ spec.time_len s.now }
{
    if !begins_byte(b'T', past(s, 10)) {
        return 10;
    }
    let second = 19 + fraction_len(past(s, 19));
    second + zone_len(past(s, second))
}

/// The length of the time at the front, or None where no time stands there.
pub(crate) fn time_len(s: &[u8]) -> Option<usize>
    ensures { spec.IsTimeLen s.now result }
{
    let len = len_by_form(s);
    if s.len() < len || begins_name_byte(past(s, len)) {
        return None;
    }
    match read_time(front(s, len)) {
        Some(_) => Some(len),
        None => None,
    }
}
