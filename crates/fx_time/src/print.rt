ghost use Rattle.std.specs.Prelude.{◌≡◌, ◌++◌, IfOk, OnOk, OnErr};
ghost use Rattle.fx_time.specs.Time.{time_text};

use arrayvec::ArrayString;
use fx_base::{Memory, Text};
use jiff_core::Timestamp;
use jiff_fmt::temporal::DateTimePrinter;
use std::alloc::Global;

/// The text of a time, `2024-06-19T17:30:05.25Z`.
pub fn print_time(alloc: Global, t: i64) -> Result<Text, Memory>
    ensures { IfOk result (λ s. s ≡ time_text t) }
{
    Text::of(alloc, stamp(t).as_str())
}

/// Adds the text of a time at the end, for a caller that prints many; a refusal leaves what was
/// there.
pub fn push_time(out: &mut Vec<u8>, t: i64) -> Result<(), Memory>
    ensures ok { OnOk result (out.new.items ≡ out.old.items ++ time_text t) }
    ensures err { OnErr result (out.new.items ≡ out.old.items) }
{
    out.extend_from_slice(stamp(t).as_str().as_bytes())?;
    Ok(())
}

pub(crate) fn stamp(t: i64) -> ArrayString<33>
    ensures { result.bytes ≡ time_text t }
{
    let stamp = Timestamp::from_nanosecond(t as i128).unwrap();
    DateTimePrinter::new().timestamp_text(stamp)
}
