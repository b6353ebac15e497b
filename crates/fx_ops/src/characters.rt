ghost use Rattle.std.specs.Prelude.{◌≡◌, ◌≢◌, ◌≤◌, nat_le, if◌then◌else◌, length, drop, Some, None, Err};
ghost use Rattle.std.specs.Option.{option_map};
ghost use Rattle.std.specs.Str.{chars, encode_utf8_all};
ghost use Rattle.fx_ops.specs.Answer.{Gives};
ghost use Rattle.fx_ops.specs.Call.{strlen, cut};
ghost use Rattle.fx_ops.specs.Texts.{between, substring};
ghost use Rattle.fx_ops.specs.declared.fault.OpFault.TheVariants.{Memory};

use crate::arguments::{int_at, text_at};
use crate::fault::OpFault;
use crate::limit::limited;
use fx_base::FaultKind;
use fx_value::Scalar;
use std::alloc::Global;

/// The number of characters.
pub fn strlen(args: &[Scalar]) -> Result<Scalar, OpFault>
    ensures answer { Gives (strlen args.now) result }
    ensures memory { result ≢ Err Memory }
{
    match text_at(args, 0) {
        Some(text) => Ok(Scalar::Int(text.as_str().chars().count() as i64)),
        None => Ok(Scalar::Null),
    }
}

/// The characters from one place up to another, or IndexRange where there are none.
pub fn substring(alloc: Global, args: &[Scalar]) -> Result<Scalar, OpFault>
    ensures { Gives (cut args.now) result }
{
    let Some(text) = text_at(args, 0) else {
        return Ok(Scalar::Null);
    };
    let Some(from) = int_at(args, 1) else {
        return Ok(Scalar::Null);
    };
    let Some(to) = int_at(args, 2) else {
        return Ok(Scalar::Null);
    };
    between(alloc, text.as_str(), from, to)
}

fn between(alloc: Global, text: &str, from: i64, to: i64) -> Result<Scalar, OpFault>
    ensures { Gives (substring text.now from to) result }
{
    if from < 0 || to < from {
        return Err(OpFault::Kind(FaultKind::IndexRange));
    }
    match piece(text, from as u64, to as u64) {
        Some(piece) => limited(alloc, piece),
        None => Err(OpFault::Kind(FaultKind::IndexRange)),
    }
}

fn piece(text: &str, from: u64, to: u64) -> Option<&str>
    requires { from ≤ to }
    ensures { option_map (λ piece. piece.now) result ≡ (if nat_le to (length (chars text.now)) then Some (between from to text.now) else None) }
{
    let after = past(text, to)?;
    let tail = past(text, from)?;
    Some(&tail[..tail.len() - after.len()])
}

/// What follows so many characters, or None where there are fewer.
fn past(text: &str, count: u64) -> Option<&str>
    ensures { option_map (λ rest. rest.now) result ≡ (if nat_le count (length (chars text.now)) then Some (encode_utf8_all (drop count (chars text.now))) else None) }
{
    let mut rest = text.chars();
    for place in 0..count {
        rest.next()?;
    }
    Some(rest.as_str())
}
