ghost use Rattle.fx_ops.specs.Answer.{Gives};
ghost use Rattle.fx_ops.specs.Limit.{limited};

use crate::fault::OpFault;
use fx_base::{FaultKind, Text};
use fx_value::Scalar;
use std::alloc::Global;

/// The most bytes of a text.
pub const MOST: usize = 1_048_576;

/// The text, or TooLarge where it has more than 1,048,576 bytes.
pub fn limited(alloc: Global, text: &str) -> Result<Scalar, OpFault>
    ensures { Gives (limited text.now) result }
{
    if text.len() > MOST {
        return Err(OpFault::Kind(FaultKind::TooLarge));
    }
    Ok(Scalar::Text(Text::of(alloc, text)?))
}

/// The text itself, or TooLarge.
pub fn kept(text: &Text) -> Result<Scalar, OpFault>
    ensures { Gives (limited text.now) result }
{
    if text.as_str().len() > MOST {
        return Err(OpFault::Kind(FaultKind::TooLarge));
    }
    Ok(Scalar::Text(text.copy()?))
}
