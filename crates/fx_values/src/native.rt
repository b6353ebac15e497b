//! Calls of all functions that the language has by itself.
ghost use Rattle.std.specs.Prelude.{map};
ghost use Rattle.fx_meaning.specs.Natives.{native_call};
ghost use Rattle.fx_values.specs.Shape.{slot, slots_of, val};
ghost use Rattle.fx_values.specs.Told.{Tells};

use crate::natives::{contains_of, convert_of, length_of, split_of};
use crate::scalars::scalar_call;
use crate::stop::Stop;
use crate::streams::stream_call;
use crate::value::{Slot, Value};
use fx_base::Place;
use fx_meaning::Native;
use fx_value::Scalar;
use std::alloc::Global;

/// What a function of the language gives. The place is that of its faults, and the moment that of
/// the run.
pub fn native_call(
    alloc: Global,
    place: Place,
    moment: i64,
    args: &[Slot],
    which: Native,
) -> Result<Value, Stop>
    ensures { Tells val (native_call place moment (slots_of (map slot args.now)) which) result }
{
    match which {
        Native::Now => Ok(Value::Cell(Scalar::Time(moment))),
        Native::Convert(kind) => convert_of(alloc, place, kind, args),
        Native::Length => length_of(place, args),
        Native::Contains => contains_of(alloc, args),
        Native::Split => split_of(alloc, place, args),
        Native::Scalar(which) => scalar_call(alloc, place, which, args),
        Native::Stream(which) => stream_call(alloc, place, moment, which, args),
    }
}
