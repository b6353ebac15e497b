//! Integers and times lie in 64 bits, as their types say: these calls do nothing but tell it.
ghost use Rattle.std.specs.Prelude.{IsTrue};
ghost use Rattle.fx_ops.specs.Kinds.{is_whole};
ghost use Rattle.fx_ops.specs.Whole.{in_64_bits};

use fx_value::Scalar;

pub fn see_whole(value: &Scalar)
    ensures { IsTrue (is_whole value.now) }
{
    match value {
        Scalar::Int(n) => see_in_64_bits(*n),
        Scalar::Time(t) => see_in_64_bits(*t),
        Scalar::Null | Scalar::Bool(_) | Scalar::Text(_) => (),
    }
}

fn see_in_64_bits(n: i64)
    ensures { IsTrue (in_64_bits n) }
{}
