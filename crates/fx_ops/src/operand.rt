ghost use Rattle.std.specs.Prelude.{◌≡◌};
ghost use Rattle.fx_ops.specs.Operand.{number, bytes};

use fx_value::Scalar;

/// The number of an integer or of a time, and 0 of any other operand.
pub fn number(operand: &Scalar) -> i64
    ensures { result ≡ number operand.now }
{
    match operand {
        Scalar::Int(n) => *n,
        Scalar::Time(t) => *t,
        Scalar::Null | Scalar::Bool(_) | Scalar::Text(_) => 0,
    }
}

/// The text of a text, and the empty one of any other operand.
pub fn text(operand: &Scalar) -> &str
    ensures { result.now ≡ bytes operand.now }
{
    match operand {
        Scalar::Text(text) => text.as_str(),
        Scalar::Null | Scalar::Bool(_) | Scalar::Int(_) | Scalar::Time(_) => "",
    }
}
