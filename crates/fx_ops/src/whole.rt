ghost use Rattle.std.specs.Prelude.{◌≢◌, IfOk, IsTrue, neg_ℤ, ◌+ℤ◌, ◌-ℤ◌, ◌*ℤ◌, Ok, Err};
ghost use Rattle.fx_value.specs.declared.scalar.Kind.TheVariants as kind;
ghost use Rattle.fx_ops.specs.Answer.{Gives};
ghost use Rattle.fx_ops.specs.Kinds.{in_range, is_kind};
ghost use Rattle.fx_ops.specs.declared.fault.OpFault.TheVariants.{Memory};
ghost use Rattle.fx_ops.specs.Whole.{whole, quotient, remainder, negation, takes_sign};

use crate::fault::OpFault;
use crate::kinds::see_whole;
use fx_base::FaultKind;
use fx_value::Scalar;

pub fn plus(a: i64, b: i64) -> Result<Scalar, OpFault>
    ensures answer { Gives (whole (a +ℤ b)) result }
    ensures memory { result ≢ Err Memory }
{
    match a.checked_add(b) {
        Some(n) => Ok(Scalar::Int(n)),
        None => Err(OpFault::Kind(FaultKind::Overflow)),
    }
}

pub fn minus(a: i64, b: i64) -> Result<Scalar, OpFault>
    ensures answer { Gives (whole (a -ℤ b)) result }
    ensures memory { result ≢ Err Memory }
{
    match a.checked_sub(b) {
        Some(n) => Ok(Scalar::Int(n)),
        None => Err(OpFault::Kind(FaultKind::Overflow)),
    }
}

pub fn over(a: i64, b: i64) -> Result<Scalar, OpFault>
    ensures answer { Gives (quotient a b) result }
    ensures memory { result ≢ Err Memory }
{
    if b == 0 {
        return Err(OpFault::Kind(FaultKind::DivideByZero));
    }
    match a.checked_div(b) {
        Some(n) => Ok(Scalar::Int(n)),
        None => Err(OpFault::Kind(FaultKind::Overflow)),
    }
}

pub fn rest(a: i64, b: i64) -> Result<Scalar, OpFault>
    ensures answer { Gives (remainder a b) result }
    ensures memory { result ≢ Err Memory }
{
    if b == 0 {
        return Err(OpFault::Kind(FaultKind::DivideByZero));
    }
    Ok(Scalar::Int(a.wrapping_rem(b)))
}

pub fn times(a: i64, b: i64) -> Result<Scalar, OpFault>
    ensures answer { Gives (whole (a *ℤ b)) result }
    ensures memory { result ≢ Err Memory }
{
    match a.checked_mul(b) {
        Some(n) => Ok(Scalar::Int(n)),
        None => Err(OpFault::Kind(FaultKind::Overflow)),
    }
}

/// The negated integer, or null for null.
pub fn negate(a: &Scalar) -> Result<Scalar, OpFault>
    requires { IsTrue (takes_sign a.now) }
    ensures answer { Gives (negation a.now) result }
    ensures kind { IfOk result (λ value. IsTrue (is_kind value kind.Int)) }
    ensures range { IfOk result (λ value. IsTrue (in_range value)) }
    ensures memory { result ≢ Err Memory }
{
    let value = negated(a)?;
    see_whole(&value);
    Ok(value)
}

fn negated(a: &Scalar) -> Result<Scalar, OpFault>
    requires { IsTrue (takes_sign a.now) }
    ensures answer { Gives (negation a.now) result }
    ensures memory { result ≢ Err Memory }
{
    match a {
        Scalar::Null => Ok(Scalar::Null),
        Scalar::Int(n) => minus_of(*n),
        Scalar::Bool(_) | Scalar::Text(_) | Scalar::Time(_) => unreachable!(),
    }
}

fn minus_of(n: i64) -> Result<Scalar, OpFault>
    ensures answer { Gives (whole (neg_ℤ n)) result }
    ensures memory { result ≢ Err Memory }
{
    match n.checked_neg() {
        Some(n) => Ok(Scalar::Int(n)),
        None => Err(OpFault::Kind(FaultKind::Overflow)),
    }
}
