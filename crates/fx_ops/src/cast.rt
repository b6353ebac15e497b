ghost use Rattle.std.specs.Prelude.{◌≡◌, ◌↔◌, IsTrue, IfOk, ℤ, Some, Ok, Err};
ghost use Rattle.std.specs.Fmt.{signed_decimal};
ghost use Rattle.fx_base.specs.declared.fault.FaultKind.TheVariants.{BadConversion};
ghost use Rattle.fx_time.specs.Time.{time_text};
ghost use Rattle.fx_time.specs.Value.{time_value};
ghost use Rattle.fx_value.specs.declared.scalar.Kind.TheVariants as kind;
ghost use Rattle.fx_value.specs.declared.scalar.Scalar.TheVariants as scalar;
ghost use Rattle.fx_ops.specs.Answer.{Gives};
ghost use Rattle.fx_ops.specs.declared.fault.OpFault.TheVariants as fault;
ghost use Rattle.fx_ops.specs.Convert.{is_convertible, converted, int_value, IsIntText, read, to_bool, to_int, to_text, to_time, bool_text, flag, named_flag};
ghost use Rattle.fx_ops.specs.Limit.{limited};
ghost use Rattle.fx_ops.specs.Kinds.{in_range, is_kind};

use crate::fault::OpFault;
use crate::kinds::see_whole;
use crate::limit::kept;
use fx_base::{FaultKind, Text};
use fx_time::{print_time, read_time};
use fx_value::{Kind, Scalar};
use std::alloc::Global;

/// The value as one of another kind, null for null. A text that is none of that kind, and an
/// integer other than 0 and 1 that is to be a Boolean, are BadConversion.
pub fn convert(alloc: Global, to: Kind, a: &Scalar) -> Result<Scalar, OpFault>
    requires { IsTrue (is_convertible to a.now) }
    ensures answer { Gives (converted to a.now) result }
    ensures kind { IfOk result (λ value. IsTrue (is_kind value to)) }
    ensures range { IfOk result (λ value. IsTrue (in_range value)) }
{
    see_whole(a);
    let value = converted(alloc, to, a)?;
    see_whole(&value);
    Ok(value)
}

fn converted(alloc: Global, to: Kind, a: &Scalar) -> Result<Scalar, OpFault>
    requires { IsTrue (is_convertible to a.now) }
    ensures { Gives (converted to a.now) result }
{
    match to {
        Kind::Bool => to_bool(a),
        Kind::Int => to_int(a),
        Kind::Text => to_text(alloc, a),
        Kind::Time => to_time(a),
    }
}

fn bad() -> Result<Scalar, OpFault>
    ensures { result ≡ Err (fault.Kind BadConversion) }
{
    Err(OpFault::Kind(FaultKind::BadConversion))
}

fn to_bool(a: &Scalar) -> Result<Scalar, OpFault>
    requires { IsTrue (is_convertible kind.Bool a.now) }
    ensures { Gives (to_bool a.now) result }
{
    match a {
        Scalar::Null => Ok(Scalar::Null),
        Scalar::Bool(b) => Ok(Scalar::Bool(*b)),
        Scalar::Int(n) => flag(*n),
        Scalar::Text(text) => named_flag(text.as_str()),
        Scalar::Time(_) => unreachable!(),
    }
}

fn flag(n: i64) -> Result<Scalar, OpFault>
    ensures { Gives (flag n) result }
{
    if n == 1 {
        Ok(Scalar::Bool(true))
    } else if n == 0 {
        Ok(Scalar::Bool(false))
    } else {
        bad()
    }
}

fn named_flag(text: &str) -> Result<Scalar, OpFault>
    ensures { Gives (named_flag text.now) result }
{
    if text == "true" {
        Ok(Scalar::Bool(true))
    } else if text == "false" {
        Ok(Scalar::Bool(false))
    } else {
        bad()
    }
}

fn to_int(a: &Scalar) -> Result<Scalar, OpFault>
    ensures { Gives (to_int a.now) result }
{
    match a {
        Scalar::Null => Ok(Scalar::Null),
        Scalar::Bool(b) => Ok(Scalar::Int(if *b { 1 } else { 0 })),
        Scalar::Int(n) => Ok(Scalar::Int(*n)),
        Scalar::Text(text) => int_in(text.as_str()),
        Scalar::Time(t) => Ok(Scalar::Int(*t)),
    }
}

fn int_in(text: &str) -> Result<Scalar, OpFault>
    ensures { Gives (read scalar.Int (int_value text.now)) result }
{
    match read_int(text) {
        Some(n) => Ok(Scalar::Int(n)),
        None => bad(),
    }
}

/// The integer that the text writes: digits, behind a `-` if it has a sign.
fn read_int(text: &str) -> Option<i64>
    ensures { result ≡ int_value text.now }
{
    parsed(text)
}

fn parsed(text: &str) -> Option<i64>
    ensures { (n : ℤ) → IsIntText text.now n ↔ (result ≡ Some n) }
{
    if text.as_bytes().first() == Some(&b'+') {
        return None;
    }
    text.parse::<i64>().ok()
}

fn to_time(a: &Scalar) -> Result<Scalar, OpFault>
    requires { IsTrue (is_convertible kind.Time a.now) }
    ensures { Gives (to_time a.now) result }
{
    match a {
        Scalar::Null => Ok(Scalar::Null),
        Scalar::Int(n) => Ok(Scalar::Time(*n)),
        Scalar::Text(text) => time_in(text.as_str()),
        Scalar::Time(t) => Ok(Scalar::Time(*t)),
        Scalar::Bool(_) => unreachable!(),
    }
}

fn time_in(text: &str) -> Result<Scalar, OpFault>
    ensures { Gives (read scalar.Time (time_value text.now)) result }
{
    match read_time(text.as_bytes()) {
        Some(t) => Ok(Scalar::Time(t)),
        None => bad(),
    }
}

fn to_text(alloc: Global, a: &Scalar) -> Result<Scalar, OpFault>
    ensures { Gives (to_text a.now) result }
{
    match a {
        Scalar::Null => Ok(Scalar::Null),
        Scalar::Bool(b) => printed_bool(alloc, *b),
        Scalar::Int(n) => printed_int(alloc, *n),
        Scalar::Text(text) => kept(text),
        Scalar::Time(t) => printed_time(alloc, *t),
    }
}

fn printed_bool(alloc: Global, b: bool) -> Result<Scalar, OpFault>
    ensures { Gives (Ok (scalar.Text (bool_text b))) result }
{
    let text = if b { "true" } else { "false" };
    Ok(Scalar::Text(Text::of(alloc, text)?))
}

fn printed_int(alloc: Global, n: i64) -> Result<Scalar, OpFault>
    ensures { Gives (Ok (scalar.Text (signed_decimal n))) result }
{
    let text = format!(in alloc; "{n}")?;
    Ok(Scalar::Text(Text::of(alloc, text.as_str())?))
}

fn printed_time(alloc: Global, t: i64) -> Result<Scalar, OpFault>
    ensures { Gives (limited (time_text t)) result }
{
    kept(&print_time(alloc, t)?)
}
