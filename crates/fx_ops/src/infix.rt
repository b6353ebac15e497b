ghost use Rattle.std.specs.Prelude.{◌≡◌, Some, IfOk, IsErrOf, IsTrue};
ghost use Rattle.fx_value.specs.Scalar.{kind_of};
ghost use Rattle.fx_value.specs.declared.scalar.Kind.{Kind};
ghost use Rattle.fx_value.specs.declared.scalar.Kind.TheVariants.{Text};
ghost use Rattle.fx_ops.specs.Answer.{Gives};
ghost use Rattle.fx_ops.specs.Binary.{answer_kind, binary_of, is_taken, worked};
ghost use Rattle.fx_ops.specs.Kinds.{in_range, is_kind};
ghost use Rattle.fx_ops.specs.declared.fault.OpFault.TheVariants.{Memory};
ghost use Rattle.fx_ops.specs.declared.operator.BinaryOp.TheVariants.{Add};
ghost use Rattle.fx_ops.specs.declared.work.Work.TheVariants.{Join};

use crate::fault::OpFault;
use crate::kinds::see_whole;
use crate::operand::{number, text};
use crate::operator::BinaryOp;
use crate::row::joined;
use crate::whole::{minus, over, plus, rest, times};
use crate::work::{Work, work_of};
use fx_value::{Scalar, scalar_order};
use std::alloc::Global;

/// The value of two operands under an operator, or its fault: null where one of them is null.
/// Integers outside 64 bits are Overflow, a zero divisor is DivideByZero, and a text of more than
/// 1,048,576 bytes is TooLarge. Only two texts that are added take memory.
pub fn binary(alloc: Global, which: BinaryOp, a: &Scalar, b: &Scalar) -> Result<Scalar, OpFault>
    requires { IsTrue (is_taken which a.now b.now) }
    ensures answer { Gives (binary_of which a.now b.now) result }
    ensures kind { (k : Kind) → IsTrue (is_kind a.now k) → IfOk result (λ value. IsTrue (is_kind value (answer_kind which k))) }
    ensures range { IfOk result (λ value. IsTrue (in_range value)) }
    ensures memory { IsErrOf result Memory → (which ≡ Add) × (kind_of a.now ≡ Some Text) × (kind_of b.now ≡ Some Text) }
{
    let value = operated(alloc, which, a, b)?;
    see_whole(&value);
    Ok(value)
}

fn operated(alloc: Global, which: BinaryOp, a: &Scalar, b: &Scalar) -> Result<Scalar, OpFault>
    requires { IsTrue (is_taken which a.now b.now) }
    ensures answer { Gives (binary_of which a.now b.now) result }
    ensures memory { IsErrOf result Memory → (which ≡ Add) × (kind_of a.now ≡ Some Text) × (kind_of b.now ≡ Some Text) }
{
    let Some(kind) = a.kind() else {
        return Ok(Scalar::Null);
    };
    if b.kind().is_none() {
        return Ok(Scalar::Null);
    }
    match work_of(which, kind) {
        Some(work) => worked(alloc, work, a, b),
        None => unreachable!(),
    }
}

fn worked(alloc: Global, work: Work, a: &Scalar, b: &Scalar) -> Result<Scalar, OpFault>
    ensures answer { Gives (worked work a.now b.now) result }
    ensures memory { IsErrOf result Memory → work ≡ Join }
{
    match work {
        Work::Plus => plus(number(a), number(b)),
        Work::Minus => minus(number(a), number(b)),
        Work::Times => times(number(a), number(b)),
        Work::Over => over(number(a), number(b)),
        Work::Rest => rest(number(a), number(b)),
        Work::Join => joined(alloc, text(a), text(b)),
        Work::Equal => Ok(Scalar::Bool(scalar_order(a, b).is_eq())),
        Work::Differ => Ok(Scalar::Bool(scalar_order(a, b).is_ne())),
        Work::Less => Ok(Scalar::Bool(scalar_order(a, b).is_lt())),
        Work::AtMost => Ok(Scalar::Bool(scalar_order(a, b).is_le())),
        Work::More => Ok(Scalar::Bool(scalar_order(a, b).is_gt())),
        Work::AtLeast => Ok(Scalar::Bool(scalar_order(a, b).is_ge())),
    }
}
