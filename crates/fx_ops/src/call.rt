ghost use Rattle.std.specs.Prelude.{IfOk, IsTrue, IsErrOf};
ghost use Rattle.fx_ops.specs.Answer.{Gives};
ghost use Rattle.fx_ops.specs.Call.{called, makes_text};
ghost use Rattle.fx_ops.specs.Kinds.{in_range, is_kind};
ghost use Rattle.fx_ops.specs.Signatures.{called_kind};
ghost use Rattle.fx_ops.specs.declared.fault.OpFault.TheVariants.{Memory};

use crate::characters::{strlen, substring};
use crate::dates::{Field, add, field_of, sub, truncate};
use crate::fault::OpFault;
use crate::function::ScalarFn;
use crate::kinds::see_whole;
use crate::texts::{
    contains_str, has_prefix, has_suffix, join_str, repeat, replace_all, trim_prefix, trim_suffix,
};
use fx_base::List;
use fx_time::Span;
use fx_value::Scalar;
use std::alloc::Global;

/// The value of a call, or its fault. The arguments stand in the order of the language's own, the
/// separator of `joinStr` before the texts; a span is no argument here and is read by `Truncate`,
/// `Add` and `Sub` alone. It is null where an argument is null. Only functions that give texts
/// take memory.
pub fn scalar_call(
    alloc: Global,
    which: ScalarFn,
    args: &List<Scalar>,
    span: Span,
) -> Result<Scalar, OpFault>
    ensures answer { Gives (called which args.now span) result }
    ensures kind { IfOk result (λ value. IsTrue (is_kind value (called_kind which))) }
    ensures range { IfOk result (λ value. IsTrue (in_range value)) }
    ensures memory { IsErrOf result Memory → IsTrue (makes_text which) }
{
    let value = called(alloc, which, args.as_slice(), span)?;
    see_whole(&value);
    Ok(value)
}

fn called(alloc: Global, which: ScalarFn, args: &[Scalar], span: Span) -> Result<Scalar, OpFault>
    ensures answer { Gives (called which args.now span) result }
    ensures memory { IsErrOf result Memory → IsTrue (makes_text which) }
{
    match which {
        ScalarFn::ContainsStr => contains_str(args),
        ScalarFn::HasPrefix => has_prefix(args),
        ScalarFn::HasSuffix => has_suffix(args),
        ScalarFn::Strlen => strlen(args),
        ScalarFn::Substring => substring(alloc, args),
        ScalarFn::TrimPrefix => trim_prefix(alloc, args),
        ScalarFn::TrimSuffix => trim_suffix(alloc, args),
        ScalarFn::ReplaceAll => replace_all(alloc, args),
        ScalarFn::JoinStr => join_str(alloc, args),
        ScalarFn::Repeat => repeat(alloc, args),
        ScalarFn::Year => field_of(args, Field::Year),
        ScalarFn::Month => field_of(args, Field::Month),
        ScalarFn::MonthDay => field_of(args, Field::MonthDay),
        ScalarFn::YearDay => field_of(args, Field::YearDay),
        ScalarFn::WeekDay => field_of(args, Field::WeekDay),
        ScalarFn::Hour => field_of(args, Field::Hour),
        ScalarFn::Minute => field_of(args, Field::Minute),
        ScalarFn::Second => field_of(args, Field::Second),
        ScalarFn::Nanosecond => field_of(args, Field::Nanosecond),
        ScalarFn::Truncate => truncate(args, span),
        ScalarFn::Add => add(args, span),
        ScalarFn::Sub => sub(args, span),
    }
}
