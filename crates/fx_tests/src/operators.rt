//! Operators, conversions and functions on values: one answer of each call.
use fx_base::{List, Memory, Text};
use fx_ops::{
    BinaryOp, OpFault, ScalarFn, binary, convert, join_texts, negate, scalar_call, split_text,
};
use fx_time::Span;
use fx_value::{Kind, Scalar};
use std::alloc::Global;
use std::test::Fail;

/// An answer as its fault's name, or as its value.
fn shown(alloc: Global, answer: Result<Scalar, OpFault>) -> Result<String, Memory> {
    let shown = match answer {
        Ok(Scalar::Int(n)) => format!(in alloc; "{n}")?,
        Ok(Scalar::Text(text)) => format!(in alloc; "{}", text.as_str())?,
        Ok(_) => format!(in alloc; "another kind")?,
        Err(OpFault::Kind(kind)) => format!(in alloc; "{kind:?}")?,
        Err(OpFault::Memory) => format!(in alloc; "memory")?,
    };
    Ok(shown)
}

/// One text behind another.
fn added(alloc: Global, first: Text, second: Text) -> Result<Scalar, OpFault> {
    binary(
        alloc,
        BinaryOp::Add,
        &Scalar::Text(first),
        &Scalar::Text(second),
    )
}

/// A text as an integer.
fn whole(alloc: Global, text: Text) -> Result<Scalar, OpFault> {
    convert(alloc, Kind::Int, &Scalar::Text(text))
}

#[test]
fn values_are_put_together(rt: HostRuntime) -> Result<(), Fail> {
    let alloc = rt.alloc();
    let both = added(alloc, Text::of(alloc, "a")?, Text::of(alloc, "é")?);
    assert_eq!(rt; shown(alloc, both)?.as_str(), "aé");
    assert_eq!(rt; shown(alloc, negate(&Scalar::Int(5)))?.as_str(), "-5");
    let read = whole(alloc, Text::of(alloc, "-12")?);
    assert_eq!(rt; shown(alloc, read)?.as_str(), "-12");
    Ok(())
}

#[test]
fn texts_are_taken_apart(rt: HostRuntime) -> Result<(), Fail> {
    let alloc = rt.alloc();
    let mut args = List::empty(alloc);
    args.push(Scalar::Text(Text::of(alloc, "abc")?))?;
    args.push(Scalar::Int(1))?;
    args.push(Scalar::Int(3))?;
    let none = Span {
        months: 0,
        nanos: 0,
    };
    let cut = scalar_call(alloc, ScalarFn::Substring, &args, none);
    assert_eq!(rt; shown(alloc, cut)?.as_str(), "bc");
    let parts = split_text(alloc, &Text::of(alloc, "a,b,,")?, &Text::of(alloc, ",")?)?;
    assert_eq!(rt; parts.as_slice().len(), 4);
    let joined = join_texts(alloc, &parts);
    assert_eq!(rt; shown(alloc, joined)?.as_str(), "ab");
    Ok(())
}
