//! Types of built-ins, and terms made equal.
use fx_base::{Boxed, List, Memory, Text};
use fx_generalize::Solved;
use fx_schemes::{BuiltinType, Form, LabelWords, builtin, form_of, scheme_at};
use fx_types::{FieldTy, LabelField, Rest, RowTy, Ty};
use fx_unify::{Bindings, UnifyFault, unify};
use fx_value::Kind;
use std::alloc::Global;
use std::test::Fail;

/// A record with one field over the row of this number.
fn with_field(alloc: Global, label: &str, ty: Ty, row: u32) -> Result<Ty, Memory> {
    let mut fields = List::empty(alloc);
    fields.push(LabelField {
        label: Text::of(alloc, label)?,
        field: FieldTy::Is(ty),
    })?;
    let rest = Rest::Var(row);
    Ok(Ty::Rec(Boxed::new(alloc, RowTy { fields, rest })?))
}

/// The bindings under which the two are equal; None where there are none.
fn made_equal(
    alloc: Global,
    bindings: Bindings,
    a: &Ty,
    b: &Ty,
) -> Result<Option<Bindings>, Memory> {
    match unify(alloc, bindings, a, b) {
        Ok(bindings) => Ok(Some(bindings)),
        Err(UnifyFault::Clash) => Ok(None),
        Err(UnifyFault::Memory) => Err(Memory),
    }
}

#[test]
fn terms_are_made_equal(rt: HostRuntime) -> Result<(), Fail> {
    let alloc = rt.alloc();
    let left = with_field(alloc, "a", Ty::Int, 0)?;
    let right = with_field(alloc, "a", Ty::Var(7), 1)?;
    let bindings = Bindings::empty(alloc)?;
    let bindings = made_equal(alloc, bindings, &left, &right)?.expect(&rt, "they can be equal");
    let mut kinds = List::empty(alloc);
    kinds.push(Kind::Int)?;
    let bindings = bindings.bound(alloc, 7, &kinds, false)?;
    let bindings = bindings.fits(alloc, &left)?;
    assert_eq!(rt; bindings.unused(1), Some(8));
    let put_in = bindings.apply(alloc, &Ty::Var(7))?;
    assert_eq!(rt; put_in.copy(alloc)?.size(), 1);
    let inside = Ty::Array(Boxed::new(alloc, Ty::Var(9))?);
    assert!(rt; made_equal(alloc, bindings, &Ty::Var(9), &inside)?.is_none());
    Ok(())
}

#[test]
fn a_type_is_kept_and_used(rt: HostRuntime) -> Result<(), Fail> {
    let alloc = rt.alloc();
    let list = Ty::Array(Boxed::new(alloc, Ty::Var(7))?);
    let bindings = Bindings::empty(alloc)?;
    let bindings = bindings.fits_later(alloc, &list)?.settle(alloc)?;
    let kept = Solved::of(alloc, &bindings, &list)?;
    assert_eq!(rt; kept.also.as_slice().len(), 1);
    assert_eq!(rt; kept.bounds.as_slice().len(), 0);
    assert_eq!(rt; kept.vars, 1);
    let first = bindings.unused(1).expect(&rt, "there are numbers");
    let using = kept.used(alloc, bindings, first)?;
    let bindings = using.bindings.later(alloc, &using.ty, &list)?;
    let bindings = bindings.settle(alloc)?;
    assert_eq!(rt; bindings.unused(1), Some(9));
    Ok(())
}

/// The line of a built-in without a package, at the words of one label argument.
fn at_words(
    alloc: Global,
    name: &str,
    label: &str,
    word: &str,
) -> Result<Option<BuiltinType>, Fail> {
    let mut words = List::empty(alloc);
    words.push(Text::of(alloc, word)?)?;
    let mut given = List::empty(alloc);
    given.push(LabelWords {
        label: Text::of(alloc, label)?,
        words,
        news: List::empty(alloc),
    })?;
    match builtin(&Text::of(alloc, "")?, &Text::of(alloc, name)?) {
        Some(id) => Ok(scheme_at(alloc, id, &given)?),
        None => Ok(None),
    }
}

/// How a call of the built-in without a package writes the label argument.
fn form(alloc: Global, name: &str, label: &str) -> Result<Option<Form>, Fail> {
    match builtin(&Text::of(alloc, "")?, &Text::of(alloc, name)?) {
        Some(id) => Ok(form_of(id, &Text::of(alloc, label)?)),
        None => Ok(None),
    }
}

#[test]
fn built_ins_have_lines(rt: HostRuntime) -> Result<(), Fail> {
    let alloc = rt.alloc();
    let empty = Text::of(alloc, "")?;
    assert!(rt; builtin(&empty, &Text::of(alloc, "pivto")?).is_none());
    assert!(rt; at_words(alloc, "keep", "columns", "a")?.is_some());
    assert!(rt; at_words(alloc, "aggregateWindow", "fn", "map")?.is_none());
    assert_eq!(rt; form(alloc, "aggregateWindow", "fn")?, Some(Form::Name));
    Ok(())
}
