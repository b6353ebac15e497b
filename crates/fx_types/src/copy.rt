//! Equal copies of terms. Their labels are shared with what they copy.

ghost use Rattle.std.specs.Prelude.{◌≡◌, IfOk};

use crate::term::{FieldTy, FunTy, LabelField, LabelTy, Rest, RowTy, Ty};
use fx_base::{Boxed, List, Memory};
use std::alloc::Global;

impl Ty {
    /// An equal copy.
    pub fn copy(&self, alloc: Global) -> Result<Ty, Memory>
        ensures { IfOk result (λ t. t ≡ self.now) }
    {
        copy_ty(alloc, self)
    }
}

impl FieldTy {
    /// An equal copy.
    pub fn copy(&self, alloc: Global) -> Result<FieldTy, Memory>
        ensures { IfOk result (λ f. f ≡ self.now) }
    {
        copy_field(alloc, self)
    }
}

impl Rest {
    /// An equal copy.
    pub fn copy(&self, alloc: Global) -> Result<Rest, Memory>
        ensures { IfOk result (λ r. r ≡ self.now) }
    {
        copy_rest(alloc, self)
    }
}

impl RowTy {
    /// An equal copy.
    pub fn copy(&self, alloc: Global) -> Result<RowTy, Memory>
        ensures { IfOk result (λ r. r ≡ self.now) }
    {
        copy_row(alloc, self)
    }
}

#[cycle(copy)]
fn copy_ty(alloc: Global, ty: &Ty) -> Result<Ty, Memory>
    ensures { IfOk result (λ t. t ≡ ty.now) }
{
    match ty {
        Ty::Bool => Ok(Ty::Bool),
        Ty::Int => Ok(Ty::Int),
        Ty::Text => Ok(Ty::Text),
        Ty::Time => Ok(Ty::Time),
        Ty::Span => Ok(Ty::Span),
        Ty::Pattern => Ok(Ty::Pattern),
        Ty::Done => Ok(Ty::Done),
        Ty::Var(number) => Ok(Ty::Var(*number)),
        Ty::Array(element) => Ok(Ty::Array(copy_element(alloc, element)?)),
        Ty::Fun(fun) => Ok(Ty::Fun(copy_boxed_fun(alloc, fun)?)),
        Ty::Rec(row) => Ok(Ty::Rec(copy_boxed_row(alloc, row)?)),
        Ty::Stream(row) => Ok(Ty::Stream(copy_boxed_row(alloc, row)?)),
    }
}

// Each level of a term takes the stack of one of these and no more: so deep terms have room.

#[cycle(copy)]
fn copy_element(alloc: Global, element: &Boxed<Ty>) -> Result<Boxed<Ty>, Memory>
    ensures { IfOk result (λ t. t ≡ element.now) }
{
    let copy = copy_ty(alloc, element.get())?;
    Boxed::new(alloc, copy)
}

#[cycle(copy)]
fn copy_boxed_fun(alloc: Global, fun: &Boxed<FunTy>) -> Result<Boxed<FunTy>, Memory>
    ensures { IfOk result (λ f. f ≡ fun.now) }
{
    let copy = copy_fun(alloc, fun.get())?;
    Boxed::new(alloc, copy)
}

#[cycle(copy)]
fn copy_boxed_row(alloc: Global, row: &Boxed<RowTy>) -> Result<Boxed<RowTy>, Memory>
    ensures { IfOk result (λ r. r ≡ row.now) }
{
    let copy = copy_row(alloc, row.get())?;
    Boxed::new(alloc, copy)
}

#[cycle(copy)]
fn copy_fun(alloc: Global, fun: &FunTy) -> Result<FunTy, Memory>
    ensures { IfOk result (λ f. f ≡ fun.now) }
{
    Ok(FunTy {
        required: copy_labels(alloc, &fun.required)?,
        pipe: copy_pipe(alloc, &fun.pipe)?,
        result: copy_ty(alloc, &fun.result)?,
    })
}

#[cycle(copy)]
fn copy_labels(alloc: Global, labels: &List<LabelTy>) -> Result<List<LabelTy>, Memory>
    ensures { IfOk result (λ ls. ls ≡ labels.now) }
{
    let mut copies = List::empty(alloc);
    for entry in labels.as_slice() {
        copies.push(LabelTy {
            label: entry.label.copy()?,
            ty: copy_ty(alloc, &entry.ty)?,
        })?;
    }
    Ok(copies)
}

#[cycle(copy)]
fn copy_pipe(alloc: Global, pipe: &Option<Ty>) -> Result<Option<Ty>, Memory>
    ensures { IfOk result (λ p. p ≡ pipe.now) }
{
    match pipe {
        Some(ty) => Ok(Some(copy_ty(alloc, ty)?)),
        None => Ok(None),
    }
}

#[cycle(copy)]
fn copy_row(alloc: Global, row: &RowTy) -> Result<RowTy, Memory>
    ensures { IfOk result (λ r. r ≡ row.now) }
{
    Ok(RowTy {
        fields: copy_fields(alloc, &row.fields)?,
        rest: copy_rest(alloc, &row.rest)?,
    })
}

#[cycle(copy)]
fn copy_fields(alloc: Global, fields: &List<LabelField>) -> Result<List<LabelField>, Memory>
    ensures { IfOk result (λ fs. fs ≡ fields.now) }
{
    let mut copies = List::empty(alloc);
    for entry in fields.as_slice() {
        copies.push(LabelField {
            label: entry.label.copy()?,
            field: copy_field(alloc, &entry.field)?,
        })?;
    }
    Ok(copies)
}

#[cycle(copy)]
fn copy_field(alloc: Global, field: &FieldTy) -> Result<FieldTy, Memory>
    ensures { IfOk result (λ f. f ≡ field.now) }
{
    match field {
        FieldTy::Absent => Ok(FieldTy::Absent),
        FieldTy::Is(ty) => Ok(FieldTy::Is(copy_ty(alloc, ty)?)),
        FieldTy::Var(number) => Ok(FieldTy::Var(*number)),
    }
}

#[cycle(copy)]
fn copy_rest(alloc: Global, rest: &Rest) -> Result<Rest, Memory>
    ensures { IfOk result (λ r. r ≡ rest.now) }
{
    match rest {
        Rest::Default(field) => Ok(Rest::Default(copy_field(alloc, field)?)),
        Rest::Var(number) => Ok(Rest::Var(*number)),
    }
}
