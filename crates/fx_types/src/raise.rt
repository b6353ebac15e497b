//! Terms in which the number of each variable is greater by the same. Their labels are shared with
//! the term that they come from.

ghost use Rattle.std.specs.Prelude.{◌≡◌, ◌≤◌, ◌<◌, ◌+◌, ◌^◌, IfOk, map, option_map};
ghost use Rattle.fx_types.specs.Numbers.{numbers, numbers_labels, numbers_pipe, numbers_field, numbers_fields, numbers_tail};
ghost use Rattle.fx_types.specs.Raised as Raised;
ghost use Rattle.fx_types.specs.Raised.{raised_labels, raised_pipe, raised_field, raised_fields, raised_tail, raised_function, raised_row};
ghost use Rattle.fx_types.specs.Shape.{term, field_term, rest_term, fun_term, entry_term, label_term, row_term, labels_of, fields_of, pipe_of};
ghost use Rattle.fx_types.specs.Term.{fun, rec};

use crate::term::{FieldTy, FunTy, LabelField, LabelTy, Rest, RowTy, Ty};
use fx_base::{Boxed, List, Memory};
use std::alloc::Global;

impl Ty {
    /// The type in which the number of each variable is so much greater.
    pub fn raised(&self, alloc: Global, by: u32) -> Result<Ty, Memory>
        requires { numbers (term self.now) + by ≤ 2 ^ 32 }
        ensures { IfOk result (λ t. term t ≡ Raised.raised by (term self.now)) }
    {
        raise_ty(alloc, self, by)
    }
}

#[cycle(raise)]
fn raise_ty(alloc: Global, ty: &Ty, by: u32) -> Result<Ty, Memory>
    ensures { IfOk result (λ t. numbers (term ty.now) + by ≤ 2 ^ 32 → term t ≡ Raised.raised by (term ty.now)) }
{
    match ty {
        Ty::Var(number) => Ok(Ty::Var(raise_number(*number, by))),
        Ty::Array(element) => Ok(Ty::Array(raise_element(alloc, element, by)?)),
        Ty::Fun(function) => Ok(Ty::Fun(raise_boxed_fun(alloc, function, by)?)),
        Ty::Rec(row) => Ok(Ty::Rec(raise_boxed_row(alloc, row, by)?)),
        Ty::Stream(row) => Ok(Ty::Stream(raise_boxed_row(alloc, row, by)?)),
        Ty::Bool => Ok(Ty::Bool),
        Ty::Int => Ok(Ty::Int),
        Ty::Text => Ok(Ty::Text),
        Ty::Time => Ok(Ty::Time),
        Ty::Span => Ok(Ty::Span),
        Ty::Pattern => Ok(Ty::Pattern),
        Ty::Done => Ok(Ty::Done),
    }
}

#[cycle(raise)]
fn raise_element(alloc: Global, element: &Boxed<Ty>, by: u32) -> Result<Boxed<Ty>, Memory>
    ensures { IfOk result (λ t. numbers (term element.now) + by ≤ 2 ^ 32 → term t ≡ Raised.raised by (term element.now)) }
{
    let raised = raise_ty(alloc, element.get(), by)?;
    Boxed::new(alloc, raised)
}

#[cycle(raise)]
fn raise_boxed_fun(alloc: Global, function: &Boxed<FunTy>, by: u32) -> Result<Boxed<FunTy>, Memory>
    ensures { IfOk result (λ f. numbers (fun (fun_term function.now).required (fun_term function.now).pipe (fun_term function.now).result) + by ≤ 2 ^ 32 → fun_term f ≡ raised_function by (fun_term function.now)) }
{
    let raised = raise_fun(alloc, function.get(), by)?;
    Boxed::new(alloc, raised)
}

#[cycle(raise)]
fn raise_boxed_row(alloc: Global, row: &Boxed<RowTy>, by: u32) -> Result<Boxed<RowTy>, Memory>
    ensures { IfOk result (λ r. numbers (rec (row_term row.now).fields (row_term row.now).rest) + by ≤ 2 ^ 32 → row_term r ≡ raised_row by (row_term row.now)) }
{
    let raised = raise_row(alloc, row.get(), by)?;
    Boxed::new(alloc, raised)
}

#[cycle(raise)]
fn raise_fun(alloc: Global, function: &FunTy, by: u32) -> Result<FunTy, Memory>
    ensures { IfOk result (λ f. numbers (fun (fun_term function.now).required (fun_term function.now).pipe (fun_term function.now).result) + by ≤ 2 ^ 32 → fun_term f ≡ raised_function by (fun_term function.now)) }
{
    Ok(FunTy {
        required: raise_labels(alloc, &function.required, by)?,
        pipe: raise_pipe(alloc, &function.pipe, by)?,
        result: raise_ty(alloc, &function.result, by)?,
    })
}

#[cycle(raise)]
fn raise_labels(alloc: Global, labels: &List<LabelTy>, by: u32) -> Result<List<LabelTy>, Memory>
    ensures { IfOk result (λ ls. numbers_labels (labels_of (map label_term labels.now)) + by ≤ 2 ^ 32 → labels_of (map label_term ls) ≡ raised_labels by (labels_of (map label_term labels.now))) }
{
    let mut raised = List::empty(alloc);
    for entry in labels.as_slice() {
        let ty = raise_ty(alloc, &entry.ty, by)?;
        let label = entry.label.copy()?;
        raised.push(LabelTy { label, ty })?;
    }
    Ok(raised)
}

#[cycle(raise)]
fn raise_pipe(alloc: Global, pipe: &Option<Ty>, by: u32) -> Result<Option<Ty>, Memory>
    ensures { IfOk result (λ p. numbers_pipe (pipe_of (option_map term pipe.now)) + by ≤ 2 ^ 32 → pipe_of (option_map term p) ≡ raised_pipe by (pipe_of (option_map term pipe.now))) }
{
    match pipe {
        Some(ty) => Ok(Some(raise_ty(alloc, ty, by)?)),
        None => Ok(None),
    }
}

#[cycle(raise)]
fn raise_row(alloc: Global, row: &RowTy, by: u32) -> Result<RowTy, Memory>
    ensures { IfOk result (λ r. numbers (rec (row_term row.now).fields (row_term row.now).rest) + by ≤ 2 ^ 32 → row_term r ≡ raised_row by (row_term row.now)) }
{
    Ok(RowTy {
        fields: raise_fields(alloc, &row.fields, by)?,
        rest: raise_rest(alloc, &row.rest, by)?,
    })
}

#[cycle(raise)]
fn raise_fields(
    alloc: Global,
    fields: &List<LabelField>,
    by: u32,
) -> Result<List<LabelField>, Memory>
    ensures { IfOk result (λ fs. numbers_fields (fields_of (map entry_term fields.now)) + by ≤ 2 ^ 32 → fields_of (map entry_term fs) ≡ raised_fields by (fields_of (map entry_term fields.now))) }
{
    let mut raised = List::empty(alloc);
    for entry in fields.as_slice() {
        let field = raise_field(alloc, &entry.field, by)?;
        let label = entry.label.copy()?;
        raised.push(LabelField { label, field })?;
    }
    Ok(raised)
}

#[cycle(raise)]
fn raise_field(alloc: Global, field: &FieldTy, by: u32) -> Result<FieldTy, Memory>
    ensures { IfOk result (λ f. numbers_field (field_term field.now) + by ≤ 2 ^ 32 → field_term f ≡ raised_field by (field_term field.now)) }
{
    match field {
        FieldTy::Absent => Ok(FieldTy::Absent),
        FieldTy::Is(ty) => Ok(FieldTy::Is(raise_ty(alloc, ty, by)?)),
        FieldTy::Var(number) => Ok(FieldTy::Var(raise_number(*number, by))),
    }
}

#[cycle(raise)]
fn raise_rest(alloc: Global, rest: &Rest, by: u32) -> Result<Rest, Memory>
    ensures { IfOk result (λ r. numbers_tail (rest_term rest.now) + by ≤ 2 ^ 32 → rest_term r ≡ raised_tail by (rest_term rest.now)) }
{
    match rest {
        Rest::Default(field) => Ok(Rest::Default(raise_field(alloc, field, by)?)),
        Rest::Var(number) => Ok(Rest::Var(raise_number(*number, by))),
    }
}

/// The greater number, where there is one.
fn raise_number(number: u32, by: u32) -> u32
    ensures { number + by < 2 ^ 32 → result ≡ number + by }
{
    number.wrapping_add(by)
}
