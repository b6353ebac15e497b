//! Whether two terms are the same.

ghost use Rattle.std.specs.Prelude.{◌≡◌, true, map, option_map};
ghost use Rattle.fx_types.specs.Shape.{term, field_term, rest_term, fun_term, entry_term, label_term, row_term};

use fx_base::List;
use fx_types::{FieldTy, FunTy, LabelField, LabelTy, Rest, RowTy, Ty};

/// Whether the types are the same term.
#[cycle(same)]
pub(crate) fn same_type(a: &Ty, b: &Ty) -> bool
    ensures { result ≡ true → term a.now ≡ term b.now }
{
    match (a, b) {
        (Ty::Bool, Ty::Bool) => true,
        (Ty::Int, Ty::Int) => true,
        (Ty::Text, Ty::Text) => true,
        (Ty::Time, Ty::Time) => true,
        (Ty::Span, Ty::Span) => true,
        (Ty::Pattern, Ty::Pattern) => true,
        (Ty::Done, Ty::Done) => true,
        (Ty::Var(number), Ty::Var(other)) => *number == *other,
        (Ty::Array(element), Ty::Array(other)) => same_type(element.get(), other.get()),
        (Ty::Fun(function), Ty::Fun(other)) => same_function(function.get(), other.get()),
        (Ty::Rec(row), Ty::Rec(other)) => same_row(row.get(), other.get()),
        (Ty::Stream(row), Ty::Stream(other)) => same_row(row.get(), other.get()),
        _ => false,
    }
}

#[cycle(same)]
fn same_function(a: &FunTy, b: &FunTy) -> bool
    ensures { result ≡ true → fun_term a.now ≡ fun_term b.now }
{
    if !same_labels(&a.required, &b.required) {
        return false;
    }
    if !same_pipe(&a.pipe, &b.pipe) {
        return false;
    }
    same_type(&a.result, &b.result)
}

#[cycle(same)]
fn same_labels(a: &List<LabelTy>, b: &List<LabelTy>) -> bool
    ensures { result ≡ true → map label_term a.now ≡ map label_term b.now }
{
    let left = a.as_slice();
    let right = b.as_slice();
    if left.len() != right.len() {
        return false;
    }
    for (i, entry) in left.iter().enumerate() {
        if !same_label(entry, &right[i]) {
            return false;
        }
    }
    true
}

#[cycle(same)]
fn same_label(a: &LabelTy, b: &LabelTy) -> bool
    ensures { result ≡ true → label_term a.now ≡ label_term b.now }
{
    if a.label == b.label {
        return same_type(&a.ty, &b.ty);
    }
    false
}

#[cycle(same)]
fn same_pipe(a: &Option<Ty>, b: &Option<Ty>) -> bool
    ensures { result ≡ true → option_map term a.now ≡ option_map term b.now }
{
    match (a, b) {
        (Some(ty), Some(other)) => same_type(ty, other),
        (None, None) => true,
        _ => false,
    }
}

#[cycle(same)]
fn same_row(a: &RowTy, b: &RowTy) -> bool
    ensures { result ≡ true → row_term a.now ≡ row_term b.now }
{
    if !same_fields(&a.fields, &b.fields) {
        return false;
    }
    same_rest(&a.rest, &b.rest)
}

#[cycle(same)]
fn same_fields(a: &List<LabelField>, b: &List<LabelField>) -> bool
    ensures { result ≡ true → map entry_term a.now ≡ map entry_term b.now }
{
    let left = a.as_slice();
    let right = b.as_slice();
    if left.len() != right.len() {
        return false;
    }
    for (i, entry) in left.iter().enumerate() {
        if !same_entry(entry, &right[i]) {
            return false;
        }
    }
    true
}

#[cycle(same)]
fn same_entry(a: &LabelField, b: &LabelField) -> bool
    ensures { result ≡ true → entry_term a.now ≡ entry_term b.now }
{
    if a.label == b.label {
        return same_field(&a.field, &b.field);
    }
    false
}

#[cycle(same)]
fn same_field(a: &FieldTy, b: &FieldTy) -> bool
    ensures { result ≡ true → field_term a.now ≡ field_term b.now }
{
    match (a, b) {
        (FieldTy::Absent, FieldTy::Absent) => true,
        (FieldTy::Is(ty), FieldTy::Is(other)) => same_type(ty, other),
        (FieldTy::Var(number), FieldTy::Var(other)) => *number == *other,
        _ => false,
    }
}

#[cycle(same)]
fn same_rest(a: &Rest, b: &Rest) -> bool
    ensures { result ≡ true → rest_term a.now ≡ rest_term b.now }
{
    match (a, b) {
        (Rest::Default(field), Rest::Default(other)) => same_field(field, other),
        (Rest::Var(number), Rest::Var(other)) => *number == *other,
        _ => false,
    }
}
