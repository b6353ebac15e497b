//! The numbers that a type uses.

ghost use Rattle.std.specs.Prelude.{◌≡◌, map, max, option_map};
ghost use Rattle.fx_types.specs.Shape.{term, field_term, rest_term, fun_term, label_term, entry_term, row_term, labels_of, fields_of, pipe_of};
ghost use Rattle.fx_types.specs.Term.{fun, rec};
ghost use Rattle.fx_types.specs.Numbers as Numbers;
ghost use Rattle.fx_types.specs.Numbers.{numbers_labels, numbers_pipe, numbers_field, numbers_fields, numbers_tail};

use fx_base::List;
use fx_types::{FieldTy, FunTy, LabelField, LabelTy, Rest, RowTy, Ty};

/// One more than the greatest number of a variable in the type, or 0 where it has none.
#[cycle(numbers)]
pub fn numbers(ty: &Ty) -> u64
    ensures { result ≡ Numbers.numbers (term ty.now) }
{
    match ty {
        Ty::Var(number) => *number as u64 + 1,
        Ty::Array(element) => numbers(element.get()),
        Ty::Fun(function) => function_numbers(function.get()),
        Ty::Rec(row) => row_numbers(row.get()),
        Ty::Stream(row) => row_numbers(row.get()),
        Ty::Bool => 0,
        Ty::Int => 0,
        Ty::Text => 0,
        Ty::Time => 0,
        Ty::Span => 0,
        Ty::Pattern => 0,
        Ty::Done => 0,
    }
}

#[cycle(numbers)]
fn function_numbers(function: &FunTy) -> u64
    ensures { result ≡ Numbers.numbers (fun (fun_term function.now).required (fun_term function.now).pipe (fun_term function.now).result) }
{
    label_numbers(&function.required)
        .max(pipe_numbers(&function.pipe))
        .max(numbers(&function.result))
}

#[cycle(numbers)]
fn label_numbers(labels: &List<LabelTy>) -> u64
    ensures { result ≡ numbers_labels (labels_of (map label_term labels.now)) }
{
    let mut greatest: u64 = 0;
    for entry in labels.as_slice() {
        greatest = greatest.max(numbers(&entry.ty));
    }
    greatest
}

#[cycle(numbers)]
fn pipe_numbers(pipe: &Option<Ty>) -> u64
    ensures { result ≡ numbers_pipe (pipe_of (option_map term pipe.now)) }
{
    match pipe {
        Some(ty) => numbers(ty),
        None => 0,
    }
}

#[cycle(numbers)]
fn row_numbers(row: &RowTy) -> u64
    ensures { result ≡ Numbers.numbers (rec (row_term row.now).fields (row_term row.now).rest) }
{
    entry_numbers(&row.fields).max(rest_numbers(&row.rest))
}

#[cycle(numbers)]
fn entry_numbers(fields: &List<LabelField>) -> u64
    ensures { result ≡ numbers_fields (fields_of (map entry_term fields.now)) }
{
    let mut greatest: u64 = 0;
    for entry in fields.as_slice() {
        greatest = greatest.max(field_numbers(&entry.field));
    }
    greatest
}

#[cycle(numbers)]
fn field_numbers(field: &FieldTy) -> u64
    ensures { result ≡ numbers_field (field_term field.now) }
{
    match field {
        FieldTy::Absent => 0,
        FieldTy::Is(ty) => numbers(ty),
        FieldTy::Var(number) => *number as u64 + 1,
    }
}

#[cycle(numbers)]
fn rest_numbers(rest: &Rest) -> u64
    ensures { result ≡ numbers_tail (rest_term rest.now) }
{
    match rest {
        Rest::Default(field) => field_numbers(field),
        Rest::Var(number) => *number as u64 + 1,
    }
}
