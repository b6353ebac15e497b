//! Terms of arrays, records and functions.

ghost use Rattle.std.specs.Prelude.{◌≡◌, map, option_map, IfOk};
ghost use Rattle.fx_types.specs.Shape.{term, rest_term, entry_term, label_term, fields_of, labels_of, pipe_of};
ghost use Rattle.fx_types.specs.Term.{array, fun, rec, is};

use fx_base::{Boxed, List, Memory, Text};
use fx_types::{FieldTy, FunTy, LabelField, LabelTy, Rest, RowTy, Ty};
use std::alloc::Global;

/// The array of the elements.
pub(crate) fn array_of(alloc: Global, element: Ty) -> Result<Ty, Memory>
    ensures { IfOk result (λ t. term t ≡ array (term element)) }
{
    Ok(Ty::Array(Boxed::new(alloc, element)?))
}

/// The record of the fields over the rest.
pub(crate) fn record_of(alloc: Global, fields: List<LabelField>, rest: Rest) -> Result<Ty, Memory>
    ensures { IfOk result (λ t. term t ≡ rec (fields_of (map entry_term fields)) (rest_term rest)) }
{
    let row = RowTy { fields, rest };
    Ok(Ty::Rec(Boxed::new(alloc, row)?))
}

/// The function with these required labels.
pub(crate) fn function_of(
    alloc: Global,
    required: List<LabelTy>,
    pipe: Option<Ty>,
    gives: Ty,
) -> Result<Ty, Memory>
    ensures { IfOk result (λ t. term t ≡ fun (labels_of (map label_term required)) (pipe_of (option_map term pipe)) (term gives)) }
{
    let function = FunTy {
        required,
        pipe,
        result: gives,
    };
    Ok(Ty::Fun(Boxed::new(alloc, function)?))
}

/// The entry of a row that has the type at the label.
pub(crate) fn entry(label: &Text, ty: Ty) -> Result<LabelField, Memory>
    ensures { IfOk result (λ e. entry_term e ≡ record { label = label.now; field = is (term ty) }) }
{
    Ok(LabelField {
        label: label.copy()?,
        field: FieldTy::Is(ty),
    })
}
