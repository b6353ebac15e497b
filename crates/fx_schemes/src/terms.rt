//! Terms of rows, streams and functions.
ghost use Rattle.std.specs.Prelude.{◌≡◌, [], ◌∷◌, ◌++◌, map, option_map, IfOk};
ghost use Rattle.fx_types.specs.Term.{fun, rec, stream, default, no_pipe, row_variable};
ghost use Rattle.fx_types.specs.Shape.{term, entry_term, label_term, labels_of, pipe_of};
ghost use Rattle.fx_schemes.specs.Plan.{cell_field, cells_of, entry_of, fields_in, params_of, param_of, labelled, row_function};

use crate::simple::{Simple, cell_ty, simple_ty};
use fx_base::{Boxed, List, Memory, Text};
use fx_types::{FunTy, LabelField, LabelTy, Rest, RowTy, Ty};
use std::alloc::Global;

/// A label of a row, with what the row has there: a column, or nothing.
pub(crate) type Cell<'a> = (&'a str, Option<Simple>);

/// A parameter that has a simple type.
pub(crate) type Param<'a> = (&'a str, Simple);

/// The entries of a row.
fn fields(alloc: Global, cells: &[(&str, Option<Simple>)]) -> Result<List<LabelField>, Memory>
    ensures { IfOk result (λ fs. map entry_term fs ≡ map entry_of (cells_of cells.now)) }
{
    let mut fields = List::empty(alloc);
    for cell in cells {
        fields.push(LabelField {
            label: Text::of(alloc, cell.0)?,
            field: cell_ty(alloc, cell.1)?,
        })?;
    }
    Ok(fields)
}

/// The stream of the row of a variable, with these cells in place of what it has at their labels.
pub(crate) fn stream_over(
    alloc: Global,
    cells: &[(&str, Option<Simple>)],
    row: u32,
) -> Result<Ty, Memory>
    ensures { IfOk result (λ t. term t ≡ stream (fields_in (cells_of cells.now)) (row_variable row)) }
{
    let row = RowTy {
        fields: fields(alloc, cells)?,
        rest: Rest::Var(row),
    };
    Ok(Ty::Stream(Boxed::new(alloc, row)?))
}

/// The stream of a row with these cells, and the same at all other labels.
pub(crate) fn stream_else(
    alloc: Global,
    cells: &[(&str, Option<Simple>)],
    other: Option<Simple>,
) -> Result<Ty, Memory>
    ensures { IfOk result (λ t. term t ≡ stream (fields_in (cells_of cells.now)) (default (cell_field other))) }
{
    let row = RowTy {
        fields: fields(alloc, cells)?,
        rest: Rest::Default(cell_ty(alloc, other)?),
    };
    Ok(Ty::Stream(Boxed::new(alloc, row)?))
}

/// The record of the row of a variable, with these cells in place of what it has at their labels.
pub(crate) fn record_over(
    alloc: Global,
    cells: &[(&str, Option<Simple>)],
    row: u32,
) -> Result<Ty, Memory>
    ensures { IfOk result (λ t. term t ≡ rec (fields_in (cells_of cells.now)) (row_variable row)) }
{
    let row = RowTy {
        fields: fields(alloc, cells)?,
        rest: Rest::Var(row),
    };
    Ok(Ty::Rec(Boxed::new(alloc, row)?))
}

/// The parameters.
pub(crate) fn params(alloc: Global, params: &[(&str, Simple)]) -> Result<List<LabelTy>, Memory>
    ensures { IfOk result (λ ls. map label_term ls ≡ map param_of (params_of params.now)) }
{
    let mut list = List::empty(alloc);
    for param in params {
        list.push(LabelTy {
            label: Text::of(alloc, param.0)?,
            ty: simple_ty(alloc, param.1)?,
        })?;
    }
    Ok(list)
}

/// The parameter of this label and type.
pub(crate) fn param(alloc: Global, label: &str, ty: Ty) -> Result<LabelTy, Memory>
    ensures { IfOk result (λ l. label_term l ≡ labelled label.now (term ty)) }
{
    Ok(LabelTy {
        label: Text::of(alloc, label)?,
        ty,
    })
}

/// The parameter of this label that is the record of the row of a variable, with these cells in
/// place of what it has at their labels.
pub(crate) fn record_param(
    alloc: Global,
    label: &str,
    cells: &[(&str, Option<Simple>)],
    row: u32,
) -> Result<LabelTy, Memory>
    ensures { IfOk result (λ l. label_term l ≡ labelled label.now (rec (fields_in (cells_of cells.now)) (row_variable row))) }
{
    param(alloc, label, record_over(alloc, cells, row)?)
}

/// The function with these required parameters.
pub(crate) fn function(
    alloc: Global,
    required: List<LabelTy>,
    pipe: Option<Ty>,
    gives: Ty,
) -> Result<Ty, Memory>
    ensures { IfOk result (λ t. term t ≡ fun (labels_of (map label_term required)) (pipe_of (option_map term pipe)) (term gives)) }
{
    let fun = FunTy {
        required,
        pipe,
        result: gives,
    };
    Ok(Ty::Fun(Boxed::new(alloc, fun)?))
}

/// The labels as texts.
pub(crate) fn texts(alloc: Global, labels: &[&str]) -> Result<List<Text>, Memory>
    ensures { IfOk result (λ ts. ts ≡ map (λ l. l.now) labels.now) }
{
    let mut texts = List::empty(alloc);
    for label in labels {
        texts.push(Text::of(alloc, label)?)?;
    }
    Ok(texts)
}

/// A list of this one parameter.
pub(crate) fn one_param(alloc: Global, label: &str, ty: Ty) -> Result<List<LabelTy>, Memory>
    ensures { IfOk result (λ ls. map label_term ls ≡ labelled label.now (term ty) ∷ []) }
{
    let mut list = List::empty(alloc);
    list.push(param(alloc, label, ty)?)?;
    Ok(list)
}

/// The parameters and this one after them.
pub(crate) fn and_param(
    alloc: Global,
    params: List<LabelTy>,
    label: &str,
    ty: Ty,
) -> Result<List<LabelTy>, Memory>
    ensures { IfOk result (λ ls. map label_term ls ≡ map label_term params ++ labelled label.now (term ty) ∷ []) }
{
    let mut list = params;
    list.push(param(alloc, label, ty)?)?;
    Ok(list)
}

/// The function of the row of a variable.
pub(crate) fn of_row(alloc: Global, row: u32, gives: Ty) -> Result<Ty, Memory>
    ensures { IfOk result (λ t. term t ≡ row_function row (term gives)) }
{
    let required = one_param(alloc, "r", record_over(alloc, &[], row)?)?;
    function(alloc, required, None, gives)
}

/// The function of two parameters.
pub(crate) fn of_two(
    alloc: Global,
    first: LabelTy,
    second: LabelTy,
    gives: Ty,
) -> Result<Ty, Memory>
    ensures { IfOk result (λ t. term t ≡ fun (labels_of (label_term first ∷ label_term second ∷ [])) no_pipe (term gives)) }
{
    let mut required = List::empty(alloc);
    required.push(first)?;
    required.push(second)?;
    function(alloc, required, None, gives)
}
