//! Whether two terms share a variable that nothing is bound to.

ghost use Rattle.std.specs.Prelude.{◌≡◌, ◌<◌, ℕ, true, false, None, length, slice_index, slice_index_or};
ghost use Rattle.fx_types.specs.Term.{Label};
ghost use Rattle.fx_unify.specs.Part.{p_slot};
ghost use Rattle.fx_generalize.specs.declared.names.FieldName.TheVariants as field_names;
ghost use Rattle.fx_generalize.specs.Named.{place, is_field, type_place, field_place, IsApart, IsUnnamed, IsUnnamedRow};

use crate::names::{FieldName, Names};
use fx_unify::View;

/// Whether no variable has a number in both.
pub(crate) fn are_apart(names: &Names, own: &Names) -> bool
    ensures { result ≡ true → IsApart names.now own.now }
{
    if !types_apart(names, own.types.as_slice()) {
        return false;
    }
    if !fields_apart(names, own.fields.as_slice()) {
        return false;
    }
    rows_apart(names, own.rows.as_slice())
}

fn types_apart(names: &Names, numbers: &[u32]) -> bool
    ensures { result ≡ true → (k : ℕ) → k < length numbers.now → type_place names.now (slice_index numbers.now k) ≡ None }
{
    for number in numbers {
        if names.type_at(*number).is_some() {
            return false;
        }
    }
    true
}

fn fields_apart(names: &Names, fields: &[FieldName]) -> bool
    ensures { result ≡ true → (k : ℕ) → k < length fields.now → IsUnnamed names.now (slice_index_or fields.now k (field_names.Var 0)) }
{
    for field in fields {
        if !is_unnamed(names, field) {
            return false;
        }
    }
    true
}

fn is_unnamed(names: &Names, field: &FieldName) -> bool
    ensures { result ≡ true → IsUnnamed names.now field.now }
{
    match field {
        FieldName::Var(number) => names.field_at(View::Var(*number)).is_none(),
        FieldName::Slot(row, label) => {
            names.field_at(View::Slot(*row, label)).is_none() && names.row_at(*row).is_none()
        }
    }
}

fn rows_apart(names: &Names, rows: &[u32]) -> bool
    ensures { result ≡ true → (k : ℕ) → k < length rows.now → IsUnnamedRow names.now (slice_index rows.now k) }
{
    for row in rows {
        if !is_unnamed_row(names, *row) {
            return false;
        }
    }
    true
}

fn is_unnamed_row(names: &Names, row: u32) -> bool
    ensures { result ≡ true → IsUnnamedRow names.now row }
{
    match names.row_at(row) {
        Some(_) => false,
        None => !has_slot(names.fields.as_slice(), row),
    }
}

/// Whether one of the fields is one of the row variable.
fn has_slot(fields: &[FieldName], row: u32) -> bool
    ensures { result ≡ false → (l : Label) → place (is_field (p_slot row l)) fields.now ≡ None }
{
    for field in fields {
        if is_of_row(field, row) {
            return true;
        }
    }
    false
}

fn is_of_row(field: &FieldName, row: u32) -> bool
    ensures { result ≡ false → (l : Label) → is_field (p_slot row l) field.now ≡ false }
{
    match field {
        FieldName::Var(_) => false,
        FieldName::Slot(other, _) => row == *other,
    }
}
