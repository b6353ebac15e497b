//! Rows of records.

ghost use Rattle.std.specs.Prelude.{◌≡◌, map, IfOk};
ghost use Rattle.fx_types.specs.Ground.{g_rec, g_absent};
ghost use Rattle.fx_types.specs.Instance.{Solution, ground, ground_fields, ground_tail};
ghost use Rattle.fx_types.specs.Shape.{term, entry_term, fields_of, rest_term};
ghost use Rattle.fx_types.specs.Size.{IsType};
ghost use Rattle.fx_unify.specs.Solutions.{next_of};
ghost use Rattle.fx_infer.specs.Infers.{Infers, IsBelow, IsTypedIn};

use crate::ask::{Inferred, unused};
use crate::terms::record_of;
use fx_base::{List, Memory};
use fx_types::{FieldTy, LabelField, Rest, Ty};
use fx_unify::Bindings;
use std::alloc::Global;

/// What was inferred: bindings, and the row behind the properties of a record.
#[derive(Debug, Drop)]
pub(crate) struct Based {
    pub(crate) bindings: Bindings,
    pub(crate) rest: Rest,
}

/// What was inferred: bindings, and the fields of a record.
#[derive(Debug, Drop)]
pub(crate) struct Fielded {
    pub(crate) bindings: Bindings,
    pub(crate) fields: List<LabelField>,
}

/// The row with nothing.
pub(crate) fn no_row(bindings: Bindings) -> Based
    ensures { Infers (λ s r. r ≡ (λ l. g_absent)) bindings result.bindings (λ s. ground_tail s (rest_term result.rest)) }
{
    let rest = Rest::Default(FieldTy::Absent);
    Based { bindings, rest }
}

/// The row of a record.
pub(crate) fn row_of(alloc: Global, bindings: Bindings, of: &Ty) -> Result<Based, Memory>
    requires below { IsBelow (next_of bindings) (term of.now) }
    requires typed { IsTypedIn bindings (term of.now) }
    ensures { IfOk result (λ b. Infers (λ s r. ground s (term of.now) ≡ g_rec r) bindings b.bindings (λ s. ground_tail s (rest_term b.rest))) }
{
    let number = unused(&bindings)?;
    let whole = record_of(alloc, List::empty(alloc), Rest::Var(number))?;
    let bindings = bindings.later(alloc, of, &whole)?;
    let rest = Rest::Var(number);
    Ok(Based { bindings, rest })
}

/// The type of a record of the fields over the row.
pub(crate) fn record_type(
    alloc: Global,
    bindings: Bindings,
    fields: List<LabelField>,
    rest: Rest,
) -> Result<Inferred, Memory>
    ensures { IfOk result (λ r. Infers (λ s t. IsType t × (t ≡ g_rec (ground_fields s (fields_of (map entry_term fields)) (ground_tail s (rest_term rest))))) bindings r.bindings (λ s. ground s (term r.ty))) }
{
    let ty = record_of(alloc, fields, rest)?;
    let bindings = bindings.fits_later(alloc, &ty)?;
    Ok(Inferred { bindings, ty })
}
