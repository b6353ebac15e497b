//! The type of a built-in at a call: its variables get numbers that nothing else has.

ghost use Rattle.std.specs.Prelude.{◌≡◌, ◌↔◌, ◌≤◌, ◌+◌, ◌^◌, map, IfOk};
ghost use Rattle.fx_schemes.specs.declared.list.Builtin.{Builtin};
ghost use Rattle.fx_schemes.specs.Names.{IsId};
ghost use Rattle.fx_schemes.specs.Scheme.{Keeps, numbers_bounds, numbers_of, shown};
ghost use Rattle.fx_types.specs.Ground.{listed};
ghost use Rattle.fx_types.specs.Instance.{Solution};
ghost use Rattle.fx_types.specs.Numbers.{numbers_labels};
ghost use Rattle.fx_types.specs.Raised.{from};
ghost use Rattle.fx_types.specs.Shape.{label_term, labels_of};
ghost use Rattle.fx_unify.specs.Solutions.{Solves, next_of};
ghost use Rattle.fx_infer.specs.Finds.{FindsLine, line_under};
ghost use Rattle.fx_infer.specs.Infers.{Infers};
ghost use Rattle.fx_infer.specs.Lists.{entry_names, AreRaised};
ghost use Rattle.fx_infer.specs.Uses.{IsTypedLine, IsUse};

use crate::lines::{LineTy, Lined};
use fx_base::{List, Memory, Text};
use fx_schemes::{BuiltinId, BuiltinType, KindBound, LabelWords, scheme_at};
use fx_types::LabelTy;
use fx_unify::Bindings;
use std::alloc::Global;

/// A line of the built-in at these words, or None where it has none.
pub(crate) fn line_at(
    alloc: Global,
    bindings: Bindings,
    id: BuiltinId,
    given: &List<LabelWords>,
) -> Result<Option<Lined>, Memory>
    requires { (b : Builtin) × IsId id b }
    ensures { (b : Builtin) → IsId id b → IfOk result (FindsLine (λ s L. IsTypedLine b given.now L) bindings) }
{
    match scheme_at(alloc, id, given)? {
        Some(scheme) => Ok(Some(fresh_line(alloc, bindings, scheme)?)),
        None => Ok(None),
    }
}

/// A line of the scheme.
pub(crate) fn fresh_line(
    alloc: Global,
    bindings: Bindings,
    scheme: BuiltinType,
) -> Result<Lined, Memory>
    requires { numbers_of (shown scheme) ≤ scheme.vars }
    ensures { IfOk result (λ r. Infers (λ s L. IsUse (shown scheme) L) bindings r.bindings (λ s. line_under s r.line)) }
{
    let BuiltinType {
        vars,
        ty,
        optional,
        pipe_label,
        labels,
        kinds,
    } = scheme;
    let first = match bindings.unused(vars.max(1)) {
        Some(number) => number,
        None => return Err(Memory),
    };
    let ty = ty.raised(alloc, first)?;
    let typed = bindings.fits_later(alloc, &ty)?;
    let raised = raise_entries(alloc, typed, optional.as_slice(), first)?;
    let bindings = ask_bounds(raised.bindings, kinds.as_slice(), first)?;
    let line = LineTy {
        ty,
        optional: raised.entries,
        pipe_label,
        labels,
    };
    Ok(Lined { bindings, line })
}

/// Bindings, and entries of a line.
#[derive(Debug, Drop)]
struct Raised {
    bindings: Bindings,
    entries: List<LabelTy>,
}

/// The entries with greater numbers, without those that an earlier one of their label hides, and
/// bindings under which they are types.
fn raise_entries(
    alloc: Global,
    bindings: Bindings,
    entries: &[LabelTy],
    by: u32,
) -> Result<Raised, Memory>
    requires { numbers_labels (labels_of (map label_term entries.now)) + by ≤ 2 ^ 32 }
    ensures { IfOk result (λ r. AreRaised by bindings entries.now r.bindings r.entries) }
{
    let mut asked = bindings;
    let mut raised = List::empty(alloc);
    for entry in entries {
        if !has_entry(raised.as_slice(), &entry.label) {
            let ty = entry.ty.raised(alloc, by)?;
            asked = asked.fits_later(alloc, &ty)?;
            let label = entry.label.copy()?;
            raised.push(LabelTy { label, ty })?;
        }
    }
    Ok(Raised {
        bindings: asked,
        entries: raised,
    })
}

/// Whether one of the entries has this label.
pub(crate) fn has_entry(entries: &[LabelTy], label: &Text) -> bool
    ensures { result ≡ listed label.now (entry_names entries.now) }
{
    for entry in entries {
        if *label == entry.label {
            return true;
        }
    }
    false
}

/// Asks that the bounds are kept by the numbers from `first` on.
fn ask_bounds(bindings: Bindings, bounds: &[KindBound], first: u32) -> Result<Bindings, Memory>
    requires { numbers_bounds bounds.now + first ≤ 2 ^ 32 }
    ensures ok { IfOk result (λ r. (s : Solution) → Solves s r ↔ (Solves s bindings × Keeps (from first s) bounds.now)) }
    ensures more { IfOk result (λ r. next_of bindings ≤ next_of r) }
{
    let mut asked = bindings;
    for bound in bounds {
        asked = asked.bound_later(bound.var + first, &bound.kinds, bound.span)?;
    }
    Ok(asked)
}
