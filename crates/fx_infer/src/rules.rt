//! What rules ask of the types of an expression's parts, and the type that they give.

ghost use Rattle.std.specs.Prelude.{◌≡◌, map, option_map, IfOk};
ghost use Rattle.fx_types.specs.Instance.{Solution, ground, ground_labels, ground_pipe};
ghost use Rattle.fx_types.specs.Shape.{term, label_term, labels_of, pipe_of};
ghost use Rattle.fx_types.specs.Size.{IsType};
ghost use Rattle.fx_unify.specs.Solutions.{next_of};
ghost use Rattle.fx_infer.specs.Infers.{Infers, IsBelow, AreBelow, IsTypedIn};
ghost use Rattle.fx_infer.specs.Rules.{HasField, HasElement, Gives};

use crate::ask::{Inferred, any_type, equal, unused};
use crate::terms::{array_of, entry, function_of, record_of};
use fx_base::{List, Memory, Text};
use fx_types::{LabelTy, Rest, Ty};
use fx_unify::Bindings;
use std::alloc::Global;

/// What a record has at the label.
pub(crate) fn field_of(
    alloc: Global,
    bindings: Bindings,
    of: &Ty,
    label: &Text,
) -> Result<Inferred, Memory>
    requires below { IsBelow (next_of bindings) (term of.now) }
    requires typed { IsTypedIn bindings (term of.now) }
    ensures { IfOk result (λ r. Infers (λ s t. HasField label.now (ground s (term of.now)) t) bindings r.bindings (λ s. ground s (term r.ty))) }
{
    let number = unused(&bindings)?;
    let mut fields = List::empty(alloc);
    fields.push(entry(label, Ty::Var(number))?)?;
    let row = record_of(alloc, fields, Rest::Var(number))?;
    let bindings = bindings.later(alloc, of, &row)?;
    let ty = Ty::Var(number);
    Ok(Inferred { bindings, ty })
}

/// What an array has at a place.
pub(crate) fn element_of(
    alloc: Global,
    bindings: Bindings,
    of: &Ty,
    at: &Ty,
) -> Result<Inferred, Memory>
    requires of { IsBelow (next_of bindings) (term of.now) }
    requires at { IsBelow (next_of bindings) (term at.now) }
    ensures { IfOk result (λ r. Infers (λ s t. HasElement (ground s (term of.now)) (ground s (term at.now)) t) bindings r.bindings (λ s. ground s (term r.ty))) }
{
    let element = any_type(alloc, bindings)?;
    let array = array_of(alloc, element.ty.copy(alloc)?)?;
    let tied = equal(alloc, element.bindings, of, &array)?;
    let bindings = equal(alloc, tied, at, &Ty::Int)?;
    let ty = element.ty;
    Ok(Inferred { bindings, ty })
}

/// What a function that is a value gives for these arguments, and what comes by the pipe.
pub(crate) fn result_of(
    alloc: Global,
    bindings: Bindings,
    of: &Ty,
    args: List<LabelTy>,
    pipe: Option<Ty>,
) -> Result<Inferred, Memory>
    requires of { IsBelow (next_of bindings) (term of.now) }
    requires given { AreBelow (next_of bindings) (labels_of (map label_term args)) (pipe_of (option_map term pipe)) }
    ensures { IfOk result (λ r. Infers (λ s t. Gives (ground s (term of.now)) (ground_labels s (labels_of (map label_term args))) (ground_pipe s (pipe_of (option_map term pipe))) t) bindings r.bindings (λ s. ground s (term r.ty))) }
{
    let result = any_type(alloc, bindings)?;
    let copy = result.ty.copy(alloc)?;
    let function = function_of(alloc, args, pipe, copy)?;
    let bindings = equal(alloc, result.bindings, of, &function)?;
    let ty = result.ty;
    Ok(Inferred { bindings, ty })
}
