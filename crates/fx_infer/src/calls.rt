//! Calls by a line: what is given against what may be given, and the result.

ghost use Rattle.std.specs.Prelude.{◌≡◌, true, IfOk, option_map};
ghost use Rattle.std.specs.Option.{option_copied};
ghost use Rattle.fx_schemes.specs.Builtins.{differ};
ghost use Rattle.fx_schemes.specs.Line.{take_out};
ghost use Rattle.fx_types.specs.Instance.{Solution, ground, ground_labels, ground_pipe};
ghost use Rattle.fx_types.specs.Shape.{term, pipe_of};
ghost use Rattle.fx_types.specs.Term.{Label, no_pipe};
ghost use Rattle.fx_unify.specs.Solutions.{Solves, next_of};
ghost use Rattle.fx_infer.specs.Calls.{IsCalled, IsApart, AreSplit, entry_of};
ghost use Rattle.fx_infer.specs.Finds.{Finds, line_under};
ghost use Rattle.fx_infer.specs.Infers.{AreBelow, IsBelow};
ghost use Rattle.fx_infer.specs.Lists.{entry_names, labels_in};

use crate::ask::Inferred;
use crate::lines::LineTy;
use crate::rules::result_of;
use fx_base::{List, Memory, Text};
use fx_types::{LabelTy, Ty};
use fx_unify::Bindings;
use std::alloc::Global;

/// What the line gives for these arguments, and what comes by the pipe. None where what the line
/// takes from the pipe isn't given at all.
pub(crate) fn called(
    alloc: Global,
    bindings: Bindings,
    line: &LineTy,
    args: &[LabelTy],
    pipe: Option<Ty>,
) -> Result<Option<Inferred>, Memory>
    requires once { differ (entry_names args.now) ≡ true }
    requires apart { (s : Solution) → Solves s bindings → IsApart (line_under s line.now) }
    requires line { IsBelow (next_of bindings) (term line.now.ty) }
    requires optional { AreBelow (next_of bindings) (labels_in line.now.optional) no_pipe }
    requires given { AreBelow (next_of bindings) (labels_in args.now) (pipe_of (option_map term pipe)) }
    ensures { IfOk result (Finds (λ s t. IsCalled (ground_pipe s (pipe_of (option_map term pipe))) (ground_labels s (labels_in args.now)) (line_under s line.now) t) bindings) }
{
    let divided = divide(alloc, bindings, args, line.optional.as_slice())?;
    let needs = divided.needs;
    let asked = divided.bindings;
    if let Some(input) = pipe {
        return Ok(Some(result_of(alloc, asked, &line.ty, needs, Some(input))?));
    }
    let label = match &line.pipe_label {
        Some(label) => label,
        None => return Ok(Some(result_of(alloc, asked, &line.ty, needs, None)?)),
    };
    let input = match find_entry(needs.as_slice(), label) {
        Some(entry) => entry.ty.copy(alloc)?,
        None => return Ok(None),
    };
    let others = without(alloc, needs.as_slice(), label)?;
    Ok(Some(result_of(alloc, asked, &line.ty, others, Some(input))?))
}

/// Bindings, and the arguments that are required.
#[derive(Debug, Drop)]
struct Divided {
    bindings: Bindings,
    needs: List<LabelTy>,
}

/// The arguments that may not be left out, and bindings under which the others have their types.
fn divide(
    alloc: Global,
    bindings: Bindings,
    args: &[LabelTy],
    optional: &[LabelTy],
) -> Result<Divided, Memory>
    requires { differ (entry_names args.now) ≡ true }
    ensures { IfOk result (λ r. AreSplit bindings args.now optional.now r.bindings r.needs) }
{
    let mut asked = bindings;
    let mut needs = List::empty(alloc);
    for arg in args {
        match find_entry(optional, &arg.label) {
            Some(entry) => {
                asked = asked.later(alloc, &arg.ty, &entry.ty)?;
            }
            None => {
                let label = arg.label.copy()?;
                let ty = arg.ty.copy(alloc)?;
                needs.push(LabelTy { label, ty })?;
            }
        }
    }
    Ok(Divided {
        bindings: asked,
        needs,
    })
}

/// The first entry with this label.
fn find_entry<'a>(entries: &'a [LabelTy], label: &Text) -> Option<&'a LabelTy>
    ensures { option_copied result ≡ entry_of label.now entries.now }
{
    for entry in entries {
        if *label == entry.label {
            return Some(entry);
        }
    }
    None
}

/// The entries with other labels.
fn without(alloc: Global, entries: &[LabelTy], label: &Text) -> Result<List<LabelTy>, Memory>
    ensures { IfOk result (λ es. (s : Solution) (l : Label) → ground_labels s (labels_in es) l ≡ take_out label.now (ground_labels s (labels_in entries.now)) l) }
{
    let mut others = List::empty(alloc);
    for entry in entries {
        if *label != entry.label {
            let label = entry.label.copy()?;
            let ty = entry.ty.copy(alloc)?;
            others.push(LabelTy { label, ty })?;
        }
    }
    Ok(others)
}
