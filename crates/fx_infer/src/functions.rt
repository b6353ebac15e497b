//! Blocks of function literals: the names in them, and what their parameters make a function take.

ghost use Rattle.std.specs.Prelude.{◌≡◌, map, option_map, IfOk};
ghost use Rattle.fx_schemes.specs.Builtins.{differ};
ghost use Rattle.fx_ast.specs.Shape.{default_of};
ghost use Rattle.fx_types.specs.Ground.{g_fun, listed};
ghost use Rattle.fx_types.specs.Instance.{Solution, ground, ground_labels, ground_pipe};
ghost use Rattle.fx_types.specs.Shape.{term, label_term, labels_of, pipe_of};
ghost use Rattle.fx_types.specs.Size.{IsType};
ghost use Rattle.fx_types.specs.Term.{Label};
ghost use Rattle.fx_infer.specs.Functions.{any_pipe, are_declared, grown, inside, input_with, needs_with, one_pipe, params_on, start, takes_pipe};
ghost use Rattle.fx_infer.specs.Infers.{Infers};
ghost use Rattle.fx_infer.specs.Lists.{labels_in};

use crate::ask::{Inferred, unused};
use crate::labels::labels_differ;
use crate::scope::{Bound, Name};
use crate::terms::function_of;
use fx_ast::{Param, ParamKind, Prop};
use fx_base::{List, Memory, Text};
use fx_types::{LabelTy, Ty};
use fx_unify::Bindings;
use std::alloc::Global;

/// The names in a function's block, what the function requires, and what it takes from the pipe.
#[derive(Drop)]
pub(crate) struct Block<'a> {
    pub(crate) names: List<Name<'a>>,
    pub(crate) required: List<LabelTy>,
    pub(crate) pipe: Option<Ty>,
}

/// What was inferred: bindings, and a block.
#[derive(Drop)]
pub(crate) struct Scoped<'a> {
    pub(crate) bindings: Bindings,
    pub(crate) block: Block<'a>,
}

/// A new variable.
#[derive(Drop)]
pub(crate) struct Fresh {
    pub(crate) bindings: Bindings,
    pub(crate) number: u32,
}

/// A variable that may be any type.
pub(crate) fn any_variable(alloc: Global, bindings: Bindings) -> Result<Fresh, Memory>
    ensures { IfOk result (λ r. Infers (λ s t. IsType t) bindings r.bindings (λ s. s.type_of r.number)) }
{
    let number = unused(&bindings)?;
    let bindings = bindings.fits_later(alloc, &Ty::Var(number))?;
    Ok(Fresh { bindings, number })
}

/// The block of a function without parameters among these names.
pub(crate) fn outermost<'a>(alloc: Global, names: &[Name<'a>]) -> Result<Block<'a>, Memory>
    ensures { IfOk result (λ k. (s : Solution) → inside s k ≡ start s names.now) }
{
    let mut list = List::empty(alloc);
    list.extend(names)?;
    Ok(Block {
        names: list,
        required: List::empty(alloc),
        pipe: None,
    })
}

/// The block with one parameter more, whose type is that of the variable.
pub(crate) fn declare<'a>(
    block: Block<'a>,
    next: &'a Param,
    number: u32,
) -> Result<Block<'a>, Memory>
    ensures { IfOk result (λ k. (s : Solution) → inside s k ≡ grown next.now.label (default_of next.now.default) (s.type_of number) (inside s block.entry)) }
{
    let Block {
        mut names,
        required,
        pipe,
    } = block;
    let label = &next.label;
    let bound = Bound::Param(number);
    names.push(Name { label, bound })?;
    let required = take_label(required, next, number)?;
    let pipe = take_pipe(pipe, &next.default, number);
    Ok(Block {
        names,
        required,
        pipe,
    })
}

/// The labels with that of the parameter where it is required.
fn take_label(required: List<LabelTy>, next: &Param, number: u32) -> Result<List<LabelTy>, Memory>
    ensures { IfOk result (λ ls. (s : Solution) (l : Label) → ground_labels s (labels_in ls) l ≡ needs_with next.now.label (default_of next.now.default) (s.type_of number) (ground_labels s (labels_in required)) l) }
{
    match next.default {
        ParamKind::Required => {
            let mut labels = required;
            let label = next.label.copy()?;
            let ty = Ty::Var(number);
            labels.push(LabelTy { label, ty })?;
            Ok(labels)
        }
        ParamKind::Pipe => Ok(required),
        ParamKind::Value(_) => Ok(required),
    }
}

/// What comes by the pipe, or else the parameter where it is that of the pipe.
fn take_pipe(pipe: Option<Ty>, default: &ParamKind, number: u32) -> Option<Ty>
    ensures { (s : Solution) → ground_pipe s (pipe_of (option_map term result)) ≡ input_with (default_of default.now) (s.type_of number) (ground_pipe s (pipe_of (option_map term pipe))) }
{
    match pipe {
        Some(ty) => Some(ty),
        None => match default {
            ParamKind::Pipe => Some(Ty::Var(number)),
            ParamKind::Required => None,
            ParamKind::Value(_) => None,
        },
    }
}

/// The type of a function.
pub(crate) fn function_type(
    alloc: Global,
    bindings: Bindings,
    required: List<LabelTy>,
    pipe: Option<Ty>,
    gives: Ty,
) -> Result<Inferred, Memory>
    ensures { IfOk result (λ r. Infers (λ s t. IsType t × (t ≡ g_fun (ground_labels s (labels_in required)) (ground_pipe s (pipe_of (option_map term pipe))) (ground s (term gives)))) bindings r.bindings (λ s. ground s (term r.ty))) }
{
    let ty = function_of(alloc, required, pipe, gives)?;
    let bindings = bindings.fits_later(alloc, &ty)?;
    Ok(Inferred { bindings, ty })
}

/// Whether each name is declared once among the parameters and once in the block, and at most one
/// parameter is that of the pipe.
pub(crate) fn are_declared(params: &[Param], lets: &[Prop]) -> bool
    ensures { result ≡ are_declared params.now lets.now }
{
    params_differ(params) && labels_differ(lets) && one_pipe(params)
}

/// Whether no parameter stands twice.
fn params_differ(params: &[Param]) -> bool
    ensures { result ≡ differ (params_on params.now) }
{
    let mut rest = params;
    while let [first, after @ ..] = rest {
        if is_param(&first.label, after) {
            return false;
        }
        rest = after;
    }
    true
}

/// Whether one of the parameters has this label.
fn is_param(label: &Text, params: &[Param]) -> bool
    ensures { result ≡ listed label.now (params_on params.now) }
{
    for param in params {
        if *label == param.label {
            return true;
        }
    }
    false
}

/// Whether at most one parameter is that of the pipe.
fn one_pipe(params: &[Param]) -> bool
    ensures { result ≡ one_pipe params.now }
{
    let mut rest = params;
    while let [first, after @ ..] = rest {
        if takes_pipe(&first.default) {
            return !any_pipe(after);
        }
        rest = after;
    }
    true
}

/// Whether one of the parameters is that of the pipe.
fn any_pipe(params: &[Param]) -> bool
    ensures { result ≡ any_pipe params.now }
{
    for param in params {
        if takes_pipe(&param.default) {
            return true;
        }
    }
    false
}

/// Whether a parameter is that of the pipe.
fn takes_pipe(default: &ParamKind) -> bool
    ensures { result ≡ takes_pipe (default_of default.now) }
{
    match default {
        ParamKind::Pipe => true,
        ParamKind::Required => false,
        ParamKind::Value(_) => false,
    }
}
