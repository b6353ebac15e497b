//! Arguments of calls, and the types that they have under their labels.

ghost use Rattle.std.specs.Prelude.{◌≡◌, Option, Some, IfOk};
ghost use Rattle.fx_schemes.specs.declared.form.Form.TheVariants as forms;
ghost use Rattle.fx_schemes.specs.declared.list.Builtin.{Builtin};
ghost use Rattle.fx_schemes.specs.Builtins.{differ};
ghost use Rattle.fx_types.specs.Ground.{g_absent, listed};
ghost use Rattle.fx_ast.specs.Shape.{tree_of};
ghost use Rattle.fx_infer.specs.Callees.{arg_names, FindsArg, IsIdOf, Tells, WithEntry};
ghost use Rattle.fx_infer.specs.Environment.{scope};
ghost use Rattle.fx_infer.specs.Names.{env_under};
ghost use Rattle.fx_schemes.specs.Written.{form_at};
ghost use Rattle.fx_infer.specs.Words.{IsInForce};

use crate::ask::Inferred;
use crate::callee::{Callee, callee_of_name};
use crate::scope::Name;
use fx_ast::{Expr, Node, Prop};
use fx_base::{List, Memory, Text};
use fx_schemes::{BuiltinId, Form, form_of};
use fx_types::{LabelTy, Ty};
use fx_unify::Bindings;
use std::alloc::Global;

/// What was inferred of an argument: bindings, and its type, or none where it says words.
#[derive(Debug, Drop)]
pub(crate) struct Argument {
    pub(crate) bindings: Bindings,
    pub(crate) ty: Option<Ty>,
}

/// What was inferred of arguments: bindings, and their types under their labels.
#[derive(Debug, Drop)]
pub(crate) struct Arguments {
    pub(crate) bindings: Bindings,
    pub(crate) entries: List<LabelTy>,
}

/// An argument with a type.
pub(crate) fn argument_of(found: Inferred) -> Argument
    ensures bindings { result.bindings ≡ found.bindings }
    ensures ty { result.ty ≡ Some found.ty }
{
    let Inferred { bindings, ty } = found;
    Argument {
        bindings,
        ty: Some(ty),
    }
}

/// An argument that says words, or None where they aren't in force.
pub(crate) fn said(
    alloc: Global,
    names: &[Name<'_>],
    bindings: Bindings,
    form: Form,
    value: &Expr,
) -> Result<Option<Argument>, Memory>
    ensures { IfOk result (FindsArg (λ s f. (f ≡ g_absent) × IsInForce form (tree_of value.now) (scope (env_under s names.now))) bindings) }
{
    let force = in_force(alloc, names, form, value)?;
    if force {
        Ok(Some(Argument { bindings, ty: None }))
    } else {
        Ok(None)
    }
}

/// The arguments with one more, where it has a type.
pub(crate) fn with_argument(
    given: List<LabelTy>,
    label: &Text,
    argument: Argument,
) -> Result<Arguments, Memory>
    ensures bindings { IfOk result (λ r. r.bindings ≡ argument.bindings) }
    ensures entries { IfOk result (λ r. WithEntry given label.now argument.ty r.entries) }
{
    let Argument { bindings, ty } = argument;
    let mut entries = given;
    match ty {
        Some(ty) => {
            let label = label.copy()?;
            entries.push(LabelTy { label, ty })?;
            Ok(Arguments { bindings, entries })
        }
        None => Ok(Arguments { bindings, entries }),
    }
}

/// Whether no label stands twice.
pub(crate) fn once(args: &[Prop]) -> bool
    ensures { result ≡ differ (arg_names args.now) }
{
    let mut rest = args;
    while let [arg, after @ ..] = rest {
        if has_label(after, &arg.label) {
            return false;
        }
        rest = after;
    }
    true
}

/// Whether one of the arguments has this label.
fn has_label(args: &[Prop], label: &Text) -> bool
    ensures { result ≡ listed label.now (arg_names args.now) }
{
    for arg in args {
        if *label == arg.label {
            return true;
        }
    }
    false
}

/// The form of the label argument, where the call is of a built-in.
pub(crate) fn form_at(of: Option<BuiltinId>, label: &Text) -> Option<Form>
    requires { (b : Option Builtin) × IsIdOf of b }
    ensures { (b : Option Builtin) → IsIdOf of b → result ≡ form_at b label.now }
{
    match of {
        Some(id) => form_of(id, label),
        None => None,
    }
}

/// Whether the argument of this form is in force: a name is that of a built-in that nothing shadows.
pub(crate) fn in_force(
    alloc: Global,
    names: &[Name<'_>],
    form: Form,
    value: &Expr,
) -> Result<bool, Memory>
    ensures { IfOk result (λ r. Tells r (λ s. IsInForce form (tree_of value.now) (scope (env_under s names.now)))) }
{
    match form {
        Form::Name => names_builtin(alloc, names, value),
        Form::Text | Form::Texts | Form::Renames | Form::Listed => Ok(true),
    }
}

/// Whether the expression is no name, or the name of a built-in that nothing shadows.
fn names_builtin(alloc: Global, names: &[Name<'_>], value: &Expr) -> Result<bool, Memory>
    ensures { IfOk result (λ r. Tells r (λ s. IsInForce forms.Name (tree_of value.now) (scope (env_under s names.now)))) }
{
    match value.node.get() {
        Node::Name(label) => match callee_of_name(alloc, names, label)? {
            Callee::Native(_) => Ok(true),
            Callee::Literal => Ok(false),
            Callee::Value => Ok(false),
        },
        _ => Ok(true),
    }
}
