//! The statements of a script, one after another.

ghost use Rattle.std.specs.Prelude.{◌≡◌, ◌<◌, [], ◌∷◌, ◌++◌, None, map, length, IfOk};
ghost use Rattle.fx_ast.specs.Shape.{tree_of, statement_form, statement_tree};
ghost use Rattle.fx_ast.specs.Tree.{import, assign, show};
ghost use Rattle.fx_types.specs.Ground.{listed};
ghost use Rattle.fx_unify.specs.declared.fault.UnifyFault.TheVariants as faults;
ghost use Rattle.fx_infer.specs.Environment.{Env, names_of};
ghost use Rattle.fx_infer.specs.Native.{packages};
ghost use Rattle.fx_infer.specs.Script.{import_name};
ghost use Rattle.fx_infer.specs.Statements.{IsEnv, Settles, TellsTyped, Leads, FirstUntyped};

use crate::ask::Inferred;
use crate::infer::infer;
use crate::scope::{Bound, Name, newest};
use crate::stop::Stop;
use fx_ast::{Expr, Form, Statement};
use fx_base::{List, Memory, Text};
use fx_unify::{Bindings, UnifyFault};
use std::alloc::Global;

/// How many steps inference goes down.
const ROOM: u32 = 1 << 16;

/// The number of the first statement without a typing, None where all have one.
pub(crate) fn first_untyped(alloc: Global, statements: &[Statement]) -> Result<Option<u32>, Stop>
    requires { length statements.now < 4294967295 }
    ensures { IfOk result (FirstUntyped (map statement_tree statements.now)) }
{
    let mut names = List::empty(alloc);
    let mut number = 0;
    for statement in statements {
        number += 1;
        names = match names_after(alloc, names, &statement.form)? {
            Some(names) => names,
            None => return Ok(Some(number)),
        };
    }
    Ok(None)
}

/// The names behind the statement, None where it breaks the rules.
fn names_after<'a>(
    alloc: Global,
    names: List<Name<'a>>,
    form: &'a Form,
) -> Result<Option<List<Name<'a>>>, Stop>
    requires { (env : Env) × IsEnv env names }
    ensures { (env : Env) → IsEnv env names.entry → IfOk result (Leads env (statement_form form.now)) }
{
    match form {
        Form::Import { alias, path } => names_imported(names, alias, path),
        Form::Assign { name, value } => names_assigned(alloc, names, name, value),
        Form::Task { value } => names_shown(alloc, names, value),
        Form::Show { value } => names_shown(alloc, names, value),
    }
}

/// The names, None where the expression has no type.
fn names_shown<'a>(
    alloc: Global,
    names: List<Name<'a>>,
    value: &'a Expr,
) -> Result<Option<List<Name<'a>>>, Stop>
    requires { (env : Env) × IsEnv env names }
    ensures { (env : Env) → IsEnv env names.entry → IfOk result (Leads env (show (tree_of value.now))) }
{
    let typed = is_typed(alloc, names.as_slice(), value)?;
    if typed { Ok(Some(names)) } else { Ok(None) }
}

/// The names with that of an imported package.
fn names_imported<'a>(
    names: List<Name<'a>>,
    alias: &'a Option<Text>,
    path: &'a Text,
) -> Result<Option<List<Name<'a>>>, Stop>
    requires { (env : Env) × IsEnv env names }
    ensures { (env : Env) → IsEnv env names.entry → IfOk result (Leads env (import alias.now path.now)) }
{
    let label = import_name(alias, path);
    if is_taken(names.as_slice(), label) {
        return Ok(None);
    }
    if !is_package(path) {
        return Ok(None);
    }
    let bound = Bound::Imported(path);
    let more = with_name(names, Name { label, bound })?;
    Ok(Some(more))
}

/// The names with one that stands for the expression.
fn names_assigned<'a>(
    alloc: Global,
    names: List<Name<'a>>,
    label: &'a Text,
    value: &'a Expr,
) -> Result<Option<List<Name<'a>>>, Stop>
    requires { (env : Env) × IsEnv env names }
    ensures { (env : Env) → IsEnv env names.entry → IfOk result (Leads env (assign label.now (tree_of value.now))) }
{
    let before = names.as_slice();
    if is_taken(before, label) {
        return Ok(None);
    }
    let typed = is_typed(alloc, before, value)?;
    if !typed {
        return Ok(None);
    }
    let bound = Bound::Assigned(value);
    let more = with_name(names, Name { label, bound })?;
    Ok(Some(more))
}

/// The names with one more.
fn with_name<'a>(names: List<Name<'a>>, name: Name<'a>) -> Result<List<Name<'a>>, Memory>
    ensures { IfOk result (λ ns. ns ≡ names.entry ++ name.entry ∷ []) }
{
    let mut names = names;
    names.push(name)?;
    Ok(names)
}

/// Whether one of the names has the label.
fn is_taken(names: &[Name<'_>], label: &Text) -> bool
    ensures { (env : Env) → IsEnv env names.now → result ≡ listed label.now (names_of env) }
{
    match newest(names, label) {
        Some(_) => true,
        None => false,
    }
}

/// The name of an import: its alias, or else its path.
fn import_name<'a>(alias: &'a Option<Text>, path: &'a Text) -> &'a Text
    ensures { result.now ≡ import_name alias.now path.now }
{
    match alias {
        Some(alias) => alias,
        None => path,
    }
}

/// Whether there is a package of this path.
fn is_package(path: &Text) -> bool
    ensures { result ≡ listed path.now packages }
{
    let path = path.as_str();
    path == "array" || path == "date" || path == "join" || path == "series" || path == "strings"
}

/// Whether the expression has a type.
fn is_typed<'a>(alloc: Global, names: &[Name<'a>], value: &'a Expr) -> Result<bool, Stop>
    requires { (env : Env) × IsEnv env names.now }
    ensures { (env : Env) → IsEnv env names.now → IfOk result (TellsTyped env (tree_of value.now)) }
{
    let found = type_of(alloc, names, value)?;
    Ok(found.is_some())
}

/// A term for the types of the expression, under settled bindings; None where it has none.
pub(crate) fn type_of<'a>(
    alloc: Global,
    names: &[Name<'a>],
    value: &'a Expr,
) -> Result<Option<Inferred>, Stop>
    requires { (env : Env) × IsEnv env names.now }
    ensures { (env : Env) → IsEnv env names.now → IfOk result (Settles env (tree_of value.now)) }
{
    let none = Bindings::empty(alloc)?;
    let found = match infer(alloc, names, none, value, ROOM)? {
        Some(found) => found,
        None => return Ok(None),
    };
    let ty = found.ty;
    match found.bindings.settle(alloc) {
        Ok(bindings) => Ok(Some(Inferred { bindings, ty })),
        Err(fault) => untyped(fault),
    }
}

/// None where no solution is left.
fn untyped(fault: UnifyFault) -> Result<Option<Inferred>, Stop>
    ensures { IfOk result (λ o. (o ≡ None) × (fault ≡ faults.Clash)) }
{
    match fault {
        UnifyFault::Clash => Ok(None),
        UnifyFault::Memory => Err(Stop::Memory),
    }
}
