//! Equal copies of trees. They share the parts of what they copy.

ghost use Rattle.std.specs.Prelude.{◌≡◌, IfOk};

use crate::expr::{Body, Expr, Param, ParamKind, Prop};
use crate::script::{Form, Script, Statement};
use fx_base::{List, Memory, Text};
use std::alloc::Global;

impl Script {
    /// An equal copy, places included.
    pub fn copy(&self, alloc: Global) -> Result<Script, Memory>
        ensures { IfOk result (λ s. s ≡ self.now) }
    {
        Ok(Script {
            package: copy_name(&self.package)?,
            statements: copy_statements(alloc, &self.statements)?,
        })
    }
}

impl Statement {
    /// An equal copy, places included.
    pub fn copy(&self, alloc: Global) -> Result<Statement, Memory>
        ensures { IfOk result (λ s. s ≡ self.now) }
    {
        Ok(Statement {
            place: self.place,
            form: copy_form(alloc, &self.form)?,
        })
    }
}

impl Expr {
    /// An equal copy, places included. It allocates nothing.
    pub fn copy(&self) -> Result<Expr, Memory>
        ensures { IfOk result (λ e. e ≡ self.now) }
    {
        Ok(Expr {
            place: self.place,
            node: self.node.copy()?,
        })
    }
}

impl Body {
    /// An equal copy, places included.
    pub fn copy(&self, alloc: Global) -> Result<Body, Memory>
        ensures { IfOk result (λ b. b ≡ self.now) }
    {
        Ok(Body {
            lets: copy_props(alloc, &self.lets)?,
            result: self.result.copy()?,
        })
    }
}

impl Param {
    /// An equal copy, places included. It allocates nothing.
    pub fn copy(&self) -> Result<Param, Memory>
        ensures { IfOk result (λ p. p ≡ self.now) }
    {
        Ok(Param {
            label: self.label.copy()?,
            default: copy_kind(&self.default)?,
        })
    }
}

fn copy_statements(alloc: Global, statements: &List<Statement>) -> Result<List<Statement>, Memory>
    ensures { IfOk result (λ ss. ss ≡ statements.now) }
{
    let mut copies = List::empty(alloc);
    for statement in statements.as_slice() {
        copies.push(statement.copy(alloc)?)?;
    }
    Ok(copies)
}

fn copy_form(alloc: Global, form: &Form) -> Result<Form, Memory>
    ensures { IfOk result (λ f. f ≡ form.now) }
{
    match form {
        Form::Import { alias, path } => Ok(Form::Import {
            alias: copy_name(alias)?,
            path: path.copy()?,
        }),
        Form::Assign { name, value } => Ok(Form::Assign {
            name: name.copy()?,
            value: value.copy()?,
        }),
        Form::Task { value } => Ok(Form::Task {
            value: value.copy()?,
        }),
        Form::Show { value } => Ok(Form::Show {
            value: value.copy()?,
        }),
    }
}

fn copy_props(alloc: Global, props: &List<Prop>) -> Result<List<Prop>, Memory>
    ensures { IfOk result (λ ps. ps ≡ props.now) }
{
    let mut copies = List::empty(alloc);
    for prop in props.as_slice() {
        copies.push(Prop {
            label: prop.label.copy()?,
            value: prop.value.copy()?,
        })?;
    }
    Ok(copies)
}

fn copy_kind(kind: &ParamKind) -> Result<ParamKind, Memory>
    ensures { IfOk result (λ k. k ≡ kind.now) }
{
    match kind {
        ParamKind::Required => Ok(ParamKind::Required),
        ParamKind::Pipe => Ok(ParamKind::Pipe),
        ParamKind::Value(value) => Ok(ParamKind::Value(value.copy()?)),
    }
}

fn copy_name(name: &Option<Text>) -> Result<Option<Text>, Memory>
    ensures { IfOk result (λ n. n ≡ name.now) }
{
    match name {
        Some(text) => Ok(Some(text.copy()?)),
        None => Ok(None),
    }
}
