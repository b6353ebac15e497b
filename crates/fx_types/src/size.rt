//! How many nodes a type has.

ghost use Rattle.std.specs.Prelude.{◌≡◌, ◌+◌, ◌-◌, ◌^◌, [], map, min, option_map, if◌then◌else◌};
ghost use Rattle.fx_types.specs.Ground as Ground;
ghost use Rattle.fx_types.specs.Ground.{listed};
ghost use Rattle.fx_types.specs.Instance.{ground, plainest};
ghost use Rattle.fx_types.specs.Nodes.{nodes, nodes_labels, nodes_pipe, nodes_field, nodes_fields, nodes_tail, capped};
ghost use Rattle.fx_types.specs.Shape.{term, field_term, rest_term, fun_term, entry_term, label_term, row_term, labels_of, fields_of, pipe_of};
ghost use Rattle.fx_types.specs.Size.{IsSize};
ghost use Rattle.fx_types.specs.Term.{fun, rec, is, default};

use crate::term::{FieldTy, FunTy, LabelField, LabelTy, Rest, RowTy, Ty};
use fx_base::{List, Text};

impl Ty {
    /// How many nodes the type has, or the greatest `u64` where it has that many or more. A type
    /// variable counts as an integer, a field variable as Absent, and a row variable as a row in
    /// which all is Absent.
    pub fn size(&self) -> u64
        ensures { IsSize (ground plainest (term self.now)) result }
    {
        ty_size(self)
    }
}

#[cycle(size)]
fn ty_size(ty: &Ty) -> u64
    ensures { result ≡ capped (nodes (term ty.now)) }
{
    match ty {
        Ty::Bool => 1,
        Ty::Int => 1,
        Ty::Text => 1,
        Ty::Time => 1,
        Ty::Span => 1,
        Ty::Pattern => 1,
        Ty::Done => 1,
        Ty::Var(_) => 1,
        Ty::Array(element) => ty_size(element.get()).saturating_add(1),
        Ty::Fun(function) => fun_size(function.get()),
        Ty::Rec(row) => row_size(row.get()),
        Ty::Stream(row) => row_size(row.get()),
    }
}

#[cycle(size)]
fn fun_size(function: &FunTy) -> u64
    ensures { result ≡ capped (nodes (fun (fun_term function.now).required (fun_term function.now).pipe (fun_term function.now).result)) }
{
    labels_size(&function.required)
        .saturating_add(pipe_size(&function.pipe))
        .saturating_add(ty_size(&function.result))
        .saturating_add(1)
}

#[cycle(size)]
fn labels_size(labels: &List<LabelTy>) -> u64
    ensures { result ≡ capped (nodes_labels [] (labels_of (map label_term labels.now))) }
{
    let entries = labels.as_slice();
    let mut size: u64 = 0;
    for (i, entry) in entries.iter().enumerate() {
        size = size.saturating_add(label_size(entry, &entries[..i]));
    }
    size
}

#[cycle(size)]
fn label_size(entry: &LabelTy, before: &[LabelTy]) -> u64
    ensures { result ≡ capped (if listed entry.now.label (map (λ e. e.label) before.now) then 0 else nodes (term entry.now.ty) + 1) }
{
    if is_required(&entry.label, before) {
        return 0;
    }
    ty_size(&entry.ty).saturating_add(1)
}

/// Whether one of the entries has this label.
fn is_required(label: &Text, entries: &[LabelTy]) -> bool
    ensures { result ≡ listed label.now (map (λ e. e.label) entries.now) }
{
    for entry in entries {
        if *label == entry.label {
            return true;
        }
    }
    false
}

#[cycle(size)]
fn pipe_size(pipe: &Option<Ty>) -> u64
    ensures { result ≡ capped (nodes_pipe (pipe_of (option_map term pipe.now))) }
{
    match pipe {
        Some(ty) => ty_size(ty),
        None => 0,
    }
}

#[cycle(size)]
fn row_size(row: &RowTy) -> u64
    ensures { result ≡ capped (nodes (rec (row_term row.now).fields (row_term row.now).rest)) }
{
    fields_size(&row.fields)
        .saturating_add(rest_size(&row.rest))
        .saturating_add(1)
}

#[cycle(size)]
fn fields_size(fields: &List<LabelField>) -> u64
    ensures { result ≡ capped (nodes_fields [] (fields_of (map entry_term fields.now))) }
{
    let entries = fields.as_slice();
    let mut size: u64 = 0;
    for (i, entry) in entries.iter().enumerate() {
        size = size.saturating_add(entry_size(entry, &entries[..i]));
    }
    size
}

#[cycle(size)]
fn entry_size(entry: &LabelField, before: &[LabelField]) -> u64
    ensures { result ≡ capped (if listed entry.now.label (map (λ e. e.label) before.now) then 0 else nodes_field (field_term entry.now.field)) }
{
    let size = field_size(&entry.field);
    // most fields count nothing, and their labels needn't be looked for
    if size == 0 {
        return 0;
    }
    if is_field(&entry.label, before) {
        return 0;
    }
    size
}

/// Whether one of the entries has this label.
fn is_field(label: &Text, entries: &[LabelField]) -> bool
    ensures { result ≡ listed label.now (map (λ e. e.label) entries.now) }
{
    for entry in entries {
        if *label == entry.label {
            return true;
        }
    }
    false
}

#[cycle(size)]
fn field_size(field: &FieldTy) -> u64
    ensures { result ≡ capped (nodes_field (field_term field.now)) }
{
    match field {
        FieldTy::Absent => 0,
        FieldTy::Is(ty) => part_size(ty),
        FieldTy::Var(_) => 0,
    }
}

/// What a field of this type counts.
#[cycle(size)]
fn part_size(ty: &Ty) -> u64
    ensures { result ≡ capped (nodes_field (is (term ty.now))) }
{
    if is_column(ty) {
        return 0;
    }
    ty_size(ty).saturating_add(1)
}

/// Whether the type is of a column kind, with integers for type variables.
fn is_column(ty: &Ty) -> bool
    ensures { result ≡ Ground.is_column (ground plainest (term ty.now)) }
{
    match ty {
        Ty::Bool => true,
        Ty::Int => true,
        Ty::Text => true,
        Ty::Time => true,
        Ty::Var(_) => true,
        Ty::Span => false,
        Ty::Pattern => false,
        Ty::Done => false,
        Ty::Array(_) => false,
        Ty::Fun(_) => false,
        Ty::Rec(_) => false,
        Ty::Stream(_) => false,
    }
}

/// What the labels that a row doesn't list count: nothing, or more than any number.
#[cycle(size)]
fn rest_size(rest: &Rest) -> u64
    ensures { result ≡ nodes_tail (rest_term rest.now) }
{
    match rest {
        Rest::Default(field) => default_size(field),
        Rest::Var(_) => 0,
    }
}

#[cycle(size)]
fn default_size(field: &FieldTy) -> u64
    ensures { result ≡ nodes_tail (default (field_term field.now)) }
{
    if field_size(field) == 0 {
        return 0;
    }
    u64::MAX
}
