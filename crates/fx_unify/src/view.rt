//! Fields as equations speak of them, without copies.

ghost use Rattle.std.specs.Prelude.{◌≡◌, IfOk, MatchOption, None, Some, option_map, slice_index_or};
ghost use Rattle.fx_types.specs.Instance.{Solution};
ghost use Rattle.fx_types.specs.Shape.{term, field_term};
ghost use Rattle.fx_unify.specs.Least.{Leads};
ghost use Rattle.fx_unify.specs.Part.{part, part_of, p_is, slot_node, value, Solved};
ghost use Rattle.fx_unify.specs.Store.{entry, root_at, rest_in, apart_of, rest_of, bound_to};
ghost use Rattle.fx_unify.specs.View.{part_seen, field_bound_to};

use crate::field::Field;
use crate::labels::has_text;
use crate::row::find_slot;
use crate::store::{Root, Store};
use fx_base::{Memory, Text};
use fx_types::{FieldTy, Ty};
use std::alloc::Global;

/// More steps than any machine takes.
const FUEL: u64 = u64::MAX;

/// A field of a row, lent.
#[derive(Clone, Copy)]
pub enum View<'a> {
    Absent,
    Is(&'a Ty),
    Var(u32),
    /// What the row of this variable has at the label.
    Slot(u32, &'a Text),
}

impl Field {
    pub(crate) fn view(&self) -> View
        ensures { part_seen result ≡ part self.now }
    {
        match self {
            Field::Absent => View::Absent,
            Field::Is(ty) => View::Is(ty),
            Field::Var(number) => View::Var(*number),
            Field::Slot(row, label) => View::Slot(*row, label),
        }
    }
}

impl<'a> View<'a> {
    /// A field of one's own.
    fn copy(self, alloc: Global) -> Result<Field, Memory>
        ensures { IfOk result (λ f. part f ≡ part_seen self.entry) }
    {
        match self {
            View::Absent => Ok(Field::Absent),
            View::Is(ty) => Ok(Field::Is(ty.copy(alloc)?)),
            View::Var(number) => Ok(Field::Var(number)),
            View::Slot(row, label) => Ok(Field::Slot(row, label.copy()?)),
        }
    }
}

/// What the field of a row has, by the row's term.
pub fn view_of(field: &FieldTy) -> View
    ensures { part_seen result ≡ part_of (field_term field.now) }
{
    match field {
        FieldTy::Absent => View::Absent,
        FieldTy::Is(ty) => View::Is(ty),
        FieldTy::Var(number) => View::Var(*number),
    }
}

impl Store {
    /// Follows bound variables up to a field that is none.
    pub(crate) fn resolve(&self, alloc: Global, field: Field) -> Result<Field, Memory>
        ensures same { IfOk result (λ f. (s : Solution) → Solved s (entry self.now) → value s (part f) ≡ value s (part field)) }
        ensures free { IfOk result (λ f. bound_to (entry self.now) (part f) ≡ None) }
    {
        match self.view_after(field.view()) {
            Some(next) => {
                let seen = self.seen(next)?;
                seen.copy(alloc)
            }
            None => Ok(field),
        }
    }

    /// Follows bound variables up to a field that is none.
    pub(crate) fn seen<'a>(&'a self, view: View<'a>) -> Result<View<'a>, Memory>
        ensures same { IfOk result (λ v. (s : Solution) → Solved s (entry self.now) → value s (part_seen v) ≡ value s (part_seen view.entry)) }
        ensures leads { IfOk result (λ v. Leads (entry self.now) (part_seen view.entry) (part_seen v)) }
        ensures free { IfOk result (λ v. bound_to (entry self.now) (part_seen v) ≡ None) }
    {
        let mut current = view;
        for _step in 0..FUEL {
            match self.view_after(current) {
                Some(next) => current = next,
                None => return Ok(current),
            }
        }
        Err(Memory)
    }

    /// What the variable that the field is is bound to; None where it is free, or no variable.
    fn view_after<'a>(&'a self, view: View<'a>) -> Option<View<'a>>
        ensures { option_map part_seen result ≡ bound_to (entry self.now) (part_seen view.entry) }
    {
        match view {
            View::Absent => None,
            View::Is(ty) => type_view(self.after_type(ty)),
            View::Var(number) => field_view(field_bound(self.fields.as_slice(), number)),
            View::Slot(row, label) => self.slot_seen(row, label),
        }
    }

    /// Follows bound fields up to a type, which may be a variable, or to a field that is not bound.
    pub(crate) fn seen_field<'a>(&'a self, view: View<'a>) -> Result<View<'a>, Memory>
        ensures same { IfOk result (λ v. (s : Solution) → Solved s (entry self.now) → value s (part_seen v) ≡ value s (part_seen view.entry)) }
        ensures leads { IfOk result (λ v. Leads (entry self.now) (part_seen view.entry) (part_seen v)) }
        ensures free { IfOk result (λ v. field_bound_to (entry self.now) (part_seen v) ≡ None) }
    {
        let mut current = view;
        for _step in 0..FUEL {
            match self.field_after(current) {
                Some(next) => current = next,
                None => return Ok(current),
            }
        }
        Err(Memory)
    }

    /// What the field is bound to, where it is no type.
    fn field_after<'a>(&'a self, view: View<'a>) -> Option<View<'a>>
        ensures { option_map part_seen result ≡ field_bound_to (entry self.now) (part_seen view.entry) }
    {
        match view {
            View::Absent => None,
            View::Is(_) => None,
            View::Var(number) => field_view(field_bound(self.fields.as_slice(), number)),
            View::Slot(row, label) => self.slot_seen(row, label),
        }
    }

    fn slot_seen<'a>(&'a self, row: u32, label: &'a Text) -> Option<View<'a>>
        ensures { option_map part_seen result ≡ entry self.now (slot_node row label.now) }
    {
        match find_slot(self.slots_of(row), label) {
            Some(field) => Some(field.view()),
            None => self.rest_seen(row, label),
        }
    }

    /// What the row variable has at the label by its rest.
    fn rest_seen<'a>(&'a self, row: u32, label: &'a Text) -> Option<View<'a>>
        ensures { option_map part_seen result ≡ rest_in (apart_of self.now row) (rest_of self.now row) label.now }
    {
        if has_text(self.apart_of(row), label) {
            return None;
        }
        match self.rest_of(row) {
            Some(root) => Some(view_of_root(root, label)),
            None => None,
        }
    }
}

fn type_view(ty: Option<&Ty>) -> Option<View>
    ensures { option_map part_seen result ≡ option_map (λ t. p_is (term t.now)) ty.entry }
{
    match ty {
        Some(ty) => Some(View::Is(ty)),
        None => None,
    }
}

/// What the field variable is bound to.
fn field_bound(items: &[Option<Field>], number: u32) -> Option<&Field>
    ensures { MatchOption result (slice_index_or items.now number None ≡ None) (λ f. slice_index_or items.now number None ≡ Some f.now) }
{
    let at = number as usize;
    if at < items.len() {
        return items[at].as_ref();
    }
    None
}

fn field_view(field: Option<&Field>) -> Option<View>
    ensures { option_map part_seen result ≡ option_map (λ f. part f.now) field.entry }
{
    match field {
        Some(field) => Some(field.view()),
        None => None,
    }
}

fn view_of_root<'a>(root: &'a Root, label: &'a Text) -> View<'a>
    ensures { part_seen result ≡ root_at label.now root.now }
{
    match root {
        Root::Default(field) => view_of(field),
        Root::Var(row) => View::Slot(*row, label),
    }
}
