//! The numbers that variables have in a kept type.

ghost use Rattle.std.specs.Prelude.{◌≡◌, ◌==◌, false, Some, None, IfOk, OnOk};
ghost use Rattle.fx_types.specs.Ground.{listed};
ghost use Rattle.fx_types.specs.Term.{Label};
ghost use Rattle.fx_unify.specs.Part.{p_slot};
ghost use Rattle.fx_unify.specs.Rows.{Grows};
ghost use Rattle.fx_unify.specs.View.{part_seen};
ghost use Rattle.fx_generalize.specs.declared.names.FieldName.TheVariants as names;
ghost use Rattle.fx_generalize.specs.Named.{place, is_field, type_place, row_place, field_place, AreNamedAmong};

use crate::unread::Unread;
use fx_base::{Memory, Text};
use fx_unify::{Root, View, add_label};
use std::alloc::Global;

/// A field variable, or the field of a row variable at a label.
#[derive(Drop)]
pub(crate) enum FieldName {
    Var(u32),
    Slot(u32, Text),
}

/// Which variables have a number: each has that of its first place.
#[derive(Drop)]
pub(crate) struct Names {
    pub(crate) types: Vec<u32>,
    pub(crate) fields: Vec<FieldName>,
    pub(crate) rows: Vec<u32>,
}

impl Names {
    pub(crate) fn none(alloc: Global) -> Names {
        Names {
            types: Vec::new(alloc),
            fields: Vec::new(alloc),
            rows: Vec::new(alloc),
        }
    }

    /// The number of a type variable.
    pub(crate) fn type_at(&self, number: u32) -> Option<usize>
        ensures { result ≡ type_place self.now number }
    {
        place_of(self.types.as_slice(), number)
    }

    /// The number of a row variable.
    pub(crate) fn row_at(&self, number: u32) -> Option<usize>
        ensures { result ≡ row_place self.now number }
    {
        place_of(self.rows.as_slice(), number)
    }

    /// The number of a field.
    pub(crate) fn field_at(&self, view: View) -> Option<usize>
        ensures { result ≡ field_place self.now (part_seen view.entry) }
    {
        for (i, name) in self.fields.as_slice().iter().enumerate() {
            if name.is(view) {
                return Some(i);
            }
        }
        None
    }
}

impl Names {
    /// The number of a type variable that has one.
    pub(crate) fn type_number(&self, number: u32) -> Result<u32, Unread>
        ensures { IfOk result (λ i. type_place self.now number ≡ Some i) }
    {
        match self.type_at(number) {
            Some(at) => number_at(at),
            None => Err(Unread::Type(number)),
        }
    }

    /// The number of a row variable that has one.
    pub(crate) fn row_number(&self, number: u32) -> Result<u32, Unread>
        ensures { IfOk result (λ i. row_place self.now number ≡ Some i) }
    {
        match self.row_at(number) {
            Some(at) => number_at(at),
            None => Err(Unread::Row(number)),
        }
    }

    /// The number of a field that has one.
    pub(crate) fn field_number(&self, view: View, name: FieldName) -> Result<u32, Unread>
        ensures { IfOk result (λ i. field_place self.now (part_seen view.entry) ≡ Some i) }
    {
        match self.field_at(view) {
            Some(at) => number_at(at),
            None => Err(Unread::Field(name)),
        }
    }

    /// Gives a number to what had none.
    pub(crate) fn name(&mut self, unread: Unread) -> Result<(), Memory> {
        match unread {
            Unread::Type(number) => Ok(self.types.push(number)?),
            Unread::Field(name) => Ok(self.fields.push(name)?),
            Unread::Row(number) => Ok(self.rows.push(number)?),
            Unread::Memory => Err(Memory),
        }
    }

    /// Adds the labels at which a field of the root has a number of its own.
    pub(crate) fn add_named(&self, root: &Root, labels: &mut Vec<Text>) -> Result<(), Memory>
        ensures among { OnOk result (AreNamedAmong self.now root.now labels.new.items) }
        ensures grows { OnOk result (Grows labels.old.items labels.new.items) }
    {
        match root {
            Root::Default(_) => Ok(()),
            Root::Var(row) => add_fields(self.fields.as_slice(), *row, labels),
        }
    }
}

/// Adds the labels of the named fields of the row variable.
fn add_fields(fields: &[FieldName], row: u32, labels: &mut Vec<Text>) -> Result<(), Memory>
    ensures among { OnOk result ((l : Label) → listed l labels.new.items ≡ false → place (is_field (p_slot row l)) fields.now ≡ None) }
    ensures grows { OnOk result (Grows labels.old.items labels.new.items) }
{
    for name in fields {
        name.add_label(row, labels)?;
    }
    Ok(())
}

/// The number that a place is.
fn number_at(place: usize) -> Result<u32, Unread>
    ensures { IfOk result (λ i. place ≡ i) }
{
    match u32::try_from(place) {
        Ok(number) => Ok(number),
        Err(_) => Err(Unread::Memory),
    }
}

impl FieldName {
    /// Adds the label where the field is one of the row variable.
    fn add_label(&self, row: u32, labels: &mut Vec<Text>) -> Result<(), Memory>
        ensures there { OnOk result ((l : Label) → listed l labels.new.items ≡ false → is_field (p_slot row l) self.now ≡ false) }
        ensures grows { OnOk result (Grows labels.old.items labels.new.items) }
    {
        match self {
            FieldName::Var(_) => Ok(()),
            FieldName::Slot(other, label) => {
                if row == *other {
                    return add_label(labels, label);
                }
                Ok(())
            }
        }
    }

    /// Whether the field is this one.
    fn is(&self, view: View) -> bool
        ensures { result ≡ is_field (part_seen view.entry) self.now }
    {
        match self {
            FieldName::Var(number) => is_variable(view, *number),
            FieldName::Slot(row, label) => is_slot(view, *row, label),
        }
    }
}

fn is_variable(view: View, number: u32) -> bool
    ensures { result ≡ is_field (part_seen view.entry) (names.Var number) }
{
    match view {
        View::Var(other) => other == number,
        _ => false,
    }
}

pub(crate) fn is_slot(view: View, row: u32, label: &Text) -> bool
    ensures { result ≡ is_field (part_seen view.entry) (names.Slot row label.now) }
{
    match view {
        View::Slot(other, at) => other == row && *at == *label,
        _ => false,
    }
}

/// The first place of the number.
fn place_of(numbers: &[u32], number: u32) -> Option<usize>
    ensures { result ≡ place (λ n. number == n) numbers.now }
{
    for (i, other) in numbers.iter().enumerate() {
        if number == *other {
            return Some(i);
        }
    }
    None
}
