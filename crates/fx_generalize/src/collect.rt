//! The variables of a type that nothing is bound to, in the order in which they first stand there.

use crate::apart::are_apart;
use crate::names::{FieldName, Names, is_slot};
use fx_base::{Memory, Text};
use fx_types::{FunTy, LabelField, Rest, RowTy, Ty};
use fx_unify::{Bindings, Root, View, has_label, view_of};
use std::alloc::Global;

/// The variables of a type.
pub(crate) fn collect(alloc: Global, bindings: &Bindings, ty: &Ty) -> Result<Names, Memory> {
    let mut names = Names::none(alloc);
    let collector = Collector { alloc, bindings };
    collector.collect_type(&mut names, ty, u64::MAX)?;
    Ok(names)
}

/// The variables of a type, and those of each term that is to be a type and shares one with it, or
/// with another such term.
pub(crate) fn collect_all(alloc: Global, bindings: &Bindings, ty: &Ty) -> Result<Names, Memory> {
    let mut names = collect(alloc, bindings, ty)?;
    let collector = Collector { alloc, bindings };
    for _round in 0..bindings.types().len() {
        let before = names.count();
        for other in bindings.types() {
            collector.collect_shared(&mut names, other)?;
        }
        if names.count() == before {
            break;
        }
    }
    Ok(names)
}

/// Where variables are looked for.
#[derive(Clone, Copy)]
struct Collector<'a> {
    alloc: Global,
    bindings: &'a Bindings,
}

impl<'a> Collector<'a> {
    /// Adds the variables of the term where it shares one.
    fn collect_shared(&self, names: &mut Names, ty: &Ty) -> Result<(), Memory> {
        let own = collect(self.alloc, self.bindings, ty)?;
        if are_apart(names, &own) {
            return Ok(());
        }
        self.collect_type(names, ty, u64::MAX)
    }

    #[cycle(collect)]
    fn collect_type(&self, names: &mut Names, ty: &Ty, fuel: u64) -> Result<(), Memory> {
        if fuel == 0 {
            return Err(Memory);
        }
        match self.bindings.head(ty)? {
            Ty::Array(element) => self.collect_type(names, element.get(), fuel - 1),
            Ty::Fun(function) => self.collect_function(names, function.get(), fuel - 1),
            Ty::Rec(row) => self.collect_row(names, row.get(), fuel - 1),
            Ty::Stream(row) => self.collect_row(names, row.get(), fuel - 1),
            Ty::Var(number) => names.add_type(*number),
            _ => Ok(()),
        }
    }

    #[cycle(collect)]
    fn collect_function(
        &self,
        names: &mut Names,
        function: &FunTy,
        fuel: u64,
    ) -> Result<(), Memory> {
        for entry in function.required.as_slice() {
            self.collect_type(names, &entry.ty, fuel)?;
        }
        if let Some(ty) = &function.pipe {
            self.collect_type(names, ty, fuel)?;
        }
        self.collect_type(names, &function.result, fuel)
    }

    #[cycle(collect)]
    fn collect_row(&self, names: &mut Names, row: &RowTy, fuel: u64) -> Result<(), Memory> {
        for entry in row.fields.as_slice() {
            let found = self.bindings.seen(view_of(&entry.field))?;
            self.collect_field(names, found, fuel)?;
        }
        match &row.rest {
            Rest::Default(field) => {
                let found = self.bindings.seen(view_of(field))?;
                self.collect_field(names, found, fuel)
            }
            Rest::Var(number) => self.collect_open(names, row.fields.as_slice(), *number, fuel),
        }
    }

    /// A field that a row shares with its root has no number of its own here.
    #[cycle(collect)]
    fn collect_open(
        &self,
        names: &mut Names,
        hidden: &[LabelField],
        row: u32,
        fuel: u64,
    ) -> Result<(), Memory> {
        let mut labels = Vec::new(self.alloc);
        let root = self
            .bindings
            .follow(self.alloc, &Rest::Var(row), &mut labels)?;
        for label in labels.as_slice() {
            if has_label(hidden, label) {
                continue;
            }
            let found = self.bindings.seen(View::Slot(row, label))?;
            if is_of_root(&root, label, found) {
                continue;
            }
            self.collect_field(names, found, fuel)?;
        }
        match &root {
            Root::Default(field) => {
                let found = self.bindings.seen(view_of(field))?;
                self.collect_field(names, found, fuel)
            }
            Root::Var(number) => names.add_row(*number),
        }
    }

    /// What is found at the end of a way.
    #[cycle(collect)]
    fn collect_field(&self, names: &mut Names, found: View, fuel: u64) -> Result<(), Memory> {
        match found {
            View::Absent => Ok(()),
            View::Is(ty) => self.collect_type(names, ty, fuel),
            View::Var(number) => names.add_field(found, FieldName::Var(number)),
            View::Slot(row, label) => {
                let name = FieldName::Slot(row, label.copy()?);
                names.add_field(found, name)
            }
        }
    }
}

fn is_of_root(root: &Root, label: &Text, found: View) -> bool {
    match root {
        Root::Default(_) => false,
        Root::Var(row) => is_slot(found, *row, label),
    }
}

impl Names {
    /// How many variables have a number.
    fn count(&self) -> usize {
        self.types
            .len()
            .saturating_add(self.fields.len())
            .saturating_add(self.rows.len())
    }

    fn add_type(&mut self, number: u32) -> Result<(), Memory> {
        if self.type_at(number).is_none() {
            self.types.push(number)?;
        }
        Ok(())
    }

    fn add_row(&mut self, number: u32) -> Result<(), Memory> {
        if self.row_at(number).is_none() {
            self.rows.push(number)?;
        }
        Ok(())
    }

    fn add_field(&mut self, found: View, name: FieldName) -> Result<(), Memory> {
        if self.field_at(found).is_none() {
            self.fields.push(name)?;
        }
        Ok(())
    }
}
