//! Ways along what is bound: that each comes to an end. Then there is a solution for any values of
//! the variables that nothing is bound to.

ghost use Rattle.std.specs.Prelude.{◌≡◌, ◌<◌, ℕ, true, OnOk};
ghost use Rattle.fx_types.specs.Ground.{listed};
ghost use Rattle.fx_types.specs.Term.{Label, type_variable};
ghost use Rattle.fx_unify.specs.Part.{p_is, p_field, p_slot};
ghost use Rattle.fx_unify.specs.Store.{entry};
ghost use Rattle.fx_generalize.specs.Open.{Ends, RowEnds, RootEnds, HasEnds};

use fx_base::{Memory, Text};
use fx_types::{FieldTy, Rest, Ty};
use fx_unify::{Bindings, Root, View, view_of};
use std::alloc::Global;

/// Sees that no way goes on without end.
pub(crate) fn see_ends(alloc: Global, bindings: &Bindings) -> Result<(), Memory>
    ensures { OnOk result (HasEnds bindings.now.store) }
{
    let variables = match u32::try_from(bindings.variables()) {
        Ok(variables) => variables,
        Err(_) => return Err(Memory),
    };
    see_types(bindings, variables)?;
    see_fields(bindings, variables)?;
    see_rows(alloc, bindings, variables)
}

fn see_types(bindings: &Bindings, variables: u32) -> Result<(), Memory>
    ensures { OnOk result ((n : ℕ) → n < variables → Ends (entry bindings.now.store) (p_is (type_variable n))) }
{
    for number in 0..variables {
        let ty = Ty::Var(number);
        bindings.head(&ty)?;
    }
    Ok(())
}

fn see_fields(bindings: &Bindings, variables: u32) -> Result<(), Memory>
    ensures { OnOk result ((n : ℕ) → n < variables → Ends (entry bindings.now.store) (p_field n)) }
{
    for number in 0..variables {
        bindings.seen(View::Var(number))?;
    }
    Ok(())
}

fn see_rows(alloc: Global, bindings: &Bindings, variables: u32) -> Result<(), Memory>
    ensures { OnOk result ((r : ℕ) → r < variables → RowEnds bindings.now.store r × ((l : Label) → Ends (entry bindings.now.store) (p_slot r l))) }
{
    for row in 0..variables {
        see_row(alloc, bindings, row)?;
    }
    Ok(())
}

fn see_row(alloc: Global, bindings: &Bindings, row: u32) -> Result<(), Memory>
    ensures { OnOk result (RowEnds bindings.now.store row × ((l : Label) → Ends (entry bindings.now.store) (p_slot row l))) }
{
    let mut labels = Vec::new(alloc);
    let root = bindings.follow(alloc, &Rest::Var(row), &mut labels)?;
    see_slots(bindings, row, labels.as_slice())?;
    see_root(bindings, &root)
}

/// Sees the ways from what the row variable has at the labels.
fn see_slots(bindings: &Bindings, row: u32, labels: &[Text]) -> Result<(), Memory>
    ensures { OnOk result ((l : Label) → listed l labels.now ≡ true → Ends (entry bindings.now.store) (p_slot row l)) }
{
    for label in labels {
        bindings.seen(View::Slot(row, label))?;
    }
    Ok(())
}

/// Sees the way from a default.
fn see_root(bindings: &Bindings, root: &Root) -> Result<(), Memory>
    ensures { OnOk result (RootEnds bindings.now.store root.now) }
{
    match root {
        Root::Default(field) => {
            bindings.seen(view_of(field))?;
            Ok(())
        }
        Root::Var(_) => Ok(()),
    }
}
