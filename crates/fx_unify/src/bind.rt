//! One variable more that is bound.

ghost use Rattle.std.specs.Prelude.{◌≡◌, ◌↔◌, ◌++◌, ◌∷◌, [], true, false, OnOk, None, if◌then◌else◌};
ghost use Rattle.fx_base.specs.Text.{same_text};
ghost use Rattle.fx_types.specs.Ground.{listed};
ghost use Rattle.fx_types.specs.Instance.{Solution, ground};
ghost use Rattle.fx_types.specs.Shape.{term};
ghost use Rattle.fx_types.specs.Term.{Label, type_variable};
ghost use Rattle.fx_unify.specs.Part.{part, value, Variable, type_node, field_node, slot_node, p_is, p_field, p_slot};
ghost use Rattle.fx_unify.specs.Store.{entry, root_at, rest_in, slots_of, apart_of, rest_of, slot_names, bound_to};
ghost use Rattle.fx_unify.specs.Work.{Holds};

use crate::field::Field;
use crate::labels::has_text;
use crate::put::{add, put};
use crate::store::{Root, Slot, Store};
use fx_base::{Memory, Text};
use fx_types::Ty;
use std::alloc::Global;

impl Store {
    pub(crate) fn bind_type(&mut self, number: u32, ty: Ty) -> Result<(), Memory>
        requires { entry self.old (type_node number) ≡ None }
        ensures { OnOk result ((s : Solution) → Holds s self.new ↔ (Holds s self.old × (value s (p_is (type_variable number)) ≡ value s (p_is (term ty))))) }
    {
        put(&mut self.types, number, ty)
    }

    pub(crate) fn bind_field(
        &mut self,
        alloc: Global,
        number: u32,
        field: Field,
    ) -> Result<(), Memory>
        requires var { entry self.old (field_node number) ≡ None }
        requires field { bound_to (entry self.old) (part field) ≡ None }
        ensures { OnOk result ((s : Solution) → Holds s self.new ↔ (Holds s self.old × (value s (p_field number) ≡ value s (part field)))) }
    {
        self.keep_field(alloc, &field)?;
        put(&mut self.fields, number, field)
    }

    pub(crate) fn bind_slot(
        &mut self,
        alloc: Global,
        row: u32,
        label: Text,
        field: Field,
    ) -> Result<(), Memory>
        requires slot { entry self.old (slot_node row label) ≡ None }
        requires field { bound_to (entry self.old) (part field) ≡ None }
        ensures { OnOk result ((s : Solution) → Holds s self.new ↔ (Holds s self.old × (value s (p_slot row label) ≡ value s (part field)))) }
    {
        self.keep_field(alloc, &field)?;
        add(alloc, &mut self.slots, row, Slot { label, field })
    }

    /// Binds a row variable at all labels at which it isn't kept apart from its rest.
    pub(crate) fn bind_rest(&mut self, row: u32, root: Root) -> Result<(), Memory>
        requires { rest_of self.old row ≡ None }
        ensures { OnOk result ((s : Solution) → Holds s self.new ↔ (Holds s self.old
            × ((l : Label) → listed l (slot_names (slots_of self.old row)) ≡ false → listed l (apart_of self.old row) ≡ false → s.row_of row l ≡ value s (root_at l root)))) }
    {
        put(&mut self.rests, row, root)
    }

    /// Keeps a free slot apart from the rest of its row. A slot that something is bound to has to
    /// be: else the row's rest could lead back to it.
    fn keep_field(&mut self, alloc: Global, field: &Field) -> Result<(), Memory>
        requires { bound_to (entry self.old) (part field.now) ≡ None }
        ensures same { OnOk result ((x : Variable) → entry self.new x ≡ entry self.old x) }
        ensures work { self.new.work ≡ self.old.work }
    {
        match field {
            Field::Slot(row, label) => self.keep(alloc, *row, label),
            _ => Ok(()),
        }
    }

    /// Keeps a row variable apart from its rest at a label.
    pub(crate) fn keep(&mut self, alloc: Global, row: u32, label: &Text) -> Result<(), Memory>
        requires { rest_in (apart_of self.old row) (rest_of self.old row) label.now ≡ None }
        ensures same { OnOk result ((x : Variable) → entry self.new x ≡ entry self.old x) }
        ensures apart { OnOk result ((l : Label) → listed l (apart_of self.new row) ≡ (if same_text l label.now then true else listed l (apart_of self.old row))) }
        ensures slots { self.new.slots ≡ self.old.slots }
        ensures rests { self.new.rests ≡ self.old.rests }
        ensures work { self.new.work ≡ self.old.work }
    {
        if has_text(self.apart_of(row), label) {
            return Ok(());
        }
        self.keep_more(alloc, row, label)
    }

    /// Keeps a row variable apart at a label at which it wasn't.
    pub(crate) fn keep_more(&mut self, alloc: Global, row: u32, label: &Text) -> Result<(), Memory>
        requires { rest_in (apart_of self.old row) (rest_of self.old row) label.now ≡ None }
        ensures same { OnOk result ((x : Variable) → entry self.new x ≡ entry self.old x) }
        ensures apart { OnOk result (apart_of self.new row ≡ apart_of self.old row ++ label.now ∷ []) }
        ensures slots { self.new.slots ≡ self.old.slots }
        ensures rests { self.new.rests ≡ self.old.rests }
        ensures work { self.new.work ≡ self.old.work }
    {
        let label = label.copy()?;
        add(alloc, &mut self.apart, row, label)
    }
}
