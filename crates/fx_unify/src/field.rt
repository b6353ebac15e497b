ghost use Rattle.std.specs.Prelude.{◌≡◌, IfOk};
ghost use Rattle.fx_types.specs.Shape.{field_term};
ghost use Rattle.fx_unify.specs.Part.{part, part_of};

use fx_base::{Memory, Text};
use fx_types::{FieldTy, Ty};
use std::alloc::Global;

/// A field of a row as equations speak of it.
#[derive(Debug, Drop)]
pub(crate) enum Field {
    Absent,
    Is(Ty),
    Var(u32),
    /// What the row of this variable has at the label.
    Slot(u32, Text),
}

impl Field {
    pub(crate) fn copy(&self, alloc: Global) -> Result<Field, Memory>
        ensures { IfOk result (λ f. f ≡ self.now) }
    {
        match self {
            Field::Absent => Ok(Field::Absent),
            Field::Is(ty) => Ok(Field::Is(ty.copy(alloc)?)),
            Field::Var(number) => Ok(Field::Var(*number)),
            Field::Slot(row, label) => Ok(Field::Slot(*row, label.copy()?)),
        }
    }

    /// A copy of what a term has.
    pub(crate) fn of(alloc: Global, field: &FieldTy) -> Result<Field, Memory>
        ensures { IfOk result (λ f. part f ≡ part_of (field_term field.now)) }
    {
        match field {
            FieldTy::Absent => Ok(Field::Absent),
            FieldTy::Is(ty) => Ok(Field::Is(ty.copy(alloc)?)),
            FieldTy::Var(number) => Ok(Field::Var(*number)),
        }
    }

    /// What a term has.
    pub(crate) fn from_term(field: FieldTy) -> Field
        ensures { part result ≡ part_of (field_term field) }
    {
        match field {
            FieldTy::Absent => Field::Absent,
            FieldTy::Is(ty) => Field::Is(ty),
            FieldTy::Var(number) => Field::Var(number),
        }
    }
}
