//! Records as they are filled, field by field.
ghost use Rattle.std.specs.Prelude.{◌≡◌, ℕ, List, [], ◌∷◌, ◌++◌, OnOk};
ghost use Rattle.fx_csv.specs.Lines.{HasFields};

use csv::ByteRecord;
use fx_base::Memory;
use std::alloc::Global;

/// A record that is being filled.
#[derive(Drop)]
pub(crate) struct Line {
    pub(crate) fields: ByteRecord,
}

impl Line {
    pub(crate) fn empty(alloc: Global) -> Line
        ensures { HasFields result [] }
    {
        Line {
            fields: ByteRecord::new(alloc),
        }
    }

    pub(crate) fn clear(&mut self)
        ensures { HasFields self.new [] }
    {
        self.fields.clear();
    }

    pub(crate) fn push(&mut self, field: &[u8]) -> Result<(), Memory>
        ensures { (all : List (List ℕ)) → HasFields self.old all → OnOk result (HasFields self.new (all ++ field.now ∷ [])) }
    {
        self.fields.push_field(field)?;
        Ok(())
    }
}
