//! Whether rows count nothing, as most do: all of their fields are Absent or columns. What was
//! found of a row is kept, since other rows lead to it.

ghost use Rattle.std.specs.Prelude.{◌≡◌, true, IfOk};
ghost use Rattle.fx_unify.specs.Counted.{Counted};
ghost use Rattle.fx_unify.specs.Light.{IsLightField, AreLight, IsLightRow, IsLightRoot};
ghost use Rattle.fx_unify.specs.Store.{rest_of};
ghost use Rattle.fx_unify.specs.View.{part_seen};

use crate::counts::Counts;
use crate::head::is_light_type;
use crate::sorts::Sorts;
use crate::store::{Root, Slot, Store};
use crate::view::{View, view_of};
use fx_base::Memory;

impl Store {
    /// Whether all fields of the row are plain in the least solution. That they aren't says nothing.
    pub(crate) fn is_light(
        &self,
        sorts: &[Sorts],
        counts: &mut Counts,
        row: u32,
    ) -> Result<bool, Memory>
        requires { Counted self.now sorts.now counts.old }
        ensures counts { Counted self.now sorts.now counts.new }
        ensures light { IfOk result (λ b. b ≡ true → IsLightRow self.now sorts.now row) }
    {
        // no row leads on through more than there are
        self.is_light_row(sorts, counts, row, (self.rows() as u64).saturating_add(1))
    }

    #[cycle(light)]
    fn is_light_row(
        &self,
        sorts: &[Sorts],
        counts: &mut Counts,
        row: u32,
        fuel: u64,
    ) -> Result<bool, Memory>
        requires { Counted self.now sorts.now counts.old }
        ensures counts { Counted self.now sorts.now counts.new }
        ensures light { IfOk result (λ b. b ≡ true → IsLightRow self.now sorts.now row) }
    {
        if counts.is_light(row) {
            return Ok(true);
        }
        if fuel == 0 {
            return Ok(false);
        }
        if self.are_light(sorts, self.slots_of(row))? {
            if self.is_light_rest(sorts, counts, row, fuel - 1)? {
                counts.keep_light(row);
                return Ok(true);
            }
        }
        Ok(false)
    }

    #[cycle(light)]
    fn is_light_rest(
        &self,
        sorts: &[Sorts],
        counts: &mut Counts,
        row: u32,
        fuel: u64,
    ) -> Result<bool, Memory>
        requires { Counted self.now sorts.now counts.old }
        ensures counts { Counted self.now sorts.now counts.new }
        ensures light { IfOk result (λ b. b ≡ true → IsLightRoot self.now sorts.now (rest_of self.now row)) }
    {
        match self.rest_of(row) {
            None => Ok(true),
            Some(Root::Default(field)) => self.is_light_field(sorts, view_of(field)),
            Some(Root::Var(next)) => self.is_light_row(sorts, counts, *next, fuel),
        }
    }

    fn are_light(&self, sorts: &[Sorts], slots: &[Slot]) -> Result<bool, Memory>
        ensures { IfOk result (λ b. b ≡ true → AreLight self.now sorts.now slots.now) }
    {
        for slot in slots {
            if !self.is_light_field(sorts, slot.field.view())? {
                return Ok(false);
            }
        }
        Ok(true)
    }

    fn is_light_field(&self, sorts: &[Sorts], view: View) -> Result<bool, Memory>
        ensures { IfOk result (λ b. b ≡ true → IsLightField self.now sorts.now (part_seen view.entry)) }
    {
        let found = self.seen(view)?;
        match found {
            View::Is(ty) => Ok(is_light_type(sorts, ty)),
            _ => Ok(true),
        }
    }
}
