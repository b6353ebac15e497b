//! Whether a solution is left within the limit on nodes: the least one is looked at, since no type
//! is smaller under another.

ghost use Rattle.std.specs.Prelude.{◌≡◌, ℕ, true, option_map};
ghost use Rattle.fx_types.specs.Ground.{g_is, listed};
ghost use Rattle.fx_types.specs.Term.{Label};
ghost use Rattle.fx_unify.specs.Counted.{Counted};
ghost use Rattle.fx_unify.specs.Decide.{Fixed, FixedRow, Checking, IsLeast};
ghost use Rattle.fx_unify.specs.Judge.{CheckingTerms};
ghost use Rattle.fx_unify.specs.Measure.{least};
ghost use Rattle.fx_unify.specs.Part.{part, field_node};
ghost use Rattle.fx_unify.specs.Store.{entry};

use crate::counts::Counts;
use crate::fault::UnifyFault;
use crate::field::Field;
use crate::sorts::Sorts;
use crate::store::{Root, Store};
use crate::view::View;
use fx_base::Text;
use fx_types::{Rest, Ty};

/// The most nodes that a type has.
pub(crate) const MOST_NODES: u64 = 4096;

impl Store {
    pub(crate) fn decide(&self, sorts: &[Sorts], counts: &mut Counts) -> Result<(), UnifyFault>
        requires { Counted self.now sorts.now counts.old }
        ensures counts { Counted self.now sorts.now counts.new }
        ensures checked { Checking result self.now sorts.now (IsLeast self.now sorts.now) }
    {
        if let Err(fault) = self.check_types(sorts, counts) {
            return Err(fault);
        }
        if let Err(fault) = self.check_fields(sorts, counts) {
            return Err(fault);
        }
        self.check_rows(sorts, counts)
    }

    fn check_types(&self, sorts: &[Sorts], counts: &mut Counts) -> Result<(), UnifyFault>
        requires { Counted self.now sorts.now counts.old }
        ensures counts { Counted self.now sorts.now counts.new }
        ensures checked { Checking result self.now sorts.now (λ k. (n : ℕ) → Fixed (least self.now sorts.now) (λ s. g_is (s.type_of n)) k) }
    {
        for variable in 0..self.types.len() {
            match self.count_variable(sorts, counts, variable, MOST_NODES) {
                Ok(_) => {}
                Err(fault) => return Err(fault),
            }
        }
        Ok(())
    }

    fn check_fields(&self, sorts: &[Sorts], counts: &mut Counts) -> Result<(), UnifyFault>
        requires { Counted self.now sorts.now counts.old }
        ensures counts { Counted self.now sorts.now counts.new }
        ensures checked { Checking result self.now sorts.now (λ k. (n : ℕ) → Fixed (least self.now sorts.now) (λ s. s.field_of n) k) }
    {
        for slot in self.fields.as_slice() {
            if let Err(fault) = self.check_field(sorts, counts, slot) {
                return Err(fault);
            }
        }
        Ok(())
    }

    fn check_field(
        &self,
        sorts: &[Sorts],
        counts: &mut Counts,
        slot: &Option<Field>,
    ) -> Result<(), UnifyFault>
        requires { Counted self.now sorts.now counts.old }
        ensures counts { Counted self.now sorts.now counts.new }
        ensures checked { (n : ℕ) → entry self.now (field_node n) ≡ option_map part slot.now
            → Checking result self.now sorts.now (Fixed (least self.now sorts.now) (λ s. s.field_of n)) }
    {
        match slot {
            Some(field) => match self.count_view(sorts, counts, field.view(), MOST_NODES) {
                Ok(_) => Ok(()),
                Err(fault) => Err(fault),
            },
            None => Ok(()),
        }
    }

    fn check_rows(&self, sorts: &[Sorts], counts: &mut Counts) -> Result<(), UnifyFault>
        requires { Counted self.now sorts.now counts.old }
        ensures counts { Counted self.now sorts.now counts.new }
        ensures checked { Checking result self.now sorts.now (λ k. (r : ℕ) → FixedRow (least self.now sorts.now) (λ s. s.row_of r) k) }
    {
        for number in 0..self.rows() {
            // the numbers of variables have 32 bits
            let Ok(row) = u32::try_from(number) else {
                return Err(UnifyFault::Memory);
            };
            if let Err(fault) = self.check_row(sorts, counts, row) {
                return Err(fault);
            }
        }
        Ok(())
    }

    fn check_row(&self, sorts: &[Sorts], counts: &mut Counts, row: u32) -> Result<(), UnifyFault>
        requires { Counted self.now sorts.now counts.old }
        ensures counts { Counted self.now sorts.now counts.new }
        ensures checked { Checking result self.now sorts.now (FixedRow (least self.now sorts.now) (λ s. s.row_of row)) }
    {
        if self.is_light(sorts, counts, row)? {
            return Ok(());
        }
        let mut labels = Vec::new(counts.alloc);
        let root = self.follow(counts.alloc, &Rest::Var(row), &mut labels)?;
        if let Err(fault) = self.check_labels(sorts, counts, row, labels.as_slice()) {
            return Err(fault);
        }
        match root {
            Root::Default(field) => match self.weigh_field(sorts, counts, &field, 0) {
                Ok(_) => Ok(()),
                Err(fault) => Err(fault),
            },
            Root::Var(_) => Ok(()),
        }
    }

    fn check_labels(
        &self,
        sorts: &[Sorts],
        counts: &mut Counts,
        row: u32,
        labels: &[Text],
    ) -> Result<(), UnifyFault>
        requires { Counted self.now sorts.now counts.old }
        ensures counts { Counted self.now sorts.now counts.new }
        ensures checked { Checking result self.now sorts.now (λ k. (l : Label) → listed l labels.now ≡ true → Fixed (least self.now sorts.now) (λ s. s.row_of row l) k) }
    {
        for label in labels {
            let slot = View::Slot(row, label);
            if let Err(fault) = self.count_view(sorts, counts, slot, MOST_NODES) {
                return Err(fault);
            }
        }
        Ok(())
    }

    /// Whether the terms are types.
    pub(crate) fn check_terms(
        &self,
        sorts: &[Sorts],
        counts: &mut Counts,
        terms: &[Ty],
    ) -> Result<(), UnifyFault>
        requires { Counted self.now sorts.now counts.old }
        ensures counts { Counted self.now sorts.now counts.new }
        ensures checked { CheckingTerms result self.now sorts.now terms.now }
    {
        for ty in terms {
            match self.count(sorts, counts, ty, MOST_NODES) {
                Ok(_) => {}
                Err(fault) => return Err(fault),
            }
        }
        Ok(())
    }
}
