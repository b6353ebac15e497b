//! How many nodes the fields of a row count together, under what is bound. A field whose type is a
//! column counts nothing.

ghost use Rattle.std.specs.Prelude.{◌≡◌, ◌++◌};
ghost use Rattle.fx_types.specs.Ground.{g_is};
ghost use Rattle.fx_types.specs.Instance.{ground, ground_field};
ghost use Rattle.fx_types.specs.Shape.{term, row_term, field_term};
ghost use Rattle.fx_types.specs.Size.{Weighs};
ghost use Rattle.fx_unify.specs.Counted.{Counted};
ghost use Rattle.fx_unify.specs.Measure.{least, Admits, Measuring, RowMeasuring};
ghost use Rattle.fx_unify.specs.Part.{value};
ghost use Rattle.fx_unify.specs.Rows.{ground_row};
ghost use Rattle.fx_unify.specs.Sums.{Summing, row_names, row_rest};
ghost use Rattle.fx_unify.specs.View.{part_seen};
ghost use Rattle.fx_types.specs.declared.term.Rest.TheVariants as rests;

use crate::counts::Counts;
use crate::fault::UnifyFault;
use crate::head::is_light_type;
use crate::labels::{has_label, has_text, is_nothing};
use crate::sorts::Sorts;
use crate::store::{Root, Store};
use crate::view::{View, view_of};
use fx_base::Text;
use fx_types::{FieldTy, Rest, RowTy, Ty};

impl Store {
    /// What the fields of a row count together.
    #[cycle(count)]
    pub(crate) fn count_row(
        &self,
        sorts: &[Sorts],
        counts: &mut Counts,
        row: &RowTy,
        room: u64,
    ) -> Result<u64, UnifyFault>
        requires { Counted self.now sorts.now counts.old }
        ensures counts { Counted self.now sorts.now counts.new }
        ensures nodes { RowMeasuring result (least self.now sorts.now) (Admits self.now sorts.now) (λ s. ground_row s (row_term row.now)) room }
    {
        match &row.rest {
            Rest::Default(field) => self.count_closed(sorts, counts, row, field, room),
            Rest::Var(number) => self.count_open(sorts, counts, row, *number, room),
        }
    }

    #[cycle(count)]
    fn count_closed(
        &self,
        sorts: &[Sorts],
        counts: &mut Counts,
        row: &RowTy,
        field: &FieldTy,
        room: u64,
    ) -> Result<u64, UnifyFault>
        requires counts { Counted self.now sorts.now counts.old }
        requires closed { row_rest row.now ≡ rests.Default field.now }
        ensures counts { Counted self.now sorts.now counts.new }
        ensures nodes { RowMeasuring result (least self.now sorts.now) (Admits self.now sorts.now) (λ s. ground_row s (row_term row.now)) room }
    {
        let listed = match self.count_fields(sorts, counts, row, room) {
            Ok(nodes) => nodes,
            Err(fault) => return Err(fault),
        };
        match self.weigh_field(sorts, counts, field, 0) {
            Ok(_) => Ok(listed),
            Err(fault) => Err(fault),
        }
    }

    #[cycle(count)]
    fn count_fields(
        &self,
        sorts: &[Sorts],
        counts: &mut Counts,
        row: &RowTy,
        room: u64,
    ) -> Result<u64, UnifyFault>
        requires { Counted self.now sorts.now counts.old }
        ensures counts { Counted self.now sorts.now counts.new }
        ensures nodes { Summing result (least self.now sorts.now) (Admits self.now sorts.now) Weighs (λ s. ground_row s (row_term row.now)) (row_names row.now) room }
    {
        let entries = row.fields.as_slice();
        let mut sum: u64 = 0;
        for (i, entry) in entries.iter().enumerate() {
            let weight = self.weigh_field(sorts, counts, &entry.field, room - sum);
            // most fields count nothing, and their labels needn't be looked for
            if is_nothing(&weight) {
                continue;
            }
            if has_label(&entries[..i], &entry.label) {
                continue;
            }
            match weight {
                Ok(nodes) => sum += nodes,
                Err(fault) => return Err(fault),
            }
        }
        Ok(sum)
    }

    /// What the listed fields count, and the row of the variable at all other labels.
    #[cycle(count)]
    fn count_open(
        &self,
        sorts: &[Sorts],
        counts: &mut Counts,
        row: &RowTy,
        number: u32,
        room: u64,
    ) -> Result<u64, UnifyFault>
        requires counts { Counted self.now sorts.now counts.old }
        requires open { row_rest row.now ≡ rests.Var number }
        ensures counts { Counted self.now sorts.now counts.new }
        ensures nodes { RowMeasuring result (least self.now sorts.now) (Admits self.now sorts.now) (λ s. ground_row s (row_term row.now)) room }
    {
        if self.is_light(sorts, counts, number)? {
            return self.count_fields(sorts, counts, row, room);
        }
        let mut labels = Vec::new(counts.alloc);
        let root = self.follow(counts.alloc, &row.rest, &mut labels)?;
        let sum = match self.count_labels(sorts, counts, row, number, labels.as_slice(), room) {
            Ok(nodes) => nodes,
            Err(fault) => return Err(fault),
        };
        match root {
            Root::Var(_) => Ok(sum),
            Root::Default(field) => match self.weigh_field(sorts, counts, &field, 0) {
                Ok(_) => Ok(sum),
                Err(fault) => Err(fault),
            },
        }
    }

    /// What the listed fields count, and the row of the variable at the labels that aren't listed.
    #[cycle(count)]
    fn count_labels(
        &self,
        sorts: &[Sorts],
        counts: &mut Counts,
        row: &RowTy,
        number: u32,
        labels: &[Text],
        room: u64,
    ) -> Result<u64, UnifyFault>
        requires counts { Counted self.now sorts.now counts.old }
        requires open { row_rest row.now ≡ rests.Var number }
        ensures counts { Counted self.now sorts.now counts.new }
        ensures nodes { Summing result (least self.now sorts.now) (Admits self.now sorts.now) Weighs (λ s. ground_row s (row_term row.now)) (row_names row.now ++ labels.now) room }
    {
        let mut sum = match self.count_fields(sorts, counts, row, room) {
            Ok(nodes) => nodes,
            Err(fault) => return Err(fault),
        };
        for (i, label) in labels.iter().enumerate() {
            let weight = self.weigh_view(sorts, counts, View::Slot(number, label), room - sum);
            if is_nothing(&weight) {
                continue;
            }
            if has_label(row.fields.as_slice(), label) {
                continue;
            }
            if has_text(&labels[..i], label) {
                continue;
            }
            match weight {
                Ok(nodes) => sum += nodes,
                Err(fault) => return Err(fault),
            }
        }
        Ok(sum)
    }

    #[cycle(count)]
    pub(crate) fn weigh_field(
        &self,
        sorts: &[Sorts],
        counts: &mut Counts,
        field: &FieldTy,
        room: u64,
    ) -> Result<u64, UnifyFault>
        requires { Counted self.now sorts.now counts.old }
        ensures counts { Counted self.now sorts.now counts.new }
        ensures nodes { Measuring result (least self.now sorts.now) (Admits self.now sorts.now) Weighs (λ s. ground_field s (field_term field.now)) room }
    {
        self.weigh_view(sorts, counts, view_of(field), room)
    }

    /// Up to a type variable: what was counted of it is kept.
    #[cycle(count)]
    fn weigh_view(
        &self,
        sorts: &[Sorts],
        counts: &mut Counts,
        view: View,
        room: u64,
    ) -> Result<u64, UnifyFault>
        requires { Counted self.now sorts.now counts.old }
        ensures counts { Counted self.now sorts.now counts.new }
        ensures nodes { Measuring result (least self.now sorts.now) (Admits self.now sorts.now) Weighs (λ s. value s (part_seen view.entry)) room }
    {
        let found = self.seen_field(view)?;
        match found {
            View::Is(ty) => self.weigh_type(sorts, counts, ty, room),
            _ => Ok(0),
        }
    }

    #[cycle(count)]
    fn weigh_type(
        &self,
        sorts: &[Sorts],
        counts: &mut Counts,
        ty: &Ty,
        room: u64,
    ) -> Result<u64, UnifyFault>
        requires { Counted self.now sorts.now counts.old }
        ensures counts { Counted self.now sorts.now counts.new }
        ensures nodes { Measuring result (least self.now sorts.now) (Admits self.now sorts.now) Weighs (λ s. g_is (ground s (term ty.now))) room }
    {
        let head = self.head(ty)?;
        if is_light_type(sorts, head) {
            return Ok(0);
        }
        if room == 0 {
            return Err(UnifyFault::Clash);
        }
        match self.count(sorts, counts, ty, room - 1) {
            Ok(nodes) => Ok(nodes + 1),
            Err(fault) => Err(fault),
        }
    }
}
