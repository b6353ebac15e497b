ghost use Rattle.std.specs.Prelude.{◌≡◌, [], true, false, IfOk, OnOk, MatchOption, map};
ghost use Rattle.fx_base.specs.Text.{same_text};
ghost use Rattle.fx_types.specs.Ground.{listed};
ghost use Rattle.fx_types.specs.Instance.{Solution, ground_labels, ground_tail};
ghost use Rattle.fx_types.specs.Shape.{row_term, rest_term, entry_term, label_term, labels_of};
ghost use Rattle.fx_types.specs.Term.{Label};
ghost use Rattle.fx_unify.specs.Known.{AreHashed};
ghost use Rattle.fx_unify.specs.Part.{part, value};
ghost use Rattle.fx_unify.specs.Pick.{IsFirst};
ghost use Rattle.fx_unify.specs.Rows.{ground_row, ground_entries, as_field};
ghost use Rattle.fx_unify.specs.Sums.{names};

use crate::field::Field;
use crate::known::MANY;
use fx_base::{List, Memory, Text};
use fx_types::{FieldTy, LabelField, LabelTy, Rest, RowTy};
use indexmap::IndexSet;
use std::alloc::Global;
use std::mem;

/// A row whose fields are taken out, one after the other.
#[derive(Drop)]
pub(crate) struct Entries {
    fields: Vec<LabelField>,
    rest: Rest,
    /// Whether the labels are hashed, in the order of the fields.
    hashed: bool,
    labels: IndexSet<Text>,
}

impl Entries {
    pub(crate) fn of(alloc: Global, row: RowTy) -> Result<Entries, Memory>
        ensures same { IfOk result (λ e. (s : Solution) (l : Label) → ground_entries s e l ≡ ground_row s (row_term row) l) }
        ensures hashed { IfOk result AreHashed }
    {
        let RowTy { fields, rest } = row;
        let fields = fields.into_vec();
        let mut labels = IndexSet::new(alloc);
        let hashed = hash_names(&mut labels, fields.as_slice())?;
        Ok(Entries {
            fields,
            rest,
            hashed,
            labels,
        })
    }

    /// What the row has at the label. It keeps what it has at all others.
    pub(crate) fn take(&mut self, alloc: Global, label: &Text) -> Result<Field, Memory>
        requires { AreHashed self.old }
        ensures field { IfOk result (λ f. (s : Solution) → value s (part f) ≡ ground_entries s self.old label.now) }
        ensures others { (s : Solution) (l : Label) → same_text l label.now ≡ false → ground_entries s self.new l ≡ ground_entries s self.old l }
        ensures hashed { AreHashed self.new }
    {
        match self.place_of(label) {
            Some(at) => Ok(Field::from_term(mem::replace(
                &mut self.fields[at].field,
                FieldTy::Absent,
            ))),
            None => pick_rest(alloc, &self.rest, label),
        }
    }

    /// The place of the first entry with the label.
    fn place_of(&self, label: &Text) -> Option<usize>
        requires { AreHashed self.now }
        ensures { MatchOption result (listed label.now (names self.now.fields.items) ≡ false) (λ i. IsFirst label.now (names self.now.fields.items) i) }
    {
        if self.hashed {
            return self.labels.get_index_of(label);
        }
        find_label(self.fields.as_slice(), label)
    }
}

/// Hashes the labels where they are many, and none stands twice.
fn hash_names(labels: &mut IndexSet<Text>, entries: &[LabelField]) -> Result<bool, Memory>
    requires { labels.old.keys ≡ [] }
    ensures { IfOk result (λ b. b ≡ true → labels.new.keys ≡ names entries.now) }
{
    if entries.len() < MANY {
        return Ok(false);
    }
    for entry in entries {
        if !labels.insert(entry.label.copy()?)? {
            return Ok(false);
        }
    }
    Ok(true)
}

/// The place of the first entry with the label.
fn find_label(entries: &[LabelField], label: &Text) -> Option<usize>
    ensures { MatchOption result (listed label.now (names entries.now) ≡ false) (λ i. IsFirst label.now (names entries.now) i) }
{
    for (i, entry) in entries.iter().enumerate() {
        if *label == entry.label {
            return Some(i);
        }
    }
    None
}

fn pick_rest(alloc: Global, rest: &Rest, label: &Text) -> Result<Field, Memory>
    ensures { IfOk result (λ f. (s : Solution) → value s (part f) ≡ ground_tail s (rest_term rest.now) label.now) }
{
    match rest {
        Rest::Default(field) => Field::of(alloc, field),
        Rest::Var(row) => Ok(Field::Slot(*row, label.copy()?)),
    }
}

/// The row of a function's labels: each required label has its type, all others are Absent.
pub(crate) fn labels_row(alloc: Global, labels: List<LabelTy>) -> Result<RowTy, Memory>
    ensures { IfOk result (λ r. (s : Solution) (l : Label) → ground_row s (row_term r) l ≡ ground_labels s (labels_of (map label_term labels)) l) }
{
    Ok(RowTy {
        fields: label_fields(alloc, labels)?,
        rest: Rest::Default(FieldTy::Absent),
    })
}

fn label_fields(alloc: Global, labels: List<LabelTy>) -> Result<List<LabelField>, Memory>
    ensures { IfOk result (λ fs. map entry_term fs ≡ map as_field labels) }
{
    let mut fields = List::empty(alloc);
    for LabelTy { label, ty } in labels.into_vec() {
        let field = FieldTy::Is(ty);
        fields.push(LabelField { label, field })?;
    }
    Ok(fields)
}
