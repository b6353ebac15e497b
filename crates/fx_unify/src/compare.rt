//! One equation between two rows.

ghost use Rattle.std.specs.Prelude.{◌≡◌, ◌↔◌, false, None, OnOk};
ghost use Rattle.fx_types.specs.Ground.{listed};
ghost use Rattle.fx_types.specs.Instance.{Solution};
ghost use Rattle.fx_types.specs.Shape.{row_term};
ghost use Rattle.fx_types.specs.Size.{AreDistinct};
ghost use Rattle.fx_types.specs.Term.{Label};
ghost use Rattle.fx_unify.specs.Part.{value};
ghost use Rattle.fx_unify.specs.Rows.{ground_row, SameAt};
ghost use Rattle.fx_unify.specs.Store.{root_at, rest_of, AreKept, KeptAt};
ghost use Rattle.fx_unify.specs.Tails.{Tells, IsReady};
ghost use Rattle.fx_unify.specs.Work.{Hold, Holds};

use crate::fault::UnifyFault;
use crate::field::Field;
use crate::known::{Known, MANY};
use crate::labels::add_names;
use crate::pick::Entries;
use crate::store::{Root, Store};
use crate::tails::Tails;
use crate::work::{Pair, put_off};
use fx_base::{Memory, Text};
use fx_types::RowTy;
use std::alloc::Global;

impl Store {
    /// Makes two rows the same: at each label that one of them lists, or at which a row variable is
    /// looked at by itself, and then off these labels.
    pub(crate) fn compare(&mut self, alloc: Global, a: RowTy, b: RowTy) -> Result<(), Memory>
        ensures { OnOk result ((s : Solution) → Holds s self.new ↔ (Holds s self.old × (ground_row s (row_term a) ≡ ground_row s (row_term b)))) }
    {
        let mut labels = Vec::new(alloc);
        add_names(alloc, &mut labels, a.fields.as_slice())?;
        add_names(alloc, &mut labels, b.fields.as_slice())?;
        let tails = self.tails(alloc, &a.rest, &b.rest, &mut labels)?;
        put_off_all(alloc, &mut self.work, labels.as_slice(), a, b)?;
        self.meet(alloc, tails, labels.as_slice())
    }

    /// Makes two rests the same off the labels.
    fn meet(&mut self, alloc: Global, tails: Tails, labels: &[Text]) -> Result<(), Memory>
        requires { IsReady self.old tails labels.now }
        ensures { OnOk result ((s : Solution) → Holds s self.new ↔ (Holds s self.old × ((l : Label) → listed l labels.now ≡ false → Tells tails s l))) }
    {
        match tails {
            Tails::Same => Ok(()),
            Tails::Link(row, root) => self.link(alloc, row, root, labels),
            Tails::Defaults(left, right) => put_off(
                &mut self.work,
                Field::from_term(left),
                Field::from_term(right),
            ),
        }
    }

    /// Binds the rest of a free row variable, which is kept apart from it at the labels.
    fn link(&mut self, alloc: Global, row: u32, root: Root, labels: &[Text]) -> Result<(), Memory>
        requires free { rest_of self.old row ≡ None }
        requires kept { AreKept self.old row labels.now }
        ensures { OnOk result ((s : Solution) → Holds s self.new ↔ (Holds s self.old × ((l : Label) → listed l labels.now ≡ false → s.row_of row l ≡ value s (root_at l root)))) }
    {
        self.keep_all(alloc, row, labels)?;
        self.bind_rest(row, root)
    }

    /// Keeps a free row variable apart from its rest at the labels.
    fn keep_all(&mut self, alloc: Global, row: u32, labels: &[Text]) -> Result<(), Memory>
        requires { rest_of self.old row ≡ None }
        ensures { OnOk result (KeptAt self.old self.new row labels.now) }
    {
        if labels.len() < MANY {
            for label in labels {
                self.keep(alloc, row, label)?;
            }
            return Ok(());
        }
        let mut known = Known::of(alloc, self.apart_of(row))?;
        for label in labels {
            if known.has(label) {
                continue;
            }
            known.note(label)?;
            self.keep_more(alloc, row, label)?;
        }
        Ok(())
    }
}

/// Leaves an equation for each label.
fn put_off_all(
    alloc: Global,
    work: &mut Vec<Pair>,
    labels: &[Text],
    a: RowTy,
    b: RowTy,
) -> Result<(), Memory>
    requires { AreDistinct labels.now }
    ensures { OnOk result ((s : Solution) → Hold s work.new.items ↔ (Hold s work.old.items × SameAt (ground_row s (row_term a)) (ground_row s (row_term b)) labels.now)) }
{
    let mut left = Entries::of(alloc, a)?;
    let mut right = Entries::of(alloc, b)?;
    for label in labels {
        let first = left.take(alloc, label)?;
        let second = right.take(alloc, label)?;
        put_off(work, first, second)?;
    }
    Ok(())
}
