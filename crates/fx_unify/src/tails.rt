//! What two rows have at the labels that neither lists.

ghost use Rattle.std.specs.Prelude.{◌≡◌, ◌↔◌, false, List, None, IsTrue, IfOk, OnOk, MatchOption};
ghost use Rattle.fx_types.specs.Ground.{listed};
ghost use Rattle.fx_types.specs.Instance.{Solution, ground_tail};
ghost use Rattle.fx_types.specs.Shape.{rest_term};
ghost use Rattle.fx_types.specs.Term.{Label, row_variable};
ghost use Rattle.fx_unify.specs.declared.store.Store as stores;
ghost use Rattle.fx_unify.specs.declared.store.Root.TheVariants as roots;
ghost use Rattle.fx_unify.specs.Part.{Solved, value};
ghost use Rattle.fx_unify.specs.Rows.{Grows};
ghost use Rattle.fx_unify.specs.Store.{entry, root_at, rest_of, AreKept, KeepsRoot, IsFree};
ghost use Rattle.fx_unify.specs.Tails.{Tells, IsReady};

use crate::store::{Root, Store};
use fx_base::{Memory, Text};
use fx_types::{FieldTy, Rest};
use std::alloc::Global;

/// More steps than any machine takes.
const FUEL: u64 = u64::MAX;

/// An equation between the rests of two rows.
#[derive(Debug, Drop)]
pub(crate) enum Tails {
    /// They are one rest.
    Same,
    /// The row of the free variable is what the root gives.
    Link(u32, Root),
    /// Two defaults.
    Defaults(FieldTy, FieldTy),
}

impl Store {
    /// What makes the rests the same off the labels. Those at which a row variable is looked at by
    /// itself are added to the labels.
    pub(crate) fn tails(
        &self,
        alloc: Global,
        left: &Rest,
        right: &Rest,
        labels: &mut Vec<Text>,
    ) -> Result<Tails, Memory>
        ensures tells { IfOk result (λ t. (s : Solution) → Solved s (entry self.now) → (l : Label) → listed l labels.new.items ≡ false
            → (ground_tail s (rest_term left.now) l ≡ ground_tail s (rest_term right.now) l) ↔ Tells t s l) }
        ensures ready { IfOk result (λ t. IsReady self.now t labels.new.items) }
        ensures grows { OnOk result (Grows labels.old.items labels.new.items) }
    {
        if let Some(row) = self.free_row(left) {
            if !self.leads_to(right, row) {
                return self.tail_link(alloc, row, right, labels);
            }
        }
        if let Some(row) = self.free_row(right) {
            if !self.leads_to(left, row) {
                return self.tail_link(alloc, row, left, labels);
            }
        }
        let first = self.follow(alloc, left, labels)?;
        let second = self.follow(alloc, right, labels)?;
        Ok(paired(first, second))
    }

    /// The row variable that the rest is, where its own rest isn't bound.
    fn free_row(&self, rest: &Rest) -> Option<u32>
        ensures { MatchOption result (Unit {0}) (λ row. (rest_term rest.now ≡ row_variable row) × (rest_of self.now row ≡ None)) }
    {
        match rest {
            Rest::Default(_) => None,
            Rest::Var(row) => match self.rest_of(*row) {
                Some(_) => None,
                None => Some(*row),
            },
        }
    }

    /// Whether the way of the rest ends at the row variable. The clauses rest on neither answer;
    /// it keeps rows from leading in a circle.
    fn leads_to(&self, rest: &Rest, row: u32) -> bool {
        let Rest::Var(first) = rest else {
            return false;
        };
        let mut current = *first;
        for _step in 0..FUEL {
            match self.rest_of(current) {
                Some(Root::Default(_)) => return false,
                Some(Root::Var(next)) => current = *next,
                None => return current == row,
            }
        }
        false
    }

    fn tail_link(
        &self,
        alloc: Global,
        row: u32,
        rest: &Rest,
        labels: &mut Vec<Text>,
    ) -> Result<Tails, Memory>
        requires { rest_of self.now row ≡ None }
        ensures tells { IfOk result (λ t. (s : Solution) (l : Label) → (s.row_of row l ≡ ground_tail s (rest_term rest.now) l) ↔ Tells t s l) }
        ensures ready { IfOk result (λ t. IsReady self.now t labels.new.items) }
        ensures grows { OnOk result (Grows labels.old.items labels.new.items) }
    {
        self.add_kept(alloc, row, labels)?;
        Ok(Tails::Link(row, Root::of(alloc, rest)?))
    }
}

impl Root {
    /// What the rest gives.
    fn of(alloc: Global, rest: &Rest) -> Result<Root, Memory>
        ensures { IfOk result (λ r. (s : Solution) (l : Label) → value s (root_at l r) ≡ ground_tail s (rest_term rest.now) l) }
    {
        match rest {
            Rest::Default(field) => Ok(Root::Default(field.copy(alloc)?)),
            Rest::Var(row) => Ok(Root::Var(*row)),
        }
    }
}

/// The equation between what two roots give.
fn paired(left: Root, right: Root) -> Tails
    ensures tells { (s : Solution) (l : Label) → (value s (root_at l left) ≡ value s (root_at l right)) ↔ Tells result s l }
    ensures ready { (st : stores.Store) (ls : List Label) → IsFree st left → IsFree st right → KeepsRoot st left ls → KeepsRoot st right ls → IsReady st result ls }
{
    match left {
        Root::Var(row) => linked(row, right),
        Root::Default(field) => match right {
            Root::Var(row) => Tails::Link(row, Root::Default(field)),
            Root::Default(other) => Tails::Defaults(field, other),
        },
    }
}

fn linked(row: u32, root: Root) -> Tails
    ensures tells { (s : Solution) (l : Label) → (s.row_of row l ≡ value s (root_at l root)) ↔ Tells result s l }
    ensures ready { (st : stores.Store) (ls : List Label) → rest_of st row ≡ None → AreKept st row ls → IsReady st result ls }
{
    if is_row(&root, row) {
        return Tails::Same;
    }
    Tails::Link(row, root)
}

/// Whether the root is this row variable. That it isn't says nothing.
fn is_row(root: &Root, row: u32) -> bool
    ensures { IsTrue result → root.now ≡ roots.Var row }
{
    match root {
        Root::Default(_) => false,
        Root::Var(other) => *other == row,
    }
}
