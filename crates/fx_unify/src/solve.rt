//! One equation between two fields.

ghost use Rattle.std.specs.Prelude.{◌≡◌, ◌≤◌, None, IsTrue};
ghost use Rattle.fx_types.specs.Instance.{ground};
ghost use Rattle.fx_types.specs.Shape.{term};
ghost use Rattle.fx_types.specs.Ground.{g_absent, g_is};
ghost use Rattle.fx_unify.specs.Part.{part, value, p_is};
ghost use Rattle.fx_unify.specs.Store.{entry, bound_to};
ghost use Rattle.fx_unify.specs.Tag.{tag_of};
ghost use Rattle.fx_unify.specs.Work.{Solving};

use crate::fault::UnifyFault;
use crate::field::Field;
use crate::store::Store;
use fx_types::Ty;
use std::alloc::Global;

impl Store {
    pub(crate) fn step(
        &mut self,
        alloc: Global,
        left: Field,
        right: Field,
    ) -> Result<(), UnifyFault>
        ensures { Solving result self.old self.new (λ s. value s (part left) ≡ value s (part right)) }
    {
        if let Some(one) = self.last_variable(&left) {
            if let Some(other) = self.last_variable(&right) {
                self.join(one, other)?;
                return Ok(());
            }
        }
        self.take_apart(alloc, left, right)
    }

    /// Solves an equation by what its two sides lead to.
    fn take_apart(&mut self, alloc: Global, left: Field, right: Field) -> Result<(), UnifyFault>
        ensures { Solving result self.old self.new (λ s. value s (part left) ≡ value s (part right)) }
    {
        let a = self.resolve(alloc, left)?;
        let b = self.resolve(alloc, right)?;
        if is_same(&a, &b) {
            return Ok(());
        }
        self.solve(alloc, a, b)
    }

    fn solve(&mut self, alloc: Global, a: Field, b: Field) -> Result<(), UnifyFault>
        requires left { bound_to (entry self.old) (part a) ≡ None }
        requires right { bound_to (entry self.old) (part b) ≡ None }
        ensures { Solving result self.old self.new (λ s. value s (part a) ≡ value s (part b)) }
    {
        match b {
            Field::Absent => self.solve_absent(alloc, a),
            Field::Is(ty) => self.solve_type(alloc, a, ty),
            Field::Var(number) => {
                self.bind_field(alloc, number, a)?;
                Ok(())
            }
            Field::Slot(row, label) => {
                self.bind_slot(alloc, row, label, a)?;
                Ok(())
            }
        }
    }

    fn solve_absent(&mut self, alloc: Global, a: Field) -> Result<(), UnifyFault>
        requires { bound_to (entry self.old) (part a) ≡ None }
        ensures { Solving result self.old self.new (λ s. value s (part a) ≡ g_absent) }
    {
        match a {
            Field::Absent => Ok(()),
            Field::Is(_) => Err(UnifyFault::Clash),
            Field::Var(number) => {
                self.bind_field(alloc, number, Field::Absent)?;
                Ok(())
            }
            Field::Slot(row, label) => {
                self.bind_slot(alloc, row, label, Field::Absent)?;
                Ok(())
            }
        }
    }

    fn solve_type(&mut self, alloc: Global, a: Field, ty: Ty) -> Result<(), UnifyFault>
        requires left { bound_to (entry self.old) (part a) ≡ None }
        requires right { bound_to (entry self.old) (p_is (term ty)) ≡ None }
        ensures { Solving result self.old self.new (λ s. value s (part a) ≡ g_is (ground s (term ty))) }
    {
        match a {
            Field::Absent => Err(UnifyFault::Clash),
            Field::Is(other) => self.solve_types(alloc, other, ty),
            Field::Var(number) => {
                self.bind_field(alloc, number, Field::Is(ty))?;
                Ok(())
            }
            Field::Slot(row, label) => {
                self.bind_slot(alloc, row, label, Field::Is(ty))?;
                Ok(())
            }
        }
    }

    fn solve_types(&mut self, alloc: Global, a: Ty, b: Ty) -> Result<(), UnifyFault>
        requires left { bound_to (entry self.old) (p_is (term a)) ≡ None }
        requires right { bound_to (entry self.old) (p_is (term b)) ≡ None }
        ensures { Solving result self.old self.new (λ s. g_is (ground s (term a)) ≡ g_is (ground s (term b))) }
    {
        match a {
            Ty::Var(number) => {
                self.bind_type(number, b)?;
                Ok(())
            }
            head => self.solve_head(alloc, head, b),
        }
    }

    fn solve_head(&mut self, alloc: Global, a: Ty, b: Ty) -> Result<(), UnifyFault>
        requires left { tag_of (term a) ≤ 11 }
        requires right { bound_to (entry self.old) (p_is (term b)) ≡ None }
        ensures { Solving result self.old self.new (λ s. g_is (ground s (term a)) ≡ g_is (ground s (term b))) }
    {
        match b {
            Ty::Var(number) => {
                self.bind_type(number, a)?;
                Ok(())
            }
            head => self.solve_heads(alloc, a, head),
        }
    }
}

/// Whether the two are one variable. That they aren't says nothing.
fn is_same(a: &Field, b: &Field) -> bool
    ensures { IsTrue result → part a.now ≡ part b.now }
{
    match a {
        Field::Absent => false,
        Field::Is(left) => match b {
            Field::Is(right) => is_same_type(left, right),
            _ => false,
        },
        Field::Var(left) => match b {
            Field::Var(right) => *left == *right,
            _ => false,
        },
        Field::Slot(row, label) => match b {
            Field::Slot(other, at) => *row == *other && *label == *at,
            _ => false,
        },
    }
}

fn is_same_type(a: &Ty, b: &Ty) -> bool
    ensures { IsTrue result → term a.now ≡ term b.now }
{
    match a {
        Ty::Var(left) => match b {
            Ty::Var(right) => *left == *right,
            _ => false,
        },
        _ => false,
    }
}
