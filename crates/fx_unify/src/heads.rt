//! One equation between two types that are no variables.

ghost use Rattle.std.specs.Prelude.{◌≡◌, ◌≤◌, map, option_map};
ghost use Rattle.fx_types.specs.Instance.{ground, ground_pipe};
ghost use Rattle.fx_types.specs.Shape.{term, row_term, fun_term, pipe_of};
ghost use Rattle.fx_types.specs.Ground.{g_is, g_array, g_fun, g_rec, g_stream};
ghost use Rattle.fx_types.specs.Term.{array, fun, rec, stream};
ghost use Rattle.fx_types.specs.Instance.{Solution};
ghost use Rattle.fx_unify.specs.Part.{part, value};
ghost use Rattle.fx_unify.specs.Tag.{tag_of};
ghost use Rattle.fx_unify.specs.Work.{Solving};

use crate::fault::UnifyFault;
use crate::field::Field;
use crate::pick::labels_row;
use crate::store::Store;
use crate::tag::{LAST_BASIC, tag};
use crate::work::put_off;
use fx_types::{FunTy, RowTy, Ty};
use std::alloc::Global;

impl Store {
    pub(crate) fn solve_heads(&mut self, alloc: Global, a: Ty, b: Ty) -> Result<(), UnifyFault>
        requires left { tag_of (term a) ≤ 11 }
        requires right { tag_of (term b) ≤ 11 }
        ensures { Solving result self.old self.new (λ s. g_is (ground s (term a)) ≡ g_is (ground s (term b))) }
    {
        let form = tag(&a);
        if form != tag(&b) {
            return Err(UnifyFault::Clash);
        }
        if form <= LAST_BASIC {
            return Ok(());
        }
        self.solve_compound(alloc, a, b)
    }

    fn solve_compound(&mut self, alloc: Global, a: Ty, b: Ty) -> Result<(), UnifyFault>
        requires least { 8 ≤ tag_of (term a) }
        requires most { tag_of (term a) ≤ 11 }
        requires same { tag_of (term a) ≡ tag_of (term b) }
        ensures { Solving result self.old self.new (λ s. g_is (ground s (term a)) ≡ g_is (ground s (term b))) }
    {
        match a {
            Ty::Array(element) => self.solve_arrays(element.into_inner(), b),
            Ty::Fun(function) => self.solve_functions(alloc, function.into_inner(), b),
            Ty::Rec(row) => self.solve_records(alloc, row.into_inner(), b),
            Ty::Stream(row) => self.solve_streams(alloc, row.into_inner(), b),
            _ => Err(UnifyFault::Clash),
        }
    }

    fn solve_arrays(&mut self, element: Ty, other: Ty) -> Result<(), UnifyFault>
        requires { tag_of (term other) ≡ 8 }
        ensures { Solving result self.old self.new (λ s. g_array (ground s (term element)) ≡ ground s (term other)) }
    {
        match other {
            Ty::Array(right) => {
                put_off(
                    &mut self.work,
                    Field::Is(element),
                    Field::Is(right.into_inner()),
                )?;
                Ok(())
            }
            _ => Err(UnifyFault::Clash),
        }
    }

    fn solve_functions(
        &mut self,
        alloc: Global,
        function: FunTy,
        other: Ty,
    ) -> Result<(), UnifyFault>
        requires { tag_of (term other) ≡ 9 }
        ensures { Solving result self.old self.new (λ s. ground s (fun (fun_term function).required (fun_term function).pipe (fun_term function).result) ≡ ground s (term other)) }
    {
        match other {
            Ty::Fun(right) => self.solve_parts(alloc, function, right.into_inner()),
            _ => Err(UnifyFault::Clash),
        }
    }

    fn solve_parts(&mut self, alloc: Global, left: FunTy, right: FunTy) -> Result<(), UnifyFault>
        ensures { Solving result self.old self.new (λ s. ground s (fun (fun_term left).required (fun_term left).pipe (fun_term left).result)
            ≡ ground s (fun (fun_term right).required (fun_term right).pipe (fun_term right).result)) }
    {
        let FunTy {
            required,
            pipe,
            result,
        } = left;
        let FunTy {
            required: others,
            pipe: other_pipe,
            result: other,
        } = right;
        put_off(&mut self.work, piped(pipe), piped(other_pipe))?;
        put_off(&mut self.work, Field::Is(result), Field::Is(other))?;
        let a = labels_row(alloc, required)?;
        let b = labels_row(alloc, others)?;
        self.compare(alloc, a, b)?;
        Ok(())
    }

    fn solve_records(&mut self, alloc: Global, row: RowTy, other: Ty) -> Result<(), UnifyFault>
        requires { tag_of (term other) ≡ 10 }
        ensures { Solving result self.old self.new (λ s. ground s (rec (row_term row).fields (row_term row).rest) ≡ ground s (term other)) }
    {
        match other {
            Ty::Rec(right) => {
                self.compare(alloc, row, right.into_inner())?;
                Ok(())
            }
            _ => Err(UnifyFault::Clash),
        }
    }

    fn solve_streams(&mut self, alloc: Global, row: RowTy, other: Ty) -> Result<(), UnifyFault>
        requires { tag_of (term other) ≡ 11 }
        ensures { Solving result self.old self.new (λ s. ground s (stream (row_term row).fields (row_term row).rest) ≡ ground s (term other)) }
    {
        match other {
            Ty::Stream(right) => {
                self.compare(alloc, row, right.into_inner())?;
                Ok(())
            }
            _ => Err(UnifyFault::Clash),
        }
    }
}

/// What a function takes from a pipe, as a field.
fn piped(pipe: Option<Ty>) -> Field
    ensures { (s : Solution) → value s (part result) ≡ ground_pipe s (pipe_of (option_map term pipe)) }
{
    match pipe {
        Some(ty) => Field::Is(ty),
        None => Field::Absent,
    }
}
