//! What is kept of a type without the equations that it was found by.

ghost use Rattle.std.specs.Prelude.{◌≡◌, true, IfOk, OnOk};
ghost use Rattle.fx_types.specs.Instance.{Solution, ground};
ghost use Rattle.fx_types.specs.Shape.{term};
ghost use Rattle.fx_types.specs.Size.{IsType};
ghost use Rattle.fx_unify.specs.Judge.{AreTypes};
ghost use Rattle.fx_unify.specs.Solutions.{HasLeast};
ghost use Rattle.fx_unify.specs.Store.{entry};
ghost use Rattle.fx_generalize.specs.Named.{IsReading, CoversTypes, CanDrop};
ghost use Rattle.fx_generalize.specs.Open.{LeavesOpen};
ghost use Rattle.fx_generalize.specs.Solved.{Ascend, IsNumbered, IsSolvedOf, numbers_terms, numbers_bounds};

use crate::apart::are_apart;
use crate::collect::{collect, collect_all};
use crate::ends::see_ends;
use crate::kinds::bounds_of;
use crate::names::Names;
use crate::read::Reader;
use crate::same::same_type;
use crate::unread::Unread;
use fx_base::{List, Memory};
use fx_types::Ty;
use fx_unify::{Bindings, numbers};
use fx_value::Kind;
use std::alloc::Global;

/// More rounds than any machine takes: each gives a number to one variable more.
const FUEL: u64 = u64::MAX;

/// A type variable that stands for one of the kinds, or for a duration where `span` is true.
#[derive(Debug, Drop)]
pub struct VarBound {
    pub var: u32,
    pub kinds: List<Kind>,
    pub span: bool,
}

/// A type with variables. Its instances are what it becomes where the variables stand for types,
/// fields and rows of which the terms of `also` become types and the bounds are kept.
#[derive(Debug, Drop)]
pub struct Solved {
    /// More than the number of each variable.
    pub vars: u32,
    pub ty: Ty,
    pub also: List<Ty>,
    pub bounds: List<VarBound>,
}

impl Solved {
    /// The type without the equations of the bindings. Variables are numbered from 0, a variable has
    /// at most one bound, and terms that must be types are kept where they share a variable with the
    /// type, or with another term that does. What is bound has a solution for any values of the free
    /// variables.
    pub fn of(alloc: Global, bindings: &Bindings, ty: &Ty) -> Result<Solved, Memory>
        requires { HasLeast bindings.now }
        ensures instances { IfOk result (IsSolvedOf bindings.now (term ty.now)) }
        ensures numbered { IfOk result IsNumbered }
        ensures ascend { IfOk result (λ v. Ascend v.bounds) }
        ensures values { OnOk result (LeavesOpen bindings.now) }
    {
        see_ends(alloc, bindings)?;
        let left = bindings.left(alloc)?;
        let mut names = collect_all(alloc, bindings, ty)?;
        let Kept { ty, also } = keep(alloc, bindings, &mut names, ty)?;
        let bounds = bounds_of(alloc, left.as_slice(), names.types.as_slice())?;
        let greatest = numbers(&ty)
            .max(numbers_of(also.as_slice()))
            .max(numbers_bounded(bounds.as_slice()));
        match u32::try_from(greatest) {
            Ok(vars) => Ok(Solved {
                vars,
                ty,
                also,
                bounds,
            }),
            Err(_) => Err(Memory),
        }
    }
}

/// A term and the terms that must be types, as they are kept.
#[derive(Drop)]
struct Kept {
    ty: Ty,
    also: List<Ty>,
}

/// Reads the terms. A variable that has no number gets one, and they are read again.
fn keep(alloc: Global, bindings: &Bindings, names: &mut Names, ty: &Ty) -> Result<Kept, Memory>
    ensures reading { IfOk result (λ k. IsReading (entry bindings.now.store) names.new (term ty.now) (term k.ty)) }
    ensures covers { IfOk result (λ k. CoversTypes (entry bindings.now.store) names.new bindings.now.also.items k.also) }
{
    for _round in 0..FUEL {
        match read_kept(alloc, bindings, names, ty) {
            Ok(kept) => return Ok(kept),
            Err(unread) => names.name(unread)?,
        }
    }
    Err(Memory)
}

fn read_kept(alloc: Global, bindings: &Bindings, names: &Names, ty: &Ty) -> Result<Kept, Unread>
    ensures reading { IfOk result (λ k. IsReading (entry bindings.now.store) names.now (term ty.now) (term k.ty)) }
    ensures covers { IfOk result (λ k. CoversTypes (entry bindings.now.store) names.now bindings.now.also.items k.also) }
{
    let reader = Reader {
        alloc,
        bindings,
        names,
    };
    let ty = reader.read_type(ty, u64::MAX)?;
    let also = keep_types(&reader, bindings.types())?;
    Ok(Kept { ty, also })
}

/// The terms that share a variable with those of the reader, each once.
fn keep_types(reader: &Reader, types: &[Ty]) -> Result<List<Ty>, Unread>
    ensures { IfOk result (CoversTypes (entry reader.now.bindings.now.store) reader.now.names.now types.now) }
{
    let mut kept = List::empty(reader.alloc);
    for ty in types {
        let mut own = collect(reader.alloc, reader.bindings, ty)?;
        if is_apart(reader, &mut own, ty)? {
            continue;
        }
        let read = reader.read_type(ty, u64::MAX)?;
        if has_type(kept.as_slice(), &read) {
            continue;
        }
        kept.push(read)?;
    }
    Ok(kept)
}

/// Whether the type is one of these.
fn has_type(types: &[Ty], ty: &Ty) -> bool
    ensures { result ≡ true → (s : Solution) → AreTypes s types.now → IsType (ground s (term ty.now)) }
{
    for other in types {
        if same_type(other, ty) {
            return true;
        }
    }
    false
}

/// Whether the term shares no variable with those of the reader. Its own variables all get numbers
/// where it seems so.
fn is_apart(reader: &Reader, own: &mut Names, ty: &Ty) -> Result<bool, Memory>
    ensures { IfOk result (λ b. b ≡ true → CanDrop (entry reader.now.bindings.now.store) reader.now.names.now own.new (term ty.now)) }
{
    if !are_apart(reader.names, own) {
        return Ok(false);
    }
    read_alone(reader.alloc, reader.bindings, own, ty)?;
    Ok(are_apart(reader.names, own))
}

/// Reads the term. A variable that has no number gets one, and it is read again.
fn read_alone(alloc: Global, bindings: &Bindings, names: &mut Names, ty: &Ty) -> Result<Ty, Memory>
    ensures { IfOk result (λ t. IsReading (entry bindings.now.store) names.new (term ty.now) (term t)) }
{
    for _round in 0..FUEL {
        match read_with(alloc, bindings, names, ty) {
            Ok(read) => return Ok(read),
            Err(unread) => names.name(unread)?,
        }
    }
    Err(Memory)
}

fn read_with(alloc: Global, bindings: &Bindings, names: &Names, ty: &Ty) -> Result<Ty, Unread>
    ensures { IfOk result (λ t. IsReading (entry bindings.now.store) names.now (term ty.now) (term t)) }
{
    let reader = Reader {
        alloc,
        bindings,
        names,
    };
    reader.read_type(ty, u64::MAX)
}

/// The numbers of the terms' variables: one more than the greatest, or 0 where there is none.
fn numbers_of(types: &[Ty]) -> u64
    ensures { result ≡ numbers_terms types.now }
{
    let mut greatest: u64 = 0;
    for ty in types {
        greatest = greatest.max(numbers(ty));
    }
    greatest
}

/// The numbers of the bounded variables.
fn numbers_bounded(bounds: &[VarBound]) -> u64
    ensures { result ≡ numbers_bounds bounds.now }
{
    let mut greatest: u64 = 0;
    for bound in bounds {
        greatest = greatest.max(bound.var as u64 + 1);
    }
    greatest
}
