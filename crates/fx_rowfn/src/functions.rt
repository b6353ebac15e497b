//! Function literals, which keep the values of their free names.
ghost use Rattle.std.specs.Prelude.{◌≡◌, [], ◌∷◌, ◌++◌, IfOk, OnOk, map};
ghost use Rattle.std.specs.List.{filter};
ghost use Rattle.fx_ast.specs.Free.{free_fun, name_of};
ghost use Rattle.fx_ast.specs.Shape.{body, param, params_of};
ghost use Rattle.fx_ast.specs.Tree.{fun};
ghost use Rattle.fx_meaning.specs.Ends.{pure};
ghost use Rattle.fx_meaning.specs.Meaning.{Tests};
ghost use Rattle.fx_meaning.specs.Value.{closure, keep};
ghost use Rattle.fx_rowfn.specs.State.{Leads, scope_of, shape_left};
ghost use Rattle.fx_values.specs.Shape.{slot, slots_of, val};
ghost use Rattle.fx_values.specs.Told.{Tells};

use crate::eval::given;
use crate::frame::Next;
use crate::free::is_free;
use crate::scope::Scope;
use crate::slots::slot_copied;
use fx_ast::{Body, Param};
use fx_base::{List, Memory, Place};
use fx_values::{Closure, Slot, Stop, Value};
use std::alloc::Global;
use std::rc::Rc;

/// The value of a function literal.
pub(crate) fn function(
    alloc: Global,
    scope: &Scope,
    place: Place,
    params: &List<Param>,
    of: &Body,
) -> Result<Next, Stop>
    ensures { (test : Tests) → Leads (shape_left test (scope_of scope.now) place (fun (params_of (map param params.now)) (body of.now).lets (body of.now).result)) test result }
{
    given(closed(alloc, scope, params, of))
}

fn closed(alloc: Global, scope: &Scope, params: &List<Param>, of: &Body) -> Result<Value, Stop>
    ensures { Tells val (pure (closure (params_of (map param params.now)) (body of.now).lets (body of.now).result (keep (λ x. free_fun (params_of (map param params.now)) (body of.now).lets (body of.now).result (name_of x)) (scope_of scope.now).env) (scope_of scope.now).setting)) result }
{
    let captured = captured(alloc, scope, params, of)?;
    let closure = Closure {
        params: params_copied(alloc, params.as_slice())?,
        body: of.copy(alloc)?,
        captured: Rc::new(alloc, captured)?,
        setting: scope.setting.clone()?,
    };
    let shared = Rc::new(alloc, closure)?;
    Ok(Value::Fun(shared))
}

fn params_copied(alloc: Global, params: &[Param]) -> Result<List<Param>, Memory>
    ensures { IfOk result (λ made. made ≡ params.now) }
{
    let mut made = List::empty(alloc);
    for from in params {
        made.push(from.copy()?)?;
    }
    Ok(made)
}

/// The values of the names that are free in the literal.
fn captured(
    alloc: Global,
    scope: &Scope,
    params: &List<Param>,
    of: &Body,
) -> Result<List<Slot>, Memory>
    ensures { IfOk result (λ kept. slots_of (map slot kept) ≡ keep (λ x. free_fun (params_of (map param params.now)) (body of.now).lets (body of.now).result (name_of x)) (scope_of scope.now).env) }
{
    let outer = scope.outer.as_ref().as_slice();
    let inner = scope.inner.as_ref().as_slice();
    let first = kept_free(List::empty(alloc), params, of, outer)?;
    let all = kept_free(first, params, of, inner)?;
    Ok(all)
}

fn kept_free(
    before: List<Slot>,
    params: &List<Param>,
    of: &Body,
    slots: &[Slot],
) -> Result<List<Slot>, Memory>
    ensures { IfOk result (λ kept. map slot kept ≡ map slot before ++ filter (λ o. free_fun (params_of (map param params.now)) (body of.now).lets (body of.now).result (name_of o.label)) (map slot slots.now)) }
{
    let mut kept = before;
    for from in slots {
        keep_free(&mut kept, params, of, from)?;
    }
    Ok(kept)
}

fn keep_free(
    kept: &mut List<Slot>,
    params: &List<Param>,
    of: &Body,
    from: &Slot,
) -> Result<(), Memory>
    ensures { OnOk result (map slot kept.new ≡ map slot kept.old ++ filter (λ o. free_fun (params_of (map param params.now)) (body of.now).lets (body of.now).result (name_of o.label)) (slot from.now ∷ [])) }
{
    if !is_free(params, of, &from.label) {
        return Ok(());
    }
    kept.push(slot_copied(from)?)?;
    Ok(())
}
