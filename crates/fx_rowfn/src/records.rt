//! Records, property by property.
ghost use Rattle.std.specs.Prelude.{◌≡◌, None, Some, map, IfOk};
ghost use Rattle.fx_ast.specs.Shape.{tree_of};
ghost use Rattle.fx_ast.specs.Tree.{rec};
ghost use Rattle.fx_meaning.specs.Ends.{found, pure};
ghost use Rattle.fx_meaning.specs.Forms.{fields_in};
ghost use Rattle.fx_meaning.specs.Meaning.{Tests, means_props, named};
ghost use Rattle.fx_meaning.specs.Value as meaning;
ghost use Rattle.fx_rowfn.specs.Frame as plain;
ghost use Rattle.fx_rowfn.specs.Frame.{calls_above, unwound};
ghost use Rattle.fx_rowfn.specs.State.{Leads, fields_left, frame_of, props_from, resumed_left, scope_of, shape_left};
ghost use Rattle.fx_value.specs.Ends.{End, and_then};
ghost use Rattle.fx_values.specs.Shape.{slot, slots_of, val};
ghost use Rattle.fx_values.specs.Told.{Tells};

use crate::eval::{awaited, given};
use crate::frame::{Frame, Next};
use crate::names::name_value;
use crate::parts::prop_at;
use crate::scope::Scope;
use crate::slots::{copied, slot_of};
use fx_ast::{Expr, Prop};
use fx_base::{List, Memory, Text};
use fx_values::{Slot, Stop, Value, fields_in};
use std::alloc::Global;
use std::rc::Rc;

/// The first step of a record.
pub(crate) fn recorded(
    alloc: Global,
    scope: Scope,
    whole: &Expr,
    base: &Option<Text>,
) -> Result<Next, Stop>
    ensures { (test : Tests) → Leads (shape_left test (scope_of scope) whole.now.place (rec base.now (props_from (tree_of whole.now) 0))) test result }
{
    match base {
        Some(other) => recorded_on(alloc, scope, whole, other),
        None => alone(alloc, scope, whole),
    }
}

/// A record that stands on no other.
fn alone(alloc: Global, scope: Scope, whole: &Expr) -> Result<Next, Stop>
    ensures { (test : Tests) → Leads (shape_left test (scope_of scope) whole.now.place (rec None (props_from (tree_of whole.now) 0))) test result }
{
    fields_from(alloc, scope, whole, 0, List::empty(alloc))
}

/// A record with the properties of another before its own.
fn recorded_on(alloc: Global, scope: Scope, whole: &Expr, base: &Text) -> Result<Next, Stop>
    ensures { (test : Tests) → Leads (shape_left test (scope_of scope) whole.now.place (rec (Some base.now) (props_from (tree_of whole.now) 0))) test result }
{
    let fields = base_fields(alloc, &scope, base);
    fields_on(alloc, scope, whole, fields)
}

/// The fields of the record that a name stands for.
fn base_fields(alloc: Global, scope: &Scope, base: &Text) -> Result<List<Slot>, Stop>
    ensures { Tells (λ fields. slots_of (map slot fields)) (and_then (found (named base.now (scope_of scope.now).env)) fields_in) result }
{
    let value = name_value(alloc, scope, base)?;
    fields_of(alloc, &value)
}

fn fields_of(alloc: Global, value: &Value) -> Result<List<Slot>, Stop>
    ensures { Tells (λ fields. slots_of (map slot fields)) (fields_in (val value.now)) result }
{
    let fields = fields_in(value)?;
    let copied = copied(alloc, fields.as_slice())?;
    Ok(copied)
}

/// The properties behind the fields of another record, where those are known.
fn fields_on(
    alloc: Global,
    scope: Scope,
    whole: &Expr,
    told: Result<List<Slot>, Stop>,
) -> Result<Next, Stop>
    ensures { (test : Tests) (end : End meaning.Slots) → Tells (λ fields. slots_of (map slot fields)) end told → Leads (λ limit fs. and_then (and_then (and_then end (means_props test (calls_above test limit fs) (scope_of scope).setting (props_from (tree_of whole.now) 0) (scope_of scope).env)) (λ fields. pure (meaning.rec fields))) (unwound test limit fs)) test result }
{
    match told {
        Ok(fields) => fields_from(alloc, scope, whole, 0, fields),
        Err(stop) => Err(stop),
    }
}

/// The value of a property is known.
pub(crate) fn field_known(
    alloc: Global,
    scope: Scope,
    done: List<Slot>,
    label: Text,
    whole: &Expr,
    next: usize,
    field: Value,
) -> Result<Next, Stop>
    ensures { (test : Tests) → Leads (resumed_left test (plain.field (scope_of scope) (slots_of (map slot done)) label (props_from (tree_of whole.now) next)) (val field)) test result }
{
    let mut done = done;
    done.push(slot_of(label, field))?;
    fields_from(alloc, scope, whole, next, done)
}

/// The properties from a place on, behind the fields that stand.
fn fields_from(
    alloc: Global,
    scope: Scope,
    whole: &Expr,
    next: usize,
    done: List<Slot>,
) -> Result<Next, Stop>
    ensures { (test : Tests) → Leads (fields_left test (scope_of scope) (props_from (tree_of whole.now) next) (slots_of (map slot done))) test result }
{
    match prop_at(whole, next) {
        Some(prop) => {
            let frame = field(&scope, done, prop, whole, next + 1)?;
            let next = awaited(scope, &prop.value, frame)?;
            Ok(next)
        }
        None => given(record_of(alloc, done)),
    }
}

fn field(
    scope: &Scope,
    done: List<Slot>,
    property: &Prop,
    whole: &Expr,
    next: usize,
) -> Result<Frame, Memory>
    ensures { IfOk result (λ f. frame_of f ≡ plain.field (scope_of scope.now) (slots_of (map slot done)) property.now.label (props_from (tree_of whole.now) next)) }
{
    Ok(Frame::Field {
        scope: scope.copy()?,
        done,
        label: property.label.copy()?,
        record: whole.copy()?,
        next,
    })
}

fn record_of(alloc: Global, fields: List<Slot>) -> Result<Value, Stop>
    ensures { Tells val (pure (meaning.rec (slots_of (map slot fields)))) result }
{
    let fields = Rc::new(alloc, fields)?;
    Ok(Value::Rec(fields))
}
