//! Names and pattern literals.
ghost use Rattle.std.specs.Prelude.{◌≡◌, option_map};
ghost use Rattle.fx_ast.specs.Tree.{name, pattern};
ghost use Rattle.fx_meaning.specs.Ends.{found, pure};
ghost use Rattle.fx_meaning.specs.Meaning.{Tests, named, numbered};
ghost use Rattle.fx_meaning.specs.Native.{value_if, value_of};
ghost use Rattle.fx_meaning.specs.Value as value;
ghost use Rattle.fx_meaning.specs.Value.{look};
ghost use Rattle.fx_rowfn.specs.State.{Leads, scope_of, shape_left};
ghost use Rattle.fx_value.specs.Ends.{and_then};
ghost use Rattle.fx_values.specs.Shape.{val};
ghost use Rattle.fx_values.specs.Told.{Tells};

use crate::eval::given;
use crate::frame::Next;
use crate::scope::Scope;
use fx_base::{Place, Text};
use fx_meaning::{Built, Placed};
use fx_value::Scalar;
use fx_values::{Stop, Value, look};
use std::alloc::Global;

/// A name as it stands.
pub(crate) fn named(alloc: Global, scope: &Scope, place: Place, label: &Text) -> Result<Next, Stop>
    ensures { (test : Tests) → Leads (shape_left test (scope_of scope.now) place (name label.now)) test result }
{
    given(name_value(alloc, scope, label))
}

/// The value of a name: what is bound to it, or else what the language has under it.
pub(crate) fn name_value(alloc: Global, scope: &Scope, label: &Text) -> Result<Value, Stop>
    ensures { Tells val (found (named label.now (scope_of scope.now).env)) result }
{
    match bound_to(scope, label) {
        Some(value) => Ok(value.copy()?),
        None => built_value(fx_meaning::named(alloc, label)?),
    }
}

/// What is bound to a name in a scope, the last one.
fn bound_to<'a>(scope: &'a Scope, label: &Text) -> Option<&'a Value>
    ensures { option_map (λ v. val v.now) result ≡ look label.now (scope_of scope.now).env }
{
    match look(label.as_str(), scope.inner.as_slice()) {
        Some(value) => Some(value),
        None => look(label.as_str(), scope.outer.as_slice()),
    }
}

/// The value that the language has, where it has one.
pub(crate) fn built_value(built: Option<Built>) -> Result<Value, Stop>
    ensures { Tells val (found (value_if built)) result }
{
    match built {
        Some(it) => Ok(of_built(it)),
        None => Err(Stop::Stuck),
    }
}

fn of_built(built: Built) -> Value
    ensures { val result ≡ value_of built }
{
    match built {
        Built::Truth(b) => Value::Cell(Scalar::Bool(b)),
        Built::Function(which) => Value::Native(which),
    }
}

/// A pattern literal, which the setting knows by its place.
pub(crate) fn patterned(scope: &Scope, place: Place, text: &Text) -> Result<Next, Stop>
    ensures { (test : Tests) → Leads (shape_left test (scope_of scope.now) place (pattern text.now)) test result }
{
    given(pattern_value(scope.setting.patterns.as_slice(), place))
}

fn pattern_value(placed: &[Placed], place: Place) -> Result<Value, Stop>
    ensures { Tells val (and_then (found (numbered placed.now place)) (λ number. pure (value.pattern number))) result }
{
    match numbered(placed, place) {
        Some(number) => Ok(Value::Pattern(number)),
        None => Err(Stop::Stuck),
    }
}

/// The number of the pattern literal at a place.
fn numbered(placed: &[Placed], place: Place) -> Option<u32>
    ensures { result ≡ numbered placed.now place }
{
    for pattern in placed {
        if pattern.place.at == place.at {
            return Some(pattern.number);
        }
    }
    None
}
