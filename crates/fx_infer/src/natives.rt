//! Names that nothing binds, and variables of parameters.

ghost use Rattle.std.specs.Prelude.{◌≡◌, Some, IfOk};
ghost use Rattle.fx_schemes.specs.declared.list.Builtin.{Builtin};
ghost use Rattle.fx_schemes.specs.Names.{IsId, builtin_of};
ghost use Rattle.fx_types.specs.Instance.{Solution, ground};
ghost use Rattle.fx_types.specs.Shape.{term};
ghost use Rattle.fx_types.specs.Size.{IsType};
ghost use Rattle.fx_infer.specs.Ask.{type_is};
ghost use Rattle.fx_infer.specs.Finds.{Finds};
ghost use Rattle.fx_infer.specs.Infers.{Infers};
ghost use Rattle.fx_infer.specs.Native.{IsValueOf, native, natives};

use crate::ask::Inferred;
use crate::uses::fresh_line;
use fx_base::{List, Memory, Text};
use fx_schemes::{BuiltinId, BuiltinType, builtin, scheme_at};
use fx_types::Ty;
use fx_unify::Bindings;
use std::alloc::Global;

/// The type of the variable.
pub(crate) fn variable(alloc: Global, bindings: Bindings, number: u32) -> Result<Inferred, Memory>
    ensures { IfOk result (λ r. Infers (λ s t. IsType t × (t ≡ s.type_of number)) bindings r.bindings (λ s. ground s (term r.ty))) }
{
    let ty = Ty::Var(number);
    let bindings = bindings.fits_later(alloc, &ty)?;
    Ok(Inferred { bindings, ty })
}

/// A type of a name that nothing binds.
pub(crate) fn native_value(
    alloc: Global,
    bindings: Bindings,
    label: &Text,
) -> Result<Option<Inferred>, Memory>
    ensures { IfOk result (Finds (λ s t. IsType t × natives label.now (type_is t)) bindings) }
{
    let universe = Text::of(alloc, "")?;
    native_of(alloc, bindings, &universe, label)
}

/// A type of the built-in of this name in the package.
pub(crate) fn native_of(
    alloc: Global,
    bindings: Bindings,
    path: &Text,
    label: &Text,
) -> Result<Option<Inferred>, Memory>
    ensures { IfOk result (Finds (λ s t. IsType t × native (builtin_of path.now label.now) (type_is t)) bindings) }
{
    match builtin(path, label) {
        Some(id) => value_of(alloc, bindings, id),
        None => Ok(None),
    }
}

/// A type of the built-in as a value.
fn value_of(alloc: Global, bindings: Bindings, id: BuiltinId) -> Result<Option<Inferred>, Memory>
    requires { (b : Builtin) × IsId id b }
    ensures { (b : Builtin) → IsId id b → IfOk result (Finds (λ s t. IsType t × (IsType t × IsValueOf b t)) bindings) }
{
    let given = List::empty(alloc);
    let scheme = match scheme_at(alloc, id, &given)? {
        Some(scheme) => scheme,
        None => return Ok(None),
    };
    let BuiltinType {
        vars,
        ty,
        optional: _,
        pipe_label,
        labels,
        kinds,
    } = scheme;
    let value = BuiltinType {
        vars,
        ty,
        optional: List::empty(alloc),
        pipe_label,
        labels,
        kinds,
    };
    let found = fresh_line(alloc, bindings, value)?;
    let bindings = found.bindings;
    let line = found.line;
    let ty = line.ty;
    Ok(Some(Inferred { bindings, ty }))
}
