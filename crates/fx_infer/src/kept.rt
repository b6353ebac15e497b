//! What is kept of the types of an expression that has a name, and its use.

ghost use Rattle.std.specs.Prelude.{IfOk};
ghost use Rattle.fx_types.specs.Instance.{Solution, ground};
ghost use Rattle.fx_types.specs.Shape.{term};
ghost use Rattle.fx_types.specs.Size.{IsType};
ghost use Rattle.fx_generalize.specs.Solved.{HasInstance, IsNumbered};
ghost use Rattle.fx_ast.specs.Shape.{tree_of};
ghost use Rattle.fx_infer.specs.Environment.{Env};
ghost use Rattle.fx_infer.specs.Infers.{Infers};
ghost use Rattle.fx_infer.specs.Kept.{Keeps};
ghost use Rattle.fx_infer.specs.Statements.{IsEnv};

use crate::ask::Inferred;
use crate::scope::Name;
use crate::script::type_of;
use crate::stop::Stop;
use fx_ast::Expr;
use fx_base::Memory;
use fx_generalize::Solved;
use fx_unify::Bindings;
use std::alloc::Global;

/// A type that is an instance of what was kept.
pub(crate) fn instance_of(
    alloc: Global,
    bindings: Bindings,
    kept: &Solved,
) -> Result<Inferred, Memory>
    requires { IsNumbered kept.now }
    ensures { IfOk result (λ r. Infers (λ s t. HasInstance kept.now t × IsType t) bindings r.bindings (λ s. ground s (term r.ty))) }
{
    let first = match bindings.unused(kept.vars.max(1)) {
        Some(number) => number,
        None => return Err(Memory),
    };
    let used = kept.used(alloc, bindings, first)?;
    let ty = used.ty;
    let bindings = used.bindings.fits_later(alloc, &ty)?;
    Ok(Inferred { bindings, ty })
}

/// What is kept of the types of the expression, None where it has none.
pub(crate) fn kept_of<'a>(
    alloc: Global,
    names: &[Name<'a>],
    value: &'a Expr,
) -> Result<Option<Solved>, Stop>
    requires { (env : Env) × IsEnv env names.now }
    ensures { (env : Env) → IsEnv env names.now → IfOk result (Keeps env (tree_of value.now)) }
{
    let found = match type_of(alloc, names, value)? {
        Some(found) => found,
        None => return Ok(None),
    };
    let kept = Solved::of(alloc, &found.bindings, &found.ty)?;
    Ok(Some(kept))
}
