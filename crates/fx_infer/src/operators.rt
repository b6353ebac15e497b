//! Operators: what is asked of their operands, and their results.

ghost use Rattle.std.specs.Prelude.{◌≡◌, true, false, [], ◌∷◌, IfOk};
ghost use Rattle.fx_types.specs.Ground.{g_bool};
ghost use Rattle.fx_types.specs.Instance.{Solution, ground};
ghost use Rattle.fx_types.specs.Kinds.{IsAmong};
ghost use Rattle.fx_types.specs.Shape.{term};
ghost use Rattle.fx_unify.specs.Solutions.{next_of};
ghost use Rattle.fx_value.specs.declared.scalar.Kind.TheVariants as kind;
ghost use Rattle.fx_infer.specs.Infers.{Infers, IsBelow};
ghost use Rattle.fx_infer.specs.Operators.{Keeps, Tells, Matches, Infixed, Prefixed};

use crate::ask::{Inferred, among, equal};
use fx_ast::{Infix, Prefix};
use fx_base::Memory;
use fx_types::Ty;
use fx_unify::Bindings;
use fx_value::Kind;
use std::alloc::Global;

/// The result of an operator between two operands.
pub(crate) fn infixed(
    alloc: Global,
    bindings: Bindings,
    op: Infix,
    left: &Ty,
    right: &Ty,
) -> Result<Inferred, Memory>
    requires left { IsBelow (next_of bindings) (term left.now) }
    requires right { IsBelow (next_of bindings) (term right.now) }
    ensures { IfOk result (λ r. Infers (λ s t. Infixed op (ground s (term left.now)) (ground s (term right.now)) t) bindings r.bindings (λ s. ground s (term r.ty))) }
{
    match op {
        Infix::Or | Infix::And => tells(alloc, bindings, left, right, &[Kind::Bool], false),
        Infix::Eq | Infix::Ne => tells(
            alloc,
            bindings,
            left,
            right,
            &[Kind::Bool, Kind::Int, Kind::Text, Kind::Time],
            true,
        ),
        Infix::Lt | Infix::Le | Infix::Gt | Infix::Ge => tells(
            alloc,
            bindings,
            left,
            right,
            &[Kind::Int, Kind::Text, Kind::Time],
            false,
        ),
        Infix::Like | Infix::NotLike => matches(alloc, bindings, left, right),
        Infix::Add => keeps(alloc, bindings, left, right, &[Kind::Int, Kind::Text]),
        Infix::Sub | Infix::Mul | Infix::Div | Infix::Rem => {
            keeps(alloc, bindings, left, right, &[Kind::Int])
        }
    }
}

/// Operands of one of the kinds, and a result of the same.
fn keeps(
    alloc: Global,
    bindings: Bindings,
    left: &Ty,
    right: &Ty,
    kinds: &[Kind],
) -> Result<Inferred, Memory>
    requires left { IsBelow (next_of bindings) (term left.now) }
    requires right { IsBelow (next_of bindings) (term right.now) }
    ensures { IfOk result (λ r. Infers (λ s t. Keeps kinds.now (ground s (term left.now)) (ground s (term right.now)) t) bindings r.bindings (λ s. ground s (term r.ty))) }
{
    let asked = among(alloc, bindings, left, kinds, false)?;
    let bindings = equal(alloc, asked, right, left)?;
    let ty = left.copy(alloc)?;
    Ok(Inferred { bindings, ty })
}

/// Operands of one of the kinds, or durations, and a Boolean.
fn tells(
    alloc: Global,
    bindings: Bindings,
    left: &Ty,
    right: &Ty,
    kinds: &[Kind],
    span: bool,
) -> Result<Inferred, Memory>
    requires left { IsBelow (next_of bindings) (term left.now) }
    requires right { IsBelow (next_of bindings) (term right.now) }
    ensures { IfOk result (λ r. Infers (λ s t. Tells kinds.now span (ground s (term left.now)) (ground s (term right.now)) t) bindings r.bindings (λ s. ground s (term r.ty))) }
{
    let asked = among(alloc, bindings, left, kinds, span)?;
    let bindings = equal(alloc, asked, right, left)?;
    let ty = Ty::Bool;
    Ok(Inferred { bindings, ty })
}

/// A text, a regular expression, and a Boolean.
fn matches(alloc: Global, bindings: Bindings, left: &Ty, right: &Ty) -> Result<Inferred, Memory>
    requires left { IsBelow (next_of bindings) (term left.now) }
    requires right { IsBelow (next_of bindings) (term right.now) }
    ensures { IfOk result (λ r. Infers (λ s t. Matches (ground s (term left.now)) (ground s (term right.now)) t) bindings r.bindings (λ s. ground s (term r.ty))) }
{
    let asked = equal(alloc, bindings, left, &Ty::Text)?;
    let bindings = equal(alloc, asked, right, &Ty::Pattern)?;
    let ty = Ty::Bool;
    Ok(Inferred { bindings, ty })
}

/// The result of an operator before an operand.
pub(crate) fn prefixed(
    alloc: Global,
    bindings: Bindings,
    sign: Prefix,
    of: &Ty,
) -> Result<Inferred, Memory>
    requires { IsBelow (next_of bindings) (term of.now) }
    ensures { IfOk result (λ r. Infers (λ s t. Prefixed sign (ground s (term of.now)) t) bindings r.bindings (λ s. ground s (term r.ty))) }
{
    match sign {
        Prefix::Plus | Prefix::Minus => signed(alloc, bindings, of),
        Prefix::Not => told(alloc, bindings, of, &[Kind::Bool]),
        Prefix::Exists => told(
            alloc,
            bindings,
            of,
            &[Kind::Bool, Kind::Int, Kind::Text, Kind::Time],
        ),
    }
}

/// An integer or a duration, and the same.
fn signed(alloc: Global, bindings: Bindings, of: &Ty) -> Result<Inferred, Memory>
    requires { IsBelow (next_of bindings) (term of.now) }
    ensures { IfOk result (λ r. Infers (λ s t. IsAmong (kind.Int ∷ []) true (ground s (term of.now)) × (t ≡ ground s (term of.now))) bindings r.bindings (λ s. ground s (term r.ty))) }
{
    let bindings = among(alloc, bindings, of, &[Kind::Int], true)?;
    let ty = of.copy(alloc)?;
    Ok(Inferred { bindings, ty })
}

/// An operand of one of the kinds, and a Boolean.
fn told(alloc: Global, bindings: Bindings, of: &Ty, kinds: &[Kind]) -> Result<Inferred, Memory>
    requires { IsBelow (next_of bindings) (term of.now) }
    ensures { IfOk result (λ r. Infers (λ s t. IsAmong kinds.now false (ground s (term of.now)) × (t ≡ g_bool)) bindings r.bindings (λ s. ground s (term r.ty))) }
{
    let bindings = among(alloc, bindings, of, kinds, false)?;
    let ty = Ty::Bool;
    Ok(Inferred { bindings, ty })
}
