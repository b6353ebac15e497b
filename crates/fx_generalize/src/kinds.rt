//! What is left to type variables, as bounds on their numbers.

ghost use Rattle.std.specs.Prelude.{◌≡◌, ◌↔◌, ◌⊎◌, ◌<◌, ◌≤◌, ℕ, Bool, true, false, IfOk, OnOk, length};
ghost use Rattle.fx_types.specs.Ground as Ground;
ghost use Rattle.fx_types.specs.Instance.{Solution};
ghost use Rattle.fx_types.specs.Kinds.{of_kind, IsAmong};
ghost use Rattle.fx_unify.specs.Sorts.{allows};
ghost use Rattle.fx_generalize.specs.Named.{IsBounded};
ghost use Rattle.fx_generalize.specs.Solved.{Ascend, KeepsKinds, numbers_bounds};

use crate::solved::VarBound;
use fx_base::{List, Memory};
use fx_unify::{Sorts, sorts_at};
use fx_value::Kind;
use std::alloc::Global;

/// A bound for each number to whose variable only scalars are left.
pub(crate) fn bounds_of(
    alloc: Global,
    sorts: &[Sorts],
    types: &[u32],
) -> Result<List<VarBound>, Memory>
    ensures exact { IfOk result (λ bs. (q : Solution) → KeepsKinds q bs ↔ ((k : ℕ) → k < length types.now → IsBounded sorts.now types.now q k)) }
    ensures ascend { IfOk result Ascend }
    ensures below { IfOk result (λ bs. numbers_bounds bs ≤ length types.now) }
{
    let mut bounds = List::empty(alloc);
    for (i, number) in types.iter().enumerate() {
        let set = sorts_at(sorts, *number);
        if set.other {
            continue;
        }
        let var = match u32::try_from(i) {
            Ok(var) => var,
            Err(_) => return Err(Memory),
        };
        let kinds = kinds_of(alloc, &set)?;
        bounds.push(VarBound {
            var,
            kinds,
            span: set.span,
        })?;
    }
    Ok(bounds)
}

/// The kinds in a set of scalars.
fn kinds_of(alloc: Global, set: &Sorts) -> Result<List<Kind>, Memory>
    ensures { IfOk result (λ ks. set.now.other ≡ false → (g : Ground.Ground) → IsAmong ks set.now.span g ↔ (allows set.now g ≡ true)) }
{
    let mut kinds = List::empty(alloc);
    add_kind(&mut kinds, Kind::Bool, set.boolean)?;
    add_kind(&mut kinds, Kind::Int, set.integer)?;
    add_kind(&mut kinds, Kind::Text, set.text)?;
    add_kind(&mut kinds, Kind::Time, set.time)?;
    Ok(kinds)
}

fn add_kind(kinds: &mut List<Kind>, kind: Kind, is_there: bool) -> Result<(), Memory>
    ensures { OnOk result ((span : Bool) (g : Ground.Ground) → IsAmong kinds.new span g ↔ (IsAmong kinds.old span g ⊎ ((is_there ≡ true) × (g ≡ of_kind kind)))) }
{
    if is_there {
        return kinds.push(kind);
    }
    Ok(())
}
