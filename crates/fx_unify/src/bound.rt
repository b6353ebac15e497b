//! One bound on a type variable.

ghost use Rattle.std.specs.Prelude.{◌≡◌, ◌↔◌, true, false};
ghost use Rattle.fx_types.specs.Ground as Ground;
ghost use Rattle.fx_types.specs.Kinds.{IsAmong};
ghost use Rattle.fx_unify.specs.Sorts.{allows};

use crate::sorts::Sorts;
use fx_value::Kind;

/// The type variable has one of these types, which are scalars.
#[derive(Debug, Drop)]
pub(crate) struct Bound {
    pub(crate) var: u32,
    pub(crate) sorts: Sorts,
    ghost scalar: { sorts.other ≡ false },
}

impl Bound {
    /// The variable is one of the kinds, or a duration where `span` is true.
    pub(crate) fn of(var: u32, kinds: &[Kind], span: bool) -> Bound
        ensures var { result.var ≡ var }
        ensures sorts { (g : Ground.Ground) → (allows result.sorts g ≡ true) ↔ IsAmong kinds.now span g }
    {
        let sorts = Sorts::of(kinds, span);
        Bound { var, sorts }
    }
}
