ghost use Rattle.std.specs.Prelude.{◌≡◌, ◌↔◌, OnOk};
ghost use Rattle.fx_types.specs.Instance.{Solution};
ghost use Rattle.fx_unify.specs.Part.{part, value};
ghost use Rattle.fx_unify.specs.Work.{Hold};

use crate::field::Field;
use fx_base::Memory;

/// An equation that is left to solve.
#[derive(Debug, Drop)]
pub(crate) struct Pair {
    pub(crate) left: Field,
    pub(crate) right: Field,
}

/// Leaves an equation for later.
pub(crate) fn put_off(work: &mut Vec<Pair>, left: Field, right: Field) -> Result<(), Memory>
    ensures { OnOk result ((s : Solution) → Hold s work.new.items ↔ (Hold s work.old.items × (value s (part left) ≡ value s (part right)))) }
{
    work.push(Pair { left, right })?;
    Ok(())
}
