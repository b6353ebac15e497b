ghost use Rattle.std.specs.Prelude.{◌≡◌, map, IfOk, IfSome};
ghost use Rattle.std.specs.FinMap.{FinMap};
ghost use Rattle.fx_base.specs.Text.{text_cmp};
ghost use Rattle.fx_value.specs.Recast.{IsRecast};
ghost use Rattle.fx_value.specs.Row.{row_of};
ghost use Rattle.fx_value.specs.declared.scalar.Scalar.{Scalar};
ghost use Rattle.fx_value.specs.declared.source.Source.{Source};

use crate::change::Reshape;
use crate::head::Head;
use crate::row::Row;
use fx_base::{List, Memory};
use std::alloc::Global;
use std::rc::Rc;

/// A change of rows that looks at their labels alone, so that rows with one head have one head after
/// it.
pub trait Recast {
    /// The head that rows with this one have afterwards.
    ghost of_head: { Self → FinMap text_cmp Source → FinMap text_cmp Source };
    /// What becomes of a row.
    ghost of_row: { Self → FinMap text_cmp Scalar → FinMap text_cmp Scalar };

    /// What becomes of a head.
    fn recast(&self, alloc: Global, head: &Head) -> Result<Head, Memory>
        ensures { IfOk result (λ h. h ≡ of_head self.now head.now) };

    /// What becomes of a head says what becomes of its rows.
    ghost by_heads: { (r : Self) (head : FinMap text_cmp Source) (first second : Scalar) → row_of (of_head r head) first second ≡ of_row r (row_of head first second) };
}

/// What the recast makes of this head. Where the last head was the same, the answer is shared.
pub(crate) fn recast_head<R: Recast>(
    alloc: Global,
    recast: &R,
    head: &Rc<Head>,
    last: Option<Reshape>,
) -> Result<Reshape, Memory>
    requires { IfSome last (IsRecast (R.of_head recast.now)) }
    ensures from { IfOk result (λ known. known.from.value ≡ head.now.value) }
    ensures to { IfOk result (IsRecast (R.of_head recast.now)) }
{
    match last {
        Some(known) if known.from.as_ref().is_same(head.as_ref()) => Ok(known),
        _ => {
            let made = recast.recast(alloc, head.as_ref())?;
            Ok(Reshape {
                from: head.clone()?,
                to: Rc::new(alloc, made)?,
            })
        }
    }
}

/// The rows after the recast. Of rows that follow one another with one head, one new head is made.
pub fn recast_rows<R: Recast>(
    alloc: Global,
    rows: List<Row>,
    recast: &R,
) -> Result<List<Row>, Memory>
    ensures { IfOk result (λ rs. rs ≡ map (R.of_row recast.now) rows) }
{
    let mut rows = rows.into_vec();
    let mut last = None;
    for row in rows.iter_mut() {
        last = Some(row.recast(alloc, recast, last)?);
    }
    Ok(List::of(rows))
}
