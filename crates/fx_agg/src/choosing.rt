ghost use Rattle.std.specs.Prelude.{◌≡◌, List as AnyList, map, option_to_list, IfOk, OnOk};
ghost use Rattle.fx_agg.specs.Chosen.{candidate, is_kept, stays, better, best, chosen};

use crate::agg::Agg;
use fx_base::{List, Memory, Text};
use fx_value::{Row, Scalar, scalar_order};

/// Whether a row with the first value is chosen before a later one with the second.
fn stays(which: Agg, earlier: &Scalar, later: &Scalar) -> bool
    ensures { result ≡ stays which earlier.now later.now }
{
    match which {
        Agg::Min => scalar_order(earlier, later).is_le(),
        Agg::Max => scalar_order(earlier, later).is_ge(),
        Agg::First => true,
        _ => false,
    }
}

/// Whether there is a best row so far that is chosen before a later one with this value.
fn is_kept(which: Agg, best: &Option<(Scalar, Row)>, value: &Scalar) -> bool
    ensures { result ≡ is_kept (stays which) best.now value.now }
{
    match best {
        None => false,
        Some((earlier, _)) => stays(which, earlier, value),
    }
}

/// Puts the row, behind its value, in place of the best so far, where it is chosen before that. A row
/// that isn't chosen costs no more than a look at its value.
fn offer(
    which: Agg,
    column: &Text,
    place: &mut usize,
    best: &mut Option<(Scalar, Row)>,
    row: Row,
) -> Result<(), Memory>
    ensures { OnOk result (best.new ≡ better (stays which) best.old (candidate column.now row)) }
{
    let value = match row.get_near(column, place) {
        None | Some(Scalar::Null) => return Ok(()),
        Some(value) => {
            if is_kept(which, best, value) {
                return Ok(());
            }
            value.copy()?
        }
    };
    *best = Some((value, row));
    Ok(())
}

/// The row that is chosen, or None where each value is null.
pub(crate) fn chosen(which: Agg, column: &Text, rows: List<Row>) -> Result<Option<Row>, Memory>
    ensures { IfOk result (λ row. option_to_list row ≡ chosen which column.now rows) }
{
    let mut best = None;
    let mut place = 0;
    for row in rows.into_vec() {
        offer(which, column, &mut place, &mut best, row)?;
    }
    match best {
        None => Ok(None),
        Some((_value, row)) => Ok(Some(row)),
    }
}
