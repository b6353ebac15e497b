ghost use Rattle.std.specs.Prelude.{◌≡◌, ◌≢◌, true, List as AnyList, length, IfOk};
ghost use Rattle.std.specs.List.{AllByRecursion};
ghost use Rattle.fx_time.specs.Windows.{IsWindow};
ghost use Rattle.fx_value.specs.Ends.{End, Gives, Stuck};
ghost use Rattle.fx_data.specs.Table.{HasKey, HasRisingLabels, IsLawfulTable};
ghost use Rattle.fx_data.specs.declared.key.Key.{Key as AnyKey};
ghost use Rattle.fx_window.specs.Cut.{cut_of, cut_size, windows_between, windows_of};
ghost use Rattle.fx_window.specs.declared.cutting.CutTable.{CutTable as AnyCutTable};
ghost use Rattle.fx_window.specs.declared.standing.Placed.{Placed as AnyPlaced};

use crate::cutting::{Bounds, bounds_of, cut};
use crate::standing::{engine_labels, place_rows};
use crate::windowing::copies;
use fx_base::Memory;
use fx_data::Table;
use fx_time::{Span, windows_at};
use std::alloc::Global;

/// How many windows hold a moment between the bounds.
fn count_between(bounds: Bounds, every: Span) -> u64
    requires { IsWindow every }
    ensures windows { result ≡ length (windows_between every bounds) }
    ensures tables { (key : AnyKey) (placed : AnyList AnyPlaced) → HasRisingLabels key → AllByRecursion (λ p. HasKey key.entries p.row) placed → length (windows_of every true bounds key placed) ≡ result }
{
    let Bounds { start, stop } = bounds;
    if stop <= start {
        return 0;
    }
    let (first, _) = windows_at(start, every, every);
    let (_, next) = windows_at(stop - 1, every, every);
    (next - first) as u64
}

/// How many windows `cut` makes of the table. With `create_empty` none of them is made for this.
pub fn cut_count(
    alloc: Global,
    table: &Table,
    every: Span,
    create_empty: bool,
) -> Result<u64, Memory>
    requires window { IsWindow every }
    requires lawful { IsLawfulTable table.now }
    requires unstuck { ◌≢◌ {A = End AnyCutTable} (cut_of every create_empty table.now) Stuck }
    ensures { IfOk result (λ n. cut_size every create_empty table.now ≡ Gives n 0) }
{
    if !create_empty {
        let parts = cut(alloc, table, every, false)?;
        return Ok(parts.windows.len());
    }
    let labels = engine_labels(alloc)?;
    let rows = copies(alloc, table.rows.as_slice())?;
    let placed = place_rows(alloc, &labels, rows)?;
    match bounds_of(placed.as_slice()) {
        None => Ok(0),
        Some(bounds) => Ok(count_between(bounds, every)),
    }
}
