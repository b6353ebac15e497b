ghost use Rattle.std.specs.Prelude.{◌≡◌, map, IsTrue};
ghost use Rattle.std.specs.List.Sorted.{IsStrictlySortedBy};
ghost use Rattle.std.specs.declared.cmp.Ordering.{Ordering as AnyOrdering};
ghost use Rattle.fx_data.specs.Key.{key_cmp};

use crate::key::key_order;
use crate::table::Table;

fn is_below(first: &Table, second: &Table) -> bool
    ensures { IsTrue result → key_cmp first.now.key second.now.key ≡ AnyOrdering.Less }
{
    key_order(&first.key, &second.key).is_lt()
}

/// Whether the keys rise strictly.
pub fn are_rising(tables: &[Table]) -> bool
    ensures { IsTrue result → IsStrictlySortedBy key_cmp (map (λ t. t.key) tables.now) }
{
    for i in 1..tables.len() {
        if !is_below(&tables[i - 1], &tables[i]) {
            return false;
        }
    }
    true
}
