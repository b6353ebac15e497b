ghost use Rattle.std.specs.Prelude.{◌≡◌, true, false, MatchOption};
ghost use Rattle.std.specs.Option.{option_copied};
ghost use Rattle.fx_table.specs.CaseTable.{rises, value_at};

use crate::order::rises;
use std::cmp::Ordering;

/// Rows by strictly rising key, over a lent array.
#[derive(Drop)]
pub struct CaseTable<'a, K: Ord, V, const N: usize> {
    rows: &'a [(K, V)],
    ghost rising: { rises K.cmp rows.now ≡ true },
}

impl<'a, K: Ord, V, const N: usize> CaseTable<'a, K, V, N> {
    /// The table of these rows, or None where the keys don't rise strictly.
    pub fn over(rows: &'a [(K, V); N]) -> Option<CaseTable<'a, K, V, N>>
        ensures { MatchOption result (rises K.cmp rows.now ≡ false) (λ t. (rises K.cmp rows.now ≡ true) × (t.rows.now ≡ rows.now)) }
    {
        if rises(rows) {
            Some(CaseTable { rows })
        } else {
            None
        }
    }

    /// The value of the row with this key, or None where no row has it.
    pub fn find(&self, key: &K) -> Option<&'a V>
        ensures { option_copied result ≡ value_at K.cmp key.now self.now.rows.now }
    {
        let mut low = 0;
        let mut high = self.rows.len();
        while low < high {
            let middle = low + (high - low) / 2;
            let row = &self.rows[middle];
            match row.0.cmp(key) {
                Ordering::Less => low = middle + 1,
                Ordering::Equal => return Some(&row.1),
                Ordering::Greater => high = middle,
            }
        }
        None
    }
}
