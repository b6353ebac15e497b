ghost use Rattle.std.specs.Prelude.{◌≡◌};
ghost use Rattle.fx_table.specs.CaseTable.{comes_before, rises};

/// Whether the row's key is below that of the first of the others.
fn comes_before<K: Ord, V>(row: &(K, V), others: &[(K, V)]) -> bool
    ensures { result ≡ comes_before K.cmp row.now others.now }
{
    match others {
        [next, ..] => row.0.cmp(&next.0).is_lt(),
        [] => true,
    }
}

/// Whether each key is below the next.
pub(crate) fn rises<K: Ord, V>(rows: &[(K, V)]) -> bool
    ensures { result ≡ rises K.cmp rows.now }
{
    let mut rest = rows;
    while let [row, after @ ..] = rest {
        if !comes_before(row, after) {
            return false;
        }
        rest = after;
    }
    true
}
