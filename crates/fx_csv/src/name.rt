//! Labels in the order in which columns stand.
ghost use Rattle.std.specs.Prelude.{◌≡◌, IfOk};
ghost use Rattle.fx_csv.specs.Columns.{label_rank};

use fx_base::{Memory, Text};
use std::cmp::Ordering;
use std::marker::Model;

/// A label that compares as columns stand. It keeps its place among the labels that stand first.
#[derive(Drop)]
pub(crate) struct ColumnName {
    rank: u8,
    label: Text,
}

impl Model for ColumnName {
    ghost use Rattle.std.specs.Prelude.{◌≡◌, ℕ, List};
    ghost use Rattle.fx_csv.specs.Columns.{label_rank};

    ghost Value = { List ℕ };

    ghost view = { λ n. n.label };

    ghost invariant = { λ n. n.rank ≡ label_rank n.label };
}

impl ColumnName {
    pub(crate) fn of(label: Text) -> ColumnName
        ensures { result ≡ label }
    {
        ColumnName {
            rank: rank_of(&label),
            label,
        }
    }

    pub(crate) fn label(&self) -> Result<Text, Memory>
        ensures { IfOk result (λ t. t ≡ self.now) }
    {
        self.label.copy()
    }
}

fn rank_of(label: &Text) -> u8
    ensures { result ≡ label_rank label.now }
{
    match label.as_str() {
        "_start" => 0,
        "_stop" => 1,
        "_time" => 2,
        "_value" => 3,
        "_field" => 4,
        "_measurement" => 5,
        _ => 6,
    }
}

impl PartialEq for ColumnName {
    ghost use Rattle.std.specs.Ordering.{eq_by_cmp};
    ghost use Rattle.std.specs.Cmp.{partial_equiv_from_equiv, eq_by_cmp_equiv};
    ghost use Rattle.fx_csv.specs.Columns.{column_cmp};
    ghost use Rattle.fx_csv.specs.Columns.{column_cmp_total};

    ghost eq = { eq_by_cmp column_cmp };

    ghost laws = { partial_equiv_from_equiv (eq_by_cmp_equiv column_cmp_total) };

    fn eq(&self, other: &ColumnName) -> bool {
        self.cmp(other).is_eq()
    }
}

impl Eq for ColumnName {
    ghost use Rattle.std.specs.Cmp.{eq_by_cmp_equiv};
    ghost use Rattle.fx_csv.specs.Columns.{column_cmp_total};

    ghost laws = { eq_by_cmp_equiv column_cmp_total };
}

impl PartialOrd for ColumnName {
    ghost use Rattle.std.specs.Ordering.{as_partial_cmp};
    ghost use Rattle.std.specs.Cmp.{partial_order_from_total};
    ghost use Rattle.fx_csv.specs.Columns.{column_cmp};
    ghost use Rattle.fx_csv.specs.Columns.{column_cmp_total};

    ghost partial_cmp = { as_partial_cmp column_cmp };

    ghost laws = { partial_order_from_total column_cmp_total };

    fn partial_cmp(&self, other: &ColumnName) -> Option<Ordering> {
        Some(self.cmp(other))
    }
}

impl Ord for ColumnName {
    ghost use Rattle.std.specs.Prelude.{refl};
    ghost use Rattle.fx_csv.specs.Columns.{column_cmp};
    ghost use Rattle.fx_csv.specs.Columns.{column_cmp_total};

    ghost cmp = { column_cmp };

    ghost total = { column_cmp_total };

    ghost matches_partial_cmp = { λ x y. refl };

    ghost matches_eq = { λ x y. refl };

    fn cmp(&self, other: &ColumnName) -> Ordering {
        match self.rank.cmp(&other.rank) {
            Ordering::Equal => self.label.cmp(&other.label),
            unequal => unequal,
        }
    }
}
