ghost use Rattle.std.specs.Prelude.{◌≡◌, map, IfOk};
ghost use Rattle.std.specs.List.{flat_map};
ghost use Rattle.fx_data.specs.Gathered.{grouped};
ghost use Rattle.fx_data.specs.Regrouped.{alone};
ghost use Rattle.fx_data.specs.Table.{IsLawfulTable};
ghost use Rattle.fx_group.specs.Turned.{with_rows};
ghost use Rattle.fx_shape.specs.Changed.{rows_after};
ghost use Rattle.fx_shape.specs.Columns.{column_doubled, doubled};

use crate::run::{has_label, push_moved};
use fx_base::{Memory, Text};
use fx_data::{Runs, Table, Tables};
use fx_value::{Head, Recast, recast_rows};
use std::alloc::Global;

/// Makes one column what another one is.
#[derive(Drop)]
struct Doubling {
    from: Text,
    to: Text,
}

impl Recast for Doubling {
    ghost use Rattle.fx_shape.specs.Columns.{doubled};
    ghost use Rattle.fx_shape.specs.Heads.{doubled_by_heads};

    ghost of_head = { λ d. doubled d.from d.to };

    ghost of_row = { λ d. doubled d.from d.to };

    ghost by_heads = { λ d head first second. doubled_by_heads head first second d.from d.to };

    fn recast(&self, alloc: Global, head: &Head) -> Result<Head, Memory> {
        match head.get(&self.from) {
            None => head.without(alloc, &self.to),
            Some(source) => head.with(alloc, &self.to, source.copy()?),
        }
    }
}

/// Puts the rows of the table with the copied column behind the runs.
fn push_doubled(
    alloc: Global,
    runs: Runs,
    doubling: &Doubling,
    table: Table,
) -> Result<Runs, Memory>
    requires { IsLawfulTable table }
    ensures { IfOk result (λ r. r ≡ with_rows runs (rows_after (λ key. key) (doubled doubling.now.from doubling.now.to) table)) }
{
    let Table { key, rows } = table;
    let rows = recast_rows(alloc, rows, doubling)?;
    let one = !has_label(&key, &doubling.to);
    push_moved(alloc, runs, &key, one, rows)
}

/// The rows of all tables with the copied column, in runs.
fn runs_doubled(alloc: Global, doubling: &Doubling, tables: Tables) -> Result<Runs, Memory>
    ensures { IfOk result (λ r. r ≡ grouped (map alone (flat_map (rows_after (λ key. key) (doubled doubling.now.from doubling.now.to)) tables))) }
{
    let mut runs = Runs::empty(alloc);
    for table in tables.into_list().into_vec() {
        runs = push_doubled(alloc, runs, doubling, table)?;
    }
    Ok(runs)
}

/// The tables in which one column is what another one is, so a row that lacks the one loses the
/// other. One new head is made for each head that is met. Tables without rows are dropped.
pub fn duplicate(
    alloc: Global,
    tables: Tables,
    column: &Text,
    copy: &Text,
) -> Result<Tables, Memory>
    ensures { IfOk result (λ t. t ≡ column_doubled column.now copy.now tables) }
{
    let from = column.copy()?;
    let to = copy.copy()?;
    let runs = runs_doubled(alloc, &Doubling { from, to }, tables)?;
    runs.into_tables(alloc)
}
