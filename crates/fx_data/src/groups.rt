ghost use Rattle.std.specs.Prelude.{◌≡◌, false, [], ◌∷◌, ◌++◌, List as AnyList, IfOk};
ghost use Rattle.std.specs.Ordering.{is_lt};
ghost use Rattle.std.specs.List.{AllByRecursion};
ghost use Rattle.fx_data.specs.Ascending.{Rise, Ascend, LastHas};
ghost use Rattle.fx_data.specs.Gathered.{gathered, grouped};
ghost use Rattle.fx_data.specs.Key.{key_cmp};
ghost use Rattle.fx_data.specs.Regrouped.{joined};
ghost use Rattle.fx_data.specs.Table.{AreLawful, IsLawfulTable};
ghost use Rattle.fx_data.specs.declared.table.Table.{Table as AnyTable};

use crate::key::key_order;
use crate::order::are_rising;
use crate::runs::with_table;
use crate::table::Table;
use crate::tables::Tables;
use fx_base::{List, Memory};
use fx_value::Row;
use std::alloc::Global;

/// The tables in the order of their keys; those with one key keep their order. Tables that rise in
/// parts, as those of several streams do, are merged part by part.
fn in_order(tables: List<Table>) -> Result<Vec<Table>, Memory>
    ensures groups { IfOk result (λ v. grouped v.items ≡ grouped tables) }
    ensures order { IfOk result (λ v. Ascend v.items) }
    ensures lawful { AllByRecursion IsLawfulTable tables → IfOk result (λ v. AllByRecursion IsLawfulTable v.items) }
{
    let mut tables = tables.into_vec();
    tables.sort_by(|a, b| key_order(&a.key, &b.key))?;
    Ok(tables)
}

fn joined(earlier: List<Row>, later: List<Row>) -> Result<List<Row>, Memory>
    ensures { IfOk result (λ rows. rows ≡ earlier ++ later) }
{
    let mut rows = earlier.into_vec();
    rows.append(&mut later.into_vec())?;
    Ok(List::of(rows))
}

/// Puts a table behind others whose keys are not above its key. Where the last has its key, its rows
/// go behind those of the last.
fn with_next(mut tables: Vec<Table>, table: Table) -> Result<Vec<Table>, Memory>
    requires { (front : AnyList AnyTable) (last : AnyTable) → tables.items ≡ front ++ last ∷ [] → is_lt (key_cmp table.key last.key) ≡ false }
    ensures groups { IfOk result (λ v. grouped v.items ≡ joined (grouped tables.items) table) }
    ensures rising { Rise tables.items → IfOk result (λ v. Rise v.items) }
    ensures last { IfOk result (λ v. LastHas table.key v.items) }
    ensures lawful { AllByRecursion IsLawfulTable tables.items → IsLawfulTable table → IfOk result (λ v. AllByRecursion IsLawfulTable v.items) }
{
    match tables.pop() {
        None => with_table(tables, table),
        Some(last) => {
            if key_order(&last.key, &table.key).is_eq() {
                let Table { key, rows } = last;
                let rows = joined(rows, table.rows)?;
                return with_table(tables, Table { key, rows });
            }
            let tables = with_table(tables, last)?;
            with_table(tables, table)
        }
    }
}

/// The tables, where neighbours with one key become one.
fn with_neighbours_joined(alloc: Global, tables: Vec<Table>) -> Result<List<Table>, Memory>
    requires order { Ascend tables.items }
    requires lawful { AllByRecursion IsLawfulTable tables.items }
    ensures groups { IfOk result (λ ts. grouped ts ≡ grouped tables.items) }
    ensures lawful { IfOk result AreLawful }
{
    let mut made = Vec::new(alloc);
    for table in tables {
        made = with_next(made, table)?;
    }
    Ok(List::of(made))
}

/// The tables in the order of their keys. Tables with one key become one, whose rows are theirs, in
/// order. Tables whose keys rise are handed on as they are.
pub fn collect(alloc: Global, tables: List<Table>) -> Result<Tables, Memory>
    requires { AllByRecursion IsLawfulTable tables }
    ensures { IfOk result (λ t. t ≡ gathered tables) }
{
    if are_rising(tables.as_slice()) {
        return Ok(Tables::of(tables));
    }
    let ordered = in_order(tables)?;
    let items = with_neighbours_joined(alloc, ordered)?;
    Ok(Tables::of(items))
}
