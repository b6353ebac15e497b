ghost use Rattle.std.specs.Prelude.{◌≡◌, ◌<◌, [], ◌∷◌, ◌++◌, length, map, vec_len, IfOk, IfErr, IfSome, IsTrue, OnOk};
ghost use Rattle.std.specs.List.{AllByRecursion};
ghost use Rattle.std.specs.FinMap as fin;
ghost use Rattle.fx_data.specs.Ascending.{Rise};
ghost use Rattle.fx_data.specs.Gathered.{grouped, table_of};
ghost use Rattle.fx_data.specs.Placed.{KeyAt, BelongsIn, with_rows_at};
ghost use Rattle.fx_data.specs.Regrouped.{alone, joined, new_key};
ghost use Rattle.fx_data.specs.Table.{HasRisingLabels, IsLawfulTable};

use crate::groups::collect;
use crate::key::{Key, key_order};
use crate::rekey::{is_new_key, new_key};
use crate::table::Table;
use crate::tables::Tables;
use fx_base::{List, Memory};
use fx_value::Row;
use std::alloc::Global;
use std::marker::Model;

/// How many tables may be shifted to make room for a new one.
const SHIFTED: usize = 1024;

/// Rows on their way to their tables, as runs of rows that have one key. Contracts see the map from
/// keys to rows.
///
/// As long as the keys of the runs rise, a row joins the run with its key wherever that stands, and
/// the next row is awaited there or in the next run. So rows that come in the order of their keys,
/// time after time, make one run for each key.
#[derive(Debug, Drop)]
pub struct Runs {
    tables: Vec<Table>,
    /// Where the last row went, as long as the keys rise.
    place: Option<usize>,
}

impl Model for Runs {
    ghost use Rattle.std.specs.Prelude.{List};
    ghost use Rattle.std.specs.Coded.{coded_list, coded_ℕ};
    ghost use Rattle.std.specs.FinMap as map;
    ghost use Rattle.std.specs.List.{AllByRecursion};
    ghost use Rattle.fx_base.specs.Text.{text_cmp};
    ghost use Rattle.fx_value.specs.declared.scalar.Scalar.{Scalar};
    ghost use Rattle.fx_value.specs.contracts.scalar.Scalar.{the_row as scalar_row};
    ghost use Rattle.fx_data.specs.contracts.key.Key.{the_row as key_row};
    ghost use Rattle.fx_data.specs.Gathered.{grouped};
    ghost use Rattle.fx_data.specs.Key.{key_cmp};
    ghost use Rattle.fx_data.specs.Ascending.{RiseWhere};
    ghost use Rattle.fx_data.specs.Table.{IsLawfulTable};

    ghost Value = { map.FinMap key_cmp (List (map.FinMap text_cmp Scalar)) };

    ghost coded = { map.code key_row.coded (coded_list (map.code (coded_list coded_ℕ) scalar_row.coded)) };

    ghost view = { λ r. grouped r.tables.items };

    ghost invariant = { λ r. AllByRecursion IsLawfulTable r.tables.items × RiseWhere r.place r.tables.items };
}

impl Runs {
    /// No rows.
    pub fn empty(alloc: Global) -> Runs
        ensures { result ≡ fin.empty }
    {
        Runs {
            tables: Vec::new(alloc),
            place: Some(0),
        }
    }

    /// Puts the row behind those with its new key. It takes no memory for a key where the row has
    /// that of the row before, or of the run behind that.
    pub fn push(self, alloc: Global, key: &Key, row: Row) -> Result<Runs, Memory>
        requires { HasRisingLabels key.now }
        ensures { IfOk result (λ runs. runs ≡ joined self (alone (record { key = key.now; row = row }))) }
    {
        let Runs { tables, place } = self;
        match place {
            Some(place) => with_placed_row(alloc, tables, place, key, row),
            None => {
                let tables = with_row(alloc, tables, key, row)?;
                Ok(Runs {
                    tables,
                    place: None,
                })
            }
        }
    }

    /// Puts the rows of the table behind those with its key.
    pub fn push_table(self, table: Table) -> Result<Runs, Memory>
        requires { IsLawfulTable table }
        ensures { IfOk result (λ runs. runs ≡ joined self table) }
    {
        let Runs { tables, place } = self;
        match place {
            Some(place) => with_placed_table(tables, place, table),
            None => {
                let tables = with_table(tables, table)?;
                Ok(Runs {
                    tables,
                    place: None,
                })
            }
        }
    }

    /// The rows as tables, in the order of their keys.
    pub fn into_tables(self, alloc: Global) -> Result<Tables, Memory>
        ensures { IfOk result (λ t. t ≡ map table_of (fin.entries self)) }
    {
        collect(alloc, List::of(self.tables))
    }
}

/// Whether the table at the place has the row's new key; false says nothing.
fn is_at(tables: &[Table], place: usize, key: &Key, row: &Row) -> bool
    ensures { IsTrue result → KeyAt (new_key key.now row.now) tables.now place }
{
    place < tables.len() && is_new_key(&tables[place].key, key, row)
}

/// The table with the row's new key, if it is the last one that a row went to, the one behind it or
/// the first.
fn near(tables: &[Table], place: usize, key: &Key, row: &Row) -> Option<usize>
    ensures { IfSome result (KeyAt (new_key key.now row.now) tables.now) }
{
    if is_at(tables, place, key, row) {
        return Some(place);
    }
    let next = if place < tables.len() { place + 1 } else { 0 };
    if is_at(tables, next, key, row) {
        return Some(next);
    }
    if is_at(tables, 0, key, row) {
        return Some(0);
    }
    None
}

fn push_row(table: &mut Table, row: Row) -> Result<(), Memory>
    ensures { OnOk result (table.new ≡ record table.old { rows = table.old.rows ++ row ∷ [] }) }
{
    table.rows.push(row)
}

fn push_rows(table: &mut Table, rows: List<Row>) -> Result<(), Memory>
    ensures { OnOk result (table.new ≡ record table.old { rows = table.old.rows ++ rows }) }
{
    for row in rows.into_vec() {
        push_row(table, row)?;
    }
    Ok(())
}

fn push_row_at(tables: &mut Vec<Table>, place: usize, row: Row) -> Result<(), Memory>
    requires { place < vec_len tables.old }
    ensures { OnOk result (tables.new.items ≡ with_rows_at place (row ∷ []) tables.old.items) }
{
    push_row(&mut tables[place], row)
}

fn push_rows_at(tables: &mut Vec<Table>, place: usize, rows: List<Row>) -> Result<(), Memory>
    requires { place < vec_len tables.old }
    ensures { OnOk result (tables.new.items ≡ with_rows_at place rows tables.old.items) }
{
    push_rows(&mut tables[place], rows)
}

/// The runs with one more row, where the keys of the tables rise.
fn with_placed_row(
    alloc: Global,
    mut tables: Vec<Table>,
    place: usize,
    key: &Key,
    row: Row,
) -> Result<Runs, Memory>
    requires rising { Rise tables.items }
    requires lawful { AllByRecursion IsLawfulTable tables.items }
    requires labels { HasRisingLabels key.now }
    ensures { IfOk result (λ runs. runs ≡ joined (grouped tables.items) (alone (record { key = key.now; row = row }))) }
{
    match near(tables.as_slice(), place, key, &row) {
        Some(place) => {
            push_row_at(&mut tables, place, row)?;
            Ok(Runs {
                tables,
                place: Some(place),
            })
        }
        None => with_placed_table(tables, place, lone(alloc, key, row)?),
    }
}

/// Whether the table at the place has this key; false says nothing.
fn has_key_at(tables: &[Table], place: usize, key: &Key) -> bool
    ensures { IsTrue result → KeyAt key.now tables.now place }
{
    place < tables.len() && key_order(&tables[place].key, key).is_eq()
}

/// The table with this key, if it is the last one that a row went to, the one behind it or the
/// first.
fn key_near(tables: &[Table], place: usize, key: &Key) -> Option<usize>
    ensures { IfSome result (KeyAt key.now tables.now) }
{
    if has_key_at(tables, place, key) {
        return Some(place);
    }
    let next = if place < tables.len() { place + 1 } else { 0 };
    if has_key_at(tables, next, key) {
        return Some(next);
    }
    if has_key_at(tables, 0, key) {
        return Some(0);
    }
    None
}

/// Whether this key is above those of the tables, which rise; false says nothing.
fn is_above(tables: &[Table], key: &Key) -> bool
    requires { Rise tables.now }
    ensures { IsTrue result → BelongsIn key.now tables.now (length tables.now) }
{
    let count = tables.len();
    count > 0 && key_order(&tables[count - 1].key, key).is_lt()
}

/// Where the table with this key stands, or where it would. Of tables that come in the order of their
/// keys none is searched for.
fn place_of(tables: &[Table], place: usize, key: &Key) -> Result<usize, usize>
    requires { Rise tables.now }
    ensures found { IfOk result (KeyAt key.now tables.now) }
    ensures missed { IfErr result (BelongsIn key.now tables.now) }
{
    if let Some(place) = key_near(tables, place, key) {
        return Ok(place);
    }
    if is_above(tables, key) {
        return Err(tables.len());
    }
    tables.binary_search_by(|table| key_order(&table.key, key))
}

/// The runs with the rows of one more table, where the keys of the tables rise.
fn with_placed_table(mut tables: Vec<Table>, place: usize, table: Table) -> Result<Runs, Memory>
    requires rising { Rise tables.items }
    requires each { AllByRecursion IsLawfulTable tables.items }
    requires lawful { IsLawfulTable table }
    ensures { IfOk result (λ runs. runs ≡ joined (grouped tables.items) table) }
{
    match place_of(tables.as_slice(), place, &table.key) {
        Ok(place) => {
            push_rows_at(&mut tables, place, table.rows)?;
            Ok(Runs {
                tables,
                place: Some(place),
            })
        }
        Err(place) => with_new_table(tables, place, table),
    }
}

/// The runs with a new table, which belongs at this place. Where many tables would have to make
/// room for it, it goes to the end, and the keys rise no more.
fn with_new_table(mut tables: Vec<Table>, place: usize, table: Table) -> Result<Runs, Memory>
    requires place { BelongsIn table.key tables.items place }
    requires rising { Rise tables.items }
    requires each { AllByRecursion IsLawfulTable tables.items }
    requires lawful { IsLawfulTable table }
    ensures { IfOk result (λ runs. runs ≡ joined (grouped tables.items) table) }
{
    if tables.len() - place > SHIFTED {
        let tables = with_table(tables, table)?;
        return Ok(Runs {
            tables,
            place: None,
        });
    }
    tables.insert(place, table)?;
    Ok(Runs {
        tables,
        place: Some(place),
    })
}

/// The table with one more row.
fn longer(table: Table, row: Row) -> Result<Table, Memory>
    ensures { IfOk result (λ t. t ≡ record table { rows = table.rows ++ row ∷ [] }) }
{
    let Table { key, mut rows } = table;
    rows.push(row)?;
    Ok(Table { key, rows })
}

/// A table of this row, under its new key.
fn lone(alloc: Global, key: &Key, row: Row) -> Result<Table, Memory>
    ensures { IfOk result (λ t. t ≡ alone (record { key = key.now; row = row })) }
{
    let key = new_key(alloc, key, &row)?;
    let mut rows = List::empty(alloc);
    rows.push(row)?;
    Ok(Table { key, rows })
}

pub(crate) fn with_table(mut tables: Vec<Table>, table: Table) -> Result<Vec<Table>, Memory>
    ensures { IfOk result (λ ts. ts.items ≡ tables.items ++ table ∷ []) }
{
    tables.push(table)?;
    Ok(tables)
}

/// The runs with one more row, which joins the last of them where that has its new key.
fn with_row(
    alloc: Global,
    mut tables: Vec<Table>,
    key: &Key,
    row: Row,
) -> Result<Vec<Table>, Memory>
    requires { HasRisingLabels key.now }
    ensures groups { IfOk result (λ ts. grouped ts.items ≡ joined (grouped tables.items) (alone (record { key = key.now; row = row }))) }
    ensures lawful { AllByRecursion IsLawfulTable tables.items → IfOk result (λ ts. AllByRecursion IsLawfulTable ts.items) }
{
    match tables.pop() {
        None => with_table(tables, lone(alloc, key, row)?),
        Some(last) => {
            if is_new_key(&last.key, key, &row) {
                return with_table(tables, longer(last, row)?);
            }
            let tables = with_table(tables, last)?;
            with_table(tables, lone(alloc, key, row)?)
        }
    }
}
