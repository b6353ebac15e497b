ghost use Rattle.std.specs.Prelude.{◌≡◌, map, IfOk, IfSome};
ghost use Rattle.std.specs.FinMap as fin;
ghost use Rattle.std.specs.List.{flat_map};
ghost use Rattle.fx_data.specs.Gathered.{grouped};
ghost use Rattle.fx_data.specs.Regrouped.{all_joined};
ghost use Rattle.fx_group.specs.Group.{is_listed, picked_table, regrouped_by, grouped_by, grouped_except};
ghost use Rattle.fx_group.specs.Wanted.{picks, wanted_key, IsPattern};

use fx_base::{List, Memory, Text};
use fx_data::{Key, KeyEntry, Runs, Tables};
use fx_value::{Row, Scalar};
use std::alloc::Global;

/// A row, and a key of the labels that are picked of each row with its labels.
#[derive(Drop)]
struct Pattern {
    row: Row,
    key: Key,
}

fn is_listed(columns: &[Text], label: &Text) -> bool
    ensures { result ≡ is_listed columns.now label.now }
{
    columns.iter().any(|column| *column == *label)
}

/// The labels of the row that are picked, with no values.
fn wanted_key(alloc: Global, columns: &[Text], except: bool, row: &Row) -> Result<Key, Memory>
    ensures { IfOk result (λ k. k ≡ wanted_key (picks columns.now except) row.now) }
{
    let mut entries = Vec::new(alloc);
    for label in row.labels(alloc)?.into_vec() {
        if is_listed(columns, &label) != except {
            entries.push(KeyEntry {
                label,
                value: Scalar::Null,
                pinned: false,
            })?;
        }
    }
    Ok(Key {
        entries: List::of(entries),
    })
}

/// The pattern of a row. Where the last one has its labels, that serves.
fn pattern_of(
    alloc: Global,
    columns: &[Text],
    except: bool,
    row: &Row,
    last: Option<Pattern>,
) -> Result<Pattern, Memory>
    requires { IfSome last (IsPattern (picks columns.now except)) }
    ensures labels { IfOk result (λ p. fin.keys p.row ≡ fin.keys row.now) }
    ensures pattern { IfOk result (IsPattern (picks columns.now except)) }
{
    match last {
        Some(known) if known.row.same_labels(row) => Ok(known),
        _ => Ok(Pattern {
            row: row.copy()?,
            key: wanted_key(alloc, columns, except, row)?,
        }),
    }
}

/// Puts the rows behind the runs, under the keys of their picked columns.
fn push_rows(
    alloc: Global,
    mut runs: Runs,
    columns: &[Text],
    except: bool,
    rows: List<Row>,
) -> Result<Runs, Memory>
    ensures { IfOk result (λ r. r ≡ all_joined runs (map (picked_table (picks columns.now except)) rows)) }
{
    let mut last = None;
    for row in rows.into_vec() {
        let pattern = pattern_of(alloc, columns, except, &row, last)?;
        runs = runs.push(alloc, &pattern.key, row)?;
        last = Some(pattern);
    }
    Ok(runs)
}

/// The rows of the tables in runs, under the keys of their picked columns.
fn runs_of(alloc: Global, columns: &[Text], except: bool, tables: Tables) -> Result<Runs, Memory>
    ensures { IfOk result (λ r. r ≡ grouped (map (picked_table (picks columns.now except)) (flat_map (λ t. t.rows) tables))) }
{
    let mut runs = Runs::empty(alloc);
    for table in tables.into_list().into_vec() {
        runs = push_rows(alloc, runs, columns, except, table.rows)?;
    }
    Ok(runs)
}

/// The rows under the keys of those of these columns that they have.
pub fn group_by(alloc: Global, tables: Tables, columns: &List<Text>) -> Result<Tables, Memory>
    ensures { IfOk result (λ t. t ≡ grouped_by columns.now tables) }
{
    let runs = runs_of(alloc, columns.as_slice(), false, tables)?;
    runs.into_tables(alloc)
}

/// The rows under the keys of all of their columns but these.
pub fn group_except(alloc: Global, tables: Tables, columns: &List<Text>) -> Result<Tables, Memory>
    ensures { IfOk result (λ t. t ≡ grouped_except columns.now tables) }
{
    let runs = runs_of(alloc, columns.as_slice(), true, tables)?;
    runs.into_tables(alloc)
}
