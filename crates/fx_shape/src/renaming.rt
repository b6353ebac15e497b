ghost use Rattle.std.specs.Prelude.{◌≡◌, fold, map, IfOk};
ghost use Rattle.std.specs.List.{AllByRecursion};
ghost use Rattle.fx_data.specs.Table.{HasKey, HasRisingLabels, IsLawfulTable};
ghost use Rattle.fx_group.specs.Turned.{with_rows};
ghost use Rattle.fx_shape.specs.Renamed.{fixes_key, is_fixed, table_moved, tables_moved};
ghost use Rattle.fx_shape.specs.Rename.{columns_renamed, entry_renamed, key_renamed, pinned_key, row_renamed};
ghost use Rattle.fx_shape.specs.Run.{keyed};

use crate::naming::Naming;
use crate::run::{has_label, push_moved};
use fx_base::{List, Memory, Text};
use fx_data::{Key, KeyEntry, Runs, Table, Tables, key_with};
use fx_value::{Row, recast_rows};
use std::alloc::Global;

/// The pinned entries of the key.
fn pinned_key(alloc: Global, key: &Key) -> Result<Key, Memory>
    ensures { IfOk result (λ k. k ≡ pinned_key key.now) }
{
    let Key { entries } = key.copy(alloc)?;
    let mut entries = entries.into_vec();
    entries.retain(|entry| entry.pinned);
    Ok(Key {
        entries: List::of(entries),
    })
}

/// The key with the entry under its new name, if it isn't pinned and stays.
fn with_entry(
    alloc: Global,
    olds: &[Text],
    news: &[Text],
    key: Key,
    entry: &KeyEntry,
) -> Result<Key, Memory>
    ensures { IfOk result (λ k. k ≡ entry_renamed olds.now news.now key entry.now) }
{
    let naming = Naming::Renamed { olds, news };
    if entry.pinned || !naming.keeps(&entry.label) {
        return Ok(key);
    }
    key_with(alloc, &key, naming.name_of(&entry.label), &entry.value)
}

fn with_entries(
    alloc: Global,
    olds: &[Text],
    news: &[Text],
    key: Key,
    entries: &[KeyEntry],
) -> Result<Key, Memory>
    ensures { IfOk result (λ k. k ≡ fold (entry_renamed olds.now news.now) key entries.now) }
{
    let mut made = key;
    for entry in entries {
        made = with_entry(alloc, olds, news, made, entry)?;
    }
    Ok(made)
}

fn key_renamed(alloc: Global, olds: &[Text], news: &[Text], key: &Key) -> Result<Key, Memory>
    ensures { IfOk result (λ k. k ≡ key_renamed olds.now news.now key.now) }
{
    let pinned = pinned_key(alloc, key)?;
    with_entries(alloc, olds, news, pinned, key.entries.as_slice())
}

/// Whether the old name stood in the key, if the new one stands in the renamed key.
fn is_fixed(key: &Key, renamed: &Key, old: &Text, new: &Text) -> bool
    ensures { result ≡ is_fixed key.now renamed.now old.now new.now }
{
    !has_label(renamed, new) || has_label(key, old)
}

/// Whether the key says of each label of the renamed key what rows have there.
fn fixes_key(olds: &[Text], news: &[Text], key: &Key, renamed: &Key) -> bool
    ensures { result ≡ fixes_key olds.now news.now key.now renamed.now }
{
    for (i, old) in olds.iter().enumerate() {
        if i >= news.len() {
            return false;
        }
        if !is_fixed(key, renamed, old, &news[i]) {
            return false;
        }
    }
    true
}

/// Puts the rows of a table with this key behind the runs, with their new names.
fn push_rows(
    alloc: Global,
    runs: Runs,
    olds: &[Text],
    news: &[Text],
    key: &Key,
    rows: List<Row>,
) -> Result<Runs, Memory>
    requires rising { HasRisingLabels key.now }
    requires columns { AllByRecursion (HasKey key.now.entries) rows }
    ensures { IfOk result (λ r. r ≡ with_rows runs (keyed (key_renamed olds.now news.now key.now) (map (row_renamed olds.now news.now) rows))) }
{
    let renamed = key_renamed(alloc, olds, news, key)?;
    let rows = recast_rows(alloc, rows, &Naming::Renamed { olds, news })?;
    let one = fixes_key(olds, news, key, &renamed);
    push_moved(alloc, runs, &renamed, one, rows)
}

/// Puts the table with its new names behind the runs.
fn push_renamed(
    alloc: Global,
    runs: Runs,
    olds: &[Text],
    news: &[Text],
    table: Table,
) -> Result<Runs, Memory>
    requires { IsLawfulTable table }
    ensures { IfOk result (λ r. r ≡ table_moved (key_renamed olds.now news.now) (row_renamed olds.now news.now) runs table) }
{
    let Table { key, rows } = table;
    match rows.as_slice() {
        [] => {
            let key = key_renamed(alloc, olds, news, &key)?;
            runs.push_table(Table { key, rows })
        }
        [_, ..] => push_rows(alloc, runs, olds, news, &key, rows),
    }
}

/// All tables with their new names, in runs.
fn runs_renamed(alloc: Global, olds: &[Text], news: &[Text], tables: Tables) -> Result<Runs, Memory>
    ensures { IfOk result (λ r. r ≡ tables_moved (key_renamed olds.now news.now) (row_renamed olds.now news.now) tables) }
{
    let mut runs = Runs::empty(alloc);
    for table in tables.into_list().into_vec() {
        runs = push_renamed(alloc, runs, olds, news, table)?;
    }
    Ok(runs)
}

/// All old columns get their new names at once, also in the keys. A column whose name is a new one
/// and no old one goes; pinned entries stay. One new head is made for each head that is met. Rows are
/// regrouped, and a table without rows stays.
pub fn rename(
    alloc: Global,
    tables: Tables,
    olds: &List<Text>,
    news: &List<Text>,
) -> Result<Tables, Memory>
    ensures { IfOk result (λ t. t ≡ columns_renamed olds.now news.now tables) }
{
    let runs = runs_renamed(alloc, olds.as_slice(), news.as_slice(), tables)?;
    runs.into_tables(alloc)
}
