ghost use Rattle.std.specs.Prelude.{◌≡◌, ◌≢◌, ℕ, map, List as AnyList, IfOk};
ghost use Rattle.std.specs.FinMap as fin;
ghost use Rattle.std.specs.List.{list_any};
ghost use Rattle.std.specs.Option.{option_map};
ghost use Rattle.fx_base.specs.Text.{same_text};
ghost use Rattle.fx_group.specs.Group.{is_listed};
ghost use Rattle.fx_pivot.specs.Cells.{text_of, texts_of, name_of, is_empty, is_refused};
ghost use Rattle.fx_value.specs.Ends.{End, Gives, Stuck};

use fx_base::{Memory, Text};
use fx_data::Key;
use fx_value::{Row, Scalar};
use std::alloc::Global;

/// The text, and the empty one for null.
fn text_of<'a>(value: Option<&'a Scalar>) -> &'a str
    requires { ◌≢◌ {A = End (AnyList ℕ)} (text_of (option_map (λ v. v.now) value)) Stuck }
    ensures { text_of (option_map (λ v. v.now) value.entry) ≡ Gives result.now 0 }
{
    match value {
        Some(Scalar::Text(text)) => text.as_str(),
        Some(Scalar::Null) | None => "",
        _ => unreachable!(),
    }
}

/// The same as a text of its own, which shares the bytes.
fn shared_text(alloc: Global, value: Option<&Scalar>) -> Result<Text, Memory>
    requires { ◌≢◌ {A = End (AnyList ℕ)} (text_of (option_map (λ v. v.now) value)) Stuck }
    ensures { IfOk result (λ t. text_of (option_map (λ v. v.now) value.entry) ≡ Gives t 0) }
{
    match value {
        Some(Scalar::Text(text)) => text.copy(),
        Some(Scalar::Null) | None => Text::of(alloc, ""),
        _ => unreachable!(),
    }
}

/// The texts of the row under these labels.
fn texts_of<'a>(alloc: Global, labels: &[Text], row: &'a Row) -> Result<Vec<&'a str>, Memory>
    requires { ◌≢◌ {A = End (AnyList (AnyList ℕ))} (texts_of labels.now row.now) Stuck }
    ensures { IfOk result (λ found. texts_of labels.now row.now ≡ Gives (map (λ text. text.now) found.items) 0) }
{
    let mut texts = Vec::with_capacity(alloc, labels.len())?;
    for label in labels {
        texts.push(text_of(row.get(label)))?;
    }
    Ok(texts)
}

fn joined_name(alloc: Global, columns: &[Text], row: &Row) -> Result<Text, Memory>
    requires { ◌≢◌ {A = End (AnyList ℕ)} (name_of columns.now row.now) Stuck }
    ensures { IfOk result (λ t. name_of columns.now row.now ≡ Gives t 0) }
{
    let texts = texts_of(alloc, columns, row)?;
    let name = texts.join(alloc, "_")?;
    Text::of(alloc, name.as_str())
}

/// The name of the column to which the row gives its value. Where that is one text of the row, it is
/// shared.
pub(crate) fn name_of(alloc: Global, columns: &[Text], row: &Row) -> Result<Text, Memory>
    requires { ◌≢◌ {A = End (AnyList ℕ)} (name_of columns.now row.now) Stuck }
    ensures { IfOk result (λ t. name_of columns.now row.now ≡ Gives t 0) }
{
    match columns {
        [only] => shared_text(alloc, row.get(only)),
        _ => joined_name(alloc, columns, row),
    }
}

pub(crate) fn is_listed(labels: &[Text], label: &Text) -> bool
    ensures { result ≡ is_listed labels.now label.now }
{
    labels.iter().any(|other| *other == *label)
}

fn is_in_key(key: &Key, label: &Text) -> bool
    ensures { result ≡ list_any (λ e. same_text label.now e.label) key.now.entries }
{
    key.entries
        .as_slice()
        .iter()
        .any(|entry| entry.label == *label)
}

fn is_empty(name: &Text) -> bool
    ensures { result ≡ is_empty name.now }
{
    match name.as_bytes() {
        [] => true,
        [_, ..] => false,
    }
}

/// Whether no column can have the name: it is empty, or stands in the row key or in the table's key.
pub(crate) fn is_refused(rows: &[Text], key: &Key, name: &Text) -> bool
    ensures { result ≡ is_refused rows.now key.now name.now }
{
    is_empty(name) || is_listed(rows, name) || is_in_key(key, name)
}
