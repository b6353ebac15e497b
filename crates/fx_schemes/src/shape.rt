//! What works on lists of columns: grouping, sorting, keeping, renaming and pivoting.
ghost use Rattle.std.specs.Prelude.{◌≡◌, ◌+◌, ◌++◌, ◌∷◌, [], true, IfOk, Some, length, map, option_map};
ghost use Rattle.fx_schemes.specs.declared.simple.Simple.TheVariants as simple;
ghost use Rattle.fx_schemes.specs.declared.list.Builtin.TheVariants as builtin;
ghost use Rattle.fx_schemes.specs.Builtins.{IsLine, OfGroup, OfSort, OfKeep, OfDrop, OfRename, OfPivot, differ, are_names, apart, are_apart};
ghost use Rattle.fx_schemes.specs.Given.{texts_of};
ghost use Rattle.fx_schemes.specs.Plan.{cells_of, columns_from, absents, all_texts};
ghost use Rattle.fx_schemes.specs.Scheme.{Says, IsSchemeOf, shown};

use crate::builtin_type::BuiltinType;
use crate::given::{LabelWords, is_listed, is_one_of, lent, list_at, text_at, words_at};
use crate::plan::{Plan, Variables, closed, over};
use crate::simple::{Bound, Simple};
use fx_base::{List, Memory};
use std::alloc::Global;

/// The cells of these labels, each of a variable of its own, from variable 1 on.
fn numbered<'a>(alloc: Global, labels: &[&'a str]) -> Result<Vec<(&'a str, Option<Simple>)>, Memory>
    ensures { IfOk result (λ v. cells_of v.items ≡ columns_from 1 (texts_of labels.now)) }
{
    let mut cells = Vec::new(alloc);
    let mut number: u32 = 1;
    for label in labels {
        let Some(next) = number.checked_add(1) else {
            return Err(Memory);
        };
        cells.push((*label, Some(Simple::Var(number))))?;
        number = next;
    }
    Ok(cells)
}

/// The same cell at each of these labels.
fn alike<'a>(
    alloc: Global,
    labels: &[&'a str],
    cell: Option<Simple>,
) -> Result<Vec<(&'a str, Option<Simple>)>, Memory>
    ensures { IfOk result (λ v. cells_of v.items ≡ map (λ x. (x, cell)) (texts_of labels.now)) }
{
    let mut cells = Vec::new(alloc);
    for label in labels {
        cells.push((*label, cell))?;
    }
    Ok(cells)
}

/// Variable 0, and one for each of the labels.
fn room(labels: &[&str], bound: Bound) -> Result<Variables, Memory>
    ensures { IfOk result (λ v. v ≡ record { count = length (texts_of labels.now) + 1; bound = bound }) }
{
    let Ok(count) = u32::try_from(labels.len()) else {
        return Err(Memory);
    };
    match count.checked_add(1) {
        Some(count) => Ok(Variables { count, bound }),
        None => Err(Memory),
    }
}

/// `group`.
pub(crate) fn group(alloc: Global, given: &List<LabelWords>) -> Result<Option<BuiltinType>, Memory>
    ensures { IfOk result (λ o. Says (IsLine builtin.Group given.now) (option_map shown o)) }
{
    if !is_one_of(given, "mode", "by", &["by", "except"]) {
        return Ok(None);
    }
    let Some(columns) = list_at(alloc, given, "columns", Some(&[]))? else {
        return Ok(None);
    };
    Ok(Some(group_by(alloc, &columns)?))
}

/// `group` at these columns.
fn group_by(alloc: Global, columns: &[&str]) -> Result<BuiltinType, Memory>
    ensures { IfOk result (λ t. IsSchemeOf (OfGroup (texts_of columns.now)) (shown t)) }
{
    let plan = Plan {
        labels: &["columns", "mode"],
        required: &[],
        optional: &[],
        variables: room(columns, Bound::Free)?,
    };
    let asked = numbered(alloc, columns)?;
    over(alloc, &plan, &asked, &[])
}

/// `sort`.
pub(crate) fn sort(alloc: Global, given: &List<LabelWords>) -> Result<Option<BuiltinType>, Memory>
    ensures { IfOk result (λ o. Says (IsLine builtin.Sort given.now) (option_map shown o)) }
{
    let Some(columns) = list_at(alloc, given, "columns", Some(&["_value"]))? else {
        return Ok(None);
    };
    Ok(Some(sort_by(alloc, &columns)?))
}

/// `sort` by these columns.
fn sort_by(alloc: Global, columns: &[&str]) -> Result<BuiltinType, Memory>
    ensures { IfOk result (λ t. IsSchemeOf (OfSort (texts_of columns.now)) (shown t)) }
{
    let plan = Plan {
        labels: &["columns"],
        required: &[],
        optional: &[("desc", Simple::Bool)],
        variables: room(columns, Bound::Free)?,
    };
    let asked = numbered(alloc, columns)?;
    over(alloc, &plan, &asked, &[])
}

/// `keep`.
pub(crate) fn keep(alloc: Global, given: &List<LabelWords>) -> Result<Option<BuiltinType>, Memory>
    ensures { IfOk result (λ o. Says (IsLine builtin.Keep given.now) (option_map shown o)) }
{
    let Some(columns) = list_at(alloc, given, "columns", None)? else {
        return Ok(None);
    };
    Ok(Some(keep_these(alloc, &columns)?))
}

/// `keep` of these columns.
fn keep_these(alloc: Global, columns: &[&str]) -> Result<BuiltinType, Memory>
    ensures { IfOk result (λ t. IsSchemeOf (OfKeep (texts_of columns.now)) (shown t)) }
{
    let plan = Plan {
        labels: &["columns"],
        required: &[],
        optional: &[],
        variables: room(columns, Bound::Free)?,
    };
    let cells = numbered(alloc, columns)?;
    closed(alloc, &plan, &cells, &cells, None)
}

/// `drop`.
pub(crate) fn without(
    alloc: Global,
    given: &List<LabelWords>,
) -> Result<Option<BuiltinType>, Memory>
    ensures { IfOk result (λ o. Says (IsLine builtin.Drop given.now) (option_map shown o)) }
{
    let Some(columns) = list_at(alloc, given, "columns", None)? else {
        return Ok(None);
    };
    Ok(Some(drop_these(alloc, &columns)?))
}

/// `drop` of these columns.
fn drop_these(alloc: Global, columns: &[&str]) -> Result<BuiltinType, Memory>
    ensures { IfOk result (λ t. IsSchemeOf (OfDrop (texts_of columns.now)) (shown t)) }
{
    let plan = Plan {
        labels: &["columns"],
        required: &[],
        optional: &[],
        variables: Variables {
            count: 1,
            bound: Bound::Free,
        },
    };
    let made = alike(alloc, columns, None)?;
    over(alloc, &plan, &[], &made)
}

/// Whether no label stands twice.
fn differ(labels: &[&str]) -> bool
    ensures { result ≡ differ (texts_of labels.now) }
{
    let mut rest = labels;
    while let [label, after @ ..] = rest {
        if is_listed(label, after) {
            return false;
        }
        rest = after;
    }
    true
}

/// Whether these may be the olds and the news of `rename`.
fn are_names(olds: &[&str], news: &[&str]) -> bool
    ensures { result ≡ are_names (texts_of olds.now) (texts_of news.now) }
{
    olds.len() == news.len() && differ(olds) && differ(news)
}

/// `rename`.
pub(crate) fn rename(alloc: Global, given: &List<LabelWords>) -> Result<Option<BuiltinType>, Memory>
    ensures { IfOk result (λ o. Says (IsLine builtin.Rename given.now) (option_map shown o)) }
{
    let Some(entry) = words_at(given, "columns") else {
        return Ok(None);
    };
    let olds = lent(alloc, entry.words.as_slice())?;
    let news = lent(alloc, entry.news.as_slice())?;
    if !are_names(&olds, &news) {
        return Ok(None);
    }
    Ok(Some(rename_these(alloc, &olds, &news)?))
}

/// `rename` of these columns.
fn rename_these<'a>(
    alloc: Global,
    olds: &[&'a str],
    news: &[&'a str],
) -> Result<BuiltinType, Memory>
    requires { are_names (texts_of olds.now) (texts_of news.now) ≡ true }
    ensures { IfOk result (λ t. IsSchemeOf (OfRename (texts_of olds.now) (texts_of news.now)) (shown t)) }
{
    let plan = Plan {
        labels: &["columns"],
        required: &[],
        optional: &[],
        variables: room(olds, Bound::Free)?,
    };
    let asked = numbered(alloc, olds)?;
    let made = renamed(alloc, olds, news)?;
    over(alloc, &plan, &asked, &made)
}

/// The cells of the news, and then the olds without columns.
fn renamed<'a>(
    alloc: Global,
    olds: &[&'a str],
    news: &[&'a str],
) -> Result<Vec<(&'a str, Option<Simple>)>, Memory>
    ensures { IfOk result (λ v. cells_of v.items ≡ columns_from 1 (texts_of news.now) ++ absents (texts_of olds.now)) }
{
    let mut cells = numbered(alloc, news)?;
    cells.extend_from_slice(&alike(alloc, olds, None)?)?;
    Ok(cells)
}

/// Whether no label of the first list is in the second.
fn apart(labels: &[&str], others: &[&str]) -> bool
    ensures { result ≡ apart (texts_of labels.now) (texts_of others.now) }
{
    for label in labels {
        if is_listed(label, others) {
            return false;
        }
    }
    true
}

/// Whether no label is in two of what `pivot` takes.
fn are_apart(keys: &[&str], names: &[&str], value: &str) -> bool
    ensures { result ≡ are_apart (texts_of keys.now) (texts_of names.now) value.now }
{
    apart(keys, names) && !is_listed(value, keys) && !is_listed(value, names)
}

/// `pivot`.
pub(crate) fn pivot(alloc: Global, given: &List<LabelWords>) -> Result<Option<BuiltinType>, Memory>
    ensures { IfOk result (λ o. Says (IsLine builtin.Pivot given.now) (option_map shown o)) }
{
    let Some(keys) = list_at(alloc, given, "rowKey", None)? else {
        return Ok(None);
    };
    let Some(names) = list_at(alloc, given, "columnKey", None)? else {
        return Ok(None);
    };
    let Some(value) = text_at(given, "valueColumn", None) else {
        return Ok(None);
    };
    if !are_apart(&keys, &names, value) {
        return Ok(None);
    }
    Ok(Some(pivot_these(alloc, &keys, &names, value)?))
}

/// `pivot` of these columns.
fn pivot_these<'a>(
    alloc: Global,
    keys: &[&'a str],
    names: &[&'a str],
    value: &'a str,
) -> Result<BuiltinType, Memory>
    requires { are_apart (texts_of keys.now) (texts_of names.now) value.now ≡ true }
    ensures { IfOk result (λ t. IsSchemeOf (OfPivot (texts_of keys.now) (texts_of names.now) value.now) (shown t)) }
{
    let plan = Plan {
        labels: &["rowKey", "columnKey", "valueColumn"],
        required: &[],
        optional: &[],
        variables: room(keys, Bound::Column)?,
    };
    let asked = pivoted(alloc, keys, names, value)?;
    let made = numbered(alloc, keys)?;
    closed(alloc, &plan, &asked, &made, Some(Simple::Var(0)))
}

/// The cells of the keys, of the names as texts, and of the value.
fn pivoted<'a>(
    alloc: Global,
    keys: &[&'a str],
    names: &[&'a str],
    value: &'a str,
) -> Result<Vec<(&'a str, Option<Simple>)>, Memory>
    ensures { IfOk result (λ v. cells_of v.items ≡ columns_from 1 (texts_of keys.now) ++ (all_texts (texts_of names.now) ++ (value.now, Some (simple.Var 0)) ∷ [])) }
{
    let mut cells = numbered(alloc, keys)?;
    cells.extend_from_slice(&alike(alloc, names, Some(Simple::Text))?)?;
    cells.push((value, Some(Simple::Var(0))))?;
    Ok(cells)
}
