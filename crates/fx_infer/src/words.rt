//! The words of a call, read from the form of its label arguments.

ghost use Rattle.std.specs.Prelude.{◌≡◌, [], ◌∷◌, map, Some, IfOk};
ghost use Rattle.std.specs.Option.{option_copied};
ghost use Rattle.fx_base.specs.declared.place.Place.{Place};
ghost use Rattle.fx_schemes.specs.declared.form.Form.TheVariants as forms;
ghost use Rattle.fx_schemes.specs.declared.list.Builtin.{Builtin};
ghost use Rattle.fx_schemes.specs.Names.{IsId};
ghost use Rattle.fx_ast.specs.Shape.{tree_of, trees_of, props_of, prop, part, parts_of};
ghost use Rattle.fx_ast.specs.Tree.{tree, text, rec};
ghost use Rattle.fx_infer.specs.Parameters.{prop_names};
ghost use Rattle.fx_schemes.specs.Written.{words_at_label, one_word, new_words};
ghost use Rattle.fx_infer.specs.Words.{plain_text, item_texts, value_texts, said, words_of_call};

use fx_ast::{Expr, Node, Part, Prop};
use fx_base::{List, Memory, Text};
use fx_schemes::{BuiltinId, Form, LabelWords, form_of};
use std::alloc::Global;

/// What the label arguments of a call of the built-in say, in the call's order, or None where one
/// isn't written in its form.
pub(crate) fn words_of_call(
    alloc: Global,
    id: BuiltinId,
    args: &[Prop],
) -> Result<Option<List<LabelWords>>, Memory>
    requires { (b : Builtin) × IsId id b }
    ensures { (b : Builtin) → IsId id b → IfOk result (λ o. o ≡ words_of_call (Some b) (props_of (map prop args.now))) }
{
    let mut given = List::empty(alloc);
    for arg in args {
        let form = match form_of(id, &arg.label) {
            Some(form) => form,
            None => continue,
        };
        let words = match said(alloc, form, &arg.label, &arg.value)? {
            Some(words) => words,
            None => return Ok(None),
        };
        given.push(words)?;
    }
    Ok(Some(given))
}

/// What an argument says at a label, or None where it isn't written in the form.
fn said(alloc: Global, form: Form, label: &Text, value: &Expr) -> Result<Option<LabelWords>, Memory>
    ensures { IfOk result (λ o. o ≡ said form label.now (tree_of value.now)) }
{
    match form {
        Form::Text | Form::Listed => one_word(alloc, label, value),
        Form::Texts => words_of_items(alloc, label, value),
        Form::Renames => olds_and_news(alloc, label, value),
        Form::Name => word_of_name(alloc, label, value),
    }
}

/// The one word of a plain text.
fn one_word(alloc: Global, label: &Text, value: &Expr) -> Result<Option<LabelWords>, Memory>
    ensures { IfOk result (λ o. o ≡ one_word label.now (plain_text (tree_of value.now))) }
{
    match plain_text(value) {
        Some(text) => Ok(Some(just(alloc, label, text)?)),
        None => Ok(None),
    }
}

/// The words of an array of plain texts.
fn words_of_items(alloc: Global, label: &Text, value: &Expr) -> Result<Option<LabelWords>, Memory>
    ensures { IfOk result (λ o. o ≡ said forms.Texts label.now (tree_of value.now)) }
{
    let items = match value.node.get() {
        Node::Array(items) => items.as_slice(),
        _ => return Ok(None),
    };
    match item_texts(alloc, items)? {
        Some(words) => Ok(Some(LabelWords {
            label: label.copy()?,
            words,
            news: List::empty(alloc),
        })),
        None => Ok(None),
    }
}

/// The olds and the news of a record of plain texts.
fn olds_and_news(alloc: Global, label: &Text, value: &Expr) -> Result<Option<LabelWords>, Memory>
    ensures { IfOk result (λ o. o ≡ said forms.Renames label.now (tree_of value.now)) }
{
    match value.node.get() {
        Node::Rec { base, props } => renames(alloc, label, base, props.as_slice()),
        _ => Ok(None),
    }
}

/// The labels and the plain texts of properties that have no record before them.
fn renames(
    alloc: Global,
    label: &Text,
    base: &Option<Text>,
    props: &[Prop],
) -> Result<Option<LabelWords>, Memory>
    ensures { (place : Place) → IfOk result (λ o. o ≡ said forms.Renames label.now (tree place (rec base.now (props_of (map prop props.now))))) }
{
    match base {
        Some(_) => Ok(None),
        None => labels_and_texts(alloc, label, props),
    }
}

/// The labels and the plain texts of properties.
fn labels_and_texts(
    alloc: Global,
    label: &Text,
    props: &[Prop],
) -> Result<Option<LabelWords>, Memory>
    ensures { IfOk result (λ o. o ≡ new_words label.now (prop_names (props_of (map prop props.now))) (value_texts (props_of (map prop props.now)))) }
{
    match value_texts(alloc, props)? {
        Some(news) => Ok(Some(LabelWords {
            label: label.copy()?,
            words: labels(alloc, props)?,
            news,
        })),
        None => Ok(None),
    }
}

/// The word of a name.
fn word_of_name(alloc: Global, label: &Text, value: &Expr) -> Result<Option<LabelWords>, Memory>
    ensures { IfOk result (λ o. o ≡ said forms.Name label.now (tree_of value.now)) }
{
    match value.node.get() {
        Node::Name(name) => Ok(Some(just(alloc, label, name)?)),
        _ => Ok(None),
    }
}

/// One word at the label.
fn just(alloc: Global, label: &Text, word: &Text) -> Result<LabelWords, Memory>
    ensures { IfOk result (λ w. w ≡ words_at_label label.now (word.now ∷ []) []) }
{
    let mut words = List::empty(alloc);
    words.push(word.copy()?)?;
    Ok(LabelWords {
        label: label.copy()?,
        words,
        news: List::empty(alloc),
    })
}

/// A text without interpolation.
fn plain_text(value: &Expr) -> Option<&Text>
    ensures { option_copied result ≡ plain_text (tree_of value.now) }
{
    match value.node.get() {
        Node::Text(parts) => only_piece(parts.as_slice()),
        _ => None,
    }
}

/// The text of a piece that stands alone.
fn only_piece(parts: &[Part]) -> Option<&Text>
    ensures { (place : Place) → option_copied result ≡ plain_text (tree place (text (parts_of (map part parts.now)))) }
{
    match parts {
        [] => None,
        [only] => piece(only),
        [_, _, ..] => None,
    }
}

/// The text of a piece.
fn piece(only: &Part) -> Option<&Text>
    ensures { (place : Place) → option_copied result ≡ plain_text (tree place (text (parts_of (part only.now ∷ [])))) }
{
    match only {
        Part::Piece(text) => Some(text),
        Part::Hole(_) => None,
    }
}

/// Plain texts alone.
fn item_texts(alloc: Global, items: &[Expr]) -> Result<Option<List<Text>>, Memory>
    ensures { IfOk result (λ o. o ≡ item_texts (trees_of (map tree_of items.now))) }
{
    let mut texts = List::empty(alloc);
    for item in items {
        let text = match plain_text(item) {
            Some(text) => text,
            None => return Ok(None),
        };
        texts.push(text.copy()?)?;
    }
    Ok(Some(texts))
}

/// Plain texts alone, each the value of a property.
fn value_texts(alloc: Global, props: &[Prop]) -> Result<Option<List<Text>>, Memory>
    ensures { IfOk result (λ o. o ≡ value_texts (props_of (map prop props.now))) }
{
    let mut texts = List::empty(alloc);
    for item in props {
        let text = match plain_text(&item.value) {
            Some(text) => text,
            None => return Ok(None),
        };
        texts.push(text.copy()?)?;
    }
    Ok(Some(texts))
}

/// The labels of properties.
fn labels(alloc: Global, props: &[Prop]) -> Result<List<Text>, Memory>
    ensures { IfOk result (λ ls. ls ≡ prop_names (props_of (map prop props.now))) }
{
    let mut labels = List::empty(alloc);
    for item in props {
        labels.push(item.label.copy()?)?;
    }
    Ok(labels)
}
