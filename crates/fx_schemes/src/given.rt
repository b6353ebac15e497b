//! The words that a call gives at its label arguments.
ghost use Rattle.std.specs.Prelude.{◌≡◌, IfOk, option_map};
ghost use Rattle.std.specs.Option.{option_copied};
ghost use Rattle.fx_schemes.specs.Given.{words_at, text_at, list_at, is_one_of, texts_of};
ghost use Rattle.fx_types.specs.Ground.{listed};

use fx_base::{List, Memory, Text};
use std::alloc::Global;

/// The words of one label argument of a call, in their order. For `rename` they are the olds,
/// and `news` are the news; elsewhere `news` isn't read.
#[derive(Debug, Drop)]
pub struct LabelWords {
    pub label: Text,
    pub words: List<Text>,
    pub news: List<Text>,
}

/// The first entry of this label, or None where there is none.
pub(crate) fn words_at<'a>(given: &'a List<LabelWords>, label: &str) -> Option<&'a LabelWords>
    ensures { option_copied result ≡ words_at given.now label.now }
{
    for entry in given.as_slice() {
        if label == entry.label.as_str() {
            return Some(entry);
        }
    }
    None
}

#[tactic(auto, unfolding(crate::specs::Given::text_at))]
/// The one word at this label, or the default where the call doesn't give it. None where it has
/// another number of words, or is left out without a default.
pub(crate) fn text_at<'a>(
    given: &'a List<LabelWords>,
    label: &str,
    default: Option<&'a str>,
) -> Option<&'a str>
    ensures { option_copied result ≡ text_at given.now label.now (option_copied default.entry) }
{
    match words_at(given, label) {
        Some(entry) => match entry.words.as_slice() {
            [word] => Some(word.as_str()),
            _ => None,
        },
        None => default,
    }
}

/// Whether the word at this label, or the default where the call doesn't give it, is one of these.
pub(crate) fn is_one_of<'a>(
    given: &'a List<LabelWords>,
    label: &str,
    default: &'a str,
    words: &[&str],
) -> bool
    ensures { result ≡ is_one_of given.now label.now default.now (texts_of words.now) }
{
    match text_at(given, label, Some(default)) {
        Some(word) => is_listed(word, words),
        None => false,
    }
}

/// Whether the word is one of these.
pub(crate) fn is_listed(word: &str, words: &[&str]) -> bool
    ensures { result ≡ listed word.now (texts_of words.now) }
{
    for other in words {
        if word == *other {
            return true;
        }
    }
    false
}

/// The texts, lent.
pub(crate) fn lent<'a>(alloc: Global, texts: &'a [Text]) -> Result<Vec<&'a str>, Memory>
    ensures { IfOk result (λ v. texts_of v.items ≡ texts.now) }
{
    let mut lent = Vec::new(alloc);
    for text in texts {
        lent.push(text.as_str())?;
    }
    Ok(lent)
}

#[tactic(auto, unfolding(crate::specs::Given::list_at))]
/// All words at this label, or the default where the call doesn't give it; None where it is left
/// out without a default.
pub(crate) fn list_at<'a>(
    alloc: Global,
    given: &'a List<LabelWords>,
    label: &str,
    default: Option<&[&'a str]>,
) -> Result<Option<Vec<&'a str>>, Memory>
    ensures { IfOk result (λ o. option_map (λ v. texts_of v.items) o ≡ list_at given.now label.now (option_map (λ d. texts_of d.now) default.entry)) }
{
    if let Some(entry) = words_at(given, label) {
        return Ok(Some(lent(alloc, entry.words.as_slice())?));
    }
    match default {
        Some(words) => Ok(Some(words.to_vec(alloc)?)),
        None => Ok(None),
    }
}
