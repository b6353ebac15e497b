//! How a call writes the label arguments of a built-in.
ghost use Rattle.std.specs.Prelude.{◌≡◌, map};
ghost use Rattle.fx_schemes.specs.declared.list.Builtin.{Builtin};
ghost use Rattle.fx_schemes.specs.Names.{IsId};
ghost use Rattle.fx_schemes.specs.Signature.{form_of, form_in, forms_of, words_of};

use crate::list::Builtin;
use crate::name::{BuiltinId, numbered};
use fx_base::Text;

/// How a label argument is written.
#[derive(Clone, Copy, Debug, PartialEq, Eq)]
pub enum Form {
    /// A plain text.
    Text,
    /// An array literal of plain texts.
    Texts,
    /// A record literal of plain texts: the news, each under its old.
    Renames,
    /// A plain text that is one of the words that the built-in lists.
    Listed,
    /// The name of a built-in, which isn't shadowed.
    Name,
}

/// How a call of the built-in writes the label argument, or None where the label is none of its
/// label arguments.
pub fn form_of(id: BuiltinId, label: &Text) -> Option<Form>
    requires { (b : Builtin) × IsId id b }
    ensures { (b : Builtin) → IsId id b → result ≡ form_of b label.now }
{
    match numbered(id.number) {
        Some(builtin) => form_in(label.as_str(), forms(builtin)),
        None => unreachable!(),
    }
}

/// The form beside this label, or None where it stands beside none.
fn form_in(label: &str, forms: &[(&str, Form)]) -> Option<Form>
    ensures { result ≡ form_in label.now (map (λ f. (f.0.now, f.1)) forms.now) }
{
    for (own, form) in forms {
        if label == *own {
            return Some(*form);
        }
    }
    None
}

/// The label arguments of the built-in, in the order of its line.
fn forms(builtin: Builtin) -> &'static [(&'static str, Form)]
    ensures { map (λ f. (f.0.now, f.1)) result.now ≡ forms_of builtin }
{
    match builtin {
        Builtin::Filter => &[("onEmpty", Form::Listed)],
        Builtin::Group => &[("columns", Form::Texts), ("mode", Form::Listed)],
        Builtin::AggregateWindow => &[("fn", Form::Name)],
        Builtin::Count => &[("column", Form::Text)],
        Builtin::Sum => &[("column", Form::Text)],
        Builtin::Spread => &[("column", Form::Text)],
        Builtin::Distinct => &[("column", Form::Text)],
        Builtin::Min => &[("column", Form::Text)],
        Builtin::Max => &[("column", Form::Text)],
        Builtin::First => &[("column", Form::Text)],
        Builtin::Last => &[("column", Form::Text)],
        Builtin::Keep => &[("columns", Form::Texts)],
        Builtin::Drop => &[("columns", Form::Texts)],
        Builtin::Rename => &[("columns", Form::Renames)],
        Builtin::Duplicate => &[("column", Form::Text), ("as", Form::Text)],
        Builtin::Set => &[("key", Form::Text)],
        Builtin::Fill => &[("column", Form::Text)],
        Builtin::Sort => &[("columns", Form::Texts)],
        Builtin::Difference => &[("columns", Form::Texts)],
        Builtin::CumulativeSum => &[("columns", Form::Texts)],
        Builtin::Elapsed => &[("timeColumn", Form::Text), ("columnName", Form::Text)],
        Builtin::Pivot => &[
            ("rowKey", Form::Texts),
            ("columnKey", Form::Texts),
            ("valueColumn", Form::Text),
        ],
        Builtin::JoinTime => &[("method", Form::Listed)],
        _ => &[],
    }
}
