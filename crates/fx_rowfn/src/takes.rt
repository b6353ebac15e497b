//! Which arguments a call may give.
ghost use Rattle.std.specs.Prelude.{◌≡◌, ◌++◌, map};
ghost use Rattle.fx_ast.specs.Shape.{param, params_of};
ghost use Rattle.fx_meaning.specs.Meaning as meaning;
ghost use Rattle.fx_meaning.specs.Native as native;
ghost use Rattle.fx_meaning.specs.Value.{is_there, look};
ghost use Rattle.fx_types.specs.Ground.{listed};
ghost use Rattle.fx_values.specs.Shape.{slot, slots_of};

use fx_ast::{Param, ParamKind};
use fx_base::Text;
use fx_meaning::{Native, due_labels, free_labels};
use fx_values::{Slot, look};

/// Whether a function literal takes the arguments: one for each parameter without a default, and
/// none that is no parameter.
pub(crate) fn takes(params: &[Param], args: &[Slot]) -> bool
    ensures { result ≡ meaning.takes (params_of (map param params.now)) (slots_of (map slot args.now)) }
{
    all_given(params, args) && are_params(args, params)
}

fn all_given(params: &[Param], args: &[Slot]) -> bool
    ensures { result ≡ meaning.all_given (params_of (map param params.now)) (slots_of (map slot args.now)) }
{
    for first in params {
        if !has_argument(first, args) {
            return false;
        }
    }
    true
}

fn has_argument(of: &Param, args: &[Slot]) -> bool
    ensures { result ≡ meaning.has_argument (param of.now).label (param of.now).default (slots_of (map slot args.now)) }
{
    match &of.default {
        ParamKind::Required => is_given(of.label.as_str(), args),
        ParamKind::Pipe => is_given(of.label.as_str(), args),
        ParamKind::Value(_) => true,
    }
}

/// Whether an argument has the label.
pub(crate) fn is_given(label: &str, args: &[Slot]) -> bool
    ensures { result ≡ is_there (look label.now (slots_of (map slot args.now))) }
{
    look(label, args).is_some()
}

fn are_params(args: &[Slot], params: &[Param]) -> bool
    ensures { result ≡ meaning.are_params (slots_of (map slot args.now)) (params_of (map param params.now)) }
{
    for first in args {
        if !is_param(&first.label, params) {
            return false;
        }
    }
    true
}

pub(crate) fn is_param(label: &Text, params: &[Param]) -> bool
    ensures { result ≡ meaning.is_param label.now (params_of (map param params.now)) }
{
    for first in params {
        if *label == first.label {
            return true;
        }
    }
    false
}

/// Whether a function of the language takes the arguments.
pub(crate) fn takes_native(which: Native, args: &[Slot]) -> bool
    ensures { result ≡ native.takes_native which (slots_of (map slot args.now)) }
{
    all_due(due_labels(which), args) && all_listed(due_labels(which), free_labels(which), args)
}

fn all_due(labels: &[&str], args: &[Slot]) -> bool
    ensures { result ≡ native.all_given (map (λ label. label.now) labels.now) (slots_of (map slot args.now)) }
{
    for label in labels {
        if !is_given(label, args) {
            return false;
        }
    }
    true
}

fn all_listed(due: &[&str], free: &[&str], args: &[Slot]) -> bool
    ensures { result ≡ native.all_listed (map (λ label. label.now) due.now ++ map (λ label. label.now) free.now) (slots_of (map slot args.now)) }
{
    for first in args {
        if !is_known(first.label.as_str(), due, free) {
            return false;
        }
    }
    true
}

fn is_known(label: &str, due: &[&str], free: &[&str]) -> bool
    ensures { result ≡ listed label.now (map (λ label. label.now) due.now ++ map (λ label. label.now) free.now) }
{
    is_listed(label, due) || is_listed(label, free)
}

fn is_listed(label: &str, labels: &[&str]) -> bool
    ensures { result ≡ listed label.now (map (λ label. label.now) labels.now) }
{
    for other in labels {
        if label == *other {
            return true;
        }
    }
    false
}
