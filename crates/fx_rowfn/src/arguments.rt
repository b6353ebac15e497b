//! The arguments under which a function of rows gets them.
ghost use Rattle.std.specs.Prelude.{◌≡◌, ◌++◌, [], ◌∷◌, Some, IfOk, OnOk, map};
ghost use Rattle.fx_ast.specs.Shape.{param, params_of};
ghost use Rattle.fx_meaning.specs.Rows.{arguments, due, pair_of, record_of};
ghost use Rattle.fx_rowfn.specs.Rows.{args_in, is_due};
ghost use Rattle.fx_values.specs.Shape.{slot, slots_of};

use crate::rows::record_of;
use crate::slots::slot_of;
use fx_ast::{Param, ParamKind};
use fx_base::{List, Memory, Text};
use fx_value::Row;
use fx_values::Slot;
use std::alloc::Global;
use std::cmp::Ordering;

/// The labels of the parameters without a default, in their order.
pub(crate) fn due_labels(alloc: Global, params: &[Param]) -> Result<List<Text>, Memory>
    ensures { IfOk result (λ labels. labels ≡ due (params_of (map param params.now))) }
{
    let mut labels = List::empty(alloc);
    for first in params {
        push_due(&mut labels, first)?;
    }
    Ok(labels)
}

fn push_due(labels: &mut List<Text>, of: &Param) -> Result<(), Memory>
    ensures { OnOk result (labels.new ≡ labels.old ++ due (params_of (param of.now ∷ []))) }
{
    if is_due(of) {
        labels.push(of.label.copy()?)?;
    }
    Ok(())
}

fn is_due(of: &Param) -> bool
    ensures { result ≡ is_due (param of.now).default }
{
    match &of.default {
        ParamKind::Required => true,
        ParamKind::Pipe => true,
        ParamKind::Value(_) => false,
    }
}

/// The one row under the one label.
pub(crate) fn of_one(
    alloc: Global,
    labels: &[Text],
    row: &Row,
) -> Result<Option<List<Slot>>, Memory>
    ensures { IfOk result (λ args. args_in args ≡ arguments labels.now (row.now ∷ [])) }
{
    match labels {
        [label] => Ok(Some(alone(alloc, label, row)?)),
        [] => Ok(None),
        [_, _, ..] => Ok(None),
    }
}

fn alone(alloc: Global, label: &Text, row: &Row) -> Result<List<Slot>, Memory>
    ensures { IfOk result (λ args. Some (slots_of (map slot args)) ≡ arguments (label.now ∷ []) (row.now ∷ [])) }
{
    let mut args = List::empty(alloc);
    args.push(under(alloc, label, row)?)?;
    Ok(args)
}

/// Of two rows the first under the label that comes first by bytes.
pub(crate) fn of_two(
    alloc: Global,
    labels: &[Text],
    first: &Row,
    second: &Row,
) -> Result<Option<List<Slot>>, Memory>
    ensures { IfOk result (λ args. args_in args ≡ arguments labels.now (first.now ∷ second.now ∷ [])) }
{
    match labels {
        [x, y] => Ok(Some(ordered(alloc, x, y, first, second)?)),
        [] => Ok(None),
        [_] => Ok(None),
        [_, _, _, ..] => Ok(None),
    }
}

fn ordered(
    alloc: Global,
    x: &Text,
    y: &Text,
    first: &Row,
    second: &Row,
) -> Result<List<Slot>, Memory>
    ensures { IfOk result (λ args. Some (slots_of (map slot args)) ≡ arguments (x.now ∷ y.now ∷ []) (first.now ∷ second.now ∷ [])) }
{
    match x.cmp(y) {
        Ordering::Greater => pair_of(alloc, y, x, first, second),
        Ordering::Less => pair_of(alloc, x, y, first, second),
        Ordering::Equal => pair_of(alloc, x, y, first, second),
    }
}

fn pair_of(
    alloc: Global,
    x: &Text,
    y: &Text,
    first: &Row,
    second: &Row,
) -> Result<List<Slot>, Memory>
    ensures { IfOk result (λ args. slots_of (map slot args) ≡ pair_of x.now y.now first.now second.now) }
{
    let mut args = List::empty(alloc);
    args.push(under(alloc, x, first)?)?;
    args.push(under(alloc, y, second)?)?;
    Ok(args)
}

/// The record of a row under a label.
fn under(alloc: Global, label: &Text, row: &Row) -> Result<Slot, Memory>
    ensures { IfOk result (λ s. slot s ≡ record { label = label.now; value = record_of row.now }) }
{
    let label = label.copy()?;
    let value = record_of(alloc, row)?;
    Ok(slot_of(label, value))
}
