//! Calls of the functions that make or take streams. They aren't run here.
ghost use Rattle.std.specs.Prelude.{◌≡◌, ◌∷◌, [], ◌++◌, not, map, option_map, IfOk, OnOk};
ghost use Rattle.std.specs.List.{filter};
ghost use Rattle.fx_meaning.specs.Ends.{pure};
ghost use Rattle.fx_meaning.specs.Forms.{cell_in, each, stream_in, streams_from, val_list};
ghost use Rattle.fx_meaning.specs.Natives as meaning;
ghost use Rattle.fx_meaning.specs.Value.{applied, keep, push, shown, stream};
ghost use Rattle.fx_types.specs.Ground.{listed};
ghost use Rattle.fx_values.specs.Shape.{call, slot, slots_of, val, vals_of};
ghost use Rattle.fx_values.specs.Told.{Tells};

use crate::forms::{argument, cell_in, look, stream_in};
use crate::natives::items_of;
use crate::stop::Stop;
use crate::value::{Shown, Slot, StreamCall, Value};
use fx_base::{List, Memory, Place, Text};
use fx_meaning::StreamFn;
use fx_value::Scalar;
use std::alloc::Global;
use std::rc::Rc;

/// What a function gives that makes or takes streams: a stream, and of `yield` a shown one.
pub fn stream_call(
    alloc: Global,
    place: Place,
    moment: i64,
    which: StreamFn,
    args: &[Slot],
) -> Result<Value, Stop>
    ensures { Tells val (meaning.stream_call place moment which (slots_of (map slot args.now))) result }
{
    match which {
        StreamFn::Yield => yielded(alloc, place, args),
        _ => stream_made(alloc, place, moment, which, args),
    }
}

fn stream_made(
    alloc: Global,
    place: Place,
    moment: i64,
    which: StreamFn,
    args: &[Slot],
) -> Result<Value, Stop>
    ensures { Tells val (meaning.stream_made place moment which (slots_of (map slot args.now))) result }
{
    let inputs = inputs_of(alloc, which, args)?;
    let kept = further_args(alloc, which, args)?;
    let args = with_moment(alloc, which, moment, kept)?;
    stream_value(alloc, place, which, inputs, args)
}

fn stream_value(
    alloc: Global,
    place: Place,
    which: StreamFn,
    inputs: List<Rc<StreamCall>>,
    args: List<Slot>,
) -> Result<Value, Stop>
    ensures { Tells val (pure (stream (applied which place (streams_from (map (λ c. call c.value) inputs)) (slots_of (map slot args))))) result }
{
    let call = StreamCall {
        which,
        place,
        inputs,
        args,
    };
    let shared = Rc::new(alloc, call)?;
    Ok(Value::Stream(shared))
}

/// The labels of the inputs.
fn input_labels(which: StreamFn) -> &'static [&'static str]
    ensures { map (λ label. label.now) result.now ≡ meaning.input_labels which }
{
    match which {
        StreamFn::From | StreamFn::Texts | StreamFn::Bools | StreamFn::ArrayFrom => &[],
        StreamFn::JoinInner
        | StreamFn::JoinLeft
        | StreamFn::JoinRight
        | StreamFn::JoinFull
        | StreamFn::JoinTime => &["left", "right"],
        _ => &["tables"],
    }
}

fn inputs_of(alloc: Global, which: StreamFn, args: &[Slot]) -> Result<List<Rc<StreamCall>>, Stop>
    ensures { Tells (λ found. map (λ c. call c.value) found) (meaning.inputs_of which (slots_of (map slot args.now))) result }
{
    match which {
        StreamFn::Union => {
            let items = items_of("tables", args)?;
            streams_in(alloc, items.as_slice())
        }
        _ => streams_of(alloc, input_labels(which), args),
    }
}

/// The streams that are the items of an array.
fn streams_in(alloc: Global, items: &[Value]) -> Result<List<Rc<StreamCall>>, Stop>
    ensures { Tells (λ found. map (λ c. call c.value) found) (each stream_in (val_list (vals_of (map val items.now)))) result }
{
    let mut found = List::empty(alloc);
    for item in items {
        let call = stream_in(item)?;
        found.push(call)?;
    }
    Ok(found)
}

/// The streams that are the arguments at the labels.
fn streams_of(alloc: Global, labels: &[&str], args: &[Slot]) -> Result<List<Rc<StreamCall>>, Stop>
    ensures { Tells (λ found. map (λ c. call c.value) found) (each (λ x. meaning.stream_of x (slots_of (map slot args.now))) (map (λ label. label.now) labels.now)) result }
{
    let mut found = List::empty(alloc);
    for label in labels {
        let call = stream_of(label, args)?;
        found.push(call)?;
    }
    Ok(found)
}

/// The stream that is the argument at the label.
fn stream_of(label: &str, args: &[Slot]) -> Result<Rc<StreamCall>, Stop>
    ensures { Tells (λ c. call c.value) (meaning.stream_of label.now (slots_of (map slot args.now))) result }
{
    let value = argument(label, args)?;
    stream_in(value)
}

/// The arguments that are no inputs.
fn further_args(alloc: Global, which: StreamFn, args: &[Slot]) -> Result<List<Slot>, Stop>
    ensures { Tells (λ kept. slots_of (map slot kept)) (pure (meaning.further_args which (slots_of (map slot args.now)))) result }
{
    let kept = without(alloc, input_labels(which), args)?;
    Ok(kept)
}

/// The slots that have none of the labels.
pub fn without(alloc: Global, labels: &[&str], slots: &[Slot]) -> Result<List<Slot>, Memory>
    ensures { IfOk result (λ kept. slots_of (map slot kept) ≡ keep (λ x. not (listed x (map (λ label. label.now) labels.now))) (slots_of (map slot slots.now))) }
{
    let mut kept = List::empty(alloc);
    for slot in slots {
        keep_without(&mut kept, labels, slot)?;
    }
    Ok(kept)
}

fn keep_without(kept: &mut List<Slot>, labels: &[&str], from: &Slot) -> Result<(), Memory>
    ensures { OnOk result (map slot kept.new ≡ map slot kept.old ++ filter (λ o. not (listed o.label (map (λ label. label.now) labels.now))) (slot from.now ∷ [])) }
{
    if is_listed(from.label.as_str(), labels) {
        return Ok(());
    }
    kept.push(slot_of(from.label.copy()?, from.value.copy()?))?;
    Ok(())
}

fn slot_of(label: Text, value: Value) -> Slot
    ensures { slot result ≡ record { label = label; value = val value } }
{
    Slot { label, value }
}

fn is_listed(label: &str, labels: &[&str]) -> bool
    ensures { result ≡ listed label.now (map (λ label. label.now) labels.now) }
{
    for other in labels {
        if label == *other {
            return true;
        }
    }
    false
}

fn with_moment(
    alloc: Global,
    which: StreamFn,
    moment: i64,
    args: List<Slot>,
) -> Result<List<Slot>, Stop>
    ensures { Tells (λ kept. slots_of (map slot kept)) (pure (meaning.with_moment which moment (slots_of (map slot args)))) result }
{
    match which {
        StreamFn::Range => {
            let label = Text::of(alloc, "now")?;
            pushed(args, label, Value::Cell(Scalar::Time(moment)))
        }
        _ => Ok(args),
    }
}

fn pushed(args: List<Slot>, label: Text, value: Value) -> Result<List<Slot>, Stop>
    ensures { Tells (λ kept. slots_of (map slot kept)) (pure (push (slots_of (map slot args)) label (val value))) result }
{
    let mut args = args;
    args.push(slot_of(label, value))?;
    Ok(args)
}

/// What `yield` gives.
fn yielded(alloc: Global, place: Place, args: &[Slot]) -> Result<Value, Stop>
    ensures { Tells val (meaning.yielded place (slots_of (map slot args.now))) result }
{
    let call = stream_of("tables", args)?;
    let name = given_name(alloc, look("name", args))?;
    shown_as(alloc, place, call, name)
}

fn given_name(alloc: Global, given: Option<&Value>) -> Result<Scalar, Stop>
    ensures { Tells (λ name. name) (meaning.given_name (option_map (λ v. val v.now) given.entry)) result }
{
    match given {
        Some(value) => name_in(value),
        None => Ok(Scalar::Text(Text::of(alloc, "_result")?)),
    }
}

fn name_in(value: &Value) -> Result<Scalar, Stop>
    ensures { Tells (λ name. name) (cell_in (val value.now)) result }
{
    let name = cell_in(value)?;
    Ok(name.copy()?)
}

fn shown_as(
    alloc: Global,
    place: Place,
    stream: Rc<StreamCall>,
    name: Scalar,
) -> Result<Value, Stop>
    ensures { Tells val (meaning.shown_as place (call stream.value) name) result }
{
    match name {
        Scalar::Text(_) | Scalar::Null => shown_value(alloc, place, stream, name),
        _ => Err(Stop::Stuck),
    }
}

fn shown_value(
    alloc: Global,
    place: Place,
    stream: Rc<StreamCall>,
    name: Scalar,
) -> Result<Value, Stop>
    ensures { Tells val (pure (shown name place (call stream.value))) result }
{
    let shared = Rc::new(
        alloc,
        Shown {
            name,
            place,
            stream,
        },
    )?;
    Ok(Value::Done(shared))
}
