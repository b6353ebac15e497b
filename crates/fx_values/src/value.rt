ghost use Rattle.std.specs.Prelude.{◌≡◌, IfOk};
ghost use Rattle.fx_values.specs.Shape.{val};

use fx_ast::{Body, Param};
use fx_base::{List, Memory, Place, Text};
use fx_meaning::{Native, Package, Setting, StreamFn};
use fx_time::Span;
use fx_value::Scalar;
use std::rc::Rc;

/// What an expression gives. Arrays, records, functions and streams are shared by their copies.
#[derive(Drop)]
#[cycle(value)]
pub enum Value {
    Cell(Scalar),
    Span(Span),
    /// A pattern, by its number.
    Pattern(u32),
    List(Rc<List<Value>>),
    /// A record; of several slots with one label the last counts.
    Rec(Rc<List<Slot>>),
    Fun(Rc<Closure>),
    Native(Native),
    Package(Package),
    Stream(Rc<StreamCall>),
    Done(Rc<Shown>),
}

/// A value under a label.
#[derive(Drop)]
#[cycle(value)]
pub struct Slot {
    pub label: Text,
    pub value: Value,
}

/// A function literal with the values of its free names.
#[derive(Drop)]
#[cycle(value)]
pub struct Closure {
    pub params: List<Param>,
    pub body: Body,
    pub captured: Rc<List<Slot>>,
    pub setting: Rc<Setting>,
}

/// An operator on streams with its inputs and its other arguments. It isn't run yet.
#[derive(Drop)]
#[cycle(value)]
pub struct StreamCall {
    pub which: StreamFn,
    /// Where its faults are.
    pub place: Place,
    pub inputs: List<Rc<StreamCall>>,
    pub args: List<Slot>,
}

/// A stream that is shown under a name, which is a text or null.
#[derive(Drop)]
#[cycle(value)]
pub struct Shown {
    pub name: Scalar,
    pub place: Place,
    pub stream: Rc<StreamCall>,
}

impl Value {
    /// The same value. Only counts of shared parts rise.
    pub fn copy(&self) -> Result<Value, Memory>
        ensures { IfOk result (λ v. val v ≡ val self.now) }
    {
        match self {
            Value::Cell(a) => Ok(Value::Cell(a.copy()?)),
            Value::Span(d) => Ok(Value::Span(*d)),
            Value::Pattern(n) => Ok(Value::Pattern(*n)),
            Value::List(items) => Ok(Value::List(items.clone()?)),
            Value::Rec(fields) => Ok(Value::Rec(fields.clone()?)),
            Value::Fun(closure) => Ok(Value::Fun(closure.clone()?)),
            Value::Native(which) => Ok(Value::Native(*which)),
            Value::Package(which) => Ok(Value::Package(*which)),
            Value::Stream(call) => Ok(Value::Stream(call.clone()?)),
            Value::Done(shown) => Ok(Value::Done(shown.clone()?)),
        }
    }
}
