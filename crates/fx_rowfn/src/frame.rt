use crate::scope::Scope;
use fx_ast::{Expr, Infix, Prefix};
use fx_base::{List, Place, Text};
use fx_values::{Closure, Slot, Value};
use std::rc::Rc;

/// What a value is awaited for. Parts of a tree are told by its node and a place in it.
#[derive(Drop)]
pub(crate) enum Frame {
    Sign {
        place: Place,
        sign: Prefix,
    },
    Branch {
        scope: Scope,
        yes: Expr,
        no: Expr,
    },
    LeftOf {
        scope: Scope,
        chain: Expr,
        next: usize,
    },
    RightOf {
        scope: Scope,
        place: Place,
        op: Infix,
        left: Value,
        chain: Expr,
        next: usize,
    },
    Item {
        scope: Scope,
        done: List<Value>,
        array: Expr,
        next: usize,
    },
    Field {
        scope: Scope,
        done: List<Slot>,
        label: Text,
        record: Expr,
        next: usize,
    },
    Callee {
        scope: Scope,
        place: Place,
        call: Expr,
    },
    Argument {
        scope: Scope,
        place: Place,
        called: Value,
        done: List<Slot>,
        label: Text,
        call: Expr,
        next: usize,
    },
    Through {
        scope: Scope,
        pipe: Expr,
        next: usize,
    },
    PipedCallee {
        scope: Scope,
        place: Place,
        input: Value,
        call: Expr,
    },
    PipedArgument {
        scope: Scope,
        place: Place,
        input: Value,
        called: Value,
        done: List<Slot>,
        label: Text,
        call: Expr,
        next: usize,
    },
    Member {
        label: Text,
    },
    IndexedBy {
        scope: Scope,
        place: Place,
        at: Expr,
    },
    IndexOf {
        place: Place,
        items: Value,
    },
    Hole {
        scope: Scope,
        place: Place,
        /// The text before the hole, None once a hole was null.
        before: Option<String>,
        text: Expr,
        next: usize,
    },
    Default {
        entry: Entry,
        label: Text,
    },
    Assigned {
        entry: Entry,
        label: Text,
    },
}

/// A call of a function literal, as far as it has come: the scope has the parameters and
/// assignments before the next one.
#[derive(Drop)]
pub(crate) struct Entry {
    pub(crate) closure: Rc<Closure>,
    pub(crate) args: Rc<List<Slot>>,
    pub(crate) scope: Scope,
    pub(crate) next: usize,
}

/// What is done now.
#[derive(Drop)]
pub(crate) enum Control {
    Eval { scope: Scope, expr: Expr },
    Give(Value),
    /// The parameters from the next one on get their values.
    Bind(Entry),
    /// The assignments from the next one on get their values.
    Assign(Entry),
}

/// What is done then.
#[derive(Drop)]
pub(crate) enum Next {
    Go(Control),
    /// The value is awaited by a frame.
    Await(Frame, Control),
    /// The value is awaited by a frame, and what that makes of it by another.
    AwaitTwo(Frame, Frame, Control),
    /// A function literal is called with arguments that it takes.
    Enter(Rc<Closure>, Rc<List<Slot>>),
}

/// How far one step has come.
#[derive(Drop)]
pub(crate) enum Moved {
    Done(Value),
    Goes(Control),
}
