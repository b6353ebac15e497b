//! Plans: operators on streams, each with the plans of its inputs.

use fx_base::{Boxed, List, Place};
use fx_value::Kind;
use fx_values::{Closure, Slot};

/// An operator on streams, by the name of its `StreamFn`, with the plans of its inputs. `place` is
/// that of its call. `args` are its arguments that are no streams and no functions of rows.
#[derive(Drop)]
#[cycle(plan)]
pub enum Op {
    /// Integers of a bucket.
    From {
        place: Place,
        args: List<Slot>,
        kind: Kind,
    },
    ArrayFrom {
        place: Place,
        args: List<Slot>,
    },
    Range {
        place: Place,
        args: List<Slot>,
        input: Boxed<Op>,
    },
    /// `codes` holds one function.
    Filter {
        place: Place,
        args: List<Slot>,
        codes: List<Closure>,
        input: Boxed<Op>,
    },
    Map {
        place: Place,
        args: List<Slot>,
        code: Closure,
        input: Boxed<Op>,
    },
    Group {
        place: Place,
        args: List<Slot>,
        input: Boxed<Op>,
    },
    Window {
        place: Place,
        args: List<Slot>,
        input: Boxed<Op>,
    },
    AggregateWindow {
        place: Place,
        args: List<Slot>,
        input: Boxed<Op>,
    },
    Reduce {
        place: Place,
        args: List<Slot>,
        code: Closure,
        input: Boxed<Op>,
    },
    Count {
        place: Place,
        args: List<Slot>,
        input: Boxed<Op>,
    },
    Sum {
        place: Place,
        args: List<Slot>,
        input: Boxed<Op>,
    },
    Spread {
        place: Place,
        args: List<Slot>,
        input: Boxed<Op>,
    },
    Distinct {
        place: Place,
        args: List<Slot>,
        input: Boxed<Op>,
    },
    Min {
        place: Place,
        args: List<Slot>,
        input: Boxed<Op>,
    },
    Max {
        place: Place,
        args: List<Slot>,
        input: Boxed<Op>,
    },
    First {
        place: Place,
        args: List<Slot>,
        input: Boxed<Op>,
    },
    Last {
        place: Place,
        args: List<Slot>,
        input: Boxed<Op>,
    },
    Keep {
        place: Place,
        args: List<Slot>,
        input: Boxed<Op>,
    },
    DropColumns {
        place: Place,
        args: List<Slot>,
        input: Boxed<Op>,
    },
    Rename {
        place: Place,
        args: List<Slot>,
        input: Boxed<Op>,
    },
    Duplicate {
        place: Place,
        args: List<Slot>,
        input: Boxed<Op>,
    },
    Set {
        place: Place,
        args: List<Slot>,
        input: Boxed<Op>,
    },
    Fill {
        place: Place,
        args: List<Slot>,
        input: Boxed<Op>,
    },
    Sort {
        place: Place,
        args: List<Slot>,
        input: Boxed<Op>,
    },
    Limit {
        place: Place,
        args: List<Slot>,
        input: Boxed<Op>,
    },
    Tail {
        place: Place,
        args: List<Slot>,
        input: Boxed<Op>,
    },
    Difference {
        place: Place,
        args: List<Slot>,
        input: Boxed<Op>,
    },
    CumulativeSum {
        place: Place,
        args: List<Slot>,
        input: Boxed<Op>,
    },
    Elapsed {
        place: Place,
        args: List<Slot>,
        input: Boxed<Op>,
    },
    Union {
        place: Place,
        args: List<Slot>,
        inputs: List<Op>,
    },
    Pivot {
        place: Place,
        args: List<Slot>,
        input: Boxed<Op>,
    },
    JoinInner {
        place: Place,
        args: List<Slot>,
        on: Closure,
        both: Closure,
        left: Boxed<Op>,
        right: Boxed<Op>,
    },
    JoinLeft {
        place: Place,
        args: List<Slot>,
        on: Closure,
        both: Closure,
        left: Boxed<Op>,
        right: Boxed<Op>,
    },
    JoinRight {
        place: Place,
        args: List<Slot>,
        on: Closure,
        both: Closure,
        left: Boxed<Op>,
        right: Boxed<Op>,
    },
    JoinFull {
        place: Place,
        args: List<Slot>,
        on: Closure,
        both: Closure,
        left: Boxed<Op>,
        right: Boxed<Op>,
    },
    JoinTime {
        place: Place,
        args: List<Slot>,
        both: Closure,
        left: Boxed<Op>,
        right: Boxed<Op>,
    },
    /// Texts of a bucket.
    Texts {
        place: Place,
        args: List<Slot>,
        kind: Kind,
    },
    /// Booleans of a bucket.
    Bools {
        place: Place,
        args: List<Slot>,
        kind: Kind,
    },
}
