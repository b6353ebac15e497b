use crate::place::Place;

/// What went wrong in a script that has a typing. The names are those of the line on standard
/// error.
#[derive(Clone, Copy, Debug, PartialEq, Eq)]
pub enum FaultKind {
    /// An integer left the range of 64 bits.
    Overflow,
    /// A divisor was 0.
    DivideByZero,
    /// A text or number has no value of the wanted kind.
    BadConversion,
    /// An index or a range of characters lies outside.
    IndexRange,
    /// A moment left the range of 64-bit nanoseconds.
    TimeRange,
    /// A text grew longer than 1,048,576 bytes.
    TooLarge,
    /// An argument that may not be null was null.
    NullArgument,
    /// No bucket of this name was loaded.
    NoBucket,
    /// A span is no window.
    BadWindow,
    /// A count of rows was negative.
    BadCount,
    /// A pivot would name a column as another column of its result.
    PivotName,
    /// Two streams were yielded under one name.
    DuplicateYield,
}

/// A fault of evaluation and the place of the operator or call that it comes from.
#[derive(Clone, Copy, Debug, PartialEq, Eq)]
pub struct Fault {
    pub kind: FaultKind,
    pub place: Place,
}
