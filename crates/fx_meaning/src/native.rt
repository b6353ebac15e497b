use crate::stream::StreamFn;
use fx_ops::ScalarFn;
use fx_value::Kind;

/// A function that the language has by itself.
#[derive(Clone, Copy, Debug, PartialEq, Eq)]
pub enum Native {
    Now,
    /// `int`, `string`, `bool` and `time`, by the kind that they make.
    Convert(Kind),
    Length,
    Contains,
    Split,
    Scalar(ScalarFn),
    Stream(StreamFn),
}
