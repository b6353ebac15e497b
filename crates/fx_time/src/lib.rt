//! Times as texts and as numbers: nanoseconds since 1970-01-01T00:00:00Z.
#![tactic(auto)]

mod calendar;
mod fields;
mod front;
mod print;
mod read;
mod round_trip;
mod span;
mod window;

pub use fields::{TimeFields, fields_of};
pub use print::{print_time, push_time};
pub use read::read_time;
pub use round_trip::printed_and_read;
pub use span::{Span, add_span};
pub use window::{is_window, is_window_pair, window_bounds, window_of, windows_at};
