//! Values of expressions, and what operators and the language's own functions make of them.
#![tactic(auto, using(crate::proofs::ValueLaws::val_laws))]

mod forms;
mod matching;
mod native;
mod natives;
mod operators;
mod scalars;
mod stop;
mod streams;
mod value;

pub use forms::{
    argument, cell_in, fields_in, flag_in, items_in, look, pattern_in, span_in, stream_in, truth_in,
};
pub use matching::matched;
pub use native::native_call;
pub use natives::{cell_of, cells_in, contains_of, convert_of, items_of, length_of, split_of};
pub use operators::{binary_values, decides, logic, prefixed};
pub use scalars::scalar_call;
pub use stop::Stop;
pub use streams::{stream_call, without};
pub use value::{Closure, Shown, Slot, StreamCall, Value};
