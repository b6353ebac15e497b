//! What streams mean over stored points, and plans of them.
#![tactic(auto)]

mod laws;
mod op;

pub use laws::{arranged_streams_mean_the_same, streams_are_limited};
pub use op::Op;
