//! Joins of two streams: pairs of rows under one key.
#![tactic(auto)]

mod answer;
mod joining;
mod line;
mod meeting;
mod side;
mod times;

pub use joining::join_nested;
pub use side::Side;
pub use times::join_time;
