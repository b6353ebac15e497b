//! Operators that make one row of a table or choose among its rows and values.
#![tactic(auto)]

mod agg;
mod aggregating;
mod choosing;
mod differing;
mod numbers;
mod one_row;
mod reducing;

pub use agg::Agg;
pub use aggregating::{aggregate, count_rows};
pub use differing::distinct;
pub use reducing::reduce;
