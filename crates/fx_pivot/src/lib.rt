//! Pivots: rows of a table as columns.
#![tactic(auto)]

mod cell;
mod naming;
mod pivoting;
mod placing;

pub use pivoting::pivot;
