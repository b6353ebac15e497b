//! Annotated CSV: the tables of a yield as the bytes that a run writes.
#![tactic(auto)]

mod block;
mod cell;
mod column;
mod field;
mod head;
mod kind;
mod line;
mod name;
mod names;
mod print;
mod rows;
mod template;
mod text;
mod writer;

pub use print::{print_yield, write_alike_yield, write_yield};
