//! Schemes of names: what is kept of a type when the equations that it was found by are let go, and
//! its use.
#![tactic(auto)]

mod apart;
mod collect;
mod ends;
mod kinds;
mod names;
mod read;
mod same;
mod solved;
mod unread;
mod used;

pub use solved::{Solved, VarBound};
pub use used::Use;
