//! Which values fit which types, and what the run of a script is; and the laws
//! that what is typed is never stuck.
#![tactic(auto)]

mod laws;

pub use laws::{expressions_are_sound, runs_are_sound, streams_are_sound};
