//! The top call: a command line, files and a moment in, annotated CSV or a named refusal out.
#![tactic(auto)]

mod command;
mod labels;
mod laws;
mod main_call;
mod message;
mod outcome;
mod place;
mod query;
mod run;
mod script;
mod slices;
mod source;
mod words;

pub use command::Command;
pub use fx_load::LineCause;
pub use laws::answers_exclude_each_other;
pub use main_call::flux_main;
pub use message::tell;
pub use outcome::Outcome;
pub use query::Query;
