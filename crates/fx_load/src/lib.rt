//! Lines of a file into a store: one after another as the reader of lines and the store say, and
//! faster where a line of the same series was seen before.
#![tactic(auto)]

mod bytes;
mod cause;
mod known;
mod learn;
mod load;
mod loads;
mod memo;

pub use cause::LineCause;
pub use load::{LoadStop, MOST_POINTS, load_file};
pub use loads::{FileStop, Load, LoadsStop, MOST_FILE_BYTES, load_files};
