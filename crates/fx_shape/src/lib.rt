//! Operators on columns and rows of tables.
#![tactic(auto)]

mod doubling;
mod giving;
mod leaving;
mod naming;
mod part;
mod renaming;
mod run;
mod running;
mod sorting;

pub use doubling::duplicate;
pub use giving::{fill, set};
pub use leaving::{drop_columns, keep};
pub use part::{limit, tail};
pub use renaming::rename;
pub use running::{cumulative_sum, difference, elapsed};
pub use sorting::sort_rows;
