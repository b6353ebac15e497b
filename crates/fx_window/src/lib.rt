//! Rows in windows of time: each row in the windows that hold it, and tables cut into windows and
//! put together again.
#![tactic(auto)]

mod batch;
mod counting;
mod cutting;
mod reach;
mod standing;
mod uncutting;
mod windowing;

pub use counting::cut_count;
pub use cutting::{CutTable, cut};
pub use uncutting::uncut;
pub use windowing::window;
