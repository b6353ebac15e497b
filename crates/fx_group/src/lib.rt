//! Operators that choose, make, group and unite rows.
#![tactic(auto)]

mod answer;
mod grouping;
mod keeping;
mod ranging;
mod turning;
mod uniting;

pub use grouping::{group_by, group_except};
pub use keeping::filter;
pub use ranging::{range, range_regroups};
pub use turning::map;
pub use uniting::union;
