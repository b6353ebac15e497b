//! The store: buckets, and their series of points by time, in memory.
#![tactic(auto)]

mod block;
mod blocks;
mod fault;
mod laws;
mod series;
mod series_map;
mod store;

pub use block::Block;
pub use fault::PutFault;
pub use laws::{
    last_point_stands, series_differ, times_rise, unknown_buckets_are_empty, values_are_of_the_kind,
};
pub use series::TimeValue;
pub use store::Store;
