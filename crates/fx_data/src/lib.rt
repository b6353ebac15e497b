//! Tables, their keys and the order of keys, and rows regrouped under the keys of their values.
#![tactic(auto)]

mod column;
mod groups;
mod key;
mod keyed_row;
mod order;
mod regrouping;
mod rekey;
mod runs;
mod shared;
mod table;
mod tables;

pub use column::key_with;
pub use groups::collect;
pub use key::{Key, KeyEntry, key_order, key_order_is_total};
pub use keyed_row::KeyedRow;
pub use regrouping::{gather, regroup};
pub use rekey::new_key;
pub use runs::Runs;
pub use shared::shared_key;
pub use table::Table;
pub use tables::Tables;
