//! Kinds, scalars with their order, rows, which are finite maps from labels to scalars, and functions
//! of rows.
#![tactic(auto)]

mod answer;
mod change;
mod head;
mod key_test;
mod labels;
mod recast;
mod row;
mod row_fun;
mod scalar;
mod shape;
mod slot;
mod source;

pub use answer::Answer;
pub use change::{Change, Reshape, change_rows};
pub use head::Head;
pub use key_test::{KeyPredicate, KeyTest, Test};
pub use recast::{Recast, recast_rows};
pub use row::Row;
pub use row_fun::RowFun;
pub use scalar::{Kind, Scalar, scalar_order, scalar_order_is_total};
pub use shape::Shape;
pub use source::Source;
