//! Unification of type terms with rows: bindings of variables, and whether two terms can be equal.
#![tactic(auto)]

mod apply;
mod bind;
mod bindings;
mod bound;
mod bounds;
mod calls;
mod compare;
mod count;
mod counts;
mod decide;
mod fault;
mod field;
mod follow;
mod head;
mod heads;
mod join;
mod kept;
mod known;
mod labels;
mod later;
mod light;
mod pick;
mod put;
mod read;
mod row;
mod run;
mod settle;
mod solve;
mod sorts;
mod store;
mod tag;
mod tails;
mod variables;
mod view;
mod weigh;
mod work;

pub use bindings::Bindings;
pub use calls::unify;
pub use fault::UnifyFault;
pub use labels::{add_label, has_label};
pub use sorts::{Sorts, sorts_at};
pub use store::Root;
pub use variables::numbers;
pub use view::{View, view_of};
