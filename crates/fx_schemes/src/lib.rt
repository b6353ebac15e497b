//! The built-ins of the language and their types: `builtin` finds one by package and name, and
//! `scheme` and `scheme_at` give its type, without label words and at those of a call.
#![tactic(auto)]

mod aggregates;
mod builtin_type;
mod columns;
mod fold;
mod form;
mod given;
mod joins;
mod list;
mod name;
mod plan;
mod rows;
mod scalars;
mod shape;
mod simple;
mod sources;
mod terms;
mod types;

pub use builtin_type::{BuiltinType, KindBound};
pub use form::{Form, form_of};
pub use given::LabelWords;
pub use list::Builtin;
pub use name::{BuiltinId, builtin};
pub use types::{scheme, scheme_at};
