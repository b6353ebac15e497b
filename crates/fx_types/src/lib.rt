//! Terms of types: what inference knows of a type before all of it is known. A term stands for
//! the ground types that it becomes when types, fields and rows are put in for its variables.
#![tactic(auto)]

mod copy;
mod raise;
mod size;
mod term;

pub use term::{FieldTy, FunTy, LabelField, LabelTy, Rest, RowTy, Ty};
