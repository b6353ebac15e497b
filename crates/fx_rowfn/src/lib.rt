//! Evaluation of expressions, step after step over frames that await values, and function literals as
//! functions of rows.
#![tactic(auto)]

mod arguments;
mod arrays;
mod calls;
mod enter;
mod eval;
mod expression;
mod follow;
mod frame;
mod free;
mod functions;
mod members;
mod names;
mod operators;
mod parts;
mod pipes;
mod records;
mod resume;
mod row_function;
mod rows;
mod run;
mod scope;
mod slots;
mod takes;
mod texts;

pub use expression::evaluate;
pub use row_function::RowFunction;
