//! The operators of the language on scalars: each gives its value or its fault.
#![tactic(auto)]

mod arguments;
mod call;
mod cast;
mod characters;
mod dates;
mod fault;
mod function;
mod infix;
mod kinds;
mod limit;
mod operand;
mod operator;
mod parts;
mod row;
mod texts;
mod whole;
mod work;

pub use call::scalar_call;
pub use cast::convert;
pub use fault::OpFault;
pub use function::ScalarFn;
pub use infix::binary;
pub use operator::BinaryOp;
pub use parts::split_text;
pub use row::join_texts;
pub use whole::negate;
