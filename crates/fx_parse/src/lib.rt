//! The parser: the tree of a script's tokens.
#![tactic(auto)]

mod array;
mod chains;
mod choice;
mod cursor;
mod escapes;
mod expr;
mod fault;
mod function;
mod grammar;
mod group;
mod holes;
mod item;
mod items;
mod lists;
mod literals;
mod measured;
mod nodes;
mod number;
mod operators;
mod outlook;
mod parser;
mod parts;
mod phrase;
mod postfix;
mod predicates;
mod prefixed;
mod primary;
mod saying;
mod script;
mod span;
mod statement;
mod stop;
mod values;

pub use fault::ParseFault;
pub use parser::parse;
