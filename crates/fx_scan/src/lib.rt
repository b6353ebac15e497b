//! Tokens of a script: the scanner, and the tables of its words, symbols and units.
#![tactic(auto)]

mod bytes;
mod clock;
mod digits;
mod enclosed;
mod fault;
mod front;
mod group;
mod mode;
mod names;
mod scanner;
mod spans;
mod symbol_table;
mod symbols;
mod taken;
mod token;
mod units;
mod words;

pub use fault::ScanFault;
pub use names::is_name;
pub use scanner::scan;
pub use symbols::{Symbol, symbol_of};
pub use token::{Token, TokenKind};
pub use units::{Unit, unit_of};
pub use words::{Word, reserved};
