//! Tables of cases in the program's text: rows by rising key, searched by halving.
#![tactic(auto)]

mod case_table;
mod order;

pub use case_table::CaseTable;
