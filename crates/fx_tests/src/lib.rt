//! What no case of the whole program can show: which calls of the files, streams and patterns in
//! memory fail, what the top call answers to that, and that calls which no command makes yet succeed
//! with ample memory.
#![tactic(auto)]

#[cfg(test)]
mod operators;
#[cfg(test)]
mod outside;
#[cfg(test)]
mod rows;
#[cfg(test)]
mod top;
#[cfg(test)]
mod trees;
#[cfg(test)]
mod types;
