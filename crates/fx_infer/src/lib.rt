//! Inference: which statements of a script have types.
#![tactic(auto)]

mod arguments;
mod ask;
mod callee;
mod calls;
mod functions;
mod infer;
mod kept;
mod labels;
mod lines;
mod literals;
mod members;
mod natives;
mod operators;
mod records;
mod rules;
mod scope;
mod script;
mod stop;
mod terms;
mod typed;
mod uses;
mod words;
