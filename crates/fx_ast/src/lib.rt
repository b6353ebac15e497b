//! The trees of a script: what the parser makes of its tokens. A tree keeps the place of each of
//! its parts, in bytes from the start of the script.
#![tactic(auto)]

mod copy;
mod expr;
mod same;
mod script;

pub use expr::{Body, Expr, Infix, Link, Node, Param, ParamKind, Part, Prefix, Prop};
pub use script::{Form, Script, Statement};
