//! Lines with variables: what may be called, and how.

use fx_base::{List, Text};
use fx_types::{LabelTy, Ty};
use fx_unify::Bindings;

/// A line: what a call must give is in the type, and what it may give besides stands in `optional`.
#[derive(Debug, Drop)]
pub(crate) struct LineTy {
    pub(crate) ty: Ty,
    pub(crate) optional: List<LabelTy>,
    /// The label under which what comes by the pipe may be given.
    pub(crate) pipe_label: Option<Text>,
    /// The label arguments.
    pub(crate) labels: List<Text>,
}

/// What was inferred: bindings, and a line under each of their solutions.
#[derive(Debug, Drop)]
pub(crate) struct Lined {
    pub(crate) bindings: Bindings,
    pub(crate) line: LineTy,
}
