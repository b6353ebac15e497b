use fx_base::{List, Text};
use fx_types::{LabelTy, Ty};
use fx_value::Kind;

/// The type of a built-in at its label words, with variables in place of what may vary. Its
/// instances are what it becomes when types, fields and rows are put in for the variables, such
/// that each bound is kept.
#[derive(Debug, Drop)]
pub struct BuiltinType {
    /// The variables of each sort are numbered below this.
    pub vars: u32,
    /// The type as a value, without the label arguments and what may be left out.
    pub ty: Ty,
    /// What a call may leave out beside the label arguments.
    pub optional: List<LabelTy>,
    /// The label under which what comes by the pipe may be given.
    pub pipe_label: Option<Text>,
    /// The label arguments.
    pub labels: List<Text>,
    pub kinds: List<KindBound>,
}

/// A bound on a type variable: it stands for one of the kinds, or for a duration where `span` is
/// true.
#[derive(Debug, Drop)]
pub struct KindBound {
    pub var: u32,
    pub kinds: List<Kind>,
    pub span: bool,
}
