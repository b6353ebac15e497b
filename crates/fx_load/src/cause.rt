use fx_line::LineError;
use fx_value::Kind;

/// Why a line of a data file is refused.
#[derive(Clone, Copy, Debug, PartialEq, Eq)]
pub enum LineCause {
    /// The line's form.
    Form(LineError),
    /// A point of the kind `new` for a series of the kind `old`.
    KindConflict { old: Kind, new: Kind },
}
