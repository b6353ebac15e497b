//! What names stand for in a scope.

ghost use Rattle.fx_infer.specs.Names.{IsNewest};

use fx_ast::Expr;
use fx_base::Text;

/// What a name stands for.
#[derive(Clone, Copy)]
pub(crate) enum Bound<'a> {
    /// A parameter, whose type is that of the variable.
    Param(u32),
    /// An expression, in the scope of the names before.
    Assigned(&'a Expr),
    /// A package, by its path.
    Imported(&'a Text),
}

/// A name that is bound.
#[derive(Clone, Copy)]
pub(crate) struct Name<'a> {
    pub(crate) label: &'a Text,
    pub(crate) bound: Bound<'a>,
}

/// The place of the newest name with this label; the newest stands last.
pub(crate) fn newest(names: &[Name<'_>], label: &Text) -> Option<usize>
    ensures { IsNewest label.now names.now result }
{
    let mut left = names.len();
    while left > 0 {
        left -= 1;
        if *names[left].label == *label {
            return Some(left);
        }
    }
    None
}
