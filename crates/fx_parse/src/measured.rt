//! Expressions that were read, with what the parser asks of them.

ghost use Rattle.std.specs.Prelude.{◌≡◌, false, None, IfOk, nat_le};
ghost use Rattle.fx_ast.specs.Shape.{shape_of, tree_of};
ghost use Rattle.fx_ast.specs.Tree.{tree};
ghost use Rattle.fx_parse.specs.Grammar.{is_call};
ghost use Rattle.fx_ast.specs.Levels.{below, height};
ghost use Rattle.fx_parse.specs.Measures.{capped, plain_of};

use fx_ast::{Expr, Node};
use fx_base::{Memory, Place, Shared, Text};
use std::alloc::Global;

/// An expression, and what the parser asks of it.
#[derive(Drop)]
pub(crate) struct Measured {
    pub(crate) tree: Expr,
    /// How many levels it has, up to the greatest number.
    pub(crate) levels: usize,
    pub(crate) call: bool,
    /// What it says where it is a text without interpolation.
    pub(crate) plain: Option<Text>,
    ghost tall: { levels ≡ capped (height (tree_of tree)) },
    ghost calls: { call ≡ is_call (tree_of tree) },
    ghost says: { plain ≡ plain_of (tree_of tree) },
}

impl Measured {
    /// Whether it has at most so many levels.
    pub(crate) fn fits(&self, levels: u8) -> bool
        ensures { result ≡ nat_le (height (tree_of self.now.tree)) levels }
    {
        self.levels <= usize::from(levels)
    }
}

/// The expression of a node with so many levels below it.
pub(crate) fn made(
    alloc: Global,
    place: Place,
    node: Node,
    lower: usize,
    call: bool,
    plain: Option<Text>,
) -> Result<Measured, Memory>
    requires tall { lower ≡ capped (below (shape_of node)) }
    requires calls { call ≡ is_call (tree place (shape_of node)) }
    requires says { plain ≡ plain_of (tree place (shape_of node)) }
    ensures { IfOk result (λ m. tree_of m.tree ≡ tree place (shape_of node)) }
{
    let tree = Expr {
        place,
        node: Shared::new(alloc, node)?,
    };
    Ok(Measured {
        tree,
        levels: lower.saturating_add(1),
        call,
        plain,
    })
}

/// The expression of a node that is no call and no text, with so many levels below it.
pub(crate) fn usual(
    alloc: Global,
    place: Place,
    node: Node,
    lower: usize,
) -> Result<Measured, Memory>
    requires tall { lower ≡ capped (below (shape_of node)) }
    requires calls { is_call (tree place (shape_of node)) ≡ false }
    requires says { plain_of (tree place (shape_of node)) ≡ None }
    ensures { IfOk result (λ m. tree_of m.tree ≡ tree place (shape_of node)) }
{
    made(alloc, place, node, lower, false, None)
}
