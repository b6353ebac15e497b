//! The expressions that parts make, with what the parser asks of them.

ghost use Rattle.std.specs.Prelude.{◌≡◌, false, map, None, IfOk};
ghost use Rattle.fx_ast.specs.Shape.{shape_of, link, links_of, part, parts_of, prop, props_of, tree_of, trees_of};
ghost use Rattle.fx_ast.specs.Tree.{tree, array, call, chain, if_then, index, int, member, name, paren, pattern, pipe, prefix, rec, span, text, time};
ghost use Rattle.fx_parse.specs.Grammar.{is_call};
ghost use Rattle.fx_ast.specs.Levels.{below};
ghost use Rattle.fx_parse.specs.Measures.{plain_of};

use crate::lists::{ExprList, LinkList, PartList, PropList};
use crate::measured::{Measured, made, usual};
use fx_ast::{Node, Prefix};
use fx_base::{Memory, Place, Text};
use fx_time::Span;
use std::alloc::Global;

#[tactic(auto, using(crate::proofs::turns::NodeLaws::paren_node))]
pub(crate) fn paren(alloc: Global, place: Place, inner: Measured) -> Result<Measured, Memory>
    ensures { IfOk result (λ m. tree_of m.tree ≡ tree place (paren (tree_of inner.tree))) }
{
    usual(alloc, place, Node::Paren(inner.tree), inner.levels)
}

#[tactic(auto, using(crate::proofs::turns::NodeLaws::prefix_node))]
pub(crate) fn prefix(
    alloc: Global,
    place: Place,
    sign: Prefix,
    of: Measured,
) -> Result<Measured, Memory>
    ensures { IfOk result (λ m. tree_of m.tree ≡ tree place (prefix sign (tree_of of.tree))) }
{
    let node = Node::Prefix { sign, of: of.tree };
    usual(alloc, place, node, of.levels)
}

#[tactic(auto, using(crate::proofs::turns::NodeLaws::member_node))]
pub(crate) fn member(
    alloc: Global,
    place: Place,
    of: Measured,
    label: Text,
) -> Result<Measured, Memory>
    ensures { IfOk result (λ m. tree_of m.tree ≡ tree place (member (tree_of of.tree) label)) }
{
    let node = Node::Member { of: of.tree, label };
    usual(alloc, place, node, of.levels)
}

#[tactic(auto, using(crate::proofs::turns::NodeLaws::index_node))]
pub(crate) fn index(
    alloc: Global,
    place: Place,
    of: Measured,
    at: Measured,
) -> Result<Measured, Memory>
    ensures { IfOk result (λ m. tree_of m.tree ≡ tree place (index (tree_of of.tree) (tree_of at.tree))) }
{
    let below = of.levels.max(at.levels);
    let node = Node::Index {
        of: of.tree,
        at: at.tree,
    };
    usual(alloc, place, node, below)
}

#[tactic(auto, using(crate::proofs::turns::NodeLaws::if_node))]
pub(crate) fn choice(
    alloc: Global,
    place: Place,
    test: Measured,
    yes: Measured,
    no: Measured,
) -> Result<Measured, Memory>
    ensures { IfOk result (λ m. tree_of m.tree
        ≡ tree place (if_then (tree_of test.tree) (tree_of yes.tree) (tree_of no.tree))) }
{
    let below = test.levels.max(yes.levels.max(no.levels));
    let node = Node::If {
        test: test.tree,
        yes: yes.tree,
        no: no.tree,
    };
    usual(alloc, place, node, below)
}

#[tactic(auto, using(crate::proofs::turns::NodeLaws::array_node))]
pub(crate) fn array(alloc: Global, place: Place, items: ExprList) -> Result<Measured, Memory>
    ensures { IfOk result (λ m. tree_of m.tree ≡ tree place (array (trees_of (map tree_of items.items)))) }
{
    usual(alloc, place, Node::Array(items.items), items.levels)
}

#[tactic(auto, using(crate::proofs::turns::NodeLaws::rec_node))]
pub(crate) fn record(
    alloc: Global,
    place: Place,
    base: Option<Text>,
    props: PropList,
) -> Result<Measured, Memory>
    ensures { IfOk result (λ m. tree_of m.tree ≡ tree place (rec base (props_of (map prop props.items)))) }
{
    let node = Node::Rec {
        base,
        props: props.items,
    };
    usual(alloc, place, node, props.levels)
}

#[tactic(auto, using(crate::proofs::turns::NodeLaws::call_node))]
pub(crate) fn call(
    alloc: Global,
    place: Place,
    callee: Measured,
    args: PropList,
) -> Result<Measured, Memory>
    ensures { IfOk result (λ m. tree_of m.tree ≡ tree place (call (tree_of callee.tree) (props_of (map prop args.items)))) }
{
    let levels = callee.levels.max(args.levels);
    let node = Node::Call {
        callee: callee.tree,
        args: args.items,
    };
    made(alloc, place, node, levels, true, None)
}

#[tactic(auto, using(crate::proofs::turns::NodeLaws::pipe_node))]
pub(crate) fn pipe(
    alloc: Global,
    place: Place,
    first: Measured,
    calls: ExprList,
) -> Result<Measured, Memory>
    ensures { IfOk result (λ m. tree_of m.tree ≡ tree place (pipe (tree_of first.tree) (trees_of (map tree_of calls.items)))) }
{
    let levels = first.levels.max(calls.levels);
    let node = Node::Pipe {
        first: first.tree,
        calls: calls.items,
    };
    usual(alloc, place, node, levels)
}

#[tactic(auto, using(crate::proofs::turns::NodeLaws::chain_node))]
pub(crate) fn chain(
    alloc: Global,
    place: Place,
    first: Measured,
    rest: LinkList,
) -> Result<Measured, Memory>
    ensures { IfOk result (λ m. tree_of m.tree ≡ tree place (chain (tree_of first.tree) (links_of (map link rest.items)))) }
{
    let levels = first.levels.max(rest.levels);
    let node = Node::Chain {
        first: first.tree,
        rest: rest.items,
    };
    usual(alloc, place, node, levels)
}

#[tactic(auto, using(crate::proofs::turns::NodeLaws::text_node))]
pub(crate) fn text(
    alloc: Global,
    place: Place,
    parts: PartList,
    plain: Option<Text>,
) -> Result<Measured, Memory>
    requires { plain ≡ plain_of (tree place (text (parts_of (map part parts.items)))) }
    ensures { IfOk result (λ m. tree_of m.tree ≡ tree place (text (parts_of (map part parts.items)))) }
{
    made(
        alloc,
        place,
        Node::Text(parts.items),
        parts.levels,
        false,
        plain,
    )
}

/// A literal or a name by itself.
fn leaf(alloc: Global, place: Place, node: Node) -> Result<Measured, Memory>
    requires tall { below (shape_of node) ≡ 0 }
    requires calls { is_call (tree place (shape_of node)) ≡ false }
    requires says { plain_of (tree place (shape_of node)) ≡ None }
    ensures { IfOk result (λ m. tree_of m.tree ≡ tree place (shape_of node)) }
{
    usual(alloc, place, node, 0)
}

#[tactic(auto, using(crate::proofs::turns::NodeLaws::name_node))]
pub(crate) fn name(alloc: Global, place: Place, label: Text) -> Result<Measured, Memory>
    ensures { IfOk result (λ m. tree_of m.tree ≡ tree place (name label)) }
{
    leaf(alloc, place, Node::Name(label))
}

#[tactic(auto, using(crate::proofs::turns::NodeLaws::int_node))]
pub(crate) fn int(alloc: Global, place: Place, value: i64) -> Result<Measured, Memory>
    ensures { IfOk result (λ m. tree_of m.tree ≡ tree place (int value)) }
{
    leaf(alloc, place, Node::Int(value))
}

#[tactic(auto, using(crate::proofs::turns::NodeLaws::time_node))]
pub(crate) fn time(alloc: Global, place: Place, nanoseconds: i64) -> Result<Measured, Memory>
    ensures { IfOk result (λ m. tree_of m.tree ≡ tree place (time nanoseconds)) }
{
    leaf(alloc, place, Node::Time(nanoseconds))
}

#[tactic(auto, using(crate::proofs::turns::NodeLaws::span_node))]
pub(crate) fn span(alloc: Global, place: Place, value: Span) -> Result<Measured, Memory>
    ensures { IfOk result (λ m. tree_of m.tree ≡ tree place (span value)) }
{
    leaf(alloc, place, Node::Span(value))
}

#[tactic(auto, using(crate::proofs::turns::NodeLaws::pattern_node))]
pub(crate) fn pattern(alloc: Global, place: Place, source: Text) -> Result<Measured, Memory>
    ensures { IfOk result (λ m. tree_of m.tree ≡ tree place (pattern source)) }
{
    leaf(alloc, place, Node::Pattern(source))
}
