//! Literals, and names by themselves.

ghost use Rattle.std.specs.Prelude.{◌≡◌, IfOk};
ghost use Rattle.fx_ast.specs.Shape.{tree_of};
ghost use Rattle.fx_ast.specs.Tree.{no_parts, piece, text, tree};
ghost use Rattle.fx_parse.specs.Items.{literal};

use crate::item::{Item, Lexeme};
use crate::lists::PartList;
use crate::measured::Measured;
use crate::nodes;
use fx_base::{Memory, Place, Text};
use std::alloc::Global;

/// A text without interpolation.
#[tactic(auto, using(crate::proofs::turns::TextLaws::pieces))]
fn plain(alloc: Global, place: Place, says: &Text) -> Result<Measured, Memory>
    ensures { IfOk result (λ m. tree_of m.tree ≡ tree place (text (piece says.now no_parts))) }
{
    let mut parts = PartList::empty(alloc);
    parts.push_piece(says.copy()?)?;
    nodes::text(alloc, place, parts, Some(says.copy()?))
}

/// The expression that an item is by itself. No other items than literals and names are asked.
#[tactic(auto, unfolding(crate::specs::Items::literal_shape))]
pub(crate) fn literal(alloc: Global, item: &Item) -> Result<Measured, Memory>
    ensures { IfOk result (λ m. tree_of m.tree ≡ literal item.now) }
{
    match &item.lexeme {
        Lexeme::Int(value) => nodes::int(alloc, item.place, *value),
        Lexeme::Span(value) => nodes::span(alloc, item.place, *value),
        Lexeme::Time(at) => nodes::time(alloc, item.place, *at),
        Lexeme::Plain(says) => plain(alloc, item.place, says),
        Lexeme::Pattern(source) => nodes::pattern(alloc, item.place, source.copy()?),
        Lexeme::Name(label) => nodes::name(alloc, item.place, label.copy()?),
        _ => nodes::name(alloc, item.place, Text::of(alloc, "")?),
    }
}
