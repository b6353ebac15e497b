//! Postfixes: calls, members and indexes after a primary.

ghost use Rattle.std.specs.Prelude.{◌≡◌, ◌≤◌, cond, false, length, IfOk};
ghost use Rattle.fx_ast.specs.Shape.{tree_of};
ghost use Rattle.fx_parse.specs.Cursor.{Gives};
ghost use Rattle.fx_parse.specs.Nests.{Nests, tree_in};
ghost use Rattle.fx_parse.specs.ReadExprs.{read_called, read_expr, read_level};
ghost use Rattle.fx_parse.specs.Readings.{Got, Bad, links, mapped};
ghost use Rattle.fx_base.specs.declared.place.Place.{Place};
ghost use Rattle.fx_parse.specs.Grammar.{indexed, may_end, put};
ghost use Rattle.fx_parse.specs.Items.{first, is_symbol, passes};
ghost use Rattle.fx_scan.specs.declared.symbols.Symbol.TheVariants as symbol;
ghost use Rattle.fx_parse.specs.ReadRuns.{read_args, read_bracket, read_dot, read_postfix, read_suffix, suffixes};

use crate::cursor::Cursor;
use crate::grammar::Grammar;
use crate::group::Group;
use crate::measured::Measured;
use crate::phrase::Phrase;
use crate::stop::Stop;
use crate::{nodes, saying};
use fx_base::{Memory, Place, Text};
use fx_scan::Symbol;
use std::alloc::Global;

/// The levels that there are for an operand before what is next: those of a call's arguments
/// before a `(`, and else those of what stands in brackets.
fn limit(cursor: &Cursor<'_>, call: u8, within: u8) -> u8
    ensures { result ≡ cond (passes (is_symbol symbol.OpenParen) (first cursor.now)) call within }
{
    if cursor.sees_symbol(Symbol::OpenParen) {
        call
    } else {
        within
    }
}

fn shared(text: &Option<Text>) -> Result<Option<Text>, Memory>
    ensures { IfOk result (λ t. t ≡ text.now) }
{
    match text {
        Some(text) => Ok(Some(text.copy()?)),
        None => Ok(None),
    }
}

/// An index, which is a member where it is by a text without interpolation.
#[tactic(auto, using(crate::proofs::turns::SuffixTurns::indexed_node))]
fn indexed(
    alloc: Global,
    begin: Place,
    of: Measured,
    place: Place,
    at: Measured,
) -> Result<Measured, Memory>
    ensures { IfOk result (λ m. tree_of m.tree ≡ indexed begin (tree_of of.tree) place (tree_of at.tree)) }
{
    match shared(&at.plain)? {
        Some(label) => nodes::member(alloc, begin, of, label),
        None => nodes::index(alloc, place, of, at),
    }
}

/// The operand, where it may end the postfix.
fn ended(cursor: &Cursor<'_>, operand: Measured, must_call: bool) -> Result<Measured, Stop>
    ensures { Gives tree_in (cond (may_end must_call (tree_of operand.tree)) (Got (tree_of operand.tree) cursor.now) (Bad false cursor.now)) result cursor.now }
{
    if must_call && !operand.call {
        return Err(Stop::Refused { deep: false });
    }
    Ok(operand)
}

impl<F: Fn(Global, &mut Cursor<'_>, u8, Phrase) -> Result<Measured, Stop>> Grammar<F> {
    #[tactic(auto, using(crate::proofs::turns::ListTurns::mapped_twice), unfolding(crate::specs::ReadRuns::read_args))]
    fn call(
        &self,
        cursor: &mut Cursor<'_>,
        begin: Place,
        operand: Measured,
    ) -> Result<Measured, Stop>
        requires nests { Nests self.now.depth (F.pre self.now.read) (F.post self.now.read) }
        ensures { Gives tree_in (mapped (put begin (tree_of operand.tree)) (read_args self.now.depth (read_expr self.now.depth) cursor.old)) result cursor.new }
    {
        cursor.symbol(Symbol::OpenParen)?;
        let args = self.props(cursor, self.depth, Group::Arguments)?;
        Ok(nodes::call(self.alloc, begin, operand, args)?)
    }

    #[tactic(auto, using(crate::proofs::turns::ListTurns::mapped_twice), unfolding(crate::specs::ReadRuns::read_dot))]
    fn member(
        &self,
        cursor: &mut Cursor<'_>,
        begin: Place,
        operand: Measured,
    ) -> Result<Measured, Stop>
        ensures { Gives tree_in (mapped (put begin (tree_of operand.tree)) (read_dot cursor.old)) result cursor.new }
    {
        cursor.symbol(Symbol::Dot)?;
        let item = cursor.name()?;
        let label = saying::label(self.alloc, item)?;
        Ok(nodes::member(self.alloc, begin, operand, label)?)
    }

    #[tactic(auto, using(crate::proofs::turns::ListTurns::mapped_twice), unfolding(crate::specs::ReadRuns::read_bracket))]
    fn bracket(
        &self,
        cursor: &mut Cursor<'_>,
        begin: Place,
        operand: Measured,
        levels: u8,
    ) -> Result<Measured, Stop>
        requires nests { Nests self.now.depth (F.pre self.now.read) (F.post self.now.read) }
        requires within { levels ≤ self.now.depth }
        ensures { Gives tree_in (mapped (put begin (tree_of operand.tree)) (read_bracket (read_expr levels) cursor.old)) result cursor.new }
    {
        let open = cursor.symbol(Symbol::OpenBracket)?;
        let at = self.inner(cursor, levels)?;
        cursor.symbol(Symbol::CloseBracket)?;
        Ok(indexed(self.alloc, begin, operand, open.place, at)?)
    }

    #[tactic(auto, unfolding(crate::specs::ReadRuns::read_suffix))]
    fn suffix(
        &self,
        cursor: &mut Cursor<'_>,
        begin: Place,
        operand: Measured,
        levels: u8,
    ) -> Result<Measured, Stop>
        requires nests { Nests self.now.depth (F.pre self.now.read) (F.post self.now.read) }
        requires within { levels ≤ self.now.depth }
        ensures { Gives tree_in (mapped (put begin (tree_of operand.tree)) (read_suffix self.now.depth (read_expr self.now.depth) (read_expr levels) cursor.old)) result cursor.new }
    {
        if cursor.sees_symbol(Symbol::OpenParen) {
            return self.call(cursor, begin, operand);
        }
        if cursor.sees_symbol(Symbol::Dot) {
            return self.member(cursor, begin, operand);
        }
        self.bracket(cursor, begin, operand, levels)
    }

    /// What stands after the operand, whose first token is at the place.
    fn suffixes(
        &self,
        cursor: &mut Cursor<'_>,
        begin: Place,
        mut operand: Measured,
        must_call: bool,
        levels: u8,
    ) -> Result<Measured, Stop>
        requires nests { Nests self.now.depth (F.pre self.now.read) (F.post self.now.read) }
        requires within { levels ≤ self.now.depth }
        ensures { Gives tree_in (links (suffixes must_call begin self.now.depth levels (read_expr self.now.depth) (read_expr levels)) (length cursor.old) (tree_of operand.tree) cursor.old) result cursor.new }
    {
        for _turn in 0..cursor.count() {
            if !cursor.sees_suffix() {
                return ended(cursor, operand, must_call);
            }
            if !operand.fits(limit(cursor, self.depth, levels)) {
                return Err(Stop::Refused { deep: true });
            }
            operand = self.suffix(cursor, begin, operand, levels)?;
        }
        ended(cursor, operand, must_call)
    }

    #[tactic(auto, using(crate::proofs::turns::ListTurns::second_only), unfolding(crate::specs::ReadRuns::read_postfix))]
    pub(crate) fn postfix(
        &self,
        cursor: &mut Cursor<'_>,
        must_call: bool,
        levels: u8,
    ) -> Result<Measured, Stop>
        requires nests { Nests self.now.depth (F.pre self.now.read) (F.post self.now.read) }
        requires within { levels ≤ self.now.depth }
        ensures { Gives tree_in (read_postfix must_call self.now.depth levels (read_expr self.now.depth) (read_expr levels) cursor.old) result cursor.new }
    {
        let begin = cursor.place();
        let operand = self.primary(cursor, levels)?;
        self.suffixes(cursor, begin, operand, must_call, levels)
    }
}
