//! Operators between operands.

ghost use Rattle.std.specs.Prelude.{◌≡◌, ◌<◌, suc, map, None, Some, true};
ghost use Rattle.fx_ast.specs.Shape.{link, links_of, tree_of, trees_of};
ghost use Rattle.fx_ast.specs.Tree.{chain, pipe, tree};
ghost use Rattle.fx_parse.specs.Cursor.{Gives};
ghost use Rattle.fx_parse.specs.Grammar.{run};
ghost use Rattle.fx_parse.specs.Nests.{Nests, tree_in};
ghost use Rattle.fx_parse.specs.Operations.{call_of, operand_of, operation, operation_view, operations};
ghost use Rattle.fx_parse.specs.Readings.{mapped};
ghost use Rattle.fx_parse.specs.ReadRuns.{has_room, need, read_link};

use crate::cursor::Cursor;
use crate::grammar::Grammar;
use crate::lists::{ExprList, LinkList};
use crate::measured::Measured;
use crate::operators::{sees_operator, take_operator};
use crate::phrase::Phrase;
use crate::stop::Stop;
use crate::{nodes, saying};
use fx_ast::Infix;
use fx_base::Place;
use std::alloc::Global;

/// An operator, and the operand after it.
#[derive(Drop)]
struct Operation {
    place: Place,
    op: Infix,
    right: Measured,
}

/// How many levels the operand after an operator needs: after `|>` a call and what is called.
fn need(line: u8) -> u8
    ensures { result ≡ need line }
{
    if line == 1 { 2 } else { 1 }
}

/// Whether there are levels enough for an operator after the operand.
fn has_room(operand: &Measured, line: u8, levels: u8) -> bool
    ensures { result ≡ has_room levels line (Some (tree_of operand.now.tree)) }
{
    operand.fits(levels) && need(line) <= levels
}

impl<F: Fn(Global, &mut Cursor<'_>, u8, Phrase) -> Result<Measured, Stop>> Grammar<F> {
    /// The operand after an operator between operands of the line.
    #[tactic(auto, unfolding(crate::specs::ReadExprs::read_phrase))]
    fn operand(&self, cursor: &mut Cursor<'_>, line: u8) -> Result<Measured, Stop>
        requires nests { Nests self.now.depth (F.pre self.now.read) (F.post self.now.read) }
        ensures { Gives tree_in (operand_of self.now.depth line cursor.old) result cursor.new }
    {
        if line == 1 {
            return self.phrase(cursor, self.depth, Phrase::Called);
        }
        self.phrase(cursor, self.depth, Phrase::Line(line))
    }

    #[tactic(auto, unfolding(crate::specs::ReadRuns::read_link))]
    fn operation(&self, cursor: &mut Cursor<'_>, line: u8) -> Result<Operation, Stop>
        requires nests { Nests self.now.depth (F.pre self.now.read) (F.post self.now.read) }
        requires low { line < 255 }
        ensures { Gives operation_view (mapped operation (read_link line (operand_of self.now.depth line) cursor.old)) result cursor.new }
    {
        let item = take_operator(cursor, line)?;
        let right = self.operand(cursor, line)?;
        Ok(Operation {
            place: item.place,
            op: saying::infix(item),
            right,
        })
    }

    /// What stands after a `|>`, with it.
    #[tactic(auto, unfolding(crate::specs::ReadRuns::read_link))]
    fn piped(&self, cursor: &mut Cursor<'_>) -> Result<Measured, Stop>
        requires nests { Nests self.now.depth (F.pre self.now.read) (F.post self.now.read) }
        ensures { Gives tree_in (mapped call_of (read_link 1 (operand_of self.now.depth 1) cursor.old)) result cursor.new }
    {
        take_operator(cursor, 1)?;
        self.operand(cursor, 1)
    }

    fn operations(&self, cursor: &mut Cursor<'_>, line: u8) -> Result<LinkList, Stop>
        requires nests { Nests self.now.depth (F.pre self.now.read) (F.post self.now.read) }
        requires low { line < 255 }
        ensures { Gives (λ ls. map link ls.items) (mapped (map operation) (operations self.now.depth line None cursor.old)) result cursor.new }
    {
        let mut found = LinkList::empty(self.alloc);
        for _turn in 0..cursor.count() {
            if !sees_operator(cursor, line) {
                return Ok(found);
            }
            let Operation { place, op, right } = self.operation(cursor, line)?;
            found.push(place, op, right)?;
        }
        Ok(found)
    }

    fn calls(&self, cursor: &mut Cursor<'_>) -> Result<ExprList, Stop>
        requires nests { Nests self.now.depth (F.pre self.now.read) (F.post self.now.read) }
        ensures { Gives (λ es. map tree_of es.items) (mapped (map call_of) (operations self.now.depth 1 None cursor.old)) result cursor.new }
    {
        let mut found = ExprList::empty(self.alloc);
        for _turn in 0..cursor.count() {
            if !sees_operator(cursor, 1) {
                return Ok(found);
            }
            let call = self.piped(cursor)?;
            found.push(call)?;
        }
        Ok(found)
    }

    /// The operand with the calls that it is piped to.
    fn pipe(
        &self,
        cursor: &mut Cursor<'_>,
        begin: Place,
        operand: Measured,
    ) -> Result<Measured, Stop>
        requires nests { Nests self.now.depth (F.pre self.now.read) (F.post self.now.read) }
        ensures { Gives tree_in (mapped (λ es. tree begin (pipe (tree_of operand.tree) (trees_of es))) (mapped (map call_of) (operations self.now.depth 1 None cursor.old))) result cursor.new }
    {
        let calls = self.calls(cursor)?;
        Ok(nodes::pipe(self.alloc, begin, operand, calls)?)
    }

    /// The operand with the operators after it.
    fn chain(
        &self,
        cursor: &mut Cursor<'_>,
        line: u8,
        begin: Place,
        operand: Measured,
    ) -> Result<Measured, Stop>
        requires nests { Nests self.now.depth (F.pre self.now.read) (F.post self.now.read) }
        requires low { line < 255 }
        ensures { Gives tree_in (mapped (λ ls. tree begin (chain (tree_of operand.tree) (links_of ls))) (mapped (map operation) (operations self.now.depth line None cursor.old))) result cursor.new }
    {
        let rest = self.operations(cursor, line)?;
        Ok(nodes::chain(self.alloc, begin, operand, rest)?)
    }

    /// The operand of the line, with what stands after it. The place is that of its first item.
    pub(crate) fn run(
        &self,
        cursor: &mut Cursor<'_>,
        line: u8,
        begin: Place,
        operand: Measured,
    ) -> Result<Measured, Stop>
        requires nests { Nests self.now.depth (F.pre self.now.read) (F.post self.now.read) }
        requires low { line < 255 }
        ensures { Gives tree_in (mapped (run (suc line) begin (tree_of operand.tree)) (operations self.now.depth line (Some (tree_of operand.tree)) cursor.old)) result cursor.new }
    {
        if !sees_operator(cursor, line) {
            return Ok(operand);
        }
        if !has_room(&operand, line, self.depth) {
            return Err(Stop::Refused { deep: true });
        }
        if line == 1 {
            return self.pipe(cursor, begin, operand);
        }
        self.chain(cursor, line, begin, operand)
    }
}
