//! Expressions.

ghost use Rattle.std.specs.Prelude.{◌≡◌, suc};
ghost use Rattle.fx_parse.specs.Cursor.{Gives};
ghost use Rattle.fx_parse.specs.Nests.{Nests, tree_in};
ghost use Rattle.fx_parse.specs.ReadExprs.{read_called, read_expr, read_level, read_phrase};

use crate::cursor::Cursor;
use crate::grammar::Grammar;
use crate::measured::Measured;
use crate::operators::sees_prefix;
use crate::outlook::sees_function;
use crate::phrase::Phrase;
use crate::stop::Stop;
use fx_scan::Word;
use std::alloc::Global;

impl<F: Fn(Global, &mut Cursor<'_>, u8, Phrase) -> Result<Measured, Stop>> Grammar<F> {
    /// A phrase of the line.
    fn line(&self, cursor: &mut Cursor<'_>, line: u8) -> Result<Measured, Stop>
        requires nests { Nests self.now.depth (F.pre self.now.read) (F.post self.now.read) }
        ensures { Gives tree_in (read_level (suc self.now.depth) line cursor.old) result cursor.new }
    {
        if line == 0 {
            return self.postfix(cursor, false, self.depth);
        }
        if sees_prefix(cursor, line) {
            return self.prefixed(cursor, line);
        }
        let begin = cursor.place();
        let operand = self.line(cursor, line - 1)?;
        self.run(cursor, line - 1, begin, operand)
    }

    /// An expression.
    #[tactic(auto, unfolding(crate::specs::ReadExprs::read_whole, crate::specs::ReadExprs::read_expr))]
    fn whole(&self, cursor: &mut Cursor<'_>) -> Result<Measured, Stop>
        requires nests { Nests self.now.depth (F.pre self.now.read) (F.post self.now.read) }
        ensures { Gives tree_in (read_expr (suc self.now.depth) cursor.old) result cursor.new }
    {
        if cursor.sees_word(Word::If) {
            return self.choice(cursor);
        }
        if sees_function(cursor) {
            return self.function(cursor, self.depth);
        }
        self.line(cursor, 8)
    }

    /// A postfix that ends in a call.
    fn called(&self, cursor: &mut Cursor<'_>) -> Result<Measured, Stop>
        requires nests { Nests self.now.depth (F.pre self.now.read) (F.post self.now.read) }
        ensures { Gives tree_in (read_called (suc self.now.depth) cursor.old) result cursor.new }
    {
        if self.depth == 0 {
            return Err(Stop::Refused { deep: false });
        }
        self.postfix(cursor, true, self.depth - 1)
    }

    /// A phrase with one level more than there may be below it.
    #[tactic(auto, unfolding(crate::specs::ReadExprs::read_phrase))]
    fn top_phrase(&self, cursor: &mut Cursor<'_>, phrase: Phrase) -> Result<Measured, Stop>
        requires nests { Nests self.now.depth (F.pre self.now.read) (F.post self.now.read) }
        ensures { Gives tree_in (read_phrase (suc self.now.depth) phrase cursor.old) result cursor.new }
    {
        match phrase {
            Phrase::Whole => self.whole(cursor),
            Phrase::Called => self.called(cursor),
            Phrase::Line(line) => self.line(cursor, line),
        }
    }
}

/// A phrase with at most so many levels.
pub(crate) fn read(
    alloc: Global,
    cursor: &mut Cursor<'_>,
    levels: u8,
    phrase: Phrase,
) -> Result<Measured, Stop>
    ensures { Gives tree_in (read_phrase levels phrase cursor.old) result cursor.new }
{
    if levels == 0 {
        return Err(Stop::Refused { deep: false });
    }
    let grammar = Grammar {
        alloc,
        depth: levels - 1,
        read,
    };
    grammar.top_phrase(cursor, phrase)
}
