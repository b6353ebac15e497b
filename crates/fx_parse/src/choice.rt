//! `if`.

ghost use Rattle.std.specs.Prelude.{◌≡◌};
ghost use Rattle.fx_ast.specs.Shape.{tree_of};
ghost use Rattle.fx_parse.specs.Cursor.{Gives};
ghost use Rattle.fx_parse.specs.Nests.{Nests, tree_in};
ghost use Rattle.fx_parse.specs.ReadExprs.{read_called, read_expr, read_level};
ghost use Rattle.fx_parse.specs.Readings.{Got, Bad, links, mapped};
ghost use Rattle.fx_parse.specs.ReadRuns.{read_choice};

use crate::cursor::Cursor;
use crate::grammar::Grammar;
use crate::measured::Measured;
use crate::nodes;
use crate::phrase::Phrase;
use crate::stop::Stop;
use fx_scan::Word;
use std::alloc::Global;

impl<F: Fn(Global, &mut Cursor<'_>, u8, Phrase) -> Result<Measured, Stop>> Grammar<F> {
    #[tactic(auto, unfolding(crate::specs::ReadRuns::read_choice))]
    pub(crate) fn choice(&self, cursor: &mut Cursor<'_>) -> Result<Measured, Stop>
        requires nests { Nests self.now.depth (F.pre self.now.read) (F.post self.now.read) }
        ensures { Gives tree_in (read_choice self.now.depth (read_expr self.now.depth) cursor.old) result cursor.new }
    {
        if self.depth == 0 {
            return Err(Stop::Refused { deep: true });
        }
        let word = cursor.word(Word::If)?;
        let test = self.inner(cursor, self.depth)?;
        cursor.word(Word::Then)?;
        let yes = self.inner(cursor, self.depth)?;
        cursor.word(Word::Else)?;
        let no = self.inner(cursor, self.depth)?;
        Ok(nodes::choice(self.alloc, word.place, test, yes, no)?)
    }
}
