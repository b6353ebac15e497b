//! Operators before operands.

ghost use Rattle.std.specs.Prelude.{◌≡◌, ◌<◌};
ghost use Rattle.fx_ast.specs.Shape.{tree_of};
ghost use Rattle.fx_parse.specs.Cursor.{Gives};
ghost use Rattle.fx_parse.specs.Nests.{Nests, tree_in};
ghost use Rattle.fx_parse.specs.ReadExprs.{read_called, read_expr, read_level};
ghost use Rattle.fx_parse.specs.Readings.{Got, Bad, links, mapped};
ghost use Rattle.fx_parse.specs.ReadRuns.{read_prefix};

use crate::cursor::Cursor;
use crate::grammar::Grammar;
use crate::measured::Measured;
use crate::operators::take_prefix;
use crate::phrase::Phrase;
use crate::stop::Stop;
use crate::{nodes, saying};
use std::alloc::Global;

impl<F: Fn(Global, &mut Cursor<'_>, u8, Phrase) -> Result<Measured, Stop>> Grammar<F> {
    #[tactic(auto, unfolding(crate::specs::ReadRuns::read_prefix, crate::specs::ReadExprs::read_phrase))]
    pub(crate) fn prefixed(&self, cursor: &mut Cursor<'_>, line: u8) -> Result<Measured, Stop>
        requires nests { Nests self.now.depth (F.pre self.now.read) (F.post self.now.read) }
        requires some { 0 < line }
        ensures { Gives tree_in (read_prefix self.now.depth line (read_level self.now.depth line) cursor.old) result cursor.new }
    {
        if self.depth == 0 {
            return Err(Stop::Refused { deep: true });
        }
        let item = take_prefix(cursor, line)?;
        let of = self.phrase(cursor, self.depth, Phrase::Line(line))?;
        Ok(nodes::prefix(self.alloc, item.place, saying::prefix(item), of)?)
    }
}
