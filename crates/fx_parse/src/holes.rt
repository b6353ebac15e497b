//! Texts with holes.

ghost use Rattle.std.specs.Prelude.{◌≡◌, ◌≤◌, length, map, Some, None, IfOk};
ghost use Rattle.fx_parse.specs.Cursor.{Gives};
ghost use Rattle.fx_parse.specs.Nests.{Nests, tree_in};
ghost use Rattle.fx_parse.specs.ReadExprs.{read_expr};
ghost use Rattle.fx_parse.specs.Closing.{read_hole, read_piece};
ghost use Rattle.fx_parse.specs.ReadPrimary.{read_holes, read_text};
ghost use Rattle.fx_parse.specs.Readings.{mapped};
ghost use Rattle.fx_parse.specs.Views.{a_hole, parts};
ghost use Rattle.fx_ast.specs.Lists.{parts_before};

use crate::cursor::Cursor;
use crate::grammar::Grammar;
use crate::lists::PartList;
use crate::measured::Measured;
use crate::parts::Hole;
use crate::phrase::Phrase;
use crate::stop::Stop;
use crate::{nodes, saying};
use fx_base::Text;
use std::alloc::Global;

impl<F: Fn(Global, &mut Cursor<'_>, u8, Phrase) -> Result<Measured, Stop>> Grammar<F> {
    /// The piece after a hole, and whether the text ends with it.
    #[tactic(auto, unfolding(crate::specs::Closing::read_piece))]
    fn piece(&self, cursor: &mut Cursor<'_>) -> Result<(Text, bool), Stop>
        ensures { Gives (λ p. p) (read_piece cursor.old) result cursor.new }
    {
        if cursor.sees_mid() {
            let item = cursor.mid()?;
            return Ok((saying::label(self.alloc, item)?, false));
        }
        let item = cursor.tail()?;
        Ok((saying::label(self.alloc, item)?, true))
    }

    /// A hole and the piece after it.
    #[tactic(auto, unfolding(crate::specs::Closing::read_hole))]
    fn hole(&self, cursor: &mut Cursor<'_>, levels: u8) -> Result<Hole, Stop>
        requires nests { Nests self.now.depth (F.pre self.now.read) (F.post self.now.read) }
        requires within { levels ≤ self.now.depth }
        ensures { Gives a_hole (read_hole (read_expr levels) cursor.old) result cursor.new }
    {
        let inner = self.inner(cursor, levels)?;
        let (piece, last) = self.piece(cursor)?;
        Ok(Hole { inner, piece, last })
    }

    /// Holes after the pieces that were found, up to the end of the text.
    fn holes(
        &self,
        cursor: &mut Cursor<'_>,
        levels: u8,
        mut found: PartList,
    ) -> Result<PartList, Stop>
        requires nests { Nests self.now.depth (F.pre self.now.read) (F.post self.now.read) }
        requires within { levels ≤ self.now.depth }
        ensures { Gives parts (mapped (parts_before found.items) (read_holes (read_expr levels) (length cursor.old) cursor.old)) result cursor.new }
    {
        for _turn in 0..cursor.count() {
            let next = self.hole(cursor, levels)?;
            found.push_hole(next.inner)?;
            found.push_piece(next.piece)?;
            if next.last {
                return Ok(found);
            }
        }
        Err(Stop::Refused { deep: false })
    }

    /// A text with holes.
    #[tactic(auto, using(crate::proofs::turns::TextLaws::holed_text), unfolding(crate::specs::ReadPrimary::read_text))]
    pub(crate) fn text(&self, cursor: &mut Cursor<'_>, levels: u8) -> Result<Measured, Stop>
        requires nests { Nests self.now.depth (F.pre self.now.read) (F.post self.now.read) }
        requires within { levels ≤ self.now.depth }
        ensures { Gives tree_in (read_text levels (read_expr levels) cursor.old) result cursor.new }
    {
        if levels == 0 {
            return Err(Stop::Refused { deep: true });
        }
        let head = cursor.head()?;
        let mut found = PartList::empty(self.alloc);
        let first = saying::label(self.alloc, head)?;
        found.push_piece(first)?;
        let parts = self.holes(cursor, levels, found)?;
        Ok(nodes::text(self.alloc, head.place, parts, None)?)
    }
}
