//! The rules that hold expressions take the parser of those as a parameter, so that each is proved
//! by itself.

ghost use Rattle.std.specs.Prelude.{◌≡◌, ◌≤◌};
ghost use Rattle.fx_parse.specs.Cursor.{Gives};
ghost use Rattle.fx_parse.specs.Nests.{Nests, tree_in};
ghost use Rattle.fx_parse.specs.ReadExprs.{read_expr, read_phrase};

use crate::cursor::Cursor;
use crate::measured::Measured;
use crate::phrase::Phrase;
use crate::stop::Stop;
use std::alloc::Global;

#[derive(Clone, Copy)]
pub(crate) struct Grammar<F> {
    pub(crate) alloc: Global,
    /// How many levels there may be below the one that is read.
    pub(crate) depth: u8,
    pub(crate) read: F,
}

impl<F: Fn(Global, &mut Cursor<'_>, u8, Phrase) -> Result<Measured, Stop>> Grammar<F> {
    /// A phrase with at most so many levels.
    pub(crate) fn phrase(
        &self,
        cursor: &mut Cursor<'_>,
        levels: u8,
        phrase: Phrase,
    ) -> Result<Measured, Stop>
        requires nests { Nests self.now.depth (F.pre self.now.read) (F.post self.now.read) }
        requires within { levels ≤ self.now.depth }
        ensures { Gives tree_in (read_phrase levels phrase cursor.old) result cursor.new }
    {
        (self.read)(self.alloc, cursor, levels, phrase)
    }

    /// An expression with at most so many levels.
    #[tactic(auto, unfolding(crate::specs::ReadExprs::read_phrase))]
    pub(crate) fn inner(&self, cursor: &mut Cursor<'_>, levels: u8) -> Result<Measured, Stop>
        requires nests { Nests self.now.depth (F.pre self.now.read) (F.post self.now.read) }
        requires within { levels ≤ self.now.depth }
        ensures { Gives tree_in (read_expr levels cursor.old) result cursor.new }
    {
        self.phrase(cursor, levels, Phrase::Whole)
    }
}
