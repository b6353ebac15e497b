//! Arrays.

ghost use Rattle.std.specs.Prelude.{◌≡◌, ◌≤◌, length, map, Some, None, IfOk};
ghost use Rattle.fx_parse.specs.Cursor.{Gives};
ghost use Rattle.fx_parse.specs.Nests.{Nests, tree_in};
ghost use Rattle.fx_parse.specs.ReadExprs.{read_expr};
ghost use Rattle.fx_parse.specs.Closing.{read_element};
ghost use Rattle.fx_parse.specs.ReadPrimary.{read_array, read_elements};
ghost use Rattle.fx_parse.specs.Views.{an_element, trees};

use crate::cursor::Cursor;
use crate::grammar::Grammar;
use crate::lists::ExprList;
use crate::measured::Measured;
use crate::nodes;
use crate::parts::Element;
use crate::phrase::Phrase;
use crate::stop::Stop;
use fx_scan::Symbol;
use std::alloc::Global;

impl<F: Fn(Global, &mut Cursor<'_>, u8, Phrase) -> Result<Measured, Stop>> Grammar<F> {
    /// An element, and what closes the array or a comma.
    #[tactic(auto, unfolding(crate::specs::Closing::read_element))]
    fn element(&self, cursor: &mut Cursor<'_>, levels: u8) -> Result<Element, Stop>
        requires nests { Nests self.now.depth (F.pre self.now.read) (F.post self.now.read) }
        requires within { levels ≤ self.now.depth }
        ensures { Gives an_element (read_element levels (read_expr levels) cursor.old) result cursor.new }
    {
        if levels == 0 {
            let deep = cursor.sees_beginning();
            return Err(Stop::Refused { deep });
        }
        let value = self.inner(cursor, levels)?;
        let last = cursor.closes(Symbol::CloseBracket)?;
        Ok(Element { value, last })
    }

    /// Elements, up to the end of the array.
    fn elements(&self, cursor: &mut Cursor<'_>, levels: u8) -> Result<ExprList, Stop>
        requires nests { Nests self.now.depth (F.pre self.now.read) (F.post self.now.read) }
        requires within { levels ≤ self.now.depth }
        ensures { Gives trees (read_elements levels (read_expr levels) (length cursor.old) cursor.old) result cursor.new }
    {
        let mut found = ExprList::empty(self.alloc);
        for _turn in 0..cursor.count() {
            if cursor.sees_symbol(Symbol::CloseBracket) {
                cursor.symbol(Symbol::CloseBracket)?;
                return Ok(found);
            }
            let next = self.element(cursor, levels)?;
            found.push(next.value)?;
            if next.last {
                return Ok(found);
            }
        }
        Err(Stop::Refused { deep: false })
    }

    #[tactic(auto, unfolding(crate::specs::ReadPrimary::read_array))]
    pub(crate) fn array(&self, cursor: &mut Cursor<'_>, levels: u8) -> Result<Measured, Stop>
        requires nests { Nests self.now.depth (F.pre self.now.read) (F.post self.now.read) }
        requires within { levels ≤ self.now.depth }
        ensures { Gives tree_in (read_array levels (read_expr levels) cursor.old) result cursor.new }
    {
        let open = cursor.symbol(Symbol::OpenBracket)?;
        let items = self.elements(cursor, levels)?;
        Ok(nodes::array(self.alloc, open.place, items)?)
    }
}
