//! Primaries: literals, texts with holes, parentheses, arrays and records.

ghost use Rattle.std.specs.Prelude.{◌≡◌, ◌≤◌};
ghost use Rattle.fx_parse.specs.Cursor.{Gives};
ghost use Rattle.fx_parse.specs.Nests.{Nests, tree_in};
ghost use Rattle.fx_parse.specs.ReadExprs.{read_expr};
ghost use Rattle.fx_parse.specs.ReadPrimary.{read_paren, read_primary, read_properties, read_record};
ghost use Rattle.fx_parse.specs.Views.{props};

use crate::cursor::Cursor;
use crate::grammar::Grammar;
use crate::group::Group;
use crate::lists::PropList;
use crate::measured::Measured;
use crate::phrase::Phrase;
use crate::stop::Stop;
use crate::{literals, nodes, saying};
use fx_base::Text;
use fx_scan::Symbol;
use std::alloc::Global;

impl<F: Fn(Global, &mut Cursor<'_>, u8, Phrase) -> Result<Measured, Stop>> Grammar<F> {
    #[tactic(auto, unfolding(crate::specs::ReadPrimary::read_paren))]
    pub(crate) fn paren(&self, cursor: &mut Cursor<'_>, levels: u8) -> Result<Measured, Stop>
        requires nests { Nests self.now.depth (F.pre self.now.read) (F.post self.now.read) }
        requires within { levels ≤ self.now.depth }
        ensures { Gives tree_in (read_paren levels (read_expr levels) cursor.old) result cursor.new }
    {
        if levels == 0 {
            return Err(Stop::Refused { deep: true });
        }
        let open = cursor.symbol(Symbol::OpenParen)?;
        let inner = self.inner(cursor, levels)?;
        cursor.symbol(Symbol::CloseParen)?;
        Ok(nodes::paren(self.alloc, open.place, inner)?)
    }

    /// What stands after the `{` of a record.
    #[tactic(auto, unfolding(crate::specs::ReadPrimary::read_properties))]
    fn properties(
        &self,
        cursor: &mut Cursor<'_>,
        levels: u8,
    ) -> Result<(Option<Text>, PropList), Stop>
        requires nests { Nests self.now.depth (F.pre self.now.read) (F.post self.now.read) }
        requires within { levels ≤ self.now.depth }
        ensures { Gives (λ p. (p.0, props p.1)) (read_properties levels (read_expr levels) cursor.old) result cursor.new }
    {
        if levels == 0 || !cursor.sees_with() {
            let props = self.props(cursor, levels, Group::Properties)?;
            return Ok((None, props));
        }
        let item = cursor.name()?;
        cursor.with()?;
        let base = saying::label(self.alloc, item)?;
        let props = self.some_props(cursor, levels)?;
        Ok((Some(base), props))
    }

    #[tactic(auto, unfolding(crate::specs::ReadPrimary::read_record))]
    fn record(&self, cursor: &mut Cursor<'_>, levels: u8) -> Result<Measured, Stop>
        requires nests { Nests self.now.depth (F.pre self.now.read) (F.post self.now.read) }
        requires within { levels ≤ self.now.depth }
        ensures { Gives tree_in (read_record levels (read_expr levels) cursor.old) result cursor.new }
    {
        let open = cursor.symbol(Symbol::OpenBrace)?;
        let (base, props) = self.properties(cursor, levels)?;
        Ok(nodes::record(self.alloc, open.place, base, props)?)
    }

    #[tactic(auto, unfolding(crate::specs::ReadPrimary::read_primary))]
    pub(crate) fn primary(&self, cursor: &mut Cursor<'_>, levels: u8) -> Result<Measured, Stop>
        requires nests { Nests self.now.depth (F.pre self.now.read) (F.post self.now.read) }
        requires within { levels ≤ self.now.depth }
        ensures { Gives tree_in (read_primary levels (read_expr levels) cursor.old) result cursor.new }
    {
        if cursor.sees_head() {
            return self.text(cursor, levels);
        }
        if cursor.sees_symbol(Symbol::OpenParen) {
            return self.paren(cursor, levels);
        }
        if cursor.sees_symbol(Symbol::OpenBracket) {
            return self.array(cursor, levels);
        }
        if cursor.sees_symbol(Symbol::OpenBrace) {
            return self.record(cursor, levels);
        }
        let item = cursor.literal()?;
        Ok(literals::literal(self.alloc, item)?)
    }
}
