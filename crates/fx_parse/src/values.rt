//! Arguments of calls and properties of records.

ghost use Rattle.std.specs.Prelude.{◌≡◌, ◌≤◌, length, map, Some, None, IfOk};
ghost use Rattle.fx_parse.specs.Cursor.{Gives};
ghost use Rattle.fx_parse.specs.Nests.{Nests, tree_in};
ghost use Rattle.fx_parse.specs.ReadExprs.{read_expr};
ghost use Rattle.fx_ast.specs.Shape.{tree_of};
ghost use Rattle.fx_parse.specs.Closing.{read_prop};
ghost use Rattle.fx_parse.specs.Readings.{mapped};
ghost use Rattle.fx_parse.specs.ReadProps.{read_props, read_some_props, read_value};
ghost use Rattle.fx_parse.specs.Grammar.{properties};
ghost use Rattle.fx_parse.specs.Views.{a_prop, group, props};
ghost use Rattle.fx_ast.specs.Lists.{props_before};

use crate::cursor::Cursor;
use crate::grammar::Grammar;
use crate::group::Group;
use crate::item::Item;
use crate::lists::PropList;
use crate::measured::Measured;
use crate::parts::Labelled;
use crate::phrase::Phrase;
use crate::stop::Stop;
use crate::{nodes, predicates, saying};
use fx_scan::Symbol;
use std::alloc::Global;

impl<F: Fn(Global, &mut Cursor<'_>, u8, Phrase) -> Result<Measured, Stop>> Grammar<F> {
    /// What stands after a label; a name by itself is its own value.
    #[tactic(auto, unfolding(crate::specs::ReadProps::read_value))]
    fn value(&self, cursor: &mut Cursor<'_>, levels: u8, label: &Item) -> Result<Measured, Stop>
        requires nests { Nests self.now.depth (F.pre self.now.read) (F.post self.now.read) }
        requires within { levels ≤ self.now.depth }
        ensures { Gives tree_in (read_value (read_expr levels) label.now cursor.old) result cursor.new }
    {
        if cursor.sees_symbol(Symbol::Colon) {
            cursor.symbol(Symbol::Colon)?;
            return self.inner(cursor, levels);
        }
        if !predicates::is_name(label) {
            return Err(Stop::Refused { deep: false });
        }
        let name = saying::label(self.alloc, label)?;
        Ok(nodes::name(self.alloc, label.place, name)?)
    }

    /// A label and its value, and what closes the list or a comma.
    #[tactic(auto, unfolding(crate::specs::Closing::read_prop))]
    pub(crate) fn labelled(
        &self,
        cursor: &mut Cursor<'_>,
        levels: u8,
        kind: Group,
    ) -> Result<Labelled, Stop>
        requires nests { Nests self.now.depth (F.pre self.now.read) (F.post self.now.read) }
        requires within { levels ≤ self.now.depth }
        ensures { Gives a_prop (read_prop (group kind) levels (read_expr levels) cursor.old) result cursor.new }
    {
        if levels == 0 {
            let deep = kind.sees_label(cursor);
            return Err(Stop::Refused { deep });
        }
        let item = kind.label(cursor)?;
        let value = self.value(cursor, levels, item)?;
        let last = cursor.closes(kind.close())?;
        let label = saying::label(self.alloc, item)?;
        Ok(Labelled { label, value, last })
    }

    /// Labels and values after those that were found, at most so many, up to the end of the list.
    pub(crate) fn others(
        &self,
        cursor: &mut Cursor<'_>,
        levels: u8,
        kind: Group,
        mut found: PropList,
        turns: usize,
    ) -> Result<PropList, Stop>
        requires nests { Nests self.now.depth (F.pre self.now.read) (F.post self.now.read) }
        requires within { levels ≤ self.now.depth }
        ensures { Gives props (mapped (props_before found.items) (read_props (group kind) levels (read_expr levels) turns cursor.old)) result cursor.new }
    {
        for _turn in 0..turns {
            if cursor.sees_symbol(kind.close()) {
                cursor.symbol(kind.close())?;
                return Ok(found);
            }
            let next = self.labelled(cursor, levels, kind)?;
            found.push(next.label, next.value)?;
            if next.last {
                return Ok(found);
            }
        }
        Err(Stop::Refused { deep: false })
    }

    /// Labels and values, up to the end of the list.
    #[tactic(auto, using(crate::proofs::turns::ListTurns::mapped_same))]
    pub(crate) fn props(
        &self,
        cursor: &mut Cursor<'_>,
        levels: u8,
        kind: Group,
    ) -> Result<PropList, Stop>
        requires nests { Nests self.now.depth (F.pre self.now.read) (F.post self.now.read) }
        requires within { levels ≤ self.now.depth }
        ensures { Gives props (read_props (group kind) levels (read_expr levels) (length cursor.old) cursor.old) result cursor.new }
    {
        let turns = cursor.count();
        self.others(cursor, levels, kind, PropList::empty(self.alloc), turns)
    }

    /// At least one label and its value, up to the end of the list.
    #[tactic(auto, using(crate::proofs::turns::SomeProps::some))]
    pub(crate) fn some_props(&self, cursor: &mut Cursor<'_>, levels: u8) -> Result<PropList, Stop>
        requires nests { Nests self.now.depth (F.pre self.now.read) (F.post self.now.read) }
        requires within { levels ≤ self.now.depth }
        ensures { Gives props (read_some_props properties levels (read_expr levels) (read_props properties levels (read_expr levels) (length cursor.old)) cursor.old) result cursor.new }
    {
        let turns = cursor.count();
        let first = self.labelled(cursor, levels, Group::Properties)?;
        let mut found = PropList::empty(self.alloc);
        found.push(first.label, first.value)?;
        if first.last {
            return Ok(found);
        }
        self.others(cursor, levels, Group::Properties, found, turns)
    }
}
