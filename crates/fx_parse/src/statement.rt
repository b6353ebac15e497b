//! A statement.

ghost use Rattle.std.specs.Prelude.{◌≡◌, ◌≤◌, drop};
ghost use Rattle.fx_ast.specs.Shape.{statement_tree};
ghost use Rattle.fx_ast.specs.Tree.{import};
ghost use Rattle.fx_scan.specs.declared.symbols.Symbol.TheVariants as symbol;
ghost use Rattle.fx_parse.specs.Cursor.{Gives};
ghost use Rattle.fx_parse.specs.Items.{first, is_symbol, passes};
ghost use Rattle.fx_parse.specs.Nests.{Nests};
ghost use Rattle.fx_parse.specs.Opening.{read_assignment, read_following, read_option, read_shown};
ghost use Rattle.fx_parse.specs.ReadExprs.{read_expr};
ghost use Rattle.fx_parse.specs.ReadScripts.{read_import, read_statement, sees_assignment};

use crate::cursor::Cursor;
use crate::grammar::Grammar;
use crate::measured::Measured;
use crate::phrase::Phrase;
use crate::stop::Stop;
use crate::{predicates, saying};
use fx_ast::{Form, Statement};
use fx_base::{Place, Text};
use fx_scan::{Symbol, Word};
use std::alloc::Global;

fn assigns_after(cursor: &Cursor<'_>) -> bool
    ensures { result ≡ passes (is_symbol symbol.Assign) (first (drop 1 cursor.now)) }
{
    match cursor.peek_after() {
        Some(item) => predicates::is_symbol(item, Symbol::Assign),
        None => false,
    }
}

fn imported(place: Place, alias: Option<Text>, path: Text) -> Statement
    ensures { statement_tree result ≡ record { place = place; form = import alias path } }
{
    Statement {
        place,
        form: Form::Import { alias, path },
    }
}

/// Whether a name and `=` are next.
#[tactic(auto, using(crate::proofs::turns::StatementLaws::assignment_seen))]
fn sees_assignment(cursor: &Cursor<'_>) -> bool
    ensures { result ≡ sees_assignment cursor.now }
{
    cursor.sees_name() && assigns_after(cursor)
}

impl<F: Fn(Global, &mut Cursor<'_>, u8, Phrase) -> Result<Measured, Stop>> Grammar<F> {
    #[tactic(auto, unfolding(crate::specs::Opening::read_assignment))]
    fn assignment(&self, cursor: &mut Cursor<'_>, levels: u8) -> Result<Statement, Stop>
        requires nests { Nests self.now.depth (F.pre self.now.read) (F.post self.now.read) }
        requires within { levels ≤ self.now.depth }
        ensures { Gives statement_tree (read_assignment (read_expr levels) cursor.old) result cursor.new }
    {
        let item = cursor.name()?;
        cursor.symbol(Symbol::Assign)?;
        let value = self.inner(cursor, levels)?;
        let name = saying::label(self.alloc, item)?;
        Ok(Statement {
            place: item.place,
            form: Form::Assign {
                name,
                value: value.tree,
            },
        })
    }

    /// `option task = ..`
    #[tactic(auto, unfolding(crate::specs::Opening::read_option))]
    fn option(&self, cursor: &mut Cursor<'_>, levels: u8) -> Result<Statement, Stop>
        requires nests { Nests self.now.depth (F.pre self.now.read) (F.post self.now.read) }
        requires within { levels ≤ self.now.depth }
        ensures { Gives statement_tree (read_option (read_expr levels) cursor.old) result cursor.new }
    {
        let word = cursor.word(Word::Option)?;
        cursor.task()?;
        cursor.symbol(Symbol::Assign)?;
        let value = self.inner(cursor, levels)?;
        Ok(Statement {
            place: word.place,
            form: Form::Task { value: value.tree },
        })
    }

    /// An expression by itself.
    #[tactic(auto, unfolding(crate::specs::Opening::read_shown))]
    fn shown(&self, cursor: &mut Cursor<'_>, levels: u8) -> Result<Statement, Stop>
        requires nests { Nests self.now.depth (F.pre self.now.read) (F.post self.now.read) }
        requires within { levels ≤ self.now.depth }
        ensures { Gives statement_tree (read_shown (read_expr levels) cursor.old) result cursor.new }
    {
        let place = cursor.place();
        let value = self.inner(cursor, levels)?;
        Ok(Statement {
            place,
            form: Form::Show { value: value.tree },
        })
    }

    #[tactic(auto, using(crate::proofs::turns::StatementLaws::statement_kinds))]
    fn statement(&self, cursor: &mut Cursor<'_>, levels: u8) -> Result<Statement, Stop>
        requires nests { Nests self.now.depth (F.pre self.now.read) (F.post self.now.read) }
        requires within { levels ≤ self.now.depth }
        ensures { Gives statement_tree (read_statement (read_expr levels) cursor.old) result cursor.new }
    {
        if sees_assignment(cursor) {
            self.assignment(cursor, levels)
        } else if cursor.sees_word(Word::Option) {
            self.option(cursor, levels)
        } else {
            self.shown(cursor, levels)
        }
    }

    /// A statement, which may stand after another.
    #[tactic(auto, unfolding(crate::specs::Opening::read_following))]
    pub(crate) fn following(
        &self,
        cursor: &mut Cursor<'_>,
        levels: u8,
        follows: bool,
    ) -> Result<Statement, Stop>
        requires nests { Nests self.now.depth (F.pre self.now.read) (F.post self.now.read) }
        requires within { levels ≤ self.now.depth }
        ensures { Gives statement_tree (read_following (read_expr levels) follows cursor.old) result cursor.new }
    {
        if follows && cursor.sees_joining() {
            return Err(Stop::Refused { deep: false });
        }
        self.statement(cursor, levels)
    }

    #[tactic(auto, unfolding(crate::specs::ReadScripts::read_import))]
    pub(crate) fn import(&self, cursor: &mut Cursor<'_>) -> Result<Statement, Stop>
        ensures { Gives statement_tree (read_import cursor.old) result cursor.new }
    {
        let word = cursor.word(Word::Import)?;
        if cursor.sees_name() {
            let name = cursor.name()?;
            let path = cursor.plain()?;
            let alias = saying::label(self.alloc, name)?;
            let path = saying::label(self.alloc, path)?;
            return Ok(imported(word.place, Some(alias), path));
        }
        let path = cursor.plain()?;
        let path = saying::label(self.alloc, path)?;
        Ok(imported(word.place, None, path))
    }
}
