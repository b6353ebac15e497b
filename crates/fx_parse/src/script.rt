//! Imports, statements and the whole script.

ghost use Rattle.std.specs.Prelude.{◌≡◌, ◌≤◌, false, length};
ghost use Rattle.fx_ast.specs.Shape.{script_tree};
ghost use Rattle.fx_parse.specs.Cursor.{Gives};
ghost use Rattle.fx_parse.specs.Nests.{Nests};
ghost use Rattle.fx_parse.specs.Opening.{imports_after, is_end, statement_trees, statements_after};
ghost use Rattle.fx_parse.specs.ReadExprs.{read_expr};
ghost use Rattle.fx_parse.specs.ReadScripts.{read_imports, read_script};

use crate::cursor::Cursor;
use crate::grammar::Grammar;
use crate::measured::Measured;
use crate::phrase::Phrase;
use crate::saying;
use crate::stop::Stop;
use fx_ast::{Script, Statement};
use fx_base::List;
use fx_scan::Word;
use std::alloc::Global;

fn ends(cursor: &Cursor<'_>) -> bool
    ensures { result ≡ is_end cursor.now }
{
    cursor.peek().is_none()
}

impl<F: Fn(Global, &mut Cursor<'_>, u8, Phrase) -> Result<Measured, Stop>> Grammar<F> {
    /// Statements after those that were found, up to the end.
    fn statements(
        &self,
        cursor: &mut Cursor<'_>,
        levels: u8,
        before: List<Statement>,
    ) -> Result<List<Statement>, Stop>
        requires nests { Nests self.now.depth (F.pre self.now.read) (F.post self.now.read) }
        requires within { levels ≤ self.now.depth }
        ensures { Gives statement_trees (statements_after (read_expr levels) (length cursor.old) false before cursor.old) result cursor.new }
    {
        let mut found = before;
        let mut follows = false;
        for _turn in 0..cursor.count() {
            if ends(cursor) {
                return Ok(found);
            }
            let next = self.following(cursor, levels, follows)?;
            found.push(next)?;
            follows = true;
        }
        if ends(cursor) {
            return Ok(found);
        }
        Err(Stop::Refused { deep: false })
    }

    /// Imports after those that were found, and then statements up to the end.
    fn imports(
        &self,
        cursor: &mut Cursor<'_>,
        levels: u8,
        before: List<Statement>,
    ) -> Result<List<Statement>, Stop>
        requires nests { Nests self.now.depth (F.pre self.now.read) (F.post self.now.read) }
        requires within { levels ≤ self.now.depth }
        ensures { Gives statement_trees (imports_after (read_expr levels) (length cursor.old) before cursor.old) result cursor.new }
    {
        let mut found = before;
        for _turn in 0..cursor.count() {
            if !cursor.sees_word(Word::Import) {
                return self.statements(cursor, levels, found);
            }
            let next = self.import(cursor)?;
            found.push(next)?;
        }
        self.statements(cursor, levels, found)
    }

    /// Imports, and then statements up to the end.
    #[tactic(auto, using(crate::proofs::turns::StatementLaws::nothing_found))]
    fn lines(&self, cursor: &mut Cursor<'_>, levels: u8) -> Result<List<Statement>, Stop>
        requires nests { Nests self.now.depth (F.pre self.now.read) (F.post self.now.read) }
        requires within { levels ≤ self.now.depth }
        ensures { Gives statement_trees (read_imports (read_expr levels) (length cursor.old) cursor.old) result cursor.new }
    {
        self.imports(cursor, levels, List::empty(self.alloc))
    }

    #[tactic(auto, unfolding(crate::specs::ReadScripts::read_script))]
    pub(crate) fn script(&self, cursor: &mut Cursor<'_>, levels: u8) -> Result<Script, Stop>
        requires nests { Nests self.now.depth (F.pre self.now.read) (F.post self.now.read) }
        requires within { levels ≤ self.now.depth }
        ensures { Gives script_tree (read_script (read_expr levels) cursor.old) result cursor.new }
    {
        if !cursor.sees_word(Word::Package) {
            let statements = self.lines(cursor, levels)?;
            return Ok(Script {
                package: None,
                statements,
            });
        }
        cursor.word(Word::Package)?;
        let name = cursor.name()?;
        let statements = self.lines(cursor, levels)?;
        Ok(Script {
            package: Some(saying::label(self.alloc, name)?),
            statements,
        })
    }
}
