//! Functions: parameters, defaults, blocks and bodies.

ghost use Rattle.std.specs.Prelude.{◌≡◌, ◌≤◌, [], length, map, IfOk};
ghost use Rattle.fx_ast.specs.Shape.{default_of, param, params_of, prop, props_of, tree_of};
ghost use Rattle.fx_ast.specs.Tree.{by_pipe, by_value, fun, required, tree};
ghost use Rattle.fx_parse.specs.Cursor.{Gives};
ghost use Rattle.fx_parse.specs.Gathering.{binding_view, block_from, contents_view, param_view, params_from, read_binding, read_param, read_return};
ghost use Rattle.fx_parse.specs.Nests.{Nests, tree_in};
ghost use Rattle.fx_parse.specs.ReadExprs.{read_expr};
ghost use Rattle.fx_parse.specs.ReadFunctions.{read_block, read_body, read_default, read_function, read_params};

use crate::cursor::Cursor;
use crate::grammar::Grammar;
use crate::lists::{Default, ParamList, PropList};
use crate::measured::{Measured, usual};
use crate::phrase::Phrase;
use crate::saying;
use crate::stop::Stop;
use fx_ast::{Body, Node, ParamKind};
use fx_base::{Memory, Place, Text};
use fx_scan::{Symbol, Word};
use std::alloc::Global;

/// A parameter, and whether its list ends with it.
#[derive(Drop)]
struct OneParam {
    label: Text,
    default: Default,
    last: bool,
}

/// An assignment in a block.
#[derive(Drop)]
struct Binding {
    label: Text,
    value: Measured,
}

/// A body: assignments, and the expression after them.
#[derive(Drop)]
struct Contents {
    lets: PropList,
    result: Measured,
}

#[tactic(auto, using(fx_ast::proofs::ShapeLaws::default_laws), unfolding(fx_ast::specs::Levels::height))]
fn required() -> Default
    ensures { default_of result.how ≡ required }
{
    Default {
        how: ParamKind::Required,
        levels: 0,
    }
}

#[tactic(auto, using(fx_ast::proofs::ShapeLaws::default_laws), unfolding(fx_ast::specs::Levels::height))]
fn by_pipe() -> Default
    ensures { default_of result.how ≡ by_pipe }
{
    Default {
        how: ParamKind::Pipe,
        levels: 0,
    }
}

#[tactic(auto, using(fx_ast::proofs::ShapeLaws::default_laws), unfolding(fx_ast::specs::Levels::height))]
fn by_value(value: Measured) -> Default
    ensures { default_of result.how ≡ by_value (tree_of value.tree) }
{
    Default {
        how: ParamKind::Value(value.tree),
        levels: value.levels,
    }
}

/// The node of a function.
#[tactic(auto, using(crate::proofs::turns::NodeLaws::fun_node, fx_ast::proofs::ShapeLaws::body_made))]
fn function(
    alloc: Global,
    place: Place,
    params: ParamList,
    contents: Contents,
) -> Result<Measured, Memory>
    ensures { IfOk result (λ m. tree_of m.tree ≡ tree place (fun (params_of (map param params.items)) (contents_view contents).0 (contents_view contents).1)) }
{
    let Contents { lets, result } = contents;
    let below = params.levels.max(lets.levels.max(result.levels));
    let body = Body {
        lets: lets.items,
        result: result.tree,
    };
    let node = Node::Fun {
        params: params.items,
        body,
    };
    usual(alloc, place, node, below)
}

impl<F: Fn(Global, &mut Cursor<'_>, u8, Phrase) -> Result<Measured, Stop>> Grammar<F> {
    /// What stands after a parameter's name.
    #[tactic(auto, unfolding(crate::specs::ReadFunctions::read_default))]
    fn default(&self, cursor: &mut Cursor<'_>, levels: u8) -> Result<Default, Stop>
        requires nests { Nests self.now.depth (F.pre self.now.read) (F.post self.now.read) }
        requires within { levels ≤ self.now.depth }
        ensures { Gives (λ d. default_of d.how) (read_default (read_expr levels) cursor.old) result cursor.new }
    {
        if !cursor.sees_symbol(Symbol::Assign) {
            return Ok(required());
        }
        cursor.symbol(Symbol::Assign)?;
        if cursor.sees_symbol(Symbol::PipeParameter) {
            cursor.symbol(Symbol::PipeParameter)?;
            return Ok(by_pipe());
        }
        Ok(by_value(self.inner(cursor, levels)?))
    }

    /// A parameter, and what stands after it: a comma, or what closes the list.
    #[tactic(auto, unfolding(crate::specs::Gathering::read_param))]
    fn param(&self, cursor: &mut Cursor<'_>, levels: u8) -> Result<OneParam, Stop>
        requires nests { Nests self.now.depth (F.pre self.now.read) (F.post self.now.read) }
        requires within { levels ≤ self.now.depth }
        ensures { Gives param_view (read_param (read_expr levels) cursor.old) result cursor.new }
    {
        let name = cursor.name()?;
        let default = self.default(cursor, levels)?;
        let last = cursor.closes(Symbol::CloseParen)?;
        Ok(OneParam {
            label: saying::label(self.alloc, name)?,
            default,
            last,
        })
    }

    /// An assignment in a block.
    #[tactic(auto, unfolding(crate::specs::Gathering::read_binding))]
    fn binding(&self, cursor: &mut Cursor<'_>, levels: u8) -> Result<Binding, Stop>
        requires nests { Nests self.now.depth (F.pre self.now.read) (F.post self.now.read) }
        requires within { levels ≤ self.now.depth }
        ensures { Gives binding_view (read_binding (read_expr levels) cursor.old) result cursor.new }
    {
        let name = cursor.name()?;
        cursor.symbol(Symbol::Assign)?;
        let value = self.inner(cursor, levels)?;
        Ok(Binding {
            label: saying::label(self.alloc, name)?,
            value,
        })
    }

    /// What a block returns, with what closes the block.
    #[tactic(auto, unfolding(crate::specs::Gathering::read_return))]
    fn returned(&self, cursor: &mut Cursor<'_>, levels: u8) -> Result<Measured, Stop>
        requires nests { Nests self.now.depth (F.pre self.now.read) (F.post self.now.read) }
        requires within { levels ≤ self.now.depth }
        ensures { Gives tree_in (read_return (read_expr levels) cursor.old) result cursor.new }
    {
        cursor.word(Word::Return)?;
        let result = self.inner(cursor, levels)?;
        cursor.symbol(Symbol::CloseBrace)?;
        Ok(result)
    }

    /// The parameters, with what closes them.
    fn params_found(&self, cursor: &mut Cursor<'_>, levels: u8) -> Result<ParamList, Stop>
        requires nests { Nests self.now.depth (F.pre self.now.read) (F.post self.now.read) }
        requires within { levels ≤ self.now.depth }
        ensures { Gives (λ ps. map param ps.items) (params_from (read_expr levels) (length cursor.old) [] cursor.old) result cursor.new }
    {
        let mut params = ParamList::empty(self.alloc);
        for _turn in 0..cursor.count() {
            if cursor.sees_symbol(Symbol::CloseParen) {
                cursor.symbol(Symbol::CloseParen)?;
                return Ok(params);
            }
            let OneParam {
                label,
                default,
                last,
            } = self.param(cursor, levels)?;
            params.push(label, default)?;
            if last {
                return Ok(params);
            }
        }
        Err(Stop::Refused { deep: false })
    }

    /// What stands in a block, with what closes it.
    fn block_found(&self, cursor: &mut Cursor<'_>, levels: u8) -> Result<Contents, Stop>
        requires nests { Nests self.now.depth (F.pre self.now.read) (F.post self.now.read) }
        requires within { levels ≤ self.now.depth }
        ensures { Gives (λ b. (map prop b.lets.items, tree_of b.result.tree)) (block_from (read_expr levels) (length cursor.old) [] cursor.old) result cursor.new }
    {
        let mut lets = PropList::empty(self.alloc);
        for _turn in 0..cursor.count() {
            if cursor.sees_word(Word::Return) {
                let result = self.returned(cursor, levels)?;
                return Ok(Contents { lets, result });
            }
            let Binding { label, value } = self.binding(cursor, levels)?;
            lets.push(label, value)?;
        }
        Err(Stop::Refused { deep: false })
    }

    /// The parameters, as one list.
    fn params(&self, cursor: &mut Cursor<'_>, levels: u8) -> Result<ParamList, Stop>
        requires nests { Nests self.now.depth (F.pre self.now.read) (F.post self.now.read) }
        requires within { levels ≤ self.now.depth }
        ensures { Gives (λ ps. params_of (map param ps.items)) (read_params (read_expr levels) (length cursor.old) cursor.old) result cursor.new }
    {
        self.params_found(cursor, levels)
    }

    /// A block's assignments, as one list, and what it returns.
    fn block(&self, cursor: &mut Cursor<'_>, levels: u8) -> Result<Contents, Stop>
        requires nests { Nests self.now.depth (F.pre self.now.read) (F.post self.now.read) }
        requires within { levels ≤ self.now.depth }
        ensures { Gives contents_view (read_block (read_expr levels) (length cursor.old) cursor.old) result cursor.new }
    {
        self.block_found(cursor, levels)
    }

    /// What stands after the `=>`.
    #[tactic(auto, unfolding(crate::specs::ReadFunctions::read_body))]
    fn body(&self, cursor: &mut Cursor<'_>, levels: u8) -> Result<Contents, Stop>
        requires nests { Nests self.now.depth (F.pre self.now.read) (F.post self.now.read) }
        requires within { levels ≤ self.now.depth }
        ensures { Gives contents_view (read_body (read_expr levels) cursor.old) result cursor.new }
    {
        if cursor.sees_symbol(Symbol::OpenBrace) {
            cursor.symbol(Symbol::OpenBrace)?;
            return self.block(cursor, levels);
        }
        let result = self.inner(cursor, levels)?;
        Ok(Contents {
            lets: PropList::empty(self.alloc),
            result,
        })
    }

    /// A function, where one begins.
    #[tactic(auto, unfolding(crate::specs::ReadFunctions::read_function))]
    pub(crate) fn function(&self, cursor: &mut Cursor<'_>, levels: u8) -> Result<Measured, Stop>
        requires nests { Nests self.now.depth (F.pre self.now.read) (F.post self.now.read) }
        requires within { levels ≤ self.now.depth }
        ensures { Gives tree_in (read_function levels (read_expr levels) cursor.old) result cursor.new }
    {
        if levels == 0 {
            return Err(Stop::Refused { deep: true });
        }
        let open = cursor.symbol(Symbol::OpenParen)?;
        let params = self.params(cursor, levels)?;
        cursor.symbol(Symbol::Arrow)?;
        let contents = self.body(cursor, levels)?;
        Ok(function(self.alloc, open.place, params, contents)?)
    }
}
