//! Parsing the tokens of a script.

ghost use Rattle.std.specs.Prelude.{◌≡◌, ◌≤◌, Bool, IfOk, IsErrOf, length};
ghost use Rattle.fx_base.specs.declared.place.Place.{Place};
ghost use Rattle.fx_ast.specs.Shape.{script_tree};
ghost use Rattle.fx_ast.specs.Tree.{ScriptTree};
ghost use Rattle.fx_scan.specs.Tokens.{IsTokenList};
ghost use Rattle.fx_parse.specs.declared.fault.ParseFault.TheVariants.{Refused};
ghost use Rattle.fx_parse.specs.Parsed.{IsParsed, IsTreeOf, IsUnparsed, place_left};
ghost use Rattle.fx_parse.specs.ReadExprs.{read_expr};
ghost use Rattle.fx_parse.specs.ReadScripts.{read_script};
ghost use Rattle.fx_parse.specs.Telling.{Told};

use crate::cursor::Cursor;
use crate::expr::read;
use crate::fault::ParseFault;
use crate::grammar::Grammar;
use crate::item::Item;
use crate::items::items_of;
use crate::stop::Stop;
use fx_ast::Script;
use fx_base::{List, Place, Text};
use fx_scan::Token;
use std::alloc::Global;

/// How many levels an expression may have.
const LEVELS: u8 = 64;

/// The place of the next item, or the text's length at the end.
fn place_left(text: &Text, cursor: &Cursor<'_>) -> Place
    requires { length text.now ≤ 65_536 }
    ensures { result.at ≡ place_left text.now cursor.now }
{
    match cursor.peek() {
        Some(item) => item.place,
        None => Place {
            at: text.as_bytes().len() as u32,
        },
    }
}

/// The script of a text's items.
fn script_of(alloc: Global, text: &Text, items: &[Item]) -> Result<Script, ParseFault>
    requires { length text.now ≤ 65_536 }
    ensures { Told text.now (read_script (read_expr 64) items.now) result }
{
    let grammar = Grammar {
        alloc,
        depth: LEVELS,
        read,
    };
    let mut cursor = Cursor::of(items);
    match grammar.script(&mut cursor, LEVELS) {
        Ok(script) => Ok(script),
        Err(Stop::Refused { deep }) => Err(ParseFault::Refused {
            place: place_left(text, &cursor),
            deep,
        }),
        Err(Stop::Memory) => Err(ParseFault::Memory),
    }
}

/// The tree of a script of at most 65,536 bytes, by the grammar. Refused exactly where the tokens
/// have no tree of at most 64 levels: the place is that of the first token with which the tokens
/// before it begin no such tree, or the text's length where it ends too early.
pub fn parse(alloc: Global, text: &Text, tokens: &List<Token>) -> Result<Script, ParseFault>
    requires short { length text.now ≤ 65_536 }
    requires scanned { IsTokenList text.now tokens.now }
    ensures ok { IfOk result (λ s. IsParsed text.now tokens.now (script_tree s)) }
    ensures only { IfOk result (λ s. (t : ScriptTree) → IsTreeOf text.now tokens.now t → t ≡ script_tree s) }
    ensures refused { (place : Place) (deep : Bool) → IsErrOf result (Refused place deep) → IsUnparsed text.now tokens.now place.at deep }
    ensures none { (place : Place) (deep : Bool) → IsErrOf result (Refused place deep) → (t : ScriptTree) → IsParsed text.now tokens.now t → ⊥ }
{
    let items = items_of(alloc, text, tokens)?;
    script_of(alloc, text, items.as_slice())
}
