ghost use Rattle.std.specs.Prelude.{◌≡◌, ◌≤◌, false, length};
ghost use Rattle.std.specs.Str.{IsUtf8};
ghost use Rattle.fx_top.specs.Syntax.{ScriptAnswers, TreeAnswers};
ghost use Rattle.fx_top.specs.declared.script.ScriptStop.TheVariants as ScriptStop;

use crate::query::{Query, query_of};
use fx_ast::Script;
use fx_base::{Place, Text, TextFault};
use fx_parse::{ParseFault, parse};
use fx_scan::{ScanFault, scan};
use std::alloc::Global;

/// Why a script doesn't run.
#[derive(Clone, Copy, Debug, PartialEq, Eq)]
pub enum ScriptStop {
    /// It is no text, or has no tokens or no tree, from this place on.
    Syntax { place: Place, deep: bool },
    /// It has another form than the one that runs today.
    NotBuilt,
    Memory,
}

/// Reads a script: its text, its tokens, its tree and its query.
pub fn read_script(alloc: Global, script: &[u8]) -> Result<Query, ScriptStop>
    requires { length script.now ≤ 65536 }
    ensures { ScriptAnswers script.now result }
{
    let text = match Text::read(alloc, script) {
        Ok(text) => text,
        Err(TextFault::NotUtf8 { at }) => return Err(no_text(at)),
        Err(TextFault::Memory) => return Err(ScriptStop::Memory),
    };
    let tree = match read_tree(alloc, &text) {
        Ok(tree) => tree,
        Err(stop) => return Err(stop),
    };
    match query_of(&tree) {
        Ok(Some(query)) => Ok(query),
        Ok(None) => Err(ScriptStop::NotBuilt),
        Err(_) => Err(ScriptStop::Memory),
    }
}

/// The tree of a script's text.
fn read_tree(alloc: Global, text: &Text) -> Result<Script, ScriptStop>
    requires short { length text.now ≤ 65536 }
    requires utf8 { IsUtf8 text.now }
    ensures { TreeAnswers text.now result }
{
    let tokens = match scan(alloc, text) {
        Ok(tokens) => tokens,
        Err(ScanFault::NoToken { place }) => {
            return Err(ScriptStop::Syntax { place, deep: false });
        }
        Err(ScanFault::Memory) => return Err(ScriptStop::Memory),
    };
    match parse(alloc, text, &tokens) {
        Ok(tree) => Ok(tree),
        Err(ParseFault::Refused { place, deep }) => Err(ScriptStop::Syntax { place, deep }),
        Err(ParseFault::Memory) => Err(ScriptStop::Memory),
    }
}

/// Bytes from `at` on are no text.
fn no_text(at: u64) -> ScriptStop
    requires { at ≤ 65536 }
    ensures { result ≡ ScriptStop.Syntax (record { at = at }) false }
{
    ScriptStop::Syntax {
        place: Place { at: at as u32 },
        deep: false,
    }
}
