//! What the next items tell of what begins with them.

ghost use Rattle.std.specs.Prelude.{◌≡◌};
ghost use Rattle.fx_parse.specs.Items.{is_name, is_symbol};
ghost use Rattle.fx_parse.specs.ReadFunctions.{sees, sees_function};
ghost use Rattle.fx_parse.specs.Outset.{sees_parameter};

use crate::cursor::Cursor;
use crate::predicates;
use fx_scan::Symbol;

/// Whether the item so many places ahead is the symbol.
#[tactic(auto, unfolding(crate::specs::ReadFunctions::sees))]
fn sees_symbol(cursor: &Cursor<'_>, places: usize, symbol: Symbol) -> bool
    ensures { result ≡ sees (is_symbol symbol) places cursor.now }
{
    match cursor.ahead(places) {
        Some(item) => predicates::is_symbol(item, symbol),
        None => false,
    }
}

/// Whether the item so many places ahead is a name.
#[tactic(auto, unfolding(crate::specs::ReadFunctions::sees))]
fn sees_name(cursor: &Cursor<'_>, places: usize) -> bool
    ensures { result ≡ sees is_name places cursor.now }
{
    match cursor.ahead(places) {
        Some(item) => predicates::is_name(item),
        None => false,
    }
}

/// Whether a parameter's name is followed by what parentheses around a name are not: `,`, `=`, or
/// `)` and `=>`. The `(` and the name are two items.
fn sees_parameter(cursor: &Cursor<'_>) -> bool
    ensures { result ≡ sees_parameter cursor.now }
{
    if sees_symbol(cursor, 2, Symbol::Comma) || sees_symbol(cursor, 2, Symbol::Assign) {
        return true;
    }
    sees_symbol(cursor, 2, Symbol::CloseParen) && sees_symbol(cursor, 3, Symbol::Arrow)
}

/// Whether a function begins here, where an expression may.
#[tactic(auto, unfolding(crate::specs::ReadFunctions::sees_function))]
pub(crate) fn sees_function(cursor: &Cursor<'_>) -> bool
    ensures { result ≡ sees_function cursor.now }
{
    if !sees_symbol(cursor, 0, Symbol::OpenParen) {
        return false;
    }
    if sees_symbol(cursor, 1, Symbol::CloseParen) {
        return true;
    }
    sees_name(cursor, 1) && sees_parameter(cursor)
}
