//! The operators of the lines of the grammar.

ghost use Rattle.std.specs.Prelude.{◌≡◌, ◌<◌, suc};
ghost use Rattle.fx_parse.specs.Cursor.{Gives};
ghost use Rattle.fx_parse.specs.Items.{first, one_of, operators, passes, prefixes};
ghost use Rattle.fx_parse.specs.Readings.{token};

use crate::cursor::Cursor;
use crate::item::Item;
use crate::predicates;
use crate::stop::Stop;

/// Whether an operator before an operand of the line is next.
#[tactic(auto, using(crate::proofs::sorts::Lines::before_item))]
pub(crate) fn sees_prefix(cursor: &Cursor<'_>, line: u8) -> bool
    requires { 0 < line }
    ensures { result ≡ passes (one_of (prefixes line)) (first cursor.now) }
{
    match cursor.peek() {
        Some(item) => predicates::prefix_line(item) == line,
        None => false,
    }
}

/// Whether an operator between operands of the line below is next.
#[tactic(auto, using(crate::proofs::sorts::Lines::operator_item))]
fn sees_operator_below(cursor: &Cursor<'_>, line: u8) -> bool
    requires { 0 < line }
    ensures { result ≡ passes (one_of (operators line)) (first cursor.now) }
{
    match cursor.peek() {
        Some(item) => predicates::operator_line(item) == line,
        None => false,
    }
}

/// Whether an operator between operands of the line is next.
#[tactic(auto, using(crate::proofs::turns::RunTurns::line_above))]
pub(crate) fn sees_operator(cursor: &Cursor<'_>, line: u8) -> bool
    requires { line < 255 }
    ensures { result ≡ passes (one_of (operators (suc line))) (first cursor.now) }
{
    sees_operator_below(cursor, line + 1)
}

/// Takes an operator before an operand of the line.
pub(crate) fn take_prefix<'a>(cursor: &mut Cursor<'a>, line: u8) -> Result<&'a Item, Stop>
    requires { 0 < line }
    ensures { Gives (λ x. x.now) (token (one_of (prefixes line)) cursor.old) result cursor.new }
{
    let seen = sees_prefix(cursor, line);
    cursor.take(seen)
}

/// Takes an operator between operands of the line.
pub(crate) fn take_operator<'a>(cursor: &mut Cursor<'a>, line: u8) -> Result<&'a Item, Stop>
    requires { line < 255 }
    ensures { Gives (λ x. x.now) (token (one_of (operators (suc line))) cursor.old) result cursor.new }
{
    let seen = sees_operator(cursor, line);
    cursor.take(seen)
}
