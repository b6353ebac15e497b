ghost use Rattle.std.specs.Prelude.{◌≡◌};
ghost use Rattle.fx_scan.specs.Readers as spec;

use crate::bytes::{is_digit, is_name_start};
use crate::mode::Mode;

/// What tokens the first byte leaves.
#[derive(Clone, Copy)]
pub(crate) enum Group {
    /// Names and reserved words.
    Names,
    /// Integers, spans and times.
    Numbers,
    /// Texts, and the pieces of texts.
    Texts,
    Patterns,
    Symbols,
    /// No token.
    Nothing,
}

/// The group of the tokens that begin with this byte.
#[tactic(auto, unfolding(crate::specs::Forms::is_slash, crate::specs::Tokens::is_brace, crate::specs::Readers::group_by))]
pub(crate) fn group_by(mode: Mode, b: u8) -> Group
    ensures { result ≡ spec.group_by mode b }
{
    if is_name_start(b) {
        Group::Names
    } else if is_digit(b) {
        Group::Numbers
    } else if b == b'"' || (b == b'}' && mode.in_hole) {
        Group::Texts
    } else if b == b'/' && !mode.divides {
        Group::Patterns
    } else if b == b'{' && mode.in_hole {
        Group::Nothing
    } else {
        Group::Symbols
    }
}
