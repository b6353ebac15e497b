//! Which texts are names.
ghost use Rattle.std.specs.List.{list_all};
ghost use Rattle.std.specs.Prelude.{◌≡◌, ◌↔◌, IsTrue};
ghost use Rattle.fx_scan.specs.declared.token.TokenKind.TheVariants as kind;
ghost use Rattle.fx_scan.specs.Forms as form;

use crate::bytes::{is_name_byte, is_name_start};
use crate::words::reserved;

/// Whether the text is a name: an ASCII letter or `_`, then ASCII letters, digits and `_`, and no
/// reserved word.
pub fn is_name(text: &[u8]) -> bool
    ensures { IsTrue result ↔ form.Form kind.Name text.now }
{
    has_name_bytes(text) && reserved(text).is_none()
}

/// Whether the text has the bytes of a name. A reserved word has them too.
fn has_name_bytes(text: &[u8]) -> bool
    ensures { result ≡ form.is_name text.now }
{
    match text {
        [b, rest @ ..] => is_name_start(*b) && are_name_bytes(rest),
        [] => false,
    }
}

fn are_name_bytes(bytes: &[u8]) -> bool
    ensures { result ≡ list_all form.is_name_byte bytes.now }
{
    bytes.iter().all(|b| is_name_byte(*b))
}
