ghost use Rattle.std.specs.Prelude.{◌≡◌, ◌∷◌, ◌++◌, IfNone, IfSome};
ghost use Rattle.fx_load.specs.Bytes.{IsFreeOf};

use memchr::memchr;

/// What stands before and behind the first byte `b`.
pub fn cut(text: &[u8], b: u8) -> Option<(&[u8], &[u8])>
    ensures parts { IfSome result (λ p. text.now ≡ p.0.now ++ b ∷ p.1.now) }
    ensures first { IfSome result (λ p. IsFreeOf b p.0.now) }
    ensures none { IfNone result (IsFreeOf b text.now) }
{
    match memchr(b, text) {
        Some(i) => Some((&text[..i], &text[i + 1..])),
        None => None,
    }
}
