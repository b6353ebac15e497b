ghost use Rattle.std.specs.Prelude.{◌≡◌, ℕ, List, [], ◌∷◌, ◌++◌, IfSome, IfNone};
ghost use Rattle.fx_line.specs.Line.{without_spaces, without_last_spaces, trimmed, is_blank};

/// The bytes without the spaces that they begin with.
pub fn without_spaces(bytes: &[u8]) -> &[u8]
    ensures { result.now ≡ without_spaces bytes.now }
{
    let mut rest = bytes;
    while let [b' ', after @ ..] = rest {
        rest = after;
    }
    rest
}

/// What stands before a space that the bytes end with.
fn before_space(bytes: &[u8]) -> Option<&[u8]>
    ensures found { IfSome result (λ r. bytes.now ≡ r.now ++ 32 ∷ []) }
    ensures none { IfNone result ((r : List ℕ) → bytes.now ≡ r ++ 32 ∷ [] → ⊥) }
{
    match bytes {
        [rest @ .., b' '] => Some(rest),
        _ => None,
    }
}

fn without_last_spaces(bytes: &[u8]) -> &[u8]
    ensures { result.now ≡ without_last_spaces bytes.now }
{
    let mut rest = bytes;
    while let Some(before) = before_space(rest) {
        rest = before;
    }
    rest
}

/// A line without the spaces around it.
pub fn trimmed(line: &[u8]) -> &[u8]
    ensures { result.now ≡ trimmed line.now }
{
    without_last_spaces(without_spaces(line))
}

/// Whether a line gives no point, its spaces taken off.
pub fn is_blank(body: &[u8]) -> bool
    ensures { result ≡ is_blank body.now }
{
    matches!(body, [] | [b'#', ..])
}
