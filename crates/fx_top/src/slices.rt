//! Slices of a known length.
ghost use Rattle.std.specs.Prelude.{◌≡◌, [], ◌∷◌, length, IfNone, IfSome};

/// The item of a slice that has no other.
pub fn only<T>(items: &[T]) -> Option<&T>
    ensures some { IfSome result (λ x. items.now ≡ x.now ∷ []) }
    ensures none { IfNone result (length items.now ≡ 1 → ⊥) }
{
    let [item] = items else {
        return None;
    };
    Some(item)
}

/// The items of a slice that has two.
pub fn two<T>(items: &[T]) -> Option<(&T, &T)>
    ensures some { IfSome result (λ p. items.now ≡ p.0.now ∷ p.1.now ∷ []) }
    ensures none { IfNone result (length items.now ≡ 2 → ⊥) }
{
    let [first, second] = items else {
        return None;
    };
    Some((first, second))
}
