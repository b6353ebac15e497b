ghost use Rattle.std.specs.Prelude.{◌≡◌, map, IfOk, IfSome, IfNone, OnOk};
ghost use Rattle.std.specs.List.{IsDistinct};
ghost use Rattle.std.specs.List.Sorted.{IsSortedByKey, IsStableByKey};
ghost use Rattle.fx_base.specs.Text.{text_cmp, same_text};
ghost use Rattle.fx_line.specs.Line.{sort_tags};
ghost use Rattle.fx_line.specs.Order.{key_of, comes_before, rises};

use crate::point::Tag;
use fx_base::Memory;
use std::cmp::Ordering;

fn key_order(a: &Tag, b: &Tag) -> Ordering
    ensures { result ≡ text_cmp a.now.key b.now.key }
{
    a.key.cmp(&b.key)
}

/// Whether the tag's key is below that of the first of the others.
fn comes_before(tag: &Tag, others: &[Tag]) -> bool
    ensures { result ≡ comes_before tag.now others.now }
{
    match others {
        [next, ..] => key_order(tag, next).is_lt(),
        [] => true,
    }
}

/// Whether each key is below the next.
fn rises(tags: &[Tag]) -> bool
    ensures { result ≡ rises tags.now }
{
    let mut rest = tags;
    while let [tag, after @ ..] = rest {
        if !comes_before(tag, after) {
            return false;
        }
        rest = after;
    }
    true
}

fn sort_by_key(tags: &mut Vec<Tag>) -> Result<(), Memory>
    ensures sorted { OnOk result (IsSortedByKey key_of text_cmp tags.new.items) }
    ensures stable { IsStableByKey key_of text_cmp tags.old.items tags.new.items }
{
    tags.sort_by(|a, b| key_order(a, b))?;
    Ok(())
}

/// The tags by rising key, or None where a key is repeated.
pub fn sorted_tags(mut tags: Vec<Tag>) -> Result<Option<Vec<Tag>>, Memory>
    ensures found { IfOk result (λ o. IfSome o (λ v. IsDistinct same_text (map key_of tags.items) × (v.items ≡ sort_tags tags.items))) }
    ensures none { IfOk result (λ o. IfNone o (IsDistinct same_text (map key_of tags.items) → ⊥)) }
{
    sort_by_key(&mut tags)?;
    if rises(tags.as_slice()) {
        Ok(Some(tags))
    } else {
        Ok(None)
    }
}
