//! The members of an array, given the bytes of the array or of what is left of it.

ghost use Rattle.std.specs.Prelude.{◌≡◌, ◌<◌, Some, None, IfSome, MatchOption};
ghost use Rattle.cbor_head.specs.declared.order.KeyOrder.{KeyOrder};
ghost use Rattle.cbor_cursor.specs.Decoded.{decoded, encoded};
ghost use Rattle.cbor_cursor.specs.inner.Canonical.{IsCanonical, encoded_items};
ghost use Rattle.theory_values.specs.Lookup.{member_of};
ghost use Rattle.cbor_cursor.specs.inner.Canonical.{AreCanonical};
ghost use Rattle.cbor_cursor.specs.inner.Firsts.{IsFirstMember};

use crate::contents::{ARRAY, content_in};
use crate::skip::{end_of, items_end};

// The first of `count` items, and what follows it.
pub(crate) fn first_member(bytes: &[u8], count: u64) -> Option<(&[u8], &[u8])>
    ensures member { (o : KeyOrder) → AreCanonical (encoded_items o bytes.now count)
        → MatchOption result (count ≡ 0) (λ r. IsFirstMember o bytes.now count r.0.now r.1.now) }
    ensures some { IfSome result (λ r. 0 < count) }
{
    if count == 0 {
        return None;
    }
    let end = end_of(bytes, 0)?;
    Some((&bytes[..end], &bytes[end..]))
}

// The member of an array at an index.
pub(crate) fn member_at(bytes: &[u8], index: u64) -> Option<&[u8]>
    ensures { (o : KeyOrder) → IsCanonical (encoded o bytes.now) → MatchOption result
        (member_of (decoded bytes.now) index ≡ None)
        (λ item. IsCanonical (encoded o item.now) × (member_of (decoded bytes.now) index ≡ Some (decoded item.now))) }
{
    let (content, count) = content_in(bytes, ARRAY)?;
    if index >= count {
        return None;
    }
    let start = items_end(content, 0, index as usize)?;
    let end = end_of(content, start)?;
    Some(&content[start..end])
}
