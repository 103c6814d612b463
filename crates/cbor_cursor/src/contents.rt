//! The head and the content of one item, given its bytes.

ghost use Rattle.std.specs.Prelude.{◌≡◌, ◌≤◌, [], length, MatchOption};
ghost use Rattle.cbor_head.specs.Head.{major_number};
ghost use Rattle.cbor_head.specs.declared.order.KeyOrder.{KeyOrder};
ghost use Rattle.cbor_cursor.specs.Items.{IsHeadOf, major_of, argument_of, content_of};
ghost use Rattle.cbor_cursor.specs.Decoded.{decoded, encoded};
ghost use Rattle.cbor_cursor.specs.inner.Canonical.{IsCanonical};

use crate::heads::{HeadAt, definite_head};

// The numbers of the major types that have content.
pub(crate) const BYTES: u8 = 2;

pub(crate) const TEXT: u8 = 3;

pub(crate) const ARRAY: u8 = 4;

pub(crate) const MAP: u8 = 5;

pub(crate) const TAG: u8 = 6;

pub(crate) fn head_in(bytes: &[u8]) -> HeadAt
    ensures head { (o : KeyOrder) → IsCanonical (encoded o bytes.now)
        → IsHeadOf o bytes.now (decoded bytes.now) [] result.kind result.argument result.content }
    ensures within { result.content ≤ length bytes.now }
{
    match definite_head(bytes, 0) {
        Some(head) => head,
        None => HeadAt {
            kind: 0,
            argument: 0,
            content: 0,
        },
    }
}

// The bytes after the head, and the argument, if the item has this major type.
pub(crate) fn content_in(bytes: &[u8], kind: u8) -> Option<(&[u8], u64)>
    ensures { (o : KeyOrder) → IsCanonical (encoded o bytes.now) → MatchOption result
        (major_number (major_of (decoded bytes.now)) ≡ kind → ⊥)
        (λ r. (major_number (major_of (decoded bytes.now)) ≡ kind)
        × (r.0.now ≡ content_of o (decoded bytes.now)) × (r.1 ≡ argument_of (decoded bytes.now))) }
{
    let head = head_in(bytes);
    if head.kind != kind {
        return None;
    }
    Some((&bytes[head.content..], head.argument))
}
