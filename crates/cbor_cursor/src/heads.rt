//! The head at an offset.

ghost use Rattle.std.specs.Prelude.{◌≡◌, ◌<◌, ◌≤◌, ◌++◌, ℕ, List, length, drop, IfSome, MatchOption};
ghost use Rattle.cbor_head.specs.Value.{Value};
ghost use Rattle.cbor_head.specs.declared.order.KeyOrder.{KeyOrder};
ghost use Rattle.cbor_cursor.specs.Items.{BeginsWith, IsHeadOf};
ghost use Rattle.cbor_cursor.specs.WellFormed.{BeginsWithHead, HasNoHead};

use cbor_head::{FIRST_SIMPLE_IN_TWO_BYTES, read_argument};

// The first byte of a simple value that has its number in a second byte.
const SIMPLE_IN_TWO_BYTES: u8 = 0xf8;

/// The head of an item: its major type (0 to 7), its argument, and the offset of what follows it.
#[derive(Clone, Copy, Debug, PartialEq, Eq)]
pub struct HeadAt {
    pub kind: u8,
    pub argument: u64,
    pub content: usize,
}

/// The head at an offset of any bytes; `None` exactly if no well-formed head of a definite length
/// begins there (RFC 8949, section 3).
///
/// If an item begins there in its canonical bytes, it is that item's head.
pub fn head_at(bytes: &[u8], offset: usize) -> Option<HeadAt>
    ensures item { (o : KeyOrder) (v : Value) (rest : List ℕ) → BeginsWith o (drop offset bytes.now) v rest
        → MatchOption result ⊥ (λ h. IsHeadOf o bytes.now v rest h.kind h.argument h.content) }
    ensures head { MatchOption result (HasNoHead (drop offset bytes.now))
        (λ h. BeginsWithHead (drop offset bytes.now) h.kind h.argument (drop h.content bytes.now)) }
    ensures within { IfSome result (λ h. (offset < h.content) × (h.content ≤ length bytes.now)) }
{
    definite_head(bytes, offset)
}

#[inline(always)]
pub(crate) fn definite_head(bytes: &[u8], offset: usize) -> Option<HeadAt>
    ensures head { MatchOption result (HasNoHead (drop offset bytes.now))
        (λ h. BeginsWithHead (drop offset bytes.now) h.kind h.argument (drop h.content bytes.now)) }
    ensures within { IfSome result (λ h. (offset < h.content) × (h.content ≤ length bytes.now)) }
{
    if offset >= bytes.len() {
        return None;
    }
    let first = bytes[offset];
    let argument = read_argument(first % 32, &bytes[offset + 1..])?;
    if first == SIMPLE_IN_TWO_BYTES && argument.number < FIRST_SIMPLE_IN_TWO_BYTES {
        return None;
    }
    Some(HeadAt {
        kind: first / 32,
        argument: argument.number,
        content: bytes.len() - argument.rest.len(),
    })
}
