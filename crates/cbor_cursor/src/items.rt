//! The item at an offset.

ghost use Rattle.std.specs.Prelude.{◌≡◌, ◌++◌, ℕ, List, drop, IfSome, MatchOption};
ghost use Rattle.cbor_head.specs.Value.{Value};
ghost use Rattle.cbor_head.specs.declared.order.KeyOrder.{KeyOrder};
ghost use Rattle.cbor_cursor.specs.Items.{BeginsWith};
ghost use Rattle.cbor_cursor.specs.Offsets.{IsItemAt, IsWithin};
ghost use Rattle.cbor_cursor.specs.WellFormed.{BeginsWithHead, BeginsWithItem, HasNoItem};

use crate::heads::definite_head;
use crate::skip::end_after;

/// An item by its offsets: its major type (0 to 7), its argument, and the offsets of its first byte,
/// of its content (after the head), and of the byte after the item.
///
/// The argument is the number of an integer, tag or simple value, or how many bytes, members or
/// pairs the item has. An item of kind 1 is the integer -1 minus the argument.
#[derive(Clone, Copy, Debug, PartialEq, Eq)]
pub struct ItemAt {
    pub kind: u8,
    pub argument: u64,
    pub offset: usize,
    pub content: usize,
    pub end: usize,
}

/// The item at an offset of any bytes; `None` exactly if no well-formed item of definite lengths
/// begins there and ends within the bytes. It reads the item once, without recursion.
///
/// If an item begins there in its canonical bytes, it is that item.
pub fn item_at(bytes: &[u8], offset: usize) -> Option<ItemAt>
    ensures item { (o : KeyOrder) (v : Value) (rest : List ℕ) → BeginsWith o (drop offset bytes.now) v rest
        → MatchOption result ⊥ (λ i. IsItemAt o bytes.now v rest i) }
    ensures well_formed { MatchOption result (HasNoItem (drop offset bytes.now))
        (λ i. BeginsWithHead (drop offset bytes.now) i.kind i.argument (drop i.content bytes.now)
        × BeginsWithItem (drop offset bytes.now) (drop i.end bytes.now)) }
    ensures offset { IfSome result (λ i. i.offset ≡ offset) }
    ensures within { IfSome result (λ i. IsWithin bytes.now i) }
{
    let head = definite_head(bytes, offset)?;
    let end = end_after(bytes, head)?;
    Some(ItemAt {
        kind: head.kind,
        argument: head.argument,
        offset,
        content: head.content,
        end,
    })
}
