//! The value at a key of a map, by offsets.

ghost use Rattle.std.specs.Prelude.{◌≡◌, ◌≢◌, ◌+◌, ◌≤◌, ◌++◌, ◌↔◌, ℕ, List, length, drop, IfSome, MatchOption};
ghost use Rattle.cbor_head.specs.Head.{shortest_head};
ghost use Rattle.cbor_head.specs.Value.{Value, Entries, AnyEntry, Same, IsInRange, IsValid, entries_count, map};
ghost use Rattle.cbor_head.specs.declared.major.Major.TheVariants.{Map};
ghost use Rattle.cbor_head.specs.Canonical.{canonical};
ghost use Rattle.cbor_head.specs.declared.order.KeyOrder.{KeyOrder};
ghost use Rattle.cbor_cursor.specs.Items.{BeginsWith, HasNoKey};
ghost use Rattle.cbor_cursor.specs.Offsets.{IsItemAt, IsWithin, IsWellFormedAt, IsValueAt, HasNoKeyBytes, MatchLookup};
ghost use Rattle.cbor_cursor.specs.WellFormed.{BeginsWithHead};
ghost use Rattle.cbor_cursor.specs.inner.Pairs.{ArePairsOf, BeginsWithValueAt};

use crate::heads::definite_head;
use crate::items::{ItemAt, item_at};
use crate::keys::{KeyMatch, first_byte, match_key};
use crate::skip::end_of;

/// What a map has at a key.
#[derive(Clone, Copy, Debug, PartialEq, Eq)]
pub enum Lookup {
    /// The value of the pair that has the key.
    Found(ItemAt),
    /// No pair has the key, or no head begins at the offset.
    NotThere,
    /// A head of another kind than a map's begins at the offset.
    NotMap,
}

/// The value at a key of the map at an offset. The key is given by its canonical bytes. It takes any
/// bytes, any offset and any key, and reads the pairs once, without recursion.
///
/// If a map begins there in its canonical bytes, in either order of keys, it returns `Found` exactly
/// if the map has the key (RFC 8949, section 5.6). It stops at the first key that comes after the
/// sought key in both orders.
pub fn find(bytes: &[u8], offset: usize, key: &[u8]) -> Lookup
    ensures pair { (o : KeyOrder) (es : Entries) (rest : List ℕ) (k : Value)
        → BeginsWith o (drop offset bytes.now) (map es) rest
        → IsInRange k → IsValid k → key.now ≡ canonical o k
        → MatchLookup result
        (λ i. AnyEntry (Same k) (λ v. (after : List ℕ) × IsItemAt o bytes.now v after i) es)
        (HasNoKey es k) ⊥ }
    // Other bytes are not a key of the map, so it has none of them.
    ensures any_key { (o : KeyOrder) (es : Entries) (rest : List ℕ)
        → BeginsWith o (drop offset bytes.now) (map es) rest
        → MatchLookup result
        (λ i. IsValueAt o es (offset + length (shortest_head Map (entries_count es))) key.now bytes.now rest i)
        (HasNoKeyBytes o es key.now) ⊥ }
    ensures not_map { (o : KeyOrder) (v : Value) (rest : List ℕ) → BeginsWith o (drop offset bytes.now) v rest
        → (result ≡ Lookup.NotMap) ↔ ((es : Entries) → v ≡ map es → ⊥) }
    ensures other_kind { (result ≡ Lookup.NotMap) ↔ ((kind : ℕ) × (argument : ℕ) × (content : List ℕ)
        × BeginsWithHead (drop offset bytes.now) kind argument content × (kind ≢ 5)) }
    // In any bytes, what it finds is a well-formed item within them.
    ensures well_formed { MatchLookup result (λ i. IsWellFormedAt bytes.now i) (Unit {0}) (Unit {0}) }
    ensures within { MatchLookup result (λ i. IsWithin bytes.now i) (Unit {0}) (Unit {0}) }
{
    let Some(head) = definite_head(bytes, offset) else {
        return Lookup::NotThere;
    };
    if head.kind != 5 {
        return Lookup::NotMap;
    }
    match find_item(bytes, head.content, head.argument, key, &[]) {
        Some(item) => Lookup::Found(item),
        None => Lookup::NotThere,
    }
}

// The value at a key of n pairs. The key is in two pieces: its head, and what follows that.
#[inline(always)]
fn find_item(bytes: &[u8], offset: usize, count: u64, head: &[u8], payload: &[u8]) -> Option<ItemAt>
    requires { offset ≤ length bytes.now }
    ensures pair { (o : KeyOrder) (es : Entries) (rest : List ℕ) (k : Value)
        → ArePairsOf o es count (drop offset bytes.now) rest
        → IsInRange k → IsValid k → head.now ++ payload.now ≡ canonical o k
        → MatchOption result (HasNoKey es k)
        (λ i. AnyEntry (Same k) (λ v. (after : List ℕ) × IsItemAt o bytes.now v after i) es) }
    ensures any_key { (o : KeyOrder) (es : Entries) (rest : List ℕ)
        → ArePairsOf o es count (drop offset bytes.now) rest
        → MatchOption result (HasNoKeyBytes o es (head.now ++ payload.now))
        (λ i. IsValueAt o es offset (head.now ++ payload.now) bytes.now rest i) }
    ensures well_formed { IfSome result (λ i. IsWellFormedAt bytes.now i) }
    ensures within { IfSome result (λ i. IsWithin bytes.now i) }
{
    let value = value_start(bytes, offset, count, head, payload)?;
    item_at(bytes, value)
}

// The offset of the value at a key of n pairs.
pub(crate) fn value_start(
    bytes: &[u8],
    offset: usize,
    count: u64,
    head: &[u8],
    payload: &[u8],
) -> Option<usize>
    requires { offset ≤ length bytes.now }
    ensures pair { (o : KeyOrder) (es : Entries) (rest : List ℕ)
        → ArePairsOf o es count (drop offset bytes.now) rest
        → MatchOption result (HasNoKeyBytes o es (head.now ++ payload.now))
        (λ p. BeginsWithValueAt o es (head.now ++ payload.now) (drop p bytes.now) rest) }
    ensures within { IfSome result (λ p. p ≤ length bytes.now) }
{
    let first = first_byte(head);
    let mut at = offset;
    let mut left = count;
    while left > 0 {
        let value = end_of(bytes, at)?;
        match match_key(&bytes[at..value], first, head, payload) {
            KeyMatch::Equal => return Some(value),
            KeyMatch::After => return None,
            KeyMatch::Before => {}
        }
        at = end_of(bytes, value)?;
        left -= 1;
    }
    None
}
