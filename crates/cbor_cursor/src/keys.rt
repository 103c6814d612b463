//! Comparing the keys of a map with the sought key, and the bytes of a text or integer as a key.

ghost use Rattle.std.specs.Prelude.{◌≡◌, ◌<◌, ◌≤◌, ◌++◌, ◌↔◌, length, slice_index, IsTrue};
ghost use Rattle.cbor_head.specs.Canonical.{canonical};
ghost use Rattle.cbor_head.specs.Order.{key_cmp, key_lt};
ghost use Rattle.cbor_head.specs.Value.{IsInRange, IsValid, text};
ghost use Rattle.cbor_head.specs.declared.order.KeyOrder.{KeyOrder};
ghost use Rattle.cbor_head.specs.declared.order.KeyOrder.TheVariants.{Bytewise};
ghost use Rattle.theory_values.specs.Lookup.{integer};

use arrayvec::ArrayVec;
use cbor_head::{Head, Major};
use std::cmp::Ordering;

// `After` means after it in both orders, so the caller need not know the order.
#[derive(Clone, Copy)]
pub(crate) enum KeyMatch {
    Before,
    Equal,
    After,
}

// The sought key comes in two pieces, so that a text needs no buffer. Most keys are decided by their
// first byte.
#[inline(always)]
pub(crate) fn match_key(stored: &[u8], first: u8, head: &[u8], payload: &[u8]) -> KeyMatch
    requires stored { 0 < length stored.now }
    requires first { first ≡ slice_index head.now 0 }
    ensures equal { (result ≡ KeyMatch.Equal) ↔ (stored.now ≡ head.now ++ payload.now) }
    ensures after { (result ≡ KeyMatch.After)
        ↔ ((o : KeyOrder) → IsTrue (key_lt o (head.now ++ payload.now) stored.now)) }
{
    if stored[0] < first {
        return KeyMatch::Before;
    }
    match_pieces(stored, head, payload)
}

// The first byte of these bytes, or 0 if there are none.
pub(crate) fn first_byte(head: &[u8]) -> u8
    ensures { result ≡ slice_index head.now 0 }
{
    if head.is_empty() { 0 } else { head[0] }
}

#[inline(always)]
fn match_pieces(stored: &[u8], head: &[u8], payload: &[u8]) -> KeyMatch
    ensures equal { (result ≡ KeyMatch.Equal) ↔ (stored.now ≡ head.now ++ payload.now) }
    ensures after { (result ≡ KeyMatch.After)
        ↔ ((o : KeyOrder) → IsTrue (key_lt o (head.now ++ payload.now) stored.now)) }
{
    if stored.len() < head.len() || stored.len() - head.len() < payload.len() {
        return KeyMatch::Before;
    }
    match compare_pieces(stored, head, payload) {
        Ordering::Less => KeyMatch::Before,
        Ordering::Equal => KeyMatch::Equal,
        Ordering::Greater => KeyMatch::After,
    }
}

#[inline(always)]
fn compare_pieces(stored: &[u8], head: &[u8], payload: &[u8]) -> Ordering
    requires { length head.now ≤ length stored.now }
    ensures { result ≡ key_cmp Bytewise stored.now (head.now ++ payload.now) }
{
    let (start, rest) = stored.split_at(head.len());
    match compare(start, head) {
        Ordering::Equal => compare(rest, payload),
        unequal => unequal,
    }
}

// Most keys of a map differ in their first bytes, so a loop is faster here than a comparison word by
// word.
#[inline(always)]
fn compare(a: &[u8], b: &[u8]) -> Ordering
    ensures { result ≡ key_cmp Bytewise a.now b.now }
{
    let mut at = 0;
    while at < a.len() && at < b.len() {
        if a[at] != b[at] {
            return a[at].cmp(&b[at]);
        }
        at += 1;
    }
    a.len().cmp(&b.len())
}

// The head of a text's canonical bytes; the text follows it.
pub(crate) fn text_head(key: &str) -> ArrayVec<u8, 9>
    ensures bytes { (o : KeyOrder) → result.items ++ key.now ≡ canonical o (text key.now) }
    ensures range { IsInRange (text key.now) }
    ensures valid { IsValid (text key.now) }
{
    Head::shortest(Major::Text, key.len() as u64).bytes()
}

// An integer's canonical bytes.
pub(crate) fn integer_head(key: i64) -> ArrayVec<u8, 9>
    ensures bytes { (o : KeyOrder) → result.items ≡ canonical o (integer key) }
    ensures range { IsInRange (integer key) }
    ensures valid { IsValid (integer key) }
{
    if key >= 0 {
        Head::shortest(Major::Unsigned, key as u64).bytes()
    } else {
        Head::shortest(Major::Negative, (-1 - key) as u64).bytes()
    }
}
