//! The pairs of a map, given the bytes of the map or of what is left of it.

ghost use Rattle.std.specs.Prelude.{◌≡◌, ◌<◌, ◌++◌, None, IfSome, MatchOption};
ghost use Rattle.cbor_head.specs.Value.{Value, IsInRange, IsValid};
ghost use Rattle.cbor_head.specs.Canonical.{canonical};
ghost use Rattle.cbor_head.specs.declared.order.KeyOrder.{KeyOrder};
ghost use Rattle.cbor_cursor.specs.Decoded.{decoded, encoded};
ghost use Rattle.cbor_cursor.specs.inner.Canonical.{IsCanonical, encoded_items};
ghost use Rattle.theory_values.specs.Lookup.{HasValueAt};
ghost use Rattle.cbor_cursor.specs.inner.Canonical.{AreCanonicalPairs};
ghost use Rattle.cbor_cursor.specs.inner.Firsts.{IsFirstPair};

use crate::contents::{MAP, content_in};
use crate::lookup::value_start;
use crate::skip::end_of;

// The key and the value of the first of `count` pairs, and what follows it.
pub(crate) fn first_pair(bytes: &[u8], count: u64) -> Option<(&[u8], &[u8], &[u8])>
    ensures pair { (o : KeyOrder) → AreCanonicalPairs (encoded_items o bytes.now count)
        → MatchOption result (count ≡ 0) (λ r. IsFirstPair o bytes.now count r.0.now r.1.now r.2.now) }
    ensures some { IfSome result (λ r. 0 < count) }
{
    if count == 0 {
        return None;
    }
    let value = end_of(bytes, 0)?;
    let end = end_of(bytes, value)?;
    Some((&bytes[..value], &bytes[value..end], &bytes[end..]))
}

// The value of the pair of a map whose key has these bytes, in two pieces: its head, and what
// follows that.
pub(crate) fn value_at<'a>(bytes: &'a [u8], head: &[u8], payload: &[u8]) -> Option<&'a [u8]>
    ensures item { (o : KeyOrder) → IsCanonical (encoded o bytes.now)
        → IfSome result (λ item. IsCanonical (encoded o item.now)) }
    ensures value { (o : KeyOrder) (k : Value) → IsCanonical (encoded o bytes.now)
        → IsInRange k → IsValid k → head.now ++ payload.now ≡ canonical o k
        → MatchOption result ((v : Value) → HasValueAt (decoded bytes.now) k v → ⊥)
        (λ item. HasValueAt (decoded bytes.now) k (decoded item.now)) }
    ensures other { (o : KeyOrder) → IsCanonical (encoded o bytes.now)
        → ((k : Value) → IsInRange k → IsValid k → head.now ++ payload.now ≡ canonical o k → ⊥)
        → result ≡ None }
{
    let (content, count) = content_in(bytes, MAP)?;
    let start = value_start(content, 0, count, head, payload)?;
    let end = end_of(content, start)?;
    Some(&content[start..end])
}
