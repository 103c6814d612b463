//! Sorts a few pairs by insertion.

ghost use Rattle.std.specs.Prelude.{◌≡◌, ◌↔◌, ◌<◌, ◌∷◌, IsTrue, false, map, length};
ghost use Rattle.std.specs.Prelude.{IsPermutation};
ghost use Rattle.cbor_builder.specs.Built.{HasKey};
ghost use Rattle.cbor_builder.specs.inner.Prefix.{key_of, IsPrefixed, ArePrefixed, at_start};
ghost use Rattle.cbor_builder.specs.inner.Spans.{span_pair};
ghost use Rattle.theory_values.specs.Pairs.{HasDistinctBytes, IsRising};

use crate::ranking::compare;
use crate::span::Span;
use cbor_head::KeyOrder;
use std::cmp::Ordering;

/// Sorts the spans by their keys in place. Returns false if two keys are equal: then the spans are
/// sorted only in part.
pub(crate) fn insert_each(bytes: &[u8], order: KeyOrder, spans: &mut [Span]) -> bool
    requires { ArePrefixed bytes.now spans.old }
    ensures distinct { IsTrue result ↔ HasDistinctBytes (map (span_pair bytes.now) spans.old) }
    ensures permuted { IsPermutation spans.old spans.new }
    ensures rising { IsTrue result → IsRising order (map (span_pair bytes.now) spans.new) }
{
    for i in 0..spans.len() {
        let next = spans[i];
        if !insert(bytes, order, &mut spans[..i + 1], &next) {
            return false;
        }
    }
    true
}

// Inserts one more span among those before the last element, which is free. Returns false if one of
// them has the same key.
#[inline(always)]
fn insert(bytes: &[u8], order: KeyOrder, places: &mut [Span], next: &Span) -> bool
    requires free { 0 < length places.old }
    requires prefixed { ArePrefixed bytes.now (at_start places.old) }
    requires next { IsPrefixed bytes.now next.now }
    requires rising { IsRising order (map (span_pair bytes.now) (at_start places.old)) }
    ensures permuted { IsPermutation (next.now ∷ at_start places.old) places.new }
    ensures rising { IsTrue result → IsRising order (map (span_pair bytes.now) places.new) }
    ensures equal { result ≡ false
        → HasKey (map (span_pair bytes.now) (at_start places.old)) (key_of bytes.now next.now) }
{
    let mut at = places.len() - 1;
    while at > 0 {
        match compare(bytes, order, &places[at - 1], next) {
            Ordering::Less => break,
            Ordering::Equal => {
                places[at] = *next;
                return false;
            }
            Ordering::Greater => {}
        }
        places[at] = places[at - 1];
        at -= 1;
    }
    places[at] = *next;
    true
}
