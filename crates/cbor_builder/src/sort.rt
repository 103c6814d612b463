//! Sorts the pairs of a map.

ghost use Rattle.std.specs.Prelude.{◌↔◌, IsTrue, map};
ghost use Rattle.std.specs.Prelude.{IsPermutation, IsSortedBy};
ghost use Rattle.cbor_builder.specs.inner.Repeats.{DoNeighboursDiffer};
ghost use Rattle.theory_values.specs.Pairs.{HasDistinctBytes, IsRising};
ghost use Rattle.cbor_builder.specs.inner.Spans.{span_pair};
ghost use Rattle.cbor_builder.specs.inner.Prefix.{rank, ranked_by, ArePrefixed};
ghost use Rattle.std.specs.Ordering.{is_lt};

use crate::insertion::insert_each;
use crate::ranking::compare;
use crate::span::Span;
use cbor_head::KeyOrder;

// Up to this number of pairs are sorted by insertion.
const FEW: usize = 16;

// Whether no two neighbours have equal keys.
fn differ(bytes: &[u8], order: KeyOrder, spans: &[Span]) -> bool
    requires { ArePrefixed bytes.now spans.now }
    ensures { IsTrue result ↔ DoNeighboursDiffer bytes.now spans.now }
{
    for i in 1..spans.len() {
        if compare(bytes, order, &spans[i - 1], &spans[i]).is_eq() {
            return false;
        }
    }
    true
}

/// Sorts the spans by their keys in place. Returns false if two keys are equal: then the spans
/// are sorted only in part. Allocates nothing.
#[inline(always)]
pub(crate) fn sort_distinct(bytes: &[u8], order: KeyOrder, spans: &mut [Span]) -> bool
    requires { ArePrefixed bytes.now spans.old }
    ensures distinct { IsTrue result ↔ HasDistinctBytes (map (span_pair bytes.now) spans.old) }
    ensures permuted { IsPermutation spans.old spans.new }
    ensures rising { IsTrue result → IsRising order (map (span_pair bytes.now) spans.new) }
{
    if spans.len() > FEW {
        sort_by_keys(bytes, order, spans);
        return differ(bytes, order, spans);
    }
    insert_each(bytes, order, spans)
}

/// Sorts the spans by their keys. If they are sorted already, that is one pass. Allocates
/// nothing.
pub(crate) fn sort_by_keys(bytes: &[u8], order: KeyOrder, spans: &mut [Span])
    ensures permuted { IsPermutation spans.old spans.new }
    ensures sorted { IsSortedBy
        (λ x y. is_lt (rank order (ranked_by bytes.now x) (ranked_by bytes.now y))) spans.new }
{
    spans.sort_unstable_by(|x, y| compare(bytes, order, x, y));
}
