//! The first key of a map that is equal to an earlier one.

ghost use Rattle.std.specs.Prelude.{◌≡◌, ◌+◌, ◌^◌, ◌<◌, List, length, map};
ghost use Rattle.std.specs.Prelude.{IfSome, MatchOption};
ghost use Rattle.std.specs.List.{count_by};
ghost use Rattle.cbor_builder.specs.declared.span.Span.{Span};
ghost use Rattle.cbor_builder.specs.Built.{AreAllDifferent, IsFirstRepeat};
ghost use Rattle.cbor_builder.specs.inner.Prefix.{key_of, ArePrefixed};
ghost use Rattle.cbor_builder.specs.inner.Repeats.{place, lies_before, HasPlace, ArePlaced, outward};
ghost use Rattle.cbor_builder.specs.inner.Repeats.{AreOf, AreGrouped, IsFirstTie, IsFirstOf};

use crate::ranking::compare;
use crate::repeat::Repeat;
use crate::sort::sort_by_keys;
use crate::span::Span;
use cbor_head::KeyOrder;

/// Two pairs with equal keys, by their offsets.
#[derive(Clone, Copy)]
struct Tie {
    earlier: usize,
    later: usize,
}

/// The number of the first pair whose key is equal to an earlier one. The spans may be in any
/// order, and are sorted by their keys. Allocates nothing.
pub(crate) fn first_repeat(bytes: &[u8], order: KeyOrder, spans: &mut [Span]) -> Option<usize>
    requires { (xs : List Span) × AreOf bytes.now xs spans.old }
    ensures { (xs : List Span) → AreOf bytes.now xs spans.old
        → MatchOption result (AreAllDifferent (map (key_of bytes.now) xs))
        (IsFirstRepeat (map (key_of bytes.now) xs)) }
{
    sort_by_keys(bytes, order, spans);
    let tie = first_tie(bytes, order, spans)?;
    // If both are at one offset, one still comes before the other.
    Some(count_before(spans, tie.later) + usize::from(tie.earlier == tie.later))
}

// What is reported of a container: the first repeated key of its own pairs, or else what is
// reported within it, with this many more maps around it.
pub(crate) fn outward(own: Option<usize>, within: Option<Repeat>, maps: usize) -> Option<Repeat>
    requires fits { IfSome within (λ repeat. repeat.outside + maps < 2 ^ 64) }
    ensures { result ≡ outward own within maps }
{
    match (own, within) {
        (Some(pair), _) => Some(Repeat { outside: 0, pair }),
        (None, Some(repeat)) => Some(Repeat {
            outside: repeat.outside + maps,
            pair: repeat.pair,
        }),
        (None, None) => None,
    }
}

// Of the pairs with equal keys, which are neighbours, the two whose later one comes first.
fn first_tie(bytes: &[u8], order: KeyOrder, spans: &[Span]) -> Option<Tie>
    requires prefixed { ArePrefixed bytes.now spans.now }
    requires placed { ArePlaced spans.now }
    requires grouped { AreGrouped bytes.now spans.now }
    ensures { IsFirstTie bytes.now spans.now (length spans.now) result }
{
    if spans.is_empty() {
        return None;
    }
    let mut first = None;
    // The least offset of the pairs with the current key.
    let mut least = place(&spans[0]);
    for i in 1..spans.len() {
        let here = place(&spans[i]);
        if compare(bytes, order, &spans[i - 1], &spans[i]).is_eq() {
            let earlier = least.min(here);
            let later = least.max(here);
            first = Some(first_of(first, Tie { earlier, later }));
            least = earlier;
        } else {
            least = here;
        }
    }
    first
}

// The tie whose later pair comes first; if both have the same later pair, the one whose earlier
// pair comes first.
fn first_of(first: Option<Tie>, tie: Tie) -> Tie
    ensures { IsFirstOf first tie result }
{
    match first {
        Some(first) if (first.later, first.earlier) < (tie.later, tie.earlier) => first,
        _ => tie,
    }
}

// The number of pairs before this offset.
fn count_before(spans: &[Span], at: usize) -> usize
    requires { ArePlaced spans.now }
    ensures { result ≡ count_by (lies_before at) spans.now }
{
    let mut count = 0;
    for span in spans {
        if place(span) < at {
            count += 1;
        }
    }
    count
}

// Where a pair is: twice its middle. That distinguishes all pairs except those of no bytes at one
// offset, whose keys are equal.
fn place(span: &Span) -> usize
    requires { HasPlace span.now }
    ensures { result ≡ place span.now }
{
    span.key + span.end
}
