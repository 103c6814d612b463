//! How the pairs of a map compare.

ghost use Rattle.std.specs.Prelude.{◌≡◌, ◌≤◌, length, slice_range};
ghost use Rattle.theory_values.specs.KeyPrefix.{prefix_of};
ghost use Rattle.cbor_builder.specs.inner.Prefix.{by_prefix, rank, ranked_by};
ghost use Rattle.cbor_head.specs.Order.{key_cmp};

use crate::output_buffer::OutputBuffer;
use crate::span::Span;
use cbor_head::KeyOrder;
use std::cmp::Ordering;
use theory_values::{compare_keys, key_prefix, part};

// The first eight bytes of a key as a number. All eight are read at once, also beyond the key's
// and the written bytes.
#[tactic(auto, using(crate::proofs::Slices::slice_within))]
#[inline(always)]
pub(crate) fn prefix(out: &OutputBuffer, key: usize, val: usize) -> u64
    requires begins { key ≤ val }
    requires ends { val ≤ length out.now }
    ensures { result ≡ prefix_of (slice_range out.now key val) }
{
    key_prefix(out.with_space(), key, val)
}

/// How two pairs compare.
#[inline(always)]
pub(crate) fn compare(bytes: &[u8], order: KeyOrder, x: &Span, y: &Span) -> Ordering
    ensures { result ≡ rank order (ranked_by bytes.now x.now) (ranked_by bytes.now y.now) }
{
    match order {
        KeyOrder::Bytewise => compare_bytewise(bytes, x, y),
        KeyOrder::LengthFirst => {
            let first = part(bytes, x.key, x.val).len();
            let second = part(bytes, y.key, y.val).len();
            if first != second {
                return first.cmp(&second);
            }
            compare_bytewise(bytes, x, y)
        }
    }
}

// Compares two numbers, if the first eight bytes of the keys differ.
#[inline(always)]
fn compare_bytewise(bytes: &[u8], x: &Span, y: &Span) -> Ordering
    ensures { result ≡ by_prefix (ranked_by bytes.now x.now) (ranked_by bytes.now y.now) }
{
    if x.prefix < y.prefix {
        return Ordering::Less;
    }
    if x.prefix > y.prefix {
        return Ordering::Greater;
    }
    compare_long(bytes, x.key, x.val, y.key, y.val)
}

// Keys are passed by their offsets, so that no span has to be in memory.
#[inline(never)]
fn compare_long(bytes: &[u8], x: usize, x_end: usize, y: usize, y_end: usize) -> Ordering
    ensures { result ≡ key_cmp KeyOrder.Bytewise
        (slice_range bytes.now x x_end) (slice_range bytes.now y y_end) }
{
    compare_keys(
        KeyOrder::Bytewise,
        part(bytes, x, x_end),
        part(bytes, y, y_end),
    )
}
