//! Looks for a key among the pairs of its map.

ghost use Rattle.std.specs.Prelude.{◌↔◌, ◌≤◌, IsTrue, map, length, slice_range};
ghost use Rattle.cbor_head.specs.declared.order.KeyOrder.{KeyOrder};
ghost use Rattle.cbor_builder.specs.Built.{HasKey};
ghost use Rattle.cbor_builder.specs.inner.Prefix.{ArePrefixed, IsPrefixed, key_of};
ghost use Rattle.cbor_builder.specs.inner.Spans.{span_pair};
ghost use Rattle.theory_values.specs.Pairs.{IsRising};

use crate::member::is_above;
use crate::output_buffer::OutputBuffer;
use crate::ranking::{compare, prefix};
use crate::span::Span;
use cbor_head::KeyOrder;

// Whether one of the pairs has the key from `key` to `val`. If their keys rise, a key above the
// last one costs one comparison. Otherwise a pair costs a comparison of two numbers if the first
// eight bytes of the keys differ.
pub(crate) fn has_key(
    out: &OutputBuffer,
    order: KeyOrder,
    spans: &[Span],
    rises: bool,
    key: usize,
    val: usize,
) -> bool
    requires prefixed { ArePrefixed out.now spans.now }
    requires rises { IsTrue rises → IsRising order (map (span_pair out.now) spans.now) }
    requires begins { key ≤ val }
    requires ends { val ≤ length out.now }
    ensures { IsTrue result
        ↔ HasKey (map (span_pair out.now) spans.now) (slice_range out.now key val) }
{
    let wanted = Span {
        prefix: prefix(out, key, val),
        key,
        val,
        end: val,
    };
    let bytes = out.as_slice();
    if rises && is_above(bytes, order, spans, 0, &wanted) {
        return false;
    }
    has_key_of(bytes, order, spans, &wanted)
}

// Whether one of the pairs has the key of `wanted`.
fn has_key_of(bytes: &[u8], order: KeyOrder, spans: &[Span], wanted: &Span) -> bool
    requires prefixed { ArePrefixed bytes.now spans.now }
    requires wanted { IsPrefixed bytes.now wanted.now }
    ensures { IsTrue result
        ↔ HasKey (map (span_pair bytes.now) spans.now) (key_of bytes.now wanted.now) }
{
    for span in spans {
        if compare(bytes, order, span, wanted).is_eq() {
            return true;
        }
    }
    false
}
