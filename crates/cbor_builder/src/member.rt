//! A finished member of what is open.

ghost use Rattle.std.specs.Prelude.{ℕ, ◌≡◌, ◌≤◌, ◌++◌, ◌∷◌, [], IsTrue, false, OnOk, OnErr, map, drop, length};
ghost use Rattle.cbor_head.specs.declared.order.KeyOrder.{KeyOrder};
ghost use Rattle.theory_values.specs.Pairs.{IsRising};
ghost use Rattle.cbor_builder.specs.declared.frame.Shape.TheVariants.{Key, Map};
ghost use Rattle.cbor_builder.specs.inner.Prefix.{ArePrefixed, IsPrefixed};
ghost use Rattle.cbor_builder.specs.inner.Spans.{span_pair};
ghost use Rattle.cbor_builder.specs.inner.Laid.{Takes, IsReady, shape_after, spans_after};
ghost use Rattle.cbor_builder.specs.inner.Laid.{KeepsRising};

use crate::frame::{Frame, Shape};
use crate::output_buffer::OutputBuffer;
use crate::ranking::{compare, prefix};
use crate::span::Span;
use cbor_head::KeyOrder;
use cbor_memory::Memory;
use std::alloc::AllocError;

/// Whether a pair's key is above those of the spans from an index on, if these rise.
#[inline(always)]
pub(crate) fn is_above(
    bytes: &[u8],
    order: KeyOrder,
    spans: &[Span],
    first: usize,
    next: &Span,
) -> bool
    requires first { first ≤ length spans.now }
    requires prefixed { ArePrefixed bytes.now (drop first spans.now) }
    requires next { IsPrefixed bytes.now next.now }
    ensures { IsTrue result → IsRising order (map (span_pair bytes.now) (drop first spans.now))
        → IsRising order (map (span_pair bytes.now) (drop first spans.now ++ next.now ∷ [])) }
{
    if spans.len() <= first {
        return true;
    }
    match spans.last() {
        Some(last) => compare(bytes, order, last, next).is_lt(),
        None => true,
    }
}

/// Finishes a member that begins at `at` and ends the buffer.
#[inline(always)]
pub(crate) fn complete(
    memory: &mut Memory,
    frame: &mut Frame,
    spans: &mut Vec<Span>,
    out: &OutputBuffer,
    order: KeyOrder,
    at: usize,
) -> Result<(), AllocError>
    requires takes { Takes frame.old.shape }
    requires ready { IsReady out.now spans.old.items at frame.old.shape }
    ensures kept { OnOk result (memory.new ≡ memory.old) }
    ensures refused { OnErr result (IsTrue memory.new) }
    ensures from { frame.new.from ≡ frame.old.from }
    ensures start { frame.new.start ≡ frame.old.start }
    ensures shape { frame.new.shape ≡ shape_after at frame.old.shape }
    ensures spans { OnOk result
        (spans.new.items ≡ spans_after out.now spans.old.items at frame.old.shape) }
    ensures rises { KeepsRising order out.now spans.old.items at frame.old.shape
        frame.old.rises frame.new.rises }
{
    if let Shape::Array(n) = &mut frame.shape {
        *n += 1;
        return Ok(());
    }
    match frame.shape {
        Shape::Map(first) => frame.shape = Shape::Key(first, at),
        Shape::Key(first, key) => return finish_pair(
            memory, frame, spans, out, order, first, key, at,
        ),
        Shape::Plain | Shape::Array(_) | Shape::Content(_) => {}
    }
    Ok(())
}

// Finishes the pair whose key is from `key` to `val` and whose value ends the buffer. It is a
// function of its own so that no space is made for a pair if none is finished.
#[inline(always)]
fn finish_pair(
    memory: &mut Memory,
    frame: &mut Frame,
    spans: &mut Vec<Span>,
    out: &OutputBuffer,
    order: KeyOrder,
    first: usize,
    key: usize,
    val: usize,
) -> Result<(), AllocError>
    requires first { first ≤ length spans.old.items }
    requires key { (key ≤ val) × (val ≤ length out.now) }
    requires prefixed { ArePrefixed out.now (drop first spans.old.items) }
    ensures kept { OnOk result (memory.new ≡ memory.old) }
    ensures refused { OnErr result (IsTrue memory.new) }
    ensures from { frame.new.from ≡ frame.old.from }
    ensures start { frame.new.start ≡ frame.old.start }
    ensures shape { frame.new.shape ≡ Map first }
    ensures spans { OnOk result
        (spans.new.items ≡ spans_after out.now spans.old.items val (Key first key)) }
    ensures rises { KeepsRising order out.now spans.old.items val (Key first key)
        frame.old.rises frame.new.rises }
{
    let span = Span {
        prefix: prefix(out, key, val),
        key,
        val,
        end: out.len(),
    };
    let bytes = out.as_slice();
    frame.rises = frame.rises && is_above(bytes, order, spans.as_slice(), first, &span);
    frame.shape = Shape::Map(first);
    memory.push(spans, span)
}
