//! Pairs of maps as spans of the buffer.

ghost use Rattle.std.specs.Prelude.{◌≡◌, ◌≤◌, ◌++◌, OnOk, OnErr, IsTrue, length, take, map, flat_map};
ghost use Rattle.theory_values.specs.Pairs.{pair_bytes};
ghost use Rattle.cbor_builder.specs.inner.Spans.{span_pair, AreWithin};

use crate::output_buffer::OutputBuffer;
use cbor_memory::Memory;
use std::alloc::AllocError;

/// A pair: the first eight bytes of its key as a number, and the offsets of its key, its value and
/// its end.
#[derive(Clone, Copy)]
pub(crate) struct Span {
    pub(crate) prefix: u64,
    pub(crate) key: usize,
    pub(crate) val: usize,
    pub(crate) end: usize,
}

/// Puts the pairs in this order, in place of the bytes from `start` on. Their bytes are copied to
/// the end, and then moved down.
pub(crate) fn rearrange(
    memory: &mut Memory,
    out: &mut OutputBuffer,
    start: usize,
    spans: &[Span],
) -> Result<(), AllocError>
    requires begins { start ≤ length out.old }
    requires within { AreWithin out.old spans.now }
    ensures kept { OnOk result (memory.new ≡ memory.old) }
    ensures refused { OnErr result (IsTrue memory.new) }
    ensures ordered { OnOk result
        (out.new ≡ take start out.old ++ flat_map pair_bytes (map (span_pair out.old) spans.now)) }
{
    let len = out.len();
    gather(memory, out, spans)?;
    out.close_up(start, len);
    Ok(())
}

// Appends copies of the pairs, one after the other.
fn gather(memory: &mut Memory, out: &mut OutputBuffer, spans: &[Span]) -> Result<(), AllocError>
    requires { AreWithin out.old spans.now }
    ensures kept { OnOk result (memory.new ≡ memory.old) }
    ensures refused { OnErr result (IsTrue memory.new) }
    ensures gathered { OnOk result
        (out.new ≡ out.old ++ flat_map pair_bytes (map (span_pair out.old) spans.now)) }
{
    for span in spans {
        out.extend_within(memory, span.key, span.end)?;
    }
    Ok(())
}
