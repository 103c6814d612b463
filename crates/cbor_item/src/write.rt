//! Writes canonical bytes.

ghost use Rattle.std.specs.Prelude.{◌≡◌, ◌<◌, length, take, IfErr, OnOk, IsTrue, MatchResult};
ghost use Rattle.std.specs.Io.KnownBytes.{Appends};
ghost use Rattle.cbor_head.specs.Canonical.{canonical};
ghost use Rattle.cbor_item.specs.Sent.{Sends};
ghost use Rattle.cbor_item.specs.View.{view};

use crate::encoding::encode_in;
use crate::tree::Tree;
use cbor_head::{KeyOrder, Reason, Refusal};
use cbor_memory::Memory;
use std::alloc::Global;
use std::io::Write;

/// Writes the canonical bytes, and returns their number. All bytes are made before the first is
/// written, so if memory runs out, nothing is written.
///
/// A write that returns an error, `Interrupted` too, or that accepts no bytes ends the call. The
/// refusal is then `Write`, and its `place` is the number of bytes that the writer accepted: the
/// first of the canonical bytes.
pub fn encode_to<W: Write>(
    alloc: Global,
    tree: &Tree,
    order: KeyOrder,
    writer: &mut W,
) -> Result<u64, Refusal>
    ensures { Sends (W.contents writer.old) (W.contents writer.new)
        (canonical order (view tree.now)) result }
{
    encode_to_in(&mut Memory::new(), alloc, tree, order, writer)
}

/// Writes the canonical bytes as [`encode_to`] does, and records in `memory` whether a request for memory was refused. The
/// refusal is `Memory` only if one was. Pass a new `Memory` to learn whether this call was refused memory: if `memory`
/// records a refusal already, the clause `request` says nothing.
pub fn encode_to_in<W: Write>(
    memory: &mut Memory,
    alloc: Global,
    tree: &Tree,
    order: KeyOrder,
    writer: &mut W,
) -> Result<u64, Refusal>
    ensures request { IfErr result (λ f. f.reason ≡ Reason.Memory → IsTrue memory.new) }
    ensures kept { OnOk result (memory.new ≡ memory.old) }
    ensures sends { Sends (W.contents writer.old) (W.contents writer.new)
        (canonical order (view tree.now)) result }
{
    let bytes = encode_in(memory, alloc, tree, order)?;
    match write_whole(writer, &bytes) {
        Ok(()) => Ok(bytes.len() as u64),
        Err(count) => Err(Refusal::new(Reason::Write, count as u64, 0)),
    }
}

/// Writes the bytes. The error is the number of bytes that the writer accepted before a write
/// returned an error, `Interrupted` too, or accepted no bytes.
pub fn write_whole<W: Write>(writer: &mut W, bytes: &[u8]) -> Result<(), usize>
    ensures { MatchResult result
        (λ _. Appends (W.contents writer.old) (W.contents writer.new) bytes.now)
        (λ count. (count < length bytes.now)
        × Appends (W.contents writer.old) (W.contents writer.new) (take count bytes.now)) }
{
    let mut at = 0;
    while at < bytes.len() {
        match writer.write(&bytes[at..]) {
            Ok(0) => return Err(at),
            Ok(count) => at += count,
            Err(_) => return Err(at),
        }
    }
    Ok(())
}
