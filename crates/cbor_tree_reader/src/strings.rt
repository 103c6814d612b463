//! Strings, of one piece or of chunks.

ghost use Rattle.std.specs.Prelude.{◌≡◌, IfErr, IsTrue, OnOk, None};
ghost use Rattle.cbor_head.specs.Complaint.{plain};
ghost use Rattle.theory_verdicts.specs.Reading.{HasBegun, string_kind};
ghost use Rattle.cbor_tree_reader.specs.inner.PlainParts.{ReturnsString};

use crate::payload::read_chunk;
use cbor_events::ItemEvents;
use cbor_head::{EventKind, Reason, Refusal};
use cbor_memory::Memory;
use std::alloc::Global;
use std::io::Read;

// The content of a string whose head was read.
pub(crate) fn read_string<R: Read>(
    memory: &mut Memory,
    alloc: Global,
    events: &mut ItemEvents,
    reader: &mut R,
    text: bool,
    length: Option<u64>,
) -> Result<Vec<u8>, Refusal>
    requires { HasBegun plain events.old (string_kind text length) }
    ensures memory { IfErr result (λ f. f.reason ≡ Reason.Memory → IsTrue memory.new) }
    ensures kept { OnOk result (memory.new ≡ memory.old) }
    ensures string { ReturnsString text length events.old
        (R.remaining reader.old) (R.remaining reader.new) events.new result }
{
    match length {
        Some(count) => {
            let mut content = Vec::new(alloc);
            match read_chunk(memory, events, reader, text, count, &mut content) {
                Ok(()) => Ok(content),
                Err(refusal) => Err(refusal),
            }
        }
        None => read_chunks(memory, alloc, events, reader, text),
    }
}

// The chunks joined. Each chunk of a text is UTF-8 separately.
fn read_chunks<R: Read>(
    memory: &mut Memory,
    alloc: Global,
    events: &mut ItemEvents,
    reader: &mut R,
    text: bool,
) -> Result<Vec<u8>, Refusal>
    requires { HasBegun plain events.old (string_kind text None) }
    ensures memory { IfErr result (λ f. f.reason ≡ Reason.Memory → IsTrue memory.new) }
    ensures kept { OnOk result (memory.new ≡ memory.old) }
    ensures string { ReturnsString text None events.old
        (R.remaining reader.old) (R.remaining reader.new) events.new result }
{
    let mut content = Vec::new(alloc);
    'chunks: loop {
        let kind = match events.next(reader) {
            Ok(Some(event)) => event.kind,
            Ok(None) => unreachable!(),
            Err(refusal) => return Err(refusal),
        };
        match kind {
            EventKind::Chunk(count) => {
                match read_chunk(memory, events, reader, text, count, &mut content) {
                    Ok(()) => {}
                    Err(refusal) => return Err(refusal),
                }
            }
            EventKind::End => return Ok(content),
            _ => unreachable!(),
        }
    }
}
