//! The bytes of strings.

ghost use Rattle.std.specs.Prelude.{◌≡◌, IfErr, IsTrue, OnOk, false};
ghost use Rattle.theory_verdicts.specs.Reading.{IsPayloadExpected, ReturnsPayload};

use cbor_events::ItemEvents;
use cbor_head::{Reason, Refusal};
use cbor_memory::Memory;
use cbor_text::check_text;
use std::io::Read;

// The refusal for refused memory, at the bytes consumed so far.
pub(crate) fn no_memory(events: &ItemEvents) -> Refusal
    ensures memory { result.reason ≡ Reason.Memory }
    ensures place { result.place ≡ result.read }
    ensures taken { result.read ≡ events.now.machine.taken }
{
    Refusal::at(Reason::Memory, events.taken())
}

// Appends a payload of this number of bytes in the parts that arrive: nothing is allocated for
// bytes that do not arrive.
pub(crate) fn read_payload<R: Read>(
    memory: &mut Memory,
    events: &mut ItemEvents,
    reader: &mut R,
    count: u64,
    into: &mut Vec<u8>,
) -> Result<(), Refusal>
    requires { IsPayloadExpected events.old count }
    ensures memory { IfErr result (λ f. f.reason ≡ Reason.Memory → IsTrue memory.new) }
    ensures kept { OnOk result (memory.new ≡ memory.old) }
    ensures payload { ReturnsPayload false events.old count into.old.items into.new.items
        (R.remaining reader.old) (R.remaining reader.new) events.new result }
{
    let mut left = count;
    while left > 0 {
        match events.next(reader) {
            Ok(Some(_)) => {}
            Ok(None) => unreachable!(),
            Err(refusal) => return Err(refusal),
        }
        let piece = events.piece();
        match memory.extend(into, piece) {
            Ok(()) => {}
            Err(_) => return Err(no_memory(events)),
        }
        left -= piece.len() as u64;
    }
    Ok(())
}

// Reads the payload of a definite string or a chunk, which must be UTF-8 if it is of a text. The
// offset of a refused text is that after its longest prefix that is UTF-8.
pub(crate) fn read_chunk<R: Read>(
    memory: &mut Memory,
    events: &mut ItemEvents,
    reader: &mut R,
    text: bool,
    count: u64,
    into: &mut Vec<u8>,
) -> Result<(), Refusal>
    requires { IsPayloadExpected events.old count }
    ensures memory { IfErr result (λ f. f.reason ≡ Reason.Memory → IsTrue memory.new) }
    ensures kept { OnOk result (memory.new ≡ memory.old) }
    ensures payload { ReturnsPayload text events.old count into.old.items into.new.items
        (R.remaining reader.old) (R.remaining reader.new) events.new result }
{
    let from = into.len();
    let place = events.taken();
    match read_payload(memory, events, reader, count, into) {
        Ok(()) => {}
        Err(refusal) => return Err(refusal),
    }
    if !text {
        return Ok(());
    }
    match check_text(&into[from..]) {
        Ok(()) => Ok(()),
        Err(valid) => Err(Refusal::new(Reason::InvalidText, place + valid as u64, events.taken())),
    }
}
