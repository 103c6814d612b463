//! The parts of an item, as the tree reader reads them.

ghost use Rattle.std.specs.Prelude.{◌≡◌, IfErr, IsTrue, OnOk};
ghost use Rattle.cbor_tree_reader.specs.inner.PlainParts.{HasCome, ReturnsPart};

use crate::strings::read_string;
use cbor_events::{ItemEvents, head_of};
use cbor_head::{EventKind, Major, Reason, Refusal};
use cbor_memory::Memory;
use std::alloc::Global;
use std::io::Read;

/// What an event reports; a string comes whole.
#[derive(Drop)]
pub(crate) enum ItemPart {
    /// An integer or a simple value, by its type and argument.
    Leaf(Major, u64),
    /// A string, whether it is a text, and its content.
    String(bool, Vec<u8>),
    /// An array, a map or a tag begins; a tag with its number.
    Begin(Major, u64),
    /// The innermost container has no more members.
    Break,
}

// The part that an event begins where an item is expected.
pub(crate) fn read_part<R: Read>(
    memory: &mut Memory,
    alloc: Global,
    events: &mut ItemEvents,
    reader: &mut R,
    kind: EventKind,
) -> Result<ItemPart, Refusal>
    requires { HasCome events.old kind }
    ensures memory { IfErr result (λ f. f.reason ≡ Reason.Memory → IsTrue memory.new) }
    ensures kept { OnOk result (memory.new ≡ memory.old) }
    ensures part { ReturnsPart events.old kind
        (R.remaining reader.old) (R.remaining reader.new) events.new result }
{
    match kind {
        EventKind::Bytes(length) => {
            match read_string(memory, alloc, events, reader, false, length) {
                Ok(content) => Ok(ItemPart::String(false, content)),
                Err(refusal) => Err(refusal),
            }
        }
        EventKind::Text(length) => {
            match read_string(memory, alloc, events, reader, true, length) {
                Ok(content) => Ok(ItemPart::String(true, content)),
                Err(refusal) => Err(refusal),
            }
        }
        _ => {
            let Some((major, argument)) = head_of(kind) else {
                return Ok(ItemPart::Break);
            };
            if let Major::Array | Major::Map | Major::Tag = major {
                return Ok(ItemPart::Begin(major, argument));
            }
            Ok(ItemPart::Leaf(major, argument))
        }
    }
}
