//! The item at the start of what a reader gives.

ghost use Rattle.std.specs.Prelude.{◌≡◌, IfErr, IsTrue, OnOk, MatchResult};
ghost use Rattle.cbor_head.specs.Complaint.{plain};
ghost use Rattle.cbor_item.specs.View.{view};
ghost use Rattle.cbor_tree_reader.specs.Prefix.{IsPrefixRead};
ghost use Rattle.theory_verdicts.specs.Reading.{IsPrefixUnread};
ghost use Rattle.cbor_tree_reader.specs.inner.ItemPrefix.{IsExpectedSomewhere, ReturnsNextPart, ReturnsParts};

use crate::item_part::read_part;
use crate::payload::no_memory;
use crate::tree_items::TreeItems;
use cbor_events::ItemEvents;
use cbor_head::{Limits, Reason, Refusal};
use cbor_item::Item;
use cbor_memory::Memory;
use std::alloc::Global;
use std::io::Read;

/// The valid item that the reader's bytes begin with, and its size in bytes. The events are reset
/// for it. No byte after the item or after its first complaint is read.
pub(crate) fn read_item_prefix<R: Read>(
    memory: &mut Memory,
    alloc: Global,
    events: &mut ItemEvents,
    reader: &mut R,
    limits: Limits,
) -> Result<(Item, u64), Refusal>
    requires { (events.old.machine.depth ≡ limits.depth)
        × (events.old.machine.bytes ≡ limits.bytes) }
    ensures limits { OnOk result ((events.new.machine.depth ≡ limits.depth)
        × (events.new.machine.bytes ≡ limits.bytes)) }
    ensures memory { IfErr result (λ f. f.reason ≡ Reason.Memory → IsTrue memory.new) }
    ensures kept { OnOk result (memory.new ≡ memory.old) }
    ensures prefix { MatchResult result
        (λ outcome. IsPrefixRead plain limits
        (R.remaining reader.old) (R.remaining reader.new) (view outcome.0) outcome.1)
        (λ f. IsPrefixUnread plain limits (R.remaining reader.old) (R.remaining reader.new) f) }
{
    events.restart();
    let mut items = TreeItems::new(alloc, limits.keys());
    match read_parts(memory, alloc, events, &mut items, reader) {
        Ok(()) => {
            let item = items.into_item();
            let size = events.taken();
            Ok((item, size))
        }
        Err(refusal) => Err(refusal),
    }
}

// Reads the remaining parts of the item.
fn read_parts<R: Read>(
    memory: &mut Memory,
    alloc: Global,
    events: &mut ItemEvents,
    items: &mut TreeItems,
    reader: &mut R,
) -> Result<(), Refusal>
    requires { IsExpectedSomewhere items.old events.old }
    ensures memory { IfErr result (λ f. f.reason ≡ Reason.Memory → IsTrue memory.new) }
    ensures kept { OnOk result (memory.new ≡ memory.old) }
    ensures parts { ReturnsParts items.old items.new events.old events.new
        (R.remaining reader.old) (R.remaining reader.new) result }
{
    'parts: loop {
        match next_part(memory, alloc, events, items, reader) {
            Ok(true) => {}
            Ok(false) => return Ok(()),
            Err(refusal) => return Err(refusal),
        }
    }
}

// Reads the next part of the item. Returns whether the item continues after it.
fn next_part<R: Read>(
    memory: &mut Memory,
    alloc: Global,
    events: &mut ItemEvents,
    items: &mut TreeItems,
    reader: &mut R,
) -> Result<bool, Refusal>
    requires { IsExpectedSomewhere items.old events.old }
    ensures memory { IfErr result (λ f. f.reason ≡ Reason.Memory → IsTrue memory.new) }
    ensures kept { OnOk result (memory.new ≡ memory.old) }
    ensures part { ReturnsNextPart items.old items.new events.old events.new
        (R.remaining reader.old) (R.remaining reader.new) result }
{
    let height = events.open();
    let event = match items.next_head(events, reader) {
        Ok(event) => event,
        Err(refusal) => return Err(refusal),
    };
    let part = match read_part(memory, alloc, events, reader, event.kind) {
        Ok(part) => part,
        Err(refusal) => return Err(refusal),
    };
    let opened = match items.give(memory, alloc, height, event.place, part) {
        Ok(opened) => opened,
        Err(_) => return Err(no_memory(events)),
    };
    let open = events.open();
    match items.end_full(memory, height + opened, open) {
        Ok(()) => {}
        Err(_) => return Err(no_memory(events)),
    }
    match items.repeated(memory, alloc, open) {
        Ok(None) => Ok(open > 0),
        Ok(Some(place)) => Err(Refusal::new(Reason::RepeatedKey, place, events.taken())),
        Err(_) => Err(no_memory(events)),
    }
}
