//! The item at the start of an input, as a tree.

ghost use Rattle.std.specs.Prelude.{◌≡◌, ◌≤◌, ◌<◌, IfOk, IfErr, IsTrue, OnOk, IfSome};
ghost use Rattle.cbor_head.specs.Complaint.{plain};
ghost use Rattle.cbor_item.specs.View.{view};
ghost use Rattle.theory_verdicts.specs.Readers.{IsReadAs, IsUnread, Loses};
ghost use Rattle.theory_verdicts.specs.Refusals.{IsReaderReason};
ghost use Rattle.cbor_tree_reader.specs.Size.{size};

use crate::item_reader::read_item_prefix;
use cbor_events::ItemEvents;
use cbor_head::{Limits, Reason, Refusal};
use cbor_item::Tree;
use cbor_memory::Memory;
use std::alloc::Global;
use std::io::Read;

/// Returns the tree of the well-formed, valid item that the reader's bytes begin with, and the
/// item's size in bytes (RFC 8949, sections 3 and 5.3.1). The pairs of a map keep their order.
///
/// No byte after the item is read. The refusal is that of the bytes within the limits; or `Read` or
/// `Memory`, if the reader failed or memory was refused before that, with the number of bytes
/// consumed as `place`. After a refusal the number of bytes consumed is its `read`. Memory is
/// allocated for bytes that arrived, never by the length in a head. The number of a tree's items,
/// at every depth, plus the bytes of its strings is at most the number of bytes consumed.
pub fn read_tree<R: Read>(
    alloc: Global,
    reader: &mut R,
    limits: Limits,
) -> Result<(Tree, u64), Refusal>
    ensures accepted { IfOk result (λ outcome. IfSome (R.remaining reader.old)
        (λ input. IsReadAs limits plain input (view outcome.0) outcome.1)) }
    ensures taken { IfOk result
        (λ outcome. Loses outcome.1 (R.remaining reader.old) (R.remaining reader.new)) }
    ensures bounded { IfOk result (λ outcome. size (view outcome.0) ≤ outcome.1) }
    ensures refused { IfErr result (λ f. IfSome (R.remaining reader.old)
        (λ input. IsUnread limits plain input f)) }
    ensures reason { IfErr result (λ f. IsReaderReason limits plain f.reason) }
    ensures read { IfErr result
        (λ f. Loses f.read (R.remaining reader.old) (R.remaining reader.new)) }
{
    read_tree_in(&mut Memory::new(), alloc, reader, limits)
}

/// Reads a tree as [`read_tree`] does, and records in `memory` whether a request for memory was refused. If none was, the
/// refusal is not `Memory`. Pass a new `Memory` to learn whether this call was refused memory: if `memory` records a
/// refusal already, the clause `request` says nothing.
pub fn read_tree_in<R: Read>(
    memory: &mut Memory,
    alloc: Global,
    reader: &mut R,
    limits: Limits,
) -> Result<(Tree, u64), Refusal>
    ensures request { IfErr result (λ f. f.reason ≡ Reason.Memory → IsTrue memory.new) }
    ensures kept { OnOk result (memory.new ≡ memory.old) }
    ensures accepted { IfOk result (λ outcome. IfSome (R.remaining reader.old)
        (λ input. IsReadAs limits plain input (view outcome.0) outcome.1)) }
    ensures taken { IfOk result
        (λ outcome. Loses outcome.1 (R.remaining reader.old) (R.remaining reader.new)) }
    ensures bounded { IfOk result (λ outcome. size (view outcome.0) ≤ outcome.1) }
    ensures refused { IfErr result (λ f. IfSome (R.remaining reader.old)
        (λ input. IsUnread limits plain input f)) }
    ensures reason { IfErr result (λ f. IsReaderReason limits plain f.reason) }
    ensures read { IfErr result
        (λ f. Loses f.read (R.remaining reader.old) (R.remaining reader.new)) }
{
    read_tree_by(memory, alloc, &mut ItemEvents::new(limits), reader, limits)
}

/// Reads a tree as [`read_tree_in`] does, with events that the caller reuses for each item.
pub fn read_tree_by<R: Read>(
    memory: &mut Memory,
    alloc: Global,
    events: &mut ItemEvents,
    reader: &mut R,
    limits: Limits,
) -> Result<(Tree, u64), Refusal>
    requires limits { (events.old.machine.depth ≡ limits.depth)
        × (events.old.machine.bytes ≡ limits.bytes) }
    ensures limits { OnOk result ((events.new.machine.depth ≡ limits.depth)
        × (events.new.machine.bytes ≡ limits.bytes)) }
    ensures request { IfErr result (λ f. f.reason ≡ Reason.Memory → IsTrue memory.new) }
    ensures kept { OnOk result (memory.new ≡ memory.old) }
    ensures accepted { IfOk result (λ outcome. IfSome (R.remaining reader.old)
        (λ input. IsReadAs limits plain input (view outcome.0) outcome.1)) }
    ensures taken { IfOk result
        (λ outcome. Loses outcome.1 (R.remaining reader.old) (R.remaining reader.new)) }
    ensures bounded { IfOk result (λ outcome. size (view outcome.0) ≤ outcome.1) }
    ensures refused { IfErr result (λ f. IfSome (R.remaining reader.old)
        (λ input. IsUnread limits plain input f)) }
    ensures reason { IfErr result (λ f. IsReaderReason limits plain f.reason) }
    ensures read { IfErr result
        (λ f. Loses f.read (R.remaining reader.old) (R.remaining reader.new)) }
{
    match read_item_prefix(memory, alloc, events, reader, limits) {
        Ok((item, count)) => Ok((Tree::from_valid(item), count)),
        Err(refusal) => Err(refusal),
    }
}
