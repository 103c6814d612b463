//! The item at the start of an input, if it is canonical: its length, or its events.

ghost use Rattle.std.specs.Prelude.{◌≡◌, ◌≢◌, ◌≤◌, ℕ, List, [], length, None, Some, Err, false};
ghost use Rattle.std.specs.Prelude.{IsTrue, IfOk, IfErr, IfSome, OnOk, OnErr};
ghost use Rattle.cbor_head.specs.Complaint.{strict};
ghost use Rattle.cbor_head.specs.declared.reason.Reason.TheVariants as reasons;
ghost use Rattle.theory_automaton.specs.Trace.{Mark};
ghost use Rattle.theory_automaton.specs.Marks.{IsProper};
ghost use Rattle.cbor_machine.specs.Machine.{KeepsLimits, IsIdle};
ghost use Rattle.cbor_machine.specs.NextEvent.{IfReported};
ghost use Rattle.theory_verdicts.specs.Readers.{IsRead, IsUnread, IsCanonicalPrefix};
ghost use Rattle.theory_verdicts.specs.Readers.{HasNoCanonicalPrefix, Loses};
ghost use Rattle.theory_verdicts.specs.Refusals.{IsReaderReason};
ghost use Rattle.cbor_strict.specs.StrictReader.{StrictReaderView, AgreesStrictly};
ghost use Rattle.cbor_strict.specs.StrictReader.{IsNextStrict, limits_of, strict_call};

use crate::strict_events::StrictEvents;
use cbor_head::{Event, KeyOrder, Limits, Refusal};
use cbor_memory::Memory;
use std::alloc::Global;
use std::io::Read;
use std::marker::Model;

/// Returns the size in bytes of the item that the reader's bytes begin with, if they are its canonical
/// bytes in this order (RFC 8949, sections 4.2.1 and 4.2.3).
///
/// No byte after the item is read. The refusal is that of the bytes within the limits, by the rules of
/// the deterministic encoding; or `Read` or `Memory`, if the reader failed or memory was refused before
/// that, with the number of bytes consumed as `place`. After a refusal the number of bytes consumed is
/// its `read`. There are never more open containers than the depth limit allows: that is an invariant of
/// the events that it reads.
pub fn read_strict<R: Read>(
    alloc: Global,
    reader: &mut R,
    limits: Limits,
    order: KeyOrder,
) -> Result<u64, Refusal>
    ensures accepted { IfOk result (λ count. IfSome (R.remaining reader.old)
        (λ input. IsRead limits (strict order) input count)) }
    ensures canonical { IfOk result (λ count. IfSome (R.remaining reader.old)
        (λ input. IsCanonicalPrefix limits order input count)) }
    ensures taken { IfOk result
        (λ count. Loses count (R.remaining reader.old) (R.remaining reader.new)) }
    ensures refused { IfErr result (λ f. IfSome (R.remaining reader.old)
        (λ input. IsUnread limits (strict order) input f)) }
    ensures reason { IfErr result (λ f. IsReaderReason limits (strict order) f.reason) }
    ensures no_canonical { IfErr result (λ f. f.reason ≢ reasons.Read → f.reason ≢ reasons.Memory
        → IfSome (R.remaining reader.old)
        (HasNoCanonicalPrefix limits order)) }
    ensures read { IfErr result
        (λ f. Loses f.read (R.remaining reader.old) (R.remaining reader.new)) }
{
    read_strict_in(&mut Memory::new(), alloc, reader, limits, order)
}

/// Returns what [`read_strict`] returns, and records in `memory` whether a request for memory was refused. The refusal is
/// `Memory` only if one was. Pass a new `Memory` to learn whether this call was refused memory: if `memory` records a
/// refusal already, the clause `request` says nothing.
pub fn read_strict_in<R: Read>(
    memory: &mut Memory,
    alloc: Global,
    reader: &mut R,
    limits: Limits,
    order: KeyOrder,
) -> Result<u64, Refusal>
    ensures accepted { IfOk result (λ count. IfSome (R.remaining reader.old)
        (λ input. IsRead limits (strict order) input count)) }
    ensures canonical { IfOk result (λ count. IfSome (R.remaining reader.old)
        (λ input. IsCanonicalPrefix limits order input count)) }
    ensures taken { IfOk result
        (λ count. Loses count (R.remaining reader.old) (R.remaining reader.new)) }
    ensures refused { IfErr result (λ f. IfSome (R.remaining reader.old)
        (λ input. IsUnread limits (strict order) input f)) }
    ensures reason { IfErr result (λ f. IsReaderReason limits (strict order) f.reason) }
    ensures no_canonical { IfErr result (λ f. f.reason ≢ reasons.Read → f.reason ≢ reasons.Memory
        → IfSome (R.remaining reader.old)
        (HasNoCanonicalPrefix limits order)) }
    ensures read { IfErr result
        (λ f. Loses f.read (R.remaining reader.old) (R.remaining reader.new)) }
    ensures request { IfErr result (λ f. f.reason ≡ reasons.Memory → IsTrue memory.new) }
    ensures kept { OnOk result (memory.new ≡ memory.old) }
{
    let mut events = StrictEvents::new(alloc, limits, order);
    let result = read_strict_by(&mut events, reader, order);
    memory.include(events.memory());
    result
}

/// Checks an item by events that the caller reuses for each item, in any state.
pub fn read_strict_by<R: Read>(
    events: &mut StrictEvents,
    reader: &mut R,
    order: KeyOrder,
) -> Result<u64, Refusal>
    ensures limits { limits_of events.new ≡ limits_of events.old }
    ensures accepted { IfOk result (λ count. IfSome (R.remaining reader.old)
        (λ input. IsRead (limits_of events.old) (strict order) input count)) }
    ensures canonical { IfOk result (λ count. IfSome (R.remaining reader.old)
        (λ input. IsCanonicalPrefix (limits_of events.old) order input count)) }
    ensures taken { IfOk result
        (λ count. Loses count (R.remaining reader.old) (R.remaining reader.new)) }
    ensures refused { IfErr result (λ f. IfSome (R.remaining reader.old)
        (λ input. IsUnread (limits_of events.old) (strict order) input f)) }
    ensures reason { IfErr result
        (λ f. IsReaderReason (limits_of events.old) (strict order) f.reason) }
    ensures no_canonical { IfErr result (λ f. f.reason ≢ reasons.Read → f.reason ≢ reasons.Memory
        → IfSome (R.remaining reader.old)
        (HasNoCanonicalPrefix (limits_of events.old) order)) }
    ensures read { IfErr result
        (λ f. Loses f.read (R.remaining reader.old) (R.remaining reader.new)) }
    ensures memory { IfErr result (λ f. f.reason ≡ reasons.Memory → IsTrue events.new.refused) }
    ensures granted { OnOk result (events.new.refused ≡ false) }
{
    events.restart(order);
    'events: loop {
        match events.next(reader) {
            Ok(Some(_)) => {}
            Ok(None) => return Ok(events.taken()),
            Err(refusal) => return Err(refusal),
        }
    }
}

/// A reader together with the events of the item that it is at, by the rules of the deterministic
/// encoding in an order (RFC 8949, sections 4.2.1 and 4.2.3).
///
/// The events are those of [`EventReader`](cbor_events::EventReader). If a complaint ends with an event,
/// for example when a complete key does not sort after the one before, the refusal is reported instead.
/// Of a key of a kind that the limits do not allow, only the first byte is read, and no event is
/// reported. The memory grows only with the open maps and their keys: it holds the last complete key of
/// each open map and its offset, and a key that is not complete from its first byte on, each byte once
/// however many maps it is in.
#[derive(Drop)]
pub struct StrictReader<R> {
    reader: R,
    events: StrictEvents,
}

impl<R> Model for StrictReader<R> {
    ghost Value = { StrictReaderView R };

    ghost view = { λ e. record { reader = e.reader; events = e.events } };
}

impl<R: Read> StrictReader<R> {
    /// The events of the item that the reader is at. Allocates nothing.
    pub fn new(alloc: Global, reader: R, limits: Limits, order: KeyOrder) -> StrictReader<R>
        ensures starts { AgreesStrictly result.events [] [] }
        ensures limits { (result.events.machine.depth ≡ limits.depth)
            × (result.events.machine.bytes ≡ limits.bytes) }
        ensures order { result.events.order ≡ order }
        ensures keys { result.events.keys ≡ limits.keys }
        ensures piece { result.events.piece ≡ [] }
        ensures memory { result.events.refused ≡ false }
        ensures same { result.reader ≡ reader }
    {
        StrictReader {
            reader,
            events: StrictEvents::new(alloc, limits, order),
        }
    }

    /// Reads and returns the next event. None once the item is complete, and then nothing is read.
    ///
    /// It reads one byte of a head, then the rest of its argument; of a payload what is left, at most
    /// 512 bytes. The refusal is the one that [`read_strict`] returns for the bytes consumed and those
    /// that the reader holds. After a refusal every later call returns it again and reads nothing.
    pub fn next(&mut self) -> Result<Option<Event>, Refusal>
        // For all bytes and marks of the events reported before.
        ensures returned { (t : List ℕ) (ms : List Mark) → AgreesStrictly self.old.events t ms
            → IsNextStrict result (strict_call self.old.events self.new.events
            (R.remaining self.old.reader) (R.remaining self.new.reader) t ms) }
        ensures limits { KeepsLimits self.old.events.machine self.new.events.machine }
        ensures order { self.new.events.order ≡ self.old.events.order }
        ensures keys { self.new.events.keys ≡ self.old.events.keys }
        ensures proper { IfReported result (λ e. IsProper e.width e.kind) }
        ensures live { OnOk result (self.new.events.refusal ≡ None) }
        ensures refused { IfErr result (λ f. (self.new.events.refusal ≡ Some f)
            × (self.new.events.machine.taken ≡ f.read)
            × IsReaderReason (limits_of self.old.events) (strict self.old.events.order) f.reason) }
        ensures emptied { OnErr result ((self.new.events.piece ≡ [])
            × (self.new.events.spans ≡ 0) × (self.new.events.kept ≡ 0)) }
        ensures memory { IfErr result
            (λ f. f.reason ≡ reasons.Memory → IsTrue self.new.events.refused) }
        ensures granted { OnOk result (self.new.events.refused ≡ self.old.events.refused) }

        // If nothing is expected, and after a refusal, the reader is not called.
        ensures idle { IsIdle self.old.events.machine → self.new.reader ≡ self.old.reader }
        ensures again { IfSome self.old.events.refusal
            (λ f. (result ≡ Err f) × (self.new ≡ self.old)) }
    {
        self.events.next(&mut self.reader)
    }

    /// The bytes of the last `Piece`; none before one, and none after a refusal.
    pub fn piece(&self) -> &[u8]
        ensures piece { result.now ≡ self.now.events.piece }
        ensures within { length result.now ≤ 512 }
    {
        self.events.piece()
    }

    /// The number of arrays, maps and tags that are open: from its head until its last member.
    pub fn open(&self) -> usize
        ensures count { result ≡ self.now.events.machine.open_count }
        ensures within { result ≤ self.now.events.machine.depth }
    {
        self.events.open()
    }

    /// The number of bytes consumed; after a refusal its `read`.
    pub fn taken(&self) -> u64
        ensures taken { result ≡ self.now.events.machine.taken }
        ensures within { result ≤ self.now.events.machine.bytes }
    {
        self.events.taken()
    }

    /// The number of maps whose last complete key is stored: all that are open, and none after a
    /// refusal.
    pub fn spans(&self) -> usize
        ensures count { result ≡ self.now.events.spans }
        ensures within { result ≤ self.now.events.machine.open_count }
        ensures limited { result ≤ self.now.events.machine.depth }
    {
        self.events.spans()
    }

    /// The number of bytes of keys stored: those of the last complete key of each open map and of the
    /// keys that are not complete, each once; none after a refusal.
    pub fn kept(&self) -> u64
        ensures count { result ≡ self.now.events.kept }
        ensures within { result ≤ self.now.events.machine.taken }
    {
        self.events.kept()
    }
}
