//! The events of one item by the strict rules, from a reader that is passed to each call.

ghost use Rattle.std.specs.Prelude.{◌≡◌, ◌≤◌, ℕ, List, [], length, None, Some, Err, false};
ghost use Rattle.std.specs.Prelude.{IsTrue, IfErr, IfSome, OnOk, OnErr};
ghost use Rattle.cbor_head.specs.Complaint.{strict};
ghost use Rattle.cbor_head.specs.declared.reason.Reason.TheVariants as reasons;
ghost use Rattle.theory_automaton.specs.Trace.{Mark};
ghost use Rattle.theory_automaton.specs.Marks.{IsProper};
ghost use Rattle.cbor_machine.specs.Machine.{KeepsLimits, IsIdle};
ghost use Rattle.cbor_machine.specs.NextEvent.{IfReported};
ghost use Rattle.theory_verdicts.specs.Refusals.{IsReaderReason};
ghost use Rattle.cbor_strict.specs.StrictReader.{StrictEventsView, AgreesStrictly};
ghost use Rattle.cbor_strict.specs.StrictReader.{IsNextStrict, limits_of, strict_call};
ghost use Rattle.cbor_strict.specs.inner.LastKeys.{view_value};
ghost use Rattle.cbor_strict.specs.inner.StrictEvents.{AreWithinBounds, piece_unless};

use crate::next_event::next_event;
use crate::open_items::OpenItems;
use cbor_events::ItemEvents;
use cbor_head::{Event, KeyOrder, Keys, Limits, Refusal};
use cbor_memory::Memory;
use std::alloc::Global;
use std::io::Read;
use std::marker::Model;

/// The events of one item by the rules of the deterministic encoding, and the last keys of its open
/// maps.
///
/// There is at most one frame, and at most one span, for each open container; so there are never
/// more of either than the depth limit allows.
#[derive(Drop)]
pub struct StrictEvents {
    events: ItemEvents,
    items: OpenItems,
    keys: Keys,
    refusal: Option<Refusal>,
}

impl Model for StrictEvents {
    ghost Value = { StrictEventsView };

    ghost view = { λ e. record {
      machine = e.events.machine;
      piece = piece_unless e.refusal e.events.piece;
      order = e.items.order;
      keys = e.keys;
      spans = length (view_value e.items.keys).spans;
      kept = length (view_value e.items.keys).bytes;
      refusal = e.refusal;
      refused = e.items.memory;
      inner = record { events = e.events; items = e.items };
    } };

    ghost invariant = { λ e. AreWithinBounds e.events e.items e.keys e.refusal };
}

impl StrictEvents {
    /// The events of an item of which nothing was read. Allocates nothing.
    pub fn new(alloc: Global, limits: Limits, order: KeyOrder) -> StrictEvents
        ensures starts { AgreesStrictly result [] [] }
        ensures limits { limits_of result ≡ limits }
        ensures order { result.order ≡ order }
        ensures piece { result.piece ≡ [] }
        ensures memory { result.refused ≡ false }
    {
        StrictEvents {
            events: ItemEvents::new(limits),
            items: OpenItems::new(alloc, order),
            keys: limits.keys(),
            refusal: None,
        }
    }

    // Starts again with another item within the same limits, in any state.
    pub(crate) fn restart(&mut self, order: KeyOrder)
        ensures starts { AgreesStrictly self.new [] [] }
        ensures limits { limits_of self.new ≡ limits_of self.old }
        ensures order { self.new.order ≡ order }
        ensures memory { self.new.refused ≡ false }
    {
        self.events.restart();
        self.items.restart(order);
        self.refusal = None;
    }

    // The next event, as `StrictReader::next` returns it.
    pub(crate) fn next<R: Read>(&mut self, reader: &mut R) -> Result<Option<Event>, Refusal>
        // For all bytes and marks of the events reported before.
        ensures returned { (t : List ℕ) (ms : List Mark) → AgreesStrictly self.old t ms
            → IsNextStrict result (strict_call self.old self.new
            (R.remaining reader.old) (R.remaining reader.new) t ms) }
        ensures limits { KeepsLimits self.old.machine self.new.machine }
        ensures order { self.new.order ≡ self.old.order }
        ensures keys { self.new.keys ≡ self.old.keys }
        ensures proper { IfReported result (λ e. IsProper e.width e.kind) }
        ensures live { OnOk result (self.new.refusal ≡ None) }
        ensures refused { IfErr result (λ f. (self.new.refusal ≡ Some f)
            × (self.new.machine.taken ≡ f.read)
            × IsReaderReason (limits_of self.old) (strict self.old.order) f.reason) }
        ensures emptied { OnErr result ((self.new.piece ≡ [])
            × (self.new.spans ≡ 0) × (self.new.kept ≡ 0)) }
        ensures memory { IfErr result (λ f. f.reason ≡ reasons.Memory → IsTrue self.new.refused) }
        ensures granted { OnOk result (self.new.refused ≡ self.old.refused) }

        // If nothing is expected, and after a refusal, the reader is not called.
        ensures idle { IsIdle self.old.machine → reader.new ≡ reader.old }
        ensures again { IfSome self.old.refusal
            (λ f. (result ≡ Err f) × (self.new ≡ self.old) × (reader.new ≡ reader.old)) }
    {
        match self.refusal {
            Some(refusal) => return Err(refusal),
            None => {}
        }
        match next_event(&mut self.events, &mut self.items, self.keys, reader) {
            Ok(event) => Ok(event),
            Err(refusal) => {
                self.refusal = Some(refusal);
                self.items.keys.forget();
                Err(refusal)
            }
        }
    }

    // The bytes of the last `Piece`; none before one, and none after a refusal.
    pub(crate) fn piece(&self) -> &[u8]
        ensures piece { result.now ≡ self.now.piece }
        ensures within { length result.now ≤ 512 }
    {
        match self.refusal {
            None => self.events.piece(),
            Some(_) => &[],
        }
    }

    // Whether a request for memory was refused.
    pub(crate) fn memory(&self) -> &Memory
        ensures { result.now ≡ self.now.refused }
    {
        &self.items.memory
    }

    // The number of arrays, maps and tags that are open.
    pub(crate) fn open(&self) -> usize
        ensures count { result ≡ self.now.machine.open_count }
        ensures within { result ≤ self.now.machine.depth }
    {
        self.events.open()
    }

    // The number of bytes consumed.
    pub(crate) fn taken(&self) -> u64
        ensures taken { result ≡ self.now.machine.taken }
        ensures within { result ≤ self.now.machine.bytes }
    {
        self.events.taken()
    }

    // The number of maps whose last complete key is stored.
    pub(crate) fn spans(&self) -> usize
        ensures count { result ≡ self.now.spans }
        ensures within { result ≤ self.now.machine.open_count }
        ensures limited { result ≤ self.now.machine.depth }
    {
        self.items.keys.spans()
    }

    // The number of bytes of keys stored.
    pub(crate) fn kept(&self) -> u64
        ensures count { result ≡ self.now.kept }
        ensures within { result ≤ self.now.machine.taken }
    {
        self.items.keys.kept() as u64
    }
}
