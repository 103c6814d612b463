//! A reader together with the events of its current item.

ghost use Rattle.std.specs.Prelude.{◌≡◌, ◌≤◌, ℕ, List, [], length, None, Some, OnOk, OnErr, IfErr};
ghost use Rattle.std.specs.Prelude.{IfSome, Err};
ghost use Rattle.theory_automaton.specs.Trace.{Mark};
ghost use Rattle.theory_automaton.specs.Marks.{IsProper};
ghost use Rattle.theory_automaton.specs.Reasons.{IsEventReason};
ghost use Rattle.cbor_machine.specs.Machine.{KeepsLimits, IsIdle};
ghost use Rattle.cbor_machine.specs.NextEvent.{AgreesBetween, IfReported, IsNext, call};
ghost use Rattle.cbor_events.specs.EventReader.{EventReaderView};

use crate::item_events::ItemEvents;
use cbor_head::{Event, Limits, Refusal};
use std::io::Read;
use std::marker::Model;

/// The events of one item from a reader, as [`ItemEvents`] reports them.
#[derive(Drop)]
pub struct EventReader<R> {
    reader: R,
    events: ItemEvents,
}

impl<R> Model for EventReader<R> {
    ghost Value = { EventReaderView R };

    ghost view = { λ e. record { reader = e.reader; events = e.events } };

    ghost invariant = { λ e. IfSome e.events.refusal (λ f. IsEventReason f.reason) };
}

impl<R: Read> EventReader<R> {
    /// The events of the reader's next item. Its maps may have keys of any kind.
    pub fn new(reader: R, limits: Limits) -> EventReader<R>
        ensures starts { AgreesBetween result.events.machine [] [] }
        ensures limits { (result.events.machine.depth ≡ limits.depth)
            × (result.events.machine.bytes ≡ limits.bytes) }
        ensures piece { result.events.piece ≡ [] }
        ensures live { result.events.refusal ≡ None }
        ensures same { result.reader ≡ reader }
    {
        EventReader {
            reader,
            events: ItemEvents::new(limits),
        }
    }

    /// Returns the next event, after reading its bytes. Returns `None` once the item is complete,
    /// and then reads nothing.
    ///
    /// [`ItemEvents::next`] says what is read, and when.
    pub fn next(&mut self) -> Result<Option<Event>, Refusal>
        // For all bytes and marks that the machine represented, as long as nothing was refused.
        ensures returned { self.old.events.refusal ≡ None
            → (t : List ℕ) (ms : List Mark) → AgreesBetween self.old.events.machine t ms
            → IsNext result (call self.old.events self.new.events
            (R.remaining self.old.reader) (R.remaining self.new.reader) t ms) }
        ensures limits { KeepsLimits self.old.events.machine self.new.events.machine }
        ensures proper { IfReported result (λ e. IsProper e.width e.kind) }
        ensures live { OnOk result (self.new.events.refusal ≡ None) }
        ensures refused { IfErr result (λ f. (self.new.events.refusal ≡ Some f)
            × (self.new.events.machine.taken ≡ f.read) × IsEventReason f.reason) }
        ensures emptied { OnErr result (self.new.events.piece ≡ []) }

        // If nothing is expected, the reader is not touched, nor after a refusal.
        ensures idle { IsIdle self.old.events.machine → self.new.reader ≡ self.old.reader }
        ensures again { IfSome self.old.events.refusal
            (λ f. (result ≡ Err f) × (self.new ≡ self.old)) }
    {
        self.events.next(&mut self.reader)
    }

    /// The bytes of the last `Piece`. Empty before the first one, and after a refusal.
    pub fn piece(&self) -> &[u8]
        ensures piece { result.now ≡ self.now.events.piece }
        ensures within { length result.now ≤ 512 }
    {
        self.events.piece()
    }

    /// The number of open arrays, maps and tags. Each is open from its head until its last member
    /// or its break.
    pub fn open(&self) -> usize
        ensures count { result ≡ self.now.events.machine.open_count }
        ensures within { result ≤ self.now.events.machine.depth }
    {
        self.events.open()
    }

    /// The number of bytes consumed; after a refusal its `read`.
    pub fn taken(&self) -> u64
        ensures taken { result ≡ self.now.events.machine.taken }
        ensures within { result ≤ self.now.events.machine.bytes }
    {
        self.events.taken()
    }
}
