//! The events of one item, from a reader that is passed to each call.

ghost use Rattle.std.specs.Prelude.{◌≡◌, ◌≤◌, ◌<◌, ℕ, List, [], length, take, None, Some, OnOk};
ghost use Rattle.std.specs.Prelude.{OnErr, IfErr, IfSome, Err, Option, true, false};
ghost use Rattle.theory_automaton.specs.Trace.{Mark};
ghost use Rattle.theory_automaton.specs.Marks.{IsProper};
ghost use Rattle.theory_automaton.specs.Reasons.{IsEventReason};
ghost use Rattle.cbor_machine.specs.Machine.{KeepsLimits, IsIdle, wanted};
ghost use Rattle.cbor_machine.specs.NextEvent.{ItemEventsView, AgreesBetween, IfReported, IsNext};
ghost use Rattle.cbor_machine.specs.NextEvent.{call};
ghost use Rattle.cbor_machine.specs.NextKey.{IsKeyReason, IsNextOf};

mod key;
mod reading;

use crate::item_events::key::key_head;
use crate::item_events::reading::advance;
use cbor_head::{Event, Limits, Refusal};
use cbor_machine::Machine;
use std::io::Read;
use std::marker::Model;

// A payload is read in parts of at most this number of bytes.
pub(crate) const PART: usize = 512;

/// The events of one item, from a reader that is passed to each call of [`next`](ItemEvents::next).
///
/// No byte after the item is read, nor one beyond the byte limit. No call allocates.
#[derive(Drop)]
pub struct ItemEvents {
    machine: Machine,
    // The last piece is at its start.
    buffer: [u8; PART],
    held: usize,
    refusal: Option<Refusal>,
}

impl Model for ItemEvents {
    ghost Value = { ItemEventsView };

    ghost view = { λ e. record {
      machine = e.machine;
      piece = take e.held e.buffer;
      refusal = e.refusal;
    } };

    ghost invariant = { λ e. record {
      fits : e.held ≤ 512;
      within : e.machine.open_count ≤ e.machine.depth;
      limited : e.machine.taken ≤ e.machine.bytes;
      stopped : IfSome e.refusal
          (λ f. (f.read ≡ e.machine.taken) × (e.held ≡ 0) × IsKeyReason f.reason);
    } };
}

impl ItemEvents {
    /// The events of an item whose first byte was not read yet. The caller decides which kinds of
    /// keys its maps may have, by calling `next_by_kind`.
    pub fn new(limits: Limits) -> ItemEvents
        ensures starts { AgreesBetween result.machine [] [] }
        ensures limits { (result.machine.depth ≡ limits.depth)
            × (result.machine.bytes ≡ limits.bytes) }
        ensures piece { result.piece ≡ [] }
        ensures live { result.refusal ≡ None }
    {
        ItemEvents {
            machine: Machine::new(limits),
            buffer: [0; PART],
            held: 0,
            refusal: None,
        }
    }

    /// Begins the events of another item within the same limits, in whatever state this is.
    pub fn restart(&mut self)
        ensures starts { AgreesBetween self.new.machine [] [] }
        ensures limits { KeepsLimits self.old.machine self.new.machine }
        ensures piece { self.new.piece ≡ [] }
        ensures live { self.new.refusal ≡ None }
    {
        self.machine.restart();
        self.held = 0;
        self.refusal = None;
    }

    /// Returns the next event, after reading its bytes. Returns `None` once the item is complete,
    /// and then reads nothing.
    ///
    /// It reads one byte of a head, then the rest of the head's argument. Of a payload it reads
    /// what is left, at most 512 bytes. A `read` of 0 bytes is the end of the input: `Truncated`.
    /// An error of `read`, `Interrupted` too, is `Read`. After a refusal every later call returns
    /// it again and reads nothing.
    #[inline(always)]
    pub fn next<R: Read>(&mut self, reader: &mut R) -> Result<Option<Event>, Refusal>
        // For all bytes and marks that the machine represented, as long as nothing was refused.
        ensures returned { self.old.refusal ≡ None
            → (t : List ℕ) (ms : List Mark) → AgreesBetween self.old.machine t ms
            → IsNext result
            (call self.old self.new (R.remaining reader.old) (R.remaining reader.new) t ms) }
        ensures limits { KeepsLimits self.old.machine self.new.machine }
        ensures proper { IfReported result (λ e. IsProper e.width e.kind) }
        ensures live { OnOk result (self.new.refusal ≡ None) }
        ensures refused { IfErr result (λ f. (self.new.refusal ≡ Some f)
            × (self.new.machine.taken ≡ f.read)) }
        ensures reason { self.old.refusal ≡ None → IfErr result (λ f. IsEventReason f.reason) }
        ensures emptied { OnErr result (self.new.piece ≡ []) }

        // If nothing is expected, the reader is not touched, nor after a refusal.
        ensures idle { IsIdle self.old.machine → reader.new ≡ reader.old }
        ensures again { IfSome self.old.refusal
            (λ f. (result ≡ Err f) × (self.new ≡ self.old) × (reader.new ≡ reader.old)) }
    {
        self.next_by_kind(false, reader)
    }

    /// Returns the next event, as [`next`](ItemEvents::next) does. If `is_asked`, a key or a break
    /// must be expected, and the key must be an integer or a text.
    ///
    /// The kind of that key is judged at its first byte, before more is read. A first byte that is
    /// allowed there and begins an item of another kind is consumed, and refused at its offset with
    /// `KeyKind`, even if the byte limit is reached with it.
    #[inline(always)]
    pub fn next_by_kind<R: Read>(
        &mut self,
        is_asked: bool,
        reader: &mut R,
    ) -> Result<Option<Event>, Refusal>
        // If the kind is judged, no payload is open.
        requires head { is_asked ≡ true → self.old.refusal ≡ None
            → self.old.machine.in_payload ≡ false }
        // For all bytes and marks that the machine represented, as long as nothing was refused.
        ensures returned { self.old.refusal ≡ None
            → (t : List ℕ) (ms : List Mark) → AgreesBetween self.old.machine t ms
            → IsNextOf is_asked result
            (call self.old self.new (R.remaining reader.old) (R.remaining reader.new) t ms) }
        ensures limits { KeepsLimits self.old.machine self.new.machine }
        ensures proper { IfReported result (λ e. IsProper e.width e.kind) }
        ensures live { OnOk result (self.new.refusal ≡ None) }
        ensures refused { IfErr result (λ f. (self.new.refusal ≡ Some f)
            × (self.new.machine.taken ≡ f.read) × IsKeyReason f.reason) }
        ensures form { is_asked ≡ false → self.old.refusal ≡ None
            → IfErr result (λ f. IsEventReason f.reason) }
        ensures emptied { OnErr result (self.new.piece ≡ []) }

        // If nothing is expected, the reader is not touched, nor after a refusal.
        ensures idle { IsIdle self.old.machine → reader.new ≡ reader.old }
        ensures again { IfSome self.old.refusal
            (λ f. (result ≡ Err f) × (self.new ≡ self.old) × (reader.new ≡ reader.old)) }
    {
        if let Some(refusal) = self.refusal {
            return Err(refusal);
        }
        let outcome = if is_asked {
            key_head(&mut self.machine, reader)
        } else {
            advance(&mut self.machine, reader, &mut self.buffer, &mut self.held)
        };
        match outcome {
            Ok(event) => Ok(event),
            Err(refusal) => {
                self.refusal = Some(refusal);
                self.held = 0;
                Err(refusal)
            }
        }
    }

    /// The bytes of the last `Piece`. Empty before the first one, and after a refusal.
    pub fn piece(&self) -> &[u8]
        ensures piece { result.now ≡ self.now.piece }
        ensures within { length result.now ≤ 512 }
    {
        &self.buffer[..self.held]
    }

    /// The number of open arrays, maps and tags. Each is open from its head until its last member
    /// or its break.
    pub fn open(&self) -> usize
        ensures count { result ≡ self.now.machine.open_count }
        ensures within { result ≤ self.now.machine.depth }
    {
        self.machine.open()
    }

    /// The number of bytes consumed; after a refusal its `read`.
    pub fn taken(&self) -> u64
        ensures taken { result ≡ self.now.machine.taken }
        ensures within { result ≤ self.now.machine.bytes }
    {
        self.machine.taken()
    }
}
