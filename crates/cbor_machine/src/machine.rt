//! The machine that reads an item byte by byte.

ghost use Rattle.std.specs.Prelude.{◌≡◌, ◌↔◌, ◌≤◌, ◌<◌, ◌+◌, ◌++◌, ℕ, List, [], ◌∷◌, length, take};
ghost use Rattle.std.specs.Prelude.{min, true, false, Some, None, IfSome, IsTrue, is_some, ◌&&◌};
ghost use Rattle.cbor_head.specs.Value.{AreBytes};
ghost use Rattle.theory_automaton.specs.Trace.{Mark};
ghost use Rattle.theory_automaton.specs.Reasons.{IsMachineReason};
ghost use Rattle.cbor_machine.specs.MachineView.{MachineView};
ghost use Rattle.cbor_machine.specs.Machine.{Represents, KeepsLimits, Stays, IsResult, IsComplete};
ghost use Rattle.cbor_machine.specs.Machine.{IsIdle, IsEvent, IsMore, IsDone, IfRefused, piece_of};
ghost use Rattle.cbor_machine.specs.Machine.{IsGiven};
ghost use Rattle.theory_automaton.specs.Marks.{IsProper, times};
ghost use Rattle.cbor_machine.specs.Machine.{wanted};
ghost use Rattle.cbor_machine.specs.AtOnce.{is_taken_at_once, begins_long};
ghost use Rattle.cbor_machine.specs.State.{IsFit, IsSettled, wanted_at, is_at_item, is_in_payload};
ghost use Rattle.cbor_machine.specs.State.{is_done};
ghost use Rattle.cbor_machine.specs.Steps.{IsStep};

mod codes;
mod saved;
mod whole_item;

use crate::container_stack::ContainerStack;
use crate::feed::{FeedResult, walk, walk_whole};
use crate::position::Position;
use crate::step::{Out, Step};
use crate::take_byte::long_at;
use cbor_head::{Event, Limits, Reason, Refusal};
pub use saved::SavedMachine;
use std::marker::Model;

/// Consumes the bytes of one item, in parts of any length, and reports its events.
///
/// It stores the open containers and no byte of the item. No call allocates.
#[derive(Drop)]
pub struct Machine {
    limits: Limits,
    taken: u64,
    reported: u64,
    position: Position,
    container_stack: ContainerStack,
    refusal: Option<Refusal>,
}

impl Model for Machine {
    ghost Value = { MachineView };

    ghost view = { λ m. record {
      depth = m.limits.depth;
      bytes = m.limits.bytes;
      taken = m.taken;
      reported = m.reported;
      open_count = length m.container_stack;
      expected = wanted_at m.position;
      item_expected = is_at_item m.position;
      in_payload = is_in_payload m.position;
      complete = is_done m.position;
      refusal = m.refusal;
      inner = record { position = m.position; frames = m.container_stack };
    } };

    ghost invariant = { λ m. record {
      within : length m.container_stack ≤ m.limits.depth;
      fits : IsFit m.limits.depth m.container_stack m.position;
      taken : m.taken ≤ m.limits.bytes;
      settled : m.refusal ≡ None → IsSettled m.container_stack m.position → m.reported ≡ m.taken;
      stopped : IfSome m.refusal (λ r. (r.read ≡ m.taken) × IsMachineReason r.reason);
    } };
}

impl Machine {
    /// A machine before an item's first byte. It does not check the kinds of keys.
    pub fn new(limits: Limits) -> Machine
        ensures limits { (result.depth ≡ limits.depth) × (result.bytes ≡ limits.bytes) }
        ensures starts { Represents result [] [] }
    {
        Machine {
            limits,
            taken: 0,
            reported: 0,
            position: Position::Item,
            container_stack: ContainerStack::new(),
            refusal: None,
        }
    }

    /// Begins another item within the same limits, in whatever state the machine is.
    pub fn restart(&mut self)
        ensures limits { (self.new.depth ≡ self.old.depth) × (self.new.bytes ≡ self.old.bytes) }
        ensures starts { Represents self.new [] [] }
    {
        self.taken = 0;
        self.reported = 0;
        self.position = Position::Item;
        self.container_stack.clear();
        self.refusal = None;
    }

    /// The number of open arrays, maps and tags. Each is open from its head until its last member or
    /// its break.
    pub fn open(&self) -> usize
        ensures count { result ≡ self.now.open_count }
        ensures within { result ≤ self.now.depth }
    {
        self.container_stack.len()
    }

    /// The number of bytes consumed; after a refusal its `read`.
    pub fn taken(&self) -> u64
        ensures taken { result ≡ self.now.taken }
        ensures within { result ≤ self.now.bytes }
    {
        self.taken
    }

    /// The number of bytes still missing from the open head or payload, or 1 if a head is expected,
    /// at most what the byte limit leaves: a step uses that many, whatever they are. 0 once the item
    /// is complete or refused.
    #[inline(always)]
    pub fn wanted(&self) -> u64
        ensures wanted { result ≡ wanted self.now }
        ensures idle { IsIdle self.now → result ≡ 0 }
    {
        if self.refusal.is_some() {
            return 0;
        }
        let space = self.limits.bytes() - self.taken;
        match self.position {
            Position::Head { left, .. } => space.min(u64::from(left) + 1),
            Position::Payload(_, _, left) => if left < space { left + 1 } else { space },
            Position::Done => 0,
            Position::Item | Position::SimpleNumber | Position::Chunks(_) => space.min(1),
        }
    }

    /// Whether the next bytes belong to a payload.
    #[inline(always)]
    pub fn is_in_payload(&self) -> bool
        ensures { result ≡ self.now.in_payload }
    {
        matches!(self.position, Position::Payload(..))
    }

    /// Whether the first byte of an item's head is expected.
    #[inline(always)]
    pub fn wants_head(&self) -> bool
        ensures expected { result ≡ true ↔ (self.now.item_expected ≡ true) × (0 < wanted self.now) }
        ensures wanted { result ≡ true → wanted self.now ≡ 1 }
        ensures idle { IsIdle self.now → result ≡ false }
    {
        self.refusal.is_none()
            && matches!(self.position, Position::Item)
            && self.taken < self.limits.bytes()
    }

    /// Consumes the head, the argument or the part of a payload that is complete in the input. The
    /// input has at most `wanted` bytes. Returns `None` and consumes nothing if none is complete, or
    /// if no item may have it there.
    #[inline(always)]
    #[tactic(auto, using(crate::proofs::Settled::settled_fit))]
    pub fn take_whole(&mut self, input: &[u8]) -> Option<Event>
        requires some { 0 < length input.now }
        requires wanted { length input.now ≤ wanted self.old }
        ensures returned { IfSome result (λ e. (t : List ℕ) (ms : List Mark)
            → Represents self.old t ms → IsGiven e self.new t input.now ms) }
        ensures proper { IfSome result (λ e. IsProper e.width e.kind) }
        ensures piece { IfSome result (λ e. times e.kind ≤ length input.now) }
        ensures limits { KeepsLimits self.old self.new }
        ensures none { result ≡ None → self.new ≡ self.old }
        ensures exact { is_some result ≡ is_taken_at_once self.old.depth
            self.old.open_count self.old.inner.position input.now }
    {
        below_256(input);
        let depth = usize::from(self.limits.depth());
        let prefix = walk_whole(depth, &mut self.position, &mut self.container_stack, input)?;
        let event = Event {
            place: self.reported,
            width: prefix.width,
            kind: prefix.kind,
        };
        self.taken += prefix.used as u64;
        self.reported = self.taken;
        Some(event)
    }

    /// Consumes the first byte of an item's head, if it has an argument after that byte. Returns
    /// false and consumes nothing for any other byte, or if no item may have it there.
    #[inline(always)]
    pub fn begin_head(&mut self, c: u8) -> bool
        requires { 0 < wanted self.old }
        ensures begun { result ≡ true → (t : List ℕ) (ms : List Mark)
            → Represents self.old t ms → Represents self.new (t ++ c ∷ []) ms }
        ensures limits { KeepsLimits self.old self.new }
        ensures taken { result ≡ true → self.new.taken ≡ self.old.taken + 1 }
        ensures none { result ≡ false → self.new ≡ self.old }
        ensures exact { result ≡ (self.old.item_expected
            && begins_long self.old.depth self.old.open_count c) }
    {
        let Position::Item = self.position else {
            return false;
        };
        let depth = usize::from(self.limits.depth());
        match long_at(depth, &self.container_stack, c) {
            Some(position) => {
                self.position = position;
                self.taken += 1;
                true
            }
            None => false,
        }
    }

    /// Consumes bytes from the start of the input until an event is complete, a byte is refused, or
    /// no byte is left. Once the item is complete or refused, it uses nothing and returns the same
    /// result.
    #[inline(always)]
    pub fn step(&mut self, input: &[u8]) -> Step
        ensures used { (result.used ≤ length input.now)
            × (self.new.taken ≡ self.old.taken + result.used) }
        ensures limits { KeepsLimits self.old self.new }

        // For all bytes and marks that the machine represented.
        ensures returned { (t : List ℕ) (ms : List Mark) → Represents self.old t ms
            → IsResult result.out self.new t (take result.used input.now) ms }

        // At most the expected bytes: all are used. Of a payload, the lesser of the input's length
        // and what is expected.
        ensures wanted { (length input.now ≤ wanted self.old → result.used ≡ length input.now)
            × (self.old.in_payload ≡ true
            → result.used ≡ min (length input.now) (wanted self.old)) }
        ensures event { (IsEvent result.out → 0 < result.used)
            × (piece_of result.out ≤ result.used) }
        ensures more { IsMore result.out → (result.used ≡ length input.now)
            × (self.new.taken < self.new.bytes) × (0 < wanted self.old) × (0 < wanted self.new) }
        ensures refused { IfRefused result.out (λ r. (self.new.refusal ≡ Some r)
            × (self.new.taken ≡ r.read) × IsMachineReason r.reason) }
        ensures stays { Stays result self.old self.new }
    {
        take_part(self, input)
    }
}

/// A step, with a contract that also says what becomes of the inner state.
#[inline(always)]
#[tactic(auto, using(crate::proofs::Settled::settled_fit))]
pub fn take_part(machine: &mut Machine, input: &[u8]) -> Step
    ensures used { result.used ≤ length input.now }
    ensures taken { machine.new.taken ≡ machine.old.taken + result.used }
    ensures limits { KeepsLimits machine.old machine.new }
    ensures walked { machine.old.refusal ≡ None
        → IsStep result.out machine.old machine.new (take result.used input.now) }
    ensures returned { (t : List ℕ) (ms : List Mark) → Represents machine.old t ms
        → IsResult result.out machine.new t (take result.used input.now) ms }
    ensures progress { IsEvent result.out → 0 < result.used }
    ensures piece { piece_of result.out ≤ result.used }
    ensures whole { IsMore result.out
        → (result.used ≡ length input.now) × (machine.new.taken < machine.new.bytes) }
    ensures done { IsDone result.out ↔ IsComplete machine.old }
    ensures stays { IsComplete machine.old → (result.used ≡ 0) × (machine.new ≡ machine.old) }
    ensures refused { IfRefused result.out
        (λ r. (machine.new.refusal ≡ Some r) × (machine.new.taken ≡ r.read)) }
    ensures reason { IfRefused result.out (λ r. IsMachineReason r.reason) }
    ensures again { IfSome machine.old.refusal
        (λ r. (result.out ≡ Out.Refused r) × (result.used ≡ 0) × (machine.new ≡ machine.old)) }
    ensures exact { length input.now ≤ wanted machine.old → result.used ≡ length input.now }
    ensures payload { machine.old.in_payload ≡ true
        → result.used ≡ min (length input.now) (wanted machine.old) }
    ensures idle { IsMore result.out → 0 < wanted machine.old }
    ensures expected { IsMore result.out → 0 < wanted machine.new }
{
    below_256(input);
    if let Some(refusal) = machine.refusal {
        let out = Out::Refused(refusal);
        return Step { used: 0, out };
    }
    if let Position::Done = machine.position {
        let out = Out::Done;
        return Step { used: 0, out };
    }
    let bytes = machine.limits.bytes();
    let depth = usize::from(machine.limits.depth());
    let end = part(input.len(), bytes - machine.taken);
    let prefix = &input[..end];
    let (used, walked) = walk(
        depth,
        &mut machine.position,
        &mut machine.container_stack,
        prefix,
    );
    machine.taken += used as u64;
    match walked {
        FeedResult::Reported(width, kind) => {
            let place = machine.reported;
            machine.reported = machine.taken;
            let out = Out::Event(Event { place, width, kind });
            Step { used, out }
        }
        FeedResult::More => {
            if machine.taken < bytes {
                let out = Out::More;
                return Step { used, out };
            }
            let refusal = Refusal::new(Reason::TooLong, bytes, bytes);
            machine.refusal = Some(refusal);
            let out = Out::Refused(refusal);
            Step { used, out }
        }
        FeedResult::Refused(reason) => {
            let refusal = Refusal::new(reason, machine.taken - 1, machine.taken);
            machine.refusal = Some(refusal);
            let out = Out::Refused(refusal);
            Step { used, out }
        }
    }
}

#[inline(always)]
fn part(len: usize, space: u64) -> usize
    ensures { result ≡ min len space }
{
    if space < len as u64 {
        space as usize
    } else {
        len
    }
}

/// States that bytes are below 256, as the contracts of a step require. Nothing runs.
pub fn below_256(bytes: &[u8])
    ensures { AreBytes bytes.now }
{}
