//! The next event where a key is expected that must be an integer or a text.

ghost use Rattle.std.specs.Prelude.{◌≡◌, ◌≢◌, ◌≤◌, ◌<◌, ◌⊎◌, ◌/◌, ℕ, List, IfErr, IsTrue};
ghost use Rattle.std.specs.Prelude.{false, true};
ghost use Rattle.theory_values.specs.FirstBytes as first_bytes;
ghost use Rattle.theory_automaton.specs.Trace.{Mark};
ghost use Rattle.theory_automaton.specs.Marks.{IsProper};
ghost use Rattle.theory_automaton.specs.Reasons.{IsEventReason};
ghost use Rattle.cbor_machine.specs.Machine.{KeepsLimits, IsIdle, Represents, wanted};
ghost use Rattle.cbor_machine.specs.NextEvent.{AgreesBetween, IfReported, machine_call};
ghost use Rattle.cbor_machine.specs.NextKey.{IsNextKey, IsKeyReason};
ghost use Rattle.cbor_events.specs.inner.Reads.{HasFirst, HasStopped, IsFirstResult, IsTakenAt};
ghost use Rattle.cbor_events.specs.inner.Reads.{IfPartReported, IfStopped};

use crate::item_events::reading::{ARGUMENT, at_end, next_part};
use crate::part::{PartialEvent, read_part};
use cbor_head::{Event, Reason, Refusal};
use cbor_machine::Machine;
use std::io::Read;
use theory_values::is_other_kind;

// The head of a key that must be an integer or a text, or a break.
//
// The kind is judged at the first byte, before more is read. A byte that is allowed there, and
// begins an item that is neither an integer nor a text, is consumed and refused at its offset,
// even if the byte limit is reached with it.
#[inline(never)]
pub(crate) fn key_head<R: Read>(
    machine: &mut Machine,
    reader: &mut R,
) -> Result<Option<Event>, Refusal>
    requires within { machine.old.open_count ≤ machine.old.depth }
    requires head { machine.old.in_payload ≡ false }
    ensures returned { (kept t : List ℕ) (ms : List Mark) → AgreesBetween machine.old t ms
        → IsNextKey result (machine_call machine.old machine.new
        (R.remaining reader.old) (R.remaining reader.new) kept kept t ms) }
    ensures limits { KeepsLimits machine.old machine.new }
    ensures proper { IfReported result (λ e. IsProper e.width e.kind) }
    ensures taken { IfErr result (λ f. machine.new.taken ≡ f.read) }
    ensures reason { IfErr result (λ f. IsKeyReason f.reason) }
    ensures idle { IsIdle machine.old → reader.new ≡ reader.old }
{
    if machine.wanted() == 0 {
        return at_end(machine);
    }
    let place = machine.taken();
    let (part, first) = first_byte(machine, reader);
    if is_other(&part, first, place) {
        return Err(Refusal::new(Reason::KeyKind, place, machine.taken()));
    }
    match part {
        PartialEvent::Reported(event) => Ok(Some(event)),
        PartialEvent::Open => next_part(machine, reader, &mut [0; ARGUMENT]),
        PartialEvent::Stopped(refusal) => Err(refusal),
    }
}

// Reads the first byte of a head. Returns its result and the byte.
fn first_byte<R: Read>(machine: &mut Machine, reader: &mut R) -> (PartialEvent, u8)
    requires wanted { 0 < wanted machine.old }
    requires within { machine.old.open_count ≤ machine.old.depth }
    requires head { machine.old.in_payload ≡ false }
    ensures returned { (kept t : List ℕ) (ms : List Mark) → AgreesBetween machine.old t ms
        → IsFirstResult result.0 (machine_call machine.old machine.new
        (R.remaining reader.old) (R.remaining reader.new) kept kept t ms) }
    ensures lost { (t : List ℕ) (ms : List Mark) → Represents machine.old t ms
        → HasFirst result.0 machine.old machine.new
        (R.remaining reader.old) (R.remaining reader.new) result.1 t ms
        ⊎ HasStopped result.0 machine.old }
    ensures limits { KeepsLimits machine.old machine.new }
    ensures proper { IfPartReported result.0 (λ e. IsProper e.width e.kind) }
    ensures taken { IfStopped result.0 (λ f. machine.new.taken ≡ f.read) }
    ensures reason { IfStopped result.0 (λ f. IsEventReason f.reason) }
{
    let mut first = [0; 1];
    let part = read_part(machine, reader, &mut first, 1);
    (part, first[0])
}

// Whether the byte at this offset was consumed, as the first of an item that is neither an integer
// nor a text.
fn is_other(part: &PartialEvent, first: u8, place: u64) -> bool
    ensures other { result ≡ true → IsTakenAt part.now place
        × ¬ IsTrue (first_bytes.is_basic (first / 32)) × (first ≢ 0xff) }
    ensures basic { result ≡ false → IsTakenAt part.now place
        → IsTrue (first_bytes.is_basic (first / 32)) ⊎ (first ≡ 0xff) }
{
    if !is_other_kind(first) {
        return false;
    }
    match part {
        PartialEvent::Reported(_) | PartialEvent::Open => true,
        PartialEvent::Stopped(refusal) => refusal.place > place,
    }
}
