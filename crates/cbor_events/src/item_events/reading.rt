//! What a call for the next event reads.

ghost use Rattle.std.specs.Prelude.{◌≡◌, ◌≤◌, ◌<◌, ℕ, List, [], length, take, None, Some};
ghost use Rattle.std.specs.Prelude.{IfErr, Err, Option, false};
ghost use Rattle.theory_automaton.specs.Trace.{Mark};
ghost use Rattle.theory_automaton.specs.Marks.{IsProper};
ghost use Rattle.theory_automaton.specs.Reasons.{IsEventReason};
ghost use Rattle.cbor_machine.specs.MachineView.{MachineView};
ghost use Rattle.cbor_machine.specs.Machine.{KeepsLimits, IsIdle, wanted};
ghost use Rattle.cbor_machine.specs.NextEvent.{AgreesBetween, IfReported, IsNext};
ghost use Rattle.cbor_machine.specs.NextEvent.{machine_call};
ghost use Rattle.cbor_machine.specs.Calls.{HasRead, piece_after, piece_size};
ghost use Rattle.cbor_machine.specs.Machine.{Represents};
ghost use Rattle.cbor_events.specs.inner.Reads.{IfGiven};

use crate::item_events::PART;
use crate::part::{PartialEvent, read_part};
use cbor_head::{Event, EventKind, Refusal};
use cbor_machine::{Machine, Out, take_part};
use std::io::Read;

// An argument has at most this number of bytes.
pub(crate) const ARGUMENT: usize = 8;

// The number of bytes requested, at most the space in the buffer.
#[inline(always)]
fn expected(machine: &Machine, buffer: &[u8]) -> usize
    ensures wanted { result ≤ wanted machine.now }
    ensures space { result ≤ length buffer.now }
    ensures none { result ≡ 0 → 0 < length buffer.now → wanted machine.now ≡ 0 }
    ensures idle { IsIdle machine.now → result ≡ 0 }
{
    machine.wanted().min(buffer.len() as u64) as usize
}

// The result if no byte is expected: the item is complete, or refused, or at the byte limit.
#[inline(never)]
pub(crate) fn at_end(machine: &mut Machine) -> Result<Option<Event>, Refusal>
    requires { wanted machine.old ≡ 0 }
    ensures returned { (was : MachineView) (from to : Option (List ℕ)) (kept t : List ℕ)
        (ms : List Mark) → AgreesBetween was t ms → HasRead from to machine.old t ms
        → machine.old.depth ≡ was.depth
        → IsNext result (machine_call was machine.new from to kept kept t ms) }
    ensures limits { KeepsLimits machine.old machine.new }
    ensures none { IfReported result (λ e. ⊥) }
    ensures taken { IfErr result (λ f. machine.new.taken ≡ f.read) }
    ensures reason { IfErr result (λ f. IsEventReason f.reason) }
{
    match take_part(machine, &[]).out {
        Out::Done => Ok(None),
        Out::Refused(refusal) => Err(refusal),
        Out::More | Out::Event(_) => unreachable!(),
    }
}

// Reads what the machine expects, one part after another, until it reports an event or stops. It
// has a stack frame of its own, so that the caller's stays small.
#[inline(never)]
fn next_event<R: Read>(
    machine: &mut Machine,
    reader: &mut R,
    buffer: &mut [u8],
) -> Result<Option<Event>, Refusal>
    requires space { 0 < length buffer.old }
    requires within { machine.old.open_count ≤ machine.old.depth }
    ensures returned { (was : MachineView) (from : Option (List ℕ)) (kept t : List ℕ)
        (ms : List Mark) → AgreesBetween was t ms
        → HasRead from (R.remaining reader.old) machine.old t ms
        → machine.old.depth ≡ was.depth
        → IsNext result (machine_call was machine.new from (R.remaining reader.new)
        kept (piece_after result kept buffer.new) t ms) }
    ensures given { (t : List ℕ) (ms : List Mark) → Represents machine.old t ms
        → IfGiven result machine.new t ms }
    ensures limits { KeepsLimits machine.old machine.new }
    ensures proper { IfReported result (λ e. IsProper e.width e.kind) }
    ensures taken { IfErr result (λ f. machine.new.taken ≡ f.read) }
    ensures reason { IfErr result (λ f. IsEventReason f.reason) }
    ensures idle { IsIdle machine.old → reader.new ≡ reader.old }
    ensures fits { piece_size result ≤ length buffer.new }
    ensures same { length buffer.new ≡ length buffer.old }
{
    'reads: loop {
        let want = expected(machine, buffer);
        if want == 0 {
            return at_end(machine);
        }
        match read_part(machine, reader, buffer, want) {
            PartialEvent::Reported(event) => return Ok(Some(event)),
            PartialEvent::Open => {}
            PartialEvent::Stopped(refusal) => return Err(refusal),
        }
    }
}

// The next part of an event. In most cases one read is enough.
#[inline(always)]
pub(crate) fn next_part<R: Read>(
    machine: &mut Machine,
    reader: &mut R,
    buffer: &mut [u8],
) -> Result<Option<Event>, Refusal>
    requires space { 0 < length buffer.old }
    requires within { machine.old.open_count ≤ machine.old.depth }
    ensures returned { (was : MachineView) (from : Option (List ℕ)) (kept t : List ℕ)
        (ms : List Mark) → AgreesBetween was t ms
        → HasRead from (R.remaining reader.old) machine.old t ms
        → machine.old.depth ≡ was.depth
        → IsNext result (machine_call was machine.new from (R.remaining reader.new)
        kept (piece_after result kept buffer.new) t ms) }
    ensures given { (t : List ℕ) (ms : List Mark) → Represents machine.old t ms
        → IfGiven result machine.new t ms }
    ensures limits { KeepsLimits machine.old machine.new }
    ensures proper { IfReported result (λ e. IsProper e.width e.kind) }
    ensures taken { IfErr result (λ f. machine.new.taken ≡ f.read) }
    ensures reason { IfErr result (λ f. IsEventReason f.reason) }
    ensures idle { IsIdle machine.old → reader.new ≡ reader.old }
    ensures fits { piece_size result ≤ length buffer.new }
    ensures same { length buffer.new ≡ length buffer.old }
{
    let want = expected(machine, buffer);
    if want == 0 {
        return next_event(machine, reader, buffer);
    }
    match read_part(machine, reader, buffer, want) {
        PartialEvent::Reported(event) => Ok(Some(event)),
        PartialEvent::Open => next_event(machine, reader, buffer),
        PartialEvent::Stopped(refusal) => Err(refusal),
    }
}

// The next head or break.
#[inline(always)]
fn next_head<R: Read>(machine: &mut Machine, reader: &mut R) -> Result<Option<Event>, Refusal>
    requires within { machine.old.open_count ≤ machine.old.depth }
    ensures returned { (kept t : List ℕ) (ms : List Mark) → AgreesBetween machine.old t ms
        → machine.old.in_payload ≡ false
        → IsNext result (machine_call machine.old machine.new
        (R.remaining reader.old) (R.remaining reader.new) kept kept t ms) }
    ensures limits { KeepsLimits machine.old machine.new }
    ensures proper { IfReported result (λ e. IsProper e.width e.kind) }
    ensures taken { IfErr result (λ f. machine.new.taken ≡ f.read) }
    ensures reason { IfErr result (λ f. IsEventReason f.reason) }
    ensures idle { IsIdle machine.old → reader.new ≡ reader.old }
{
    let mut head = [0; ARGUMENT];
    if !machine.wants_head() {
        return next_event(machine, reader, &mut head);
    }
    match read_part(machine, reader, &mut head[..1], 1) {
        PartialEvent::Reported(event) => Ok(Some(event)),
        PartialEvent::Open => next_part(machine, reader, &mut head),
        PartialEvent::Stopped(refusal) => Err(refusal),
    }
}

// The length of the piece that was reported, if one was.
#[inline(always)]
fn piece_len(outcome: &Result<Option<Event>, Refusal>) -> usize
    ensures { result ≡ piece_size outcome.now }
{
    match outcome {
        Ok(
            Some(
                Event {
                    kind: EventKind::Piece(n),
                    ..
                },
            ),
        ) => *n,
        _ => 0,
    }
}

// The next event. The buffer holds the last piece.
#[inline(always)]
pub(crate) fn advance<R: Read>(
    machine: &mut Machine,
    reader: &mut R,
    buffer: &mut [u8; PART],
    held: &mut usize,
) -> Result<Option<Event>, Refusal>
    requires fits { held.old ≤ 512 }
    requires within { machine.old.open_count ≤ machine.old.depth }
    ensures returned { (t : List ℕ) (ms : List Mark) → AgreesBetween machine.old t ms
        → IsNext result (machine_call machine.old machine.new
        (R.remaining reader.old) (R.remaining reader.new)
        (take held.old buffer.old) (take held.new buffer.new) t ms) }
    ensures limits { KeepsLimits machine.old machine.new }
    ensures proper { IfReported result (λ e. IsProper e.width e.kind) }
    ensures taken { IfErr result (λ f. machine.new.taken ≡ f.read) }
    ensures reason { IfErr result (λ f. IsEventReason f.reason) }
    ensures idle { IsIdle machine.old → reader.new ≡ reader.old }
    ensures fits { held.new ≤ 512 }
{
    if !machine.is_in_payload() {
        return next_head(machine, reader);
    }
    let outcome = next_part(machine, reader, buffer);
    *held = piece_len(&outcome);
    outcome
}
