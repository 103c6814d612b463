//! A part of an item: bytes requested by one call of `read`, and what the machine makes of them.

ghost use Rattle.std.specs.Prelude.{◌≡◌, ◌≤◌, ◌<◌, ◌⊎◌, ℕ, List, length, Option};
ghost use Rattle.cbor_head.specs.Verdict.{refusal};
ghost use Rattle.theory_automaton.specs.Trace.{Mark};
ghost use Rattle.theory_automaton.specs.Marks.{IsProper};
ghost use Rattle.theory_automaton.specs.Pieces.{kind_size};
ghost use Rattle.theory_automaton.specs.Reasons.{IsEventReason, IsMachineReason};
ghost use Rattle.cbor_machine.specs.MachineView.{MachineView};
ghost use Rattle.cbor_machine.specs.Machine.{KeepsLimits, Represents, wanted};
ghost use Rattle.cbor_machine.specs.NextEvent.{AgreesBetween};
ghost use Rattle.cbor_machine.specs.Calls.{HasRead};
ghost use Rattle.cbor_events.specs.inner.Reads.{IsAsked, IsPartTaken, IsPartRead, IfPartReported, IfStopped};
ghost use Rattle.cbor_events.specs.inner.Reads.{HasTaken, HasStopped};

use cbor_head::{Event, Reason, Refusal};
use cbor_machine::{Machine, Out, below_256, take_part};
use std::io::Read;

// The result of one call of `read`.
#[derive(Clone, Copy)]
enum ReadOutcome {
    Got(usize),
    End,
    Failed,
}

// The number of bytes read. If one was requested it is one, which the compiler can see.
#[inline(always)]
fn got(count: usize, want: usize) -> usize
    requires some { 0 < count }
    requires most { count ≤ want }
    ensures { result ≡ count }
{
    if want == 1 {
        return 1;
    }
    count
}

// Reads at most `want` bytes into the start of the buffer, by one call of `read`.
#[inline(always)]
fn ask<R: Read>(reader: &mut R, buffer: &mut [u8], want: usize) -> ReadOutcome
    requires some { 0 < want }
    requires space { want ≤ length buffer.old }
    ensures { IsAsked result want
        (R.remaining reader.old) (R.remaining reader.new) buffer.new }
{
    match reader.read(&mut buffer[..want]) {
        Ok(0) => ReadOutcome::End,
        Ok(n) => ReadOutcome::Got(got(n, want)),
        Err(_) => ReadOutcome::Failed,
    }
}

// A refusal at the first byte that was not consumed.
fn cut(reason: Reason, taken: u64) -> Refusal
    ensures { result ≡ refusal reason taken taken }
{
    Refusal::new(reason, taken, taken)
}

// The result of bytes that the machine expected.
#[derive(Clone, Copy)]
pub(crate) enum PartialEvent {
    Reported(Event),
    // No event is complete.
    Open,
    Stopped(Refusal),
}

// Gives the machine bytes that it expects.
#[inline(always)]
fn take_read(machine: &mut Machine, part: &[u8]) -> PartialEvent
    requires some { 0 < length part.now }
    requires wanted { length part.now ≤ wanted machine.old }
    ensures returned { (t : List ℕ) (ms : List Mark) → Represents machine.old t ms
        → IsPartTaken result machine.old machine.new t part.now ms }
    ensures limits { KeepsLimits machine.old machine.new }
    ensures proper { IfPartReported result (λ e. IsProper e.width e.kind) }
    ensures piece { IfPartReported result (λ e. kind_size e.kind ≤ length part.now) }
    ensures taken { IfStopped result (λ f. machine.new.taken ≡ f.read) }
    ensures reason { IfStopped result (λ f. IsMachineReason f.reason) }
    ensures progress { result ≡ PartialEvent.Open → machine.old.taken < machine.new.taken }
{
    if let Some(event) = machine.take_whole(part) {
        return PartialEvent::Reported(event);
    }
    if part.len() == 1 && machine.begin_head(part[0]) {
        return PartialEvent::Open;
    }
    take_slowly(machine, part)
}

// Consumes the bytes one by one, whatever they are. It has a stack frame of its own, so that the caller's
// stays small.
#[inline(never)]
fn take_slowly(machine: &mut Machine, part: &[u8]) -> PartialEvent
    requires some { 0 < length part.now }
    requires wanted { length part.now ≤ wanted machine.old }
    ensures returned { (t : List ℕ) (ms : List Mark) → Represents machine.old t ms
        → IsPartTaken result machine.old machine.new t part.now ms }
    ensures limits { KeepsLimits machine.old machine.new }
    ensures proper { IfPartReported result (λ e. IsProper e.width e.kind) }
    ensures piece { IfPartReported result (λ e. kind_size e.kind ≤ length part.now) }
    ensures taken { IfStopped result (λ f. machine.new.taken ≡ f.read) }
    ensures reason { IfStopped result (λ f. IsMachineReason f.reason) }
    ensures progress { result ≡ PartialEvent.Open → machine.old.taken < machine.new.taken }
{
    match take_part(machine, part).out {
        Out::Event(event) => PartialEvent::Reported(event),
        Out::More => PartialEvent::Open,
        Out::Done => unreachable!(),
        Out::Refused(refusal) => PartialEvent::Stopped(refusal),
    }
}

// Reads at most this number of bytes, which the machine expects, by one call of `read`.
#[inline(always)]
pub(crate) fn read_part<R: Read>(
    machine: &mut Machine,
    reader: &mut R,
    buffer: &mut [u8],
    want: usize,
) -> PartialEvent
    requires some { 0 < want }
    requires space { want ≤ length buffer.old }
    requires wanted { want ≤ wanted machine.old }
    requires within { machine.old.open_count ≤ machine.old.depth }
    // For a call that began when the machine was `was` and the reader held `from`.
    ensures returned { (was : MachineView) (from : Option (List ℕ)) (kept t : List ℕ)
        (ms : List Mark) → AgreesBetween was t ms
        → HasRead from (R.remaining reader.old) machine.old t ms
        → machine.old.depth ≡ was.depth
        → IsPartRead result was machine.new from (R.remaining reader.new)
        kept buffer.new t ms }
    ensures lost { (t : List ℕ) (ms : List Mark) → Represents machine.old t ms
        → HasTaken result machine.old machine.new want
        (R.remaining reader.old) (R.remaining reader.new) buffer.new t ms
        ⊎ HasStopped result machine.old }
    ensures limits { KeepsLimits machine.old machine.new }
    ensures proper { IfPartReported result (λ e. IsProper e.width e.kind) }
    ensures taken { IfStopped result (λ f. machine.new.taken ≡ f.read) }
    ensures reason { IfStopped result (λ f. IsEventReason f.reason) }
    ensures fits { IfPartReported result (λ e. kind_size e.kind ≤ length buffer.new) }
    ensures same { length buffer.new ≡ length buffer.old }
    ensures progress { result ≡ PartialEvent.Open → machine.old.taken < machine.new.taken }
{
    match ask(reader, buffer, want) {
        ReadOutcome::End => PartialEvent::Stopped(cut(Reason::Truncated, machine.taken())),
        ReadOutcome::Failed => PartialEvent::Stopped(cut(Reason::Read, machine.taken())),
        ReadOutcome::Got(count) => {
            below_256(&buffer[..count]);
            take_read(machine, &buffer[..count])
        }
    }
}
