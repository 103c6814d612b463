//! The next event of an item in a slice.

ghost use Rattle.std.specs.Prelude.{◌≢◌, ◌≤◌, ℕ, List, [], length, drop, Some, IfErr};
ghost use Rattle.cbor_head.specs.declared.reason.Reason.TheVariants as reasons;
ghost use Rattle.theory_automaton.specs.Trace.{Mark};
ghost use Rattle.theory_automaton.specs.Reasons.{IsEventReason};
ghost use Rattle.cbor_machine.specs.Machine.{KeepsLimits};
ghost use Rattle.cbor_machine.specs.NextEvent.{AgreesBetween, IsNext, machine_call};
ghost use Rattle.cbor_machine.specs.Calls.{piece_after};

use cbor_head::{Event, Reason, Refusal};
use cbor_machine::{Machine, Out, below_256, take_part};

// The next event of the item that starts with these bytes. The machine has consumed the first of them.
pub(crate) fn next_event(machine: &mut Machine, bytes: &[u8]) -> Result<Option<Event>, Refusal>
    requires { machine.old.taken ≤ length bytes.now }
    ensures returned { (t : List ℕ) (ms : List Mark) → AgreesBetween machine.old t ms
        → IsNext result (machine_call machine.old machine.new
        (Some (drop machine.old.taken bytes.now)) (Some (drop machine.new.taken bytes.now))
        [] (piece_after result [] (drop machine.old.taken bytes.now)) t ms) }
    ensures limits { KeepsLimits machine.old machine.new }
    ensures within { machine.new.taken ≤ length bytes.now }
    ensures no_read { IfErr result (λ f. f.reason ≢ reasons.Read) }
    ensures reason { IfErr result (λ f. IsEventReason f.reason) }
{
    below_256(bytes);
    let step = take_part(machine, &bytes[machine.taken() as usize..]);
    match step.out {
        Out::Event(event) => Ok(Some(event)),
        Out::Done => Ok(None),
        Out::Refused(refusal) => Err(refusal),
        Out::More => Err(Refusal::at(Reason::Truncated, machine.taken())),
    }
}
