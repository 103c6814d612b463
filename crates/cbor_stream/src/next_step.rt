//! One step of the machine, and what the strict rules make of it.

ghost use Rattle.std.specs.Prelude.{◌≡◌, ◌<◌, ◌≤◌, ◌+◌, ℕ, List, length, take};
ghost use Rattle.std.specs.Prelude.{true, false, None, IsTrue};
ghost use Rattle.cbor_head.specs.Limits.{Bounds};
ghost use Rattle.cbor_head.specs.declared.keys.Keys.{Keys};
ghost use Rattle.cbor_head.specs.declared.reason.Reason.TheVariants as reasons;
ghost use Rattle.theory_automaton.specs.Trace.{Mark};
ghost use Rattle.cbor_machine.specs.Machine.{KeepsLimits, IsComplete, IsEvent, IsMore, IsDone};
ghost use Rattle.cbor_machine.specs.Machine.{IfRefused, wanted, piece_of};
ghost use Rattle.cbor_stream.specs.inner.Amid.{IsAmid, IsSomewhere, IsOffered, IsStepResult, asks_of};
ghost use Rattle.cbor_stream.specs.Reasons.{IsStrictReason};
ghost use Rattle.cbor_stream.specs.inner.Amid.{IsTaken, IsBasicFirst, IsOtherFirst};

use cbor_head::{Keys, Reason, Refusal};
use cbor_machine::{Machine, Out, Step, below_256, take_part};
use cbor_strict::OpenItems;
use theory_values::is_other_kind;

// Whether the input is the first byte of a key whose kind is judged, was taken at this offset, and
// begins neither an integer nor a text.
fn is_other_key(is_key: bool, input: &[u8], out: &Out, place: u64) -> bool
    requires { is_key ≡ true → length input.now ≡ 1 }
    ensures other { result ≡ true
        → (is_key ≡ true) × IsTaken out.now place × IsOtherFirst input.now }
    ensures basic { result ≡ false
        → is_key ≡ true → IsTaken out.now place → IsBasicFirst input.now }
{
    if !is_key {
        return false;
    }
    if !is_other_kind(input[0]) {
        return false;
    }
    match out {
        Out::Refused(refusal) => refusal.place > place,
        Out::Event(_) | Out::More | Out::Done => true,
    }
}

// Gives bytes to the machine, and judges the event that is complete with them. The first byte of a
// key whose kind is judged is given alone: its kind comes before all else.
#[inline(always)]
fn offer(machine: &mut Machine, items: &mut OpenItems, is_key: bool, input: &[u8]) -> Step
    requires somewhere { (keys : Keys) × IsSomewhere machine.old items.old keys }
    requires first { is_key ≡ true → (length input.now ≡ 1) × (wanted machine.old ≡ 1) }
    ensures used { (result.used ≤ length input.now)
        × (machine.new.taken ≡ machine.old.taken + result.used) }
    ensures limits { KeepsLimits machine.old machine.new }
    ensures order { items.new.order ≡ items.old.order }
    ensures returned { (b : Bounds) (t : List ℕ) (ms : List Mark)
        → (a : IsAmid machine.old items.old b t ms)
        → IsOffered is_key b items.old a.since result.used
        → IsStepResult result.out machine.new items.new b t (take result.used input.now) ms }
    ensures event { (IsEvent result.out → 0 < result.used) × (piece_of result.out ≤ result.used) }
    ensures more { IsMore result.out → (result.used ≡ length input.now)
        × (0 < wanted machine.new) }
    ensures done { IsComplete machine.old
        → (result.out ≡ Out.Done) × (result.used ≡ 0) × (machine.new ≡ machine.old) }
    ensures over { IsDone result.out → IsComplete machine.old }
    ensures refused { IfRefused result.out (λ f. (machine.new.taken ≡ f.read)
        × IsStrictReason items.old.order f.reason) }
    ensures memory { IfRefused result.out
        (λ f. f.reason ≡ reasons.Memory → IsTrue items.new.memory) }
{
    below_256(input);
    let place = machine.taken();
    let step = take_part(machine, input);
    let Step { used, out } = step;
    if is_other_key(is_key, input, &out, place) {
        let refusal = Refusal::new(Reason::KeyKind, place, machine.taken());
        return Step {
            used,
            out: Out::Refused(refusal),
        };
    }
    let event = match out {
        Out::Event(event) => event,
        out => return Step { used, out },
    };
    let open = machine.open();
    let taken = machine.taken();
    match items.admit(&event, &input[..used], open, taken) {
        Ok(()) => Step {
            used,
            out: Out::Event(event),
        },
        Err(refusal) => Step {
            used,
            out: Out::Refused(refusal),
        },
    }
}

// Whether the input begins with the first byte of a key whose kind is judged.
#[inline(always)]
fn begins_key(machine: &Machine, items: &OpenItems, keys: Keys, input: &[u8]) -> bool
    ensures one { result ≡ true → (0 < length input.now) × (wanted machine.now ≡ 1) }
    ensures asked { (b : Bounds) (t : List ℕ) (ms : List Mark)
        → (a : IsAmid machine.now items.now b t ms) → b.keys ≡ keys → result ≡ true
        → IsOffered true b items.now a.since 1 }
    ensures other { (b : Bounds) (t : List ℕ) (ms : List Mark) (used : ℕ)
        → (a : IsAmid machine.now items.now b t ms) → b.keys ≡ keys → result ≡ false
        → used ≤ length input.now → machine.now.taken + used ≤ machine.now.bytes
        → IsOffered false b items.now a.since used }
{
    if input.is_empty() {
        return false;
    }
    if !machine.wants_head() {
        return false;
    }
    items.asks(keys)
}

// The next event, if it is complete in the input and no complaint ends with it.
pub(crate) fn next_step(
    machine: &mut Machine,
    items: &mut OpenItems,
    keys: Keys,
    input: &[u8],
) -> Step
    requires { IsSomewhere machine.old items.old keys }
    ensures used { (result.used ≤ length input.now)
        × (machine.new.taken ≡ machine.old.taken + result.used) }
    ensures limits { KeepsLimits machine.old machine.new }
    ensures order { items.new.order ≡ items.old.order }
    ensures returned { (b : Bounds) (t : List ℕ) (ms : List Mark)
        → IsAmid machine.old items.old b t ms → b.keys ≡ keys
        → IsStepResult result.out machine.new items.new b t (take result.used input.now) ms }
    ensures event { (IsEvent result.out → 0 < result.used) × (piece_of result.out ≤ result.used) }
    ensures more { IsMore result.out → (result.used ≡ length input.now)
        × (0 < wanted machine.new) }
    ensures done { IsComplete machine.old
        → (result.out ≡ Out.Done) × (result.used ≡ 0) × (machine.new ≡ machine.old) }
    ensures refused { IfRefused result.out (λ f. (machine.new.taken ≡ f.read)
        × IsStrictReason items.old.order f.reason) }
    ensures memory { IfRefused result.out
        (λ f. f.reason ≡ reasons.Memory → IsTrue items.new.memory) }
{
    if !begins_key(machine, items, keys, input) {
        return offer(machine, items, false, input);
    }
    let first = offer(machine, items, true, &input[..1]);
    let Out::More = first.out else {
        return first;
    };
    let rest = offer(machine, items, false, &input[1..]);
    Step {
        used: first.used + rest.used,
        out: rest.out,
    }
}
