//! The machine that reads an item in parts, by the strict rules.

ghost use Rattle.std.specs.Prelude.{◌≡◌, ◌≢◌, ◌↔◌, ◌≤◌, ◌<◌, ◌+◌, ◌++◌, ℕ, List, [], length, take, None, Some};
ghost use Rattle.std.specs.Prelude.{IfSome, IfErr, Err, IsTrue, false};
ghost use Rattle.cbor_head.specs.Complaint.{strict};
ghost use Rattle.cbor_head.specs.declared.reason.Reason.TheVariants as reasons;
ghost use Rattle.theory_automaton.specs.Trace.{Mark};
ghost use Rattle.cbor_machine.specs.Machine.{KeepsLimits, IsComplete, IsEvent, IsMore, IsDone};
ghost use Rattle.cbor_machine.specs.Machine.{IfRefused, piece_of, wanted};
ghost use Rattle.cbor_strict.specs.inner.LastKeys.{view_value};
ghost use Rattle.cbor_stream.specs.StrictMachine.{StrictMachineView, AgreesAmid, IsStrictResult};
ghost use Rattle.cbor_stream.specs.StrictMachine.{limits_of, IsLive};
ghost use Rattle.cbor_stream.specs.Reasons.{IsStrictReason};
ghost use Rattle.cbor_stream.specs.Said.{Says, EndsAs};
ghost use Rattle.cbor_stream.specs.inner.Amid.{AreSound};

use crate::allowance::Allowance;
use crate::next_step::next_step;
use crate::whole_item::take_item;
use cbor_head::{KeyOrder, Keys, Limits, Reason, Refusal};
use cbor_machine::{Machine, Out, Step};
use cbor_strict::OpenItems;
use std::alloc::Global;
use std::marker::Model;

/// Checks one item by the rules of the deterministic encoding, in parts of any length, and reports
/// its events.
///
/// Of each open container there is at most one frame, and at most one span; of keys at most the
/// last of each open map, and the one that is not complete. It stores no other byte.
#[derive(Drop)]
pub struct StrictMachine {
    machine: Machine,
    items: OpenItems,
    keys: Keys,
    refusal: Option<Refusal>,
    allowance: Allowance,
}

impl Model for StrictMachine {
    ghost Value = { StrictMachineView };

    ghost view = { λ m. record {
      machine = m.machine;
      order = m.items.order;
      keys = m.keys;
      spans = length (view_value m.items.keys).spans;
      kept = length (view_value m.items.keys).bytes;
      refusal = m.refusal;
      refused = m.items.memory;
      inner = record { items = m.items };
    } };

    ghost invariant = { λ m. AreSound m.machine m.items m.keys m.refusal };
}

impl StrictMachine {
    /// A machine before an item's first byte. Takes no memory.
    pub fn new(alloc: Global, limits: Limits, order: KeyOrder) -> StrictMachine
        ensures starts { AgreesAmid result [] [] }
        ensures limits { limits_of result ≡ limits }
        ensures order { result.order ≡ order }
        ensures memory { result.refused ≡ false }
    {
        StrictMachine {
            machine: Machine::new(limits),
            items: OpenItems::new(alloc, order),
            keys: limits.keys(),
            refusal: None,
            allowance: Allowance::new(),
        }
    }

    /// Goes on with another item within the same limits, whatever became of the one before.
    pub fn restart(&mut self, order: KeyOrder)
        ensures starts { AgreesAmid self.new [] [] }
        ensures limits { limits_of self.new ≡ limits_of self.old }
        ensures order { self.new.order ≡ order }
        ensures memory { self.new.refused ≡ false }
    {
        self.machine.restart();
        self.items.restart(order);
        self.refusal = None;
        self.allowance = Allowance::new();
    }

    /// How many arrays, maps and tags are open: from its head until its last member.
    pub fn open(&self) -> usize
        ensures count { result ≡ self.now.machine.open_count }
        ensures within { result ≤ self.now.machine.depth }
    {
        self.machine.open()
    }

    /// How many bytes were taken; after a refusal its `read`.
    pub fn taken(&self) -> u64
        ensures taken { result ≡ self.now.machine.taken }
        ensures within { result ≤ self.now.machine.bytes }
    {
        self.machine.taken()
    }

    /// The number of maps whose last complete key is stored.
    pub fn spans(&self) -> usize
        ensures count { result ≡ self.now.spans }
        ensures limited { result ≤ self.now.machine.depth }
    {
        self.items.keys.spans()
    }

    /// How many bytes of keys are stored.
    pub fn kept(&self) -> u64
        ensures count { result ≡ self.now.kept }
        ensures within { result ≤ self.now.machine.taken }
    {
        self.items.keys.kept() as u64
    }

    /// Takes bytes from the start of the input until an event is complete, a refusal is certain, or
    /// no byte is left. `More` means that all was used, and that nothing is wrong yet. `Done` means
    /// that the item is complete and canonical, and uses nothing. Once complete, or refused, it uses
    /// nothing and returns the same.
    ///
    /// It may ask for memory where the bytes are in a key, or where a map opens. Refused memory is
    /// `Memory`.
    pub fn step(&mut self, input: &[u8]) -> Step
        ensures used { (result.used ≤ length input.now)
            × (self.new.machine.taken ≡ self.old.machine.taken + result.used) }

        // For all bytes and marks that the machine represented.
        ensures returned { (t : List ℕ) (ms : List Mark) → AgreesAmid self.old t ms
            → IsStrictResult result.out self.new t (take result.used input.now) ms }
        ensures limits { KeepsLimits self.old.machine self.new.machine }
        ensures order { self.new.order ≡ self.old.order }
        ensures keys { self.new.keys ≡ self.old.keys }
        ensures event { (IsEvent result.out → 0 < result.used)
            × (piece_of result.out ≤ result.used) }
        ensures more { IsMore result.out → (result.used ≡ length input.now)
            × (0 < wanted self.new.machine) }
        ensures live { IsLive result.out → self.new.refusal ≡ None }
        ensures refused { IfRefused result.out (λ f. (self.new.refusal ≡ Some f)
            × (self.new.machine.taken ≡ f.read) × IsStrictReason self.old.order f.reason
            × (self.new.spans ≡ 0) × (self.new.kept ≡ 0)) }
        ensures memory { IfRefused result.out
            (λ f. f.reason ≡ reasons.Memory → IsTrue self.new.refused) }
        ensures complete { IsComplete self.old.machine → self.old.refusal ≡ None
            → (result.out ≡ Out.Done) × (result.used ≡ 0) }
        ensures again { IfSome self.old.refusal (λ f. (result.out ≡ Out.Refused f)
            × (result.used ≡ 0) × (self.new ≡ self.old)) }
    {
        match self.refusal {
            Some(refusal) => {
                let out = Out::Refused(refusal);
                return Step { used: 0, out };
            }
            None => {}
        }
        self.allowance.earn_event();
        let step = next_step(&mut self.machine, &mut self.items, self.keys, input);
        let Step { used, out } = step;
        let refusal = match out {
            Out::Refused(refusal) => refusal,
            out => return Step { used, out },
        };
        self.refusal = Some(refusal);
        self.items.keys.forget();
        let out = Out::Refused(refusal);
        Step { used, out }
    }

    // Consumes the item that the input begins with, if it is in no key, and canonical, and if the
    // input has all of it. Returns the number of its bytes. Otherwise it consumes nothing.
    #[inline(always)]
    fn take_item(&mut self, input: &[u8]) -> Option<usize>
        ensures used { IfSome result (λ used. (0 < used) × (used ≤ length input.now)
            × (self.new.machine.taken ≡ self.old.machine.taken + used)) }
        ensures agrees { IfSome result (λ used. (t : List ℕ) (ms : List Mark)
            → AgreesAmid self.old t ms
            → (ns : List Mark) × AgreesAmid self.new (t ++ take used input.now) ns) }
        ensures limits { IfSome result (λ used. KeepsLimits self.old.machine self.new.machine) }
        ensures order { self.new.order ≡ self.old.order }
        ensures keys { self.new.keys ≡ self.old.keys }
        ensures live { IfSome result (λ used. self.old.refusal ≡ None) }
        ensures unfinished { IfSome result (λ used. ¬ IsComplete self.old.machine) }
        ensures none { result ≡ None → self.new ≡ self.old }
    {
        match self.refusal {
            Some(_) => return None,
            None => {}
        }
        let part = self.allowance.part(input.len());
        if part == 0 {
            return None;
        }
        if !self.machine.wants_head() || self.items.is_in_key() {
            return None;
        }
        let taken = take_item(
            &mut self.machine,
            &mut self.items,
            self.keys,
            &input[..part],
        );
        let Some(used) = taken else {
            self.allowance.spend(part);
            return None;
        };
        self.allowance.earn(used);
        Some(used)
    }

    /// Takes bytes from the start of the input until the item is complete, a refusal is certain, or
    /// no byte is left, whatever events come. It returns no event.
    pub fn check(&mut self, input: &[u8]) -> Step
        ensures used { (result.used ≤ length input.now)
            × (self.new.machine.taken ≡ self.old.machine.taken + result.used) }

        // Of all bytes so far, for all that the machine represented.
        ensures says { (t : List ℕ) (ms : List Mark) → AgreesAmid self.old t ms
            → Says result.out self.new (t ++ take result.used input.now) }
        ensures limits { KeepsLimits self.old.machine self.new.machine }
        ensures order { self.new.order ≡ self.old.order }
        ensures keys { self.new.keys ≡ self.old.keys }
        ensures more { IsMore result.out → result.used ≡ length input.now }
        ensures refused { IfRefused result.out (λ f. (self.new.refusal ≡ Some f)
            × (self.new.machine.taken ≡ f.read) × IsStrictReason self.old.order f.reason
            × (self.new.spans ≡ 0) × (self.new.kept ≡ 0)) }
        ensures memory { IfRefused result.out
            (λ f. f.reason ≡ reasons.Memory → IsTrue self.new.refused) }
        ensures complete { IsComplete self.old.machine → self.old.refusal ≡ None
            → (result.out ≡ Out.Done) × (result.used ≡ 0) }
        ensures again { IfSome self.old.refusal (λ f. (result.out ≡ Out.Refused f)
            × (result.used ≡ 0) × (self.new ≡ self.old)) }
    {
        let mut used = 0;
        'events: loop {
            if let Some(size) = self.take_item(&input[used..]) {
                used += size;
                continue;
            }
            let step = self.step(&input[used..]);
            used += step.used;
            let Out::Event(_) = step.out else {
                return Step {
                    used,
                    out: step.out,
                };
            };
        }
    }

    /// The verdict if no byte follows: the number of the item's bytes, or the refusal. Of an item
    /// that is not complete that is `Truncated` at the number of bytes taken.
    pub fn end(&mut self) -> Result<u64, Refusal>
        ensures says { (t : List ℕ) (ms : List Mark) → AgreesAmid self.old t ms
            → EndsAs (limits_of self.old) self.old.order t result }
        ensures limits { limits_of self.new ≡ limits_of self.old }
        ensures order { self.new.order ≡ self.old.order }

        // More bytes may follow all the same, if none was refused.
        ensures agrees { (t : List ℕ) (ms : List Mark) → AgreesAmid self.old t ms
            → self.new.refusal ≡ None → AgreesAmid self.new t ms }

        // A refusal is stored, unless it is that of an item that is not complete.
        ensures stored { IfErr result (λ f. f.reason ≢ reasons.Truncated
            → self.new.refusal ≡ Some f) }
        ensures again { IfSome self.old.refusal (λ f. result ≡ Err f) }
        ensures memory { IfErr result (λ f. f.reason ≡ reasons.Memory → IsTrue self.new.refused) }
    {
        let taken = self.taken();
        match self.step(&[]).out {
            Out::Done => Ok(taken),
            Out::Refused(refusal) => Err(refusal),
            Out::More | Out::Event(_) => Err(Refusal::new(Reason::Truncated, taken, taken)),
        }
    }
}
