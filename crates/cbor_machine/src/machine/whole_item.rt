//! A whole item at once, whose bytes the caller has checked.

ghost use Rattle.std.specs.Prelude.{◌≡◌, ◌≤◌, ◌+◌, ◌-◌, ◌++◌, ℕ, List, length, true, None};
ghost use Rattle.cbor_head.specs.Spelling.{Spelling, IsItem};
ghost use Rattle.theory_automaton.specs.Trace.{Mark, trace};
ghost use Rattle.cbor_machine.specs.Machine.{Represents, KeepsLimits};
ghost use Rattle.cbor_machine.specs.NextEvent.{AgreesBetween};

use super::{Machine, below_256};
use crate::position::close;
use cbor_head::{Keys, Limits};

impl Machine {
    /// The limits on an item that begins here, with keys of these kinds.
    #[inline(always)]
    pub fn limits_left(&self, keys: Keys) -> Limits
        ensures depth { result.depth ≡ self.now.depth - self.now.open_count }
        ensures bytes { result.bytes ≡ self.now.bytes - self.now.taken }
        ensures keys { result.keys ≡ keys }
    {
        let depth = self.limits.depth() - self.container_stack.len() as u16;
        let Some(limits) = Limits::new(depth, self.limits.bytes() - self.taken) else {
            unreachable!()
        };
        limits.with_keys(keys)
    }

    /// Consumes the bytes of a whole item, where an item is expected. It reports no event, and does
    /// not read the bytes: the caller has checked them.
    #[inline(always)]
    #[tactic(auto, using(crate::proofs::Settled::settled_fit))]
    pub fn take_item(&mut self, bytes: &[u8])
        requires expected { self.old.item_expected ≡ true }
        requires live { self.old.refusal ≡ None }
        requires within { self.old.taken + length bytes.now ≤ self.old.bytes }
        ensures taken { self.new.taken ≡ self.old.taken + length bytes.now }
        ensures limits { KeepsLimits self.old self.new }

        // For all bytes and marks that the machine represented, and the item of these bytes.
        ensures agrees { (t : List ℕ) (ms : List Mark) (s : Spelling) → Represents self.old t ms
            → IsItem (self.old.depth - self.old.open_count) s bytes.now
            → AgreesBetween self.new (t ++ bytes.now) (ms ++ trace s) }
    {
        below_256(bytes);
        self.position = close(&mut self.container_stack);
        self.taken += bytes.len() as u64;
        self.reported = self.taken;
    }
}
