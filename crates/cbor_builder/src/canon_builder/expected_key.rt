//! Whether a key is expected, which one waits for its value, and which is repeated.

ghost use Rattle.std.specs.Prelude.{◌≡◌, ◌↔◌, [], List, ℕ, IsTrue, MatchOption};
ghost use Rattle.cbor_builder.specs.Built.{AreOpenKeysDifferent, IsKeyExpected};
ghost use Rattle.cbor_builder.specs.Built.{IsRepeatReported, IsRepeatedKey, IsWaitingKey};

use crate::canon_builder::CanonBuilder;
use crate::repeat::Repeat;
use cbor_head::KeyOrder;
use cbor_memory::Memory;

impl CanonBuilder {
    /// The order of the keys.
    pub fn order(&self) -> KeyOrder
        ensures { result ≡ self.now.order }
    {
        self.core.order
    }

    /// The requests for memory since the builder was made or cleared. One of them was refused if a call has returned an
    /// error.
    pub fn memory(&self) -> &Memory
        ensures { result.now ≡ self.now.refused }
    {
        &self.memory
    }

    /// Whether the next part begins a key of a map. Allocates nothing.
    pub fn is_key_expected(&self) -> bool
        ensures { IsTrue result ↔ IsKeyExpected self.now.open_levels }
    {
        self.is_sound && self.core.is_key_expected()
    }

    /// Whether the part that was just completed is a key that is the same as an earlier key of its map.
    /// Allocates nothing. If the keys arrive in order, it needs one comparison; otherwise it compares
    /// with each earlier key of the map. For a large map `end_if_distinct` is faster: it compares all
    /// keys once.
    pub fn repeated(&self) -> bool
        ensures { IsTrue result ↔ IsRepeatedKey self.now.open_levels }
    {
        self.is_sound && self.core.repeated()
    }

    /// The canonical bytes of the key that was just completed, if its value is still missing. Allocates
    /// nothing.
    pub fn waiting_key(&self) -> Option<&[u8]>
        ensures { MatchOption result ((q : List ℕ) → IsWaitingKey self.now.open_levels q → ⊥)
            (λ key. IsWaitingKey self.now.open_levels key.now) }
    {
        if self.is_sound {
            self.core.waiting_key()
        } else {
            None
        }
    }

    /// The repeated key to report if the parts end before the item. It is in the outermost open map
    /// that has two equal keys, and is the first key there that is equal to an earlier one. A key that
    /// waits for its value counts too. Returns `None` if the keys of each open map differ. Afterwards
    /// nothing is open, so the builder accepts no part until it is cleared. Allocates nothing, and
    /// needs about n log n comparisons for n pairs.
    pub fn first_repeat(&mut self) -> Option<Repeat>
        ensures order { self.new.order ≡ self.old.order }
        ensures memory { self.new.refused ≡ self.old.refused }
        ensures reported { MatchOption result (AreOpenKeysDifferent self.old.open_levels)
            (λ repeat. IsRepeatReported self.old.open_levels repeat.outside repeat.pair) }
        ensures left { self.new.open_levels ≡ [] }
    {
        if !self.is_sound {
            return None;
        }
        self.is_sound = false;
        self.core.first_repeat()
    }
}
