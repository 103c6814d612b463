//! The public builder: canonical bytes from the parts of an item, without a tree.

ghost use Rattle.std.specs.Prelude.{◌≡◌, ◌≤◌, ◌++◌, ◌∷◌, [], List, ℕ, length, take};
ghost use Rattle.cbor_head.specs.Canonical.{canonical};
ghost use Rattle.cbor_head.specs.Head.{shortest_head, IsSimple};
ghost use Rattle.cbor_head.specs.Value.{Value};
ghost use Rattle.cbor_head.specs.declared.major.Major.TheVariants.{Simple};
ghost use Rattle.cbor_builder.specs.Built.{built, IsLeaf, IsStringType, IsContainer, TakesPart};
ghost use Rattle.cbor_builder.specs.Built.{IsInString, HasDistinctKeysSoFar};
ghost use Rattle.theory_values.specs.Parts.{IsInContainer, Part, Makes, run, plain, give, opened, extended, close};
ghost use Rattle.cbor_builder.specs.Built.{around, Leaves, LeavesIfDistinct};

mod expected_key;

use crate::builder::Core;
use crate::repeat::Repeat;
use cbor_head::{KeyOrder, Major};
use cbor_memory::Memory;
use std::alloc::{AllocError, Global};
use std::marker::Model;

/// Canonical bytes (RFC 8949, sections 4.2.1 and 4.2.3) from the parts of one item in their order, without a tree. A
/// map's pairs are sorted when the map ends. After a call that ran out of memory nothing is open, and the builder
/// accepts no part until it is cleared.
///
/// ```
/// // {1: [2], 0: "a"}
/// let mut builder = CanonBuilder::new(alloc, KeyOrder::Bytewise);
/// builder.begin(Major::Map, 0)?;
/// builder.leaf(Major::Unsigned, 1)?;
/// builder.begin(Major::Array, 0)?;
/// builder.leaf(Major::Unsigned, 2)?;
/// builder.end()?;
/// builder.leaf(Major::Unsigned, 0)?;
/// builder.string(Major::Text, b"a")?;
/// builder.end()?;
/// // {0: "a", 1: [2]}
/// assert_eq!(rt; builder.finish().as_slice(), b"\xa2\x00\x61a\x01\x81\x02");
/// ```
#[derive(Drop)]
pub struct CanonBuilder {
    core: Core,
    memory: Memory,
    // Whether no error and no repeated key was returned.
    is_sound: bool,
}

impl Model for CanonBuilder {
    ghost use Rattle.cbor_builder.specs.Built.{Built};

    ghost Value = { Built };

    ghost use Rattle.cbor_builder.specs.inner.CanonState.{view_value, IsKept};

    ghost view = { view_value };

    ghost invariant = { IsKept };
}

impl CanonBuilder {
    /// A builder without any part. Allocates nothing.
    pub fn new(alloc: Global, order: KeyOrder) -> CanonBuilder
        ensures { result ≡ built order (plain [] ∷ []) }
    {
        CanonBuilder {
            core: Core::new(alloc, order),
            memory: Memory::new(),
            is_sound: true,
        }
    }

    /// Makes the builder as new, for another item, in whatever state it is. Its memory stays allocated.
    pub fn clear(&mut self, order: KeyOrder)
        ensures { self.new ≡ built order (plain [] ∷ []) }
    {
        self.core.clear(order);
        self.memory = Memory::new();
        self.is_sound = true;
    }

    /// Adds an integer or a simple value. The argument of a negative integer n is -1 - n; that of a simple value is its
    /// number, 0 to 23 or 32 to 255.
    #[inline(always)]
    pub fn leaf(&mut self, major: Major, argument: u64) -> Result<(), AllocError>
        requires kind { IsLeaf major }
        requires simple { major ≡ Simple → IsSimple argument }
        requires takes { TakesPart self.old.open_levels }
        ensures { Leaves result self.old self.new
            (give (shortest_head major argument) self.old.open_levels) }
    {
        let done = self.core.leaf(&mut self.memory, major, argument);
        if done.is_err() {
            self.is_sound = false;
        }
        done
    }

    /// Adds a whole byte string or text string: `begin_string`, `bytes` and `end_string` in one step. It does not check
    /// that a text is UTF-8.
    #[inline(always)]
    pub fn string(&mut self, major: Major, content: &[u8]) -> Result<(), AllocError>
        requires kind { IsStringType major }
        requires takes { TakesPart self.old.open_levels }
        ensures { Leaves result self.old self.new
            (give (shortest_head major (length content.now) ++ content.now) self.old.open_levels) }
    {
        self.prefix_string(major, content, content.len())
    }

    /// Adds a whole string: the first `count` bytes of `prefix`. The bytes after them do not matter, but a short string
    /// is copied faster if there are some.
    #[inline(always)]
    pub fn prefix_string(
        &mut self,
        major: Major,
        prefix: &[u8],
        count: usize,
    ) -> Result<(), AllocError>
        requires kind { IsStringType major }
        requires within { count ≤ length prefix.now }
        requires takes { TakesPart self.old.open_levels }
        ensures { Leaves result self.old self.new
            (give (shortest_head major count ++ take count prefix.now) self.old.open_levels) }
    {
        let done = self.core.string(&mut self.memory, major, prefix, count);
        if done.is_err() {
            self.is_sound = false;
        }
        done
    }

    /// Adds an item of no bytes: the value of a key, if only the keys are needed.
    #[inline(always)]
    pub fn nothing(&mut self) -> Result<(), AllocError>
        requires takes { TakesPart self.old.open_levels }
        ensures { Leaves result self.old self.new (give [] self.old.open_levels) }
    {
        let done = self.core.nothing(&mut self.memory);
        if done.is_err() {
            self.is_sound = false;
        }
        done
    }

    /// Begins a byte string or a text string.
    #[inline(always)]
    pub fn begin_string(&mut self, major: Major) -> Result<(), AllocError>
        requires kind { IsStringType major }
        requires takes { TakesPart self.old.open_levels }
        ensures { Leaves result self.old self.new (opened major 0 ∷ self.old.open_levels) }
    {
        let done = self.core.begin(&mut self.memory, major, 0);
        if done.is_err() {
            self.is_sound = false;
        }
        done
    }

    /// Extends the open string by these bytes.
    #[inline(always)]
    pub fn bytes(&mut self, content: &[u8]) -> Result<(), AllocError>
        requires string { IsInString self.old.open_levels }
        ensures { Leaves result self.old self.new (extended content.now self.old.open_levels) }
    {
        self.prefix_bytes(content, content.len())
    }

    /// Extends the open string by the first `count` bytes of `prefix`.
    #[inline(always)]
    pub fn prefix_bytes(&mut self, prefix: &[u8], count: usize) -> Result<(), AllocError>
        requires string { IsInString self.old.open_levels }
        requires within { count ≤ length prefix.now }
        ensures { Leaves result self.old self.new
            (extended (take count prefix.now) self.old.open_levels) }
    {
        let done = self.core.bytes(&mut self.memory, prefix, count);
        if done.is_err() {
            self.is_sound = false;
        }
        done
    }

    /// Ends the open string.
    #[inline(always)]
    pub fn end_string(&mut self) -> Result<(), AllocError>
        requires string { IsInString self.old.open_levels }
        ensures { Leaves result self.old self.new (close self.old.order self.old.open_levels) }
    {
        self.is_sound = false;
        // A string has no keys that could be equal.
        let _ = self.core.end(&mut self.memory)?;
        self.is_sound = true;
        Ok(())
    }

    /// Begins an array, a map or a tag. The number is a tag's number. For an array or a map it may be the expected
    /// count: the head then gets space for it.
    #[inline(always)]
    pub fn begin(&mut self, major: Major, number: u64) -> Result<(), AllocError>
        requires kind { IsContainer major }
        requires takes { TakesPart self.old.open_levels }
        ensures { Leaves result self.old self.new (opened major number ∷ self.old.open_levels) }
    {
        let done = self.core.begin(&mut self.memory, major, number);
        if done.is_err() {
            self.is_sound = false;
        }
        done
    }

    /// Ends the array, map or tag. No two keys of a map may be the same: call `repeated` after each key.
    pub fn end(&mut self) -> Result<(), AllocError>
        requires container { IsInContainer self.old.open_levels }
        requires distinct { HasDistinctKeysSoFar self.old.open_levels }
        ensures { Leaves result self.old self.new (close self.old.order self.old.open_levels) }
    {
        self.is_sound = false;
        // No two keys are the same.
        let _ = self.core.end(&mut self.memory)?;
        self.is_sound = true;
        Ok(())
    }

    /// Ends the array, map or tag, for callers that do not call `repeated` after each key. If two keys of the map are
    /// the same, it does not end: the call returns what `first_repeat` would report, and nothing is open, so the
    /// builder accepts no part until it is cleared. A map of n pairs whose keys do not arrive in order needs about n
    /// log n comparisons, once.
    #[inline(always)]
    pub fn end_if_distinct(&mut self) -> Result<Option<Repeat>, AllocError>
        requires container { IsInContainer self.old.open_levels }
        ensures { LeavesIfDistinct result self.old self.new
            (close self.old.order self.old.open_levels) }
    {
        self.is_sound = false;
        if !self.core.end(&mut self.memory)? {
            return Ok(self.core.first_repeat());
        }
        self.is_sound = true;
        Ok(None)
    }

    /// Ends the array, map or tag, and removes it from the builder. If two keys of the map are the same, it does not
    /// end, as in `end_if_distinct`. It needs as many comparisons.
    #[inline(always)]
    pub fn give_up_if_distinct(&mut self) -> Result<Option<Repeat>, AllocError>
        requires container { IsInContainer self.old.open_levels }
        ensures { LeavesIfDistinct result self.old self.new (around self.old.open_levels) }
    {
        self.is_sound = false;
        if !self.core.give_up()? {
            return Ok(self.core.first_repeat());
        }
        self.is_sound = true;
        Ok(None)
    }

    /// Returns the bytes, once the item is whole, as `finish` does. They stay in the builder.
    #[inline(always)]
    pub fn as_slice(&self) -> &[u8]
        ensures { (bs : List ℕ) → self.now.open_levels ≡ plain bs ∷ [] → result.now ≡ bs }
    {
        self.core.out.as_slice()
    }

    /// Returns the bytes, once the item is whole: the canonical bytes of the value that the parts make. Allocates
    /// nothing.
    ///
    /// Unlike the `finish` of a tree builder it has no `requires`: before the item is whole there is no tree to return,
    /// but there are bytes. No clause says which bytes those are.
    #[inline(always)]
    pub fn finish(self) -> Vec<u8>
        ensures bytes { (bs : List ℕ) → self.open_levels ≡ plain bs ∷ [] → result.items ≡ bs }
        ensures canonical { (v : Value) (ps : List Part) → Makes v ps
            → self.open_levels ≡ run self.order ps (plain [] ∷ [])
            → result.items ≡ canonical self.order v }
    {
        self.core.out.into_vec()
    }
}
