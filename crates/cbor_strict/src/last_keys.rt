//! The last complete key of each open map, as encoded, in one buffer.

ghost use Rattle.std.specs.Prelude.{◌≡◌, ◌-◌, ◌<◌, ◌≤◌, ◌++◌, ◌∷◌, ℕ, List, [], length, take, drop};
ghost use Rattle.std.specs.Prelude.{IsTrue, ◌↔◌, OnOk, OnErr, true};
ghost use Rattle.cbor_head.specs.Order.{key_lt};
ghost use Rattle.cbor_head.specs.Spelling.{Spelling, SpelledEntries, no_entries, entry, spell};
ghost use Rattle.cbor_head.specs.declared.width.Width.{Width};
ghost use Rattle.theory_verdicts.specs.Frame.{Frame, a_key, a_content, before, plug};
ghost use Rattle.theory_verdicts.specs.Frame.{with_entries};
ghost use Rattle.cbor_strict.specs.inner.LastKeys.{IsKept, IsFull, AreDefinite, HasKeyEnded};
ghost use Rattle.cbor_strict.specs.inner.LastKeys.{ReturnsKeyEnd};
ghost use Rattle.cbor_strict.specs.inner.LastKeys.{view_value, with_key, with_last, expected_of};
ghost use Rattle.cbor_strict.specs.inner.LastKeys.{still_open, ended_item};

use crate::MOST_OPEN;
use arrayvec::ArrayVec;
use cbor_head::KeyOrder;
use cbor_memory::Memory;
use std::alloc::{AllocError, Global};
use std::cmp::Ordering;
use theory_values::compare_keys;

/// What is expected in an open container.
#[derive(Clone, Copy, Default)]
pub(crate) enum Expected {
    /// A member of an array, or the content of a tag.
    #[default]
    Member,
    /// A key of a map.
    Key,
    /// The value of a key.
    Value,
}

/// Where the last complete key of an open map is in the buffer, an empty range before the first
/// key; and where the next key begins.
#[derive(Clone, Copy)]
pub(crate) struct KeySpan {
    from: usize,
    to: usize,
    next: usize,
}

/// The last complete key of each open map, as encoded. A key that is not complete is stored from
/// its first byte on, and the keys of a map within it are parts of those bytes.
#[derive(Drop)]
pub struct LastKeys {
    // What is expected in each open container.
    levels: ArrayVec<Expected, MOST_OPEN>,
    spans: Vec<KeySpan>,
    bytes: Vec<u8>,
    // The number of keys that the next bytes are in: keys that are not complete, or not begun.
    open_keys: usize,
}

impl LastKeys {
    // No containers and no keys.
    pub(crate) fn new(alloc: Global) -> LastKeys
        ensures { IsKept (view_value result) [] [] }
    {
        LastKeys {
            levels: ArrayVec::new(),
            spans: Vec::new(alloc),
            bytes: Vec::new(alloc),
            open_keys: 0,
        }
    }

    /// The number of open maps whose last key is stored, or will be.
    pub fn spans(&self) -> usize
        ensures { result ≡ length (view_value self.now).spans }
    {
        self.spans.len()
    }

    /// The number of bytes stored.
    pub fn kept(&self) -> usize
        ensures { result ≡ length (view_value self.now).bytes }
    {
        self.bytes.len()
    }

    /// Removes all containers and keys, and keeps the memory.
    pub fn forget(&mut self)
        ensures { IsKept (view_value self.new) [] [] }
    {
        self.levels.clear();
        self.spans.clear();
        self.bytes.clear();
        self.open_keys = 0;
    }

    // Whether the next bytes are in a key that is not complete.
    #[inline(always)]
    pub(crate) fn is_inside(&self) -> bool
        ensures { IsTrue result ↔ (0 < (view_value self.now).open_keys) }
    {
        self.open_keys > 0
    }

    // Stores the next bytes of an item, if it is in a key.
    pub(crate) fn keep(&mut self, memory: &mut Memory, bytes: &[u8]) -> Result<(), AllocError>
        ensures kept { (fs : List Frame) (p : List ℕ) → IsKept (view_value self.old) fs p
            → OnOk result (IsKept (view_value self.new) fs (p ++ bytes.now)) }
        ensures inside { OnErr result (0 < (view_value self.old).open_keys) }
        ensures granted { OnOk result (memory.new ≡ memory.old) }
        ensures refused { OnErr result (IsTrue memory.new) }
    {
        if self.is_inside() {
            return memory.extend(&mut self.bytes, bytes);
        }
        Ok(())
    }

    // Opens an array or a tag, whose head was read.
    pub(crate) fn open_other(&mut self)
        requires { length (view_value self.old).levels < MOST_OPEN }
        ensures { (f : Frame) (fs : List Frame) (p : List ℕ) → expected_of f ≡ Expected.Member
            → IsKept (view_value self.old) fs p → before f ≡ p → IsKept (view_value self.new) (f ∷ fs) [] }
    {
        self.levels.push(Expected::Member);
    }

    // Opens a map.
    pub(crate) fn open_map(&mut self, memory: &mut Memory) -> Result<(), AllocError>
        requires levels { length (view_value self.old).levels < MOST_OPEN }
        requires keys { (view_value self.old).open_keys ≤ MOST_OPEN }
        ensures opened { (w : Width) (v : Spelling) (b : SpelledEntries) (fs : List Frame) (p : List ℕ)
            → IsKept (view_value self.old) fs p → before (a_key w no_entries v b) ≡ p
            → OnOk result (IsKept (view_value self.new) (a_key w no_entries v b ∷ fs) []) }
        ensures granted { OnOk result (memory.new ≡ memory.old) }
        ensures refused { OnErr result (IsTrue memory.new) }
    {
        let here = self.bytes.len();
        let span = KeySpan {
            from: here,
            to: here,
            next: here,
        };
        memory.push(&mut self.spans, span)?;
        self.levels.push(Expected::Key);
        self.open_keys += 1;
        Ok(())
    }

    // Closes the containers that are complete at an item's end; this number stays open.
    pub(crate) fn close(&mut self, left: usize)
        ensures { (fs : List Frame) (s : Spelling)
            → IsKept (view_value self.old) fs (spell s) → AreDefinite fs
            → length (still_open fs) ≡ left
            → IsKept (view_value self.new) (still_open fs) (spell (ended_item fs s)) }
    {
        while self.levels.len() > left {
            self.close_one();
        }
    }

    // Closes the innermost container after its last item.
    fn close_one(&mut self)
        ensures fewer { 0 < length (view_value self.old).levels
            → length (view_value self.new).levels < length (view_value self.old).levels }
        ensures closed { (f : Frame) (fs : List Frame) (s : Spelling) → IsFull f
            → IsKept (view_value self.old) (f ∷ fs) (spell s)
            → IsKept (view_value self.new) fs (spell (plug f s)) }
    {
        let Some(expected) = self.levels.pop() else {
            return;
        };
        if let Expected::Member = expected {
            return;
        }
        let Some(span) = self.spans.pop() else {
            return;
        };
        if !self.is_inside() {
            self.bytes.truncate(span.from);
        }
    }

    // What is expected in the innermost container.
    pub(crate) fn expected(&self) -> Expected
        ensures some { (f : Frame) (fs : List Frame) (p : List ℕ)
            → IsKept (view_value self.now) (f ∷ fs) p
            → result ≡ expected_of f }
        ensures none { (p : List ℕ) → IsKept (view_value self.now) [] p → result ≡ Expected.Member }
    {
        match self.levels.as_slice().last() {
            Some(expected) => *expected,
            None => Expected::Member,
        }
    }

    // Ends a key: it replaces the one before it, if it comes after that. Otherwise the error is its
    // length in bytes.
    pub(crate) fn end_key(&mut self, order: KeyOrder) -> Result<(), usize>
        requires { HasKeyEnded (view_value self.old) }
        ensures { ReturnsKeyEnd order (view_value self.old) (view_value self.new) result }
    {
        let Some(last) = self.spans.last() else {
            unreachable!()
        };
        let span = *last;
        if self.is_first(span) {
            // The first key of its map is compared with none, and is already at its final offset.
            self.open_keys -= 1;
            self.put_key(span.next);
            return Ok(());
        }
        if !self.rises(order, span) {
            return Err(self.bytes.len() - span.next);
        }
        self.open_keys -= 1;
        if self.is_inside() {
            self.put_key(span.next);
            return Ok(());
        }
        cut_out(&mut self.bytes, span.from, span.next);
        self.put_key(span.from);
        Ok(())
    }

    // Whether the next key is the first of its map.
    fn is_first(&self, span: KeySpan) -> bool
        ensures { IsTrue result ↔ (span.from ≡ span.next)
            × (span.next < length self.now.bytes.items) }
    {
        span.from == span.next && span.next < self.bytes.len()
    }

    // Whether the next key comes after the last one.
    fn rises(&self, order: KeyOrder, span: KeySpan) -> bool
        requires order { span.from ≤ span.to }
        requires last { span.to ≤ length self.now.bytes.items }
        requires next { span.next ≤ length self.now.bytes.items }
        ensures { IsTrue result ↔ IsTrue (key_lt order
            (take (span.to - span.from) (drop span.from self.now.bytes.items))
            (drop span.next self.now.bytes.items)) }
    {
        let last = &self.bytes[span.from..span.to];
        compare_keys(order, last, &self.bytes[span.next..]) == Ordering::Less
    }

    // The bytes from this offset on become the last complete key of the innermost map, and its
    // value is expected.
    fn put_key(&mut self, from: usize)
        ensures { view_value self.new ≡ with_key (view_value self.old) from }
    {
        let end = self.bytes.len();
        self.put(
            Expected::Value,
            KeySpan {
                from,
                to: end,
                next: end,
            },
        );
    }

    // Ends the value of a key; another key is expected.
    pub(crate) fn end_value(&mut self)
        requires { (view_value self.old).open_keys ≤ MOST_OPEN }
        ensures { (w : Width) (a : SpelledEntries) (k s l m : Spelling) (b : SpelledEntries)
            (fs : List Frame)
            → IsKept (view_value self.old) (a_content w a k (entry l m b) ∷ fs) (spell s)
            → IsKept (view_value self.new) (a_key w (with_entries a (entry k s no_entries)) m b ∷ fs) [] }
    {
        let Some(last) = self.spans.last() else {
            return;
        };
        let span = KeySpan {
            next: self.bytes.len(),
            ..*last
        };
        self.put(Expected::Key, span);
        self.open_keys += 1;
    }

    // Sets what is expected in the innermost map, and where its last key is.
    fn put(&mut self, expected: Expected, span: KeySpan)
        ensures { view_value self.new ≡ with_last (view_value self.old) expected span }
    {
        if let Some(last) = self.levels.last_mut() {
            *last = expected;
        }
        if let Some(last) = self.spans.last_mut() {
            *last = span;
        }
    }
}

// Removes the bytes between the two offsets.
fn cut_out(bytes: &mut Vec<u8>, from: usize, to: usize)
    requires order { from ≤ to }
    requires within { to ≤ length bytes.old.items }
    ensures { bytes.new.items ≡ take from bytes.old.items ++ drop to bytes.old.items }
{
    let following = bytes.len() - to;
    bytes.copy_within(to.., from);
    bytes.truncate(from + following);
}
