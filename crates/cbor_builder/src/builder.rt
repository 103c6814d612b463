//! The builder: parts in, canonical bytes out.

ghost use Rattle.std.specs.Prelude.{ℕ, List, ◌≡◌, ◌≢◌, ◌↔◌, ◌≤◌, ◌++◌, ◌∷◌, [], IsTrue};
ghost use Rattle.std.specs.Prelude.{OnOk, OnErr, MatchOption, take, length};
ghost use Rattle.cbor_head.specs.Head.{shortest_head, IsSimple};
ghost use Rattle.cbor_head.specs.declared.major.Major.TheVariants.{Simple};
ghost use Rattle.cbor_builder.specs.Built.{IsKeyExpected, IsRepeatedKey, IsWaitingKey};
ghost use Rattle.theory_values.specs.Parts.{plain, give, opened, extended};
ghost use Rattle.cbor_builder.specs.inner.Laid.{Takes, IsString, Laid, outer_spans, shape_open};
ghost use Rattle.cbor_builder.specs.inner.BuilderState.{open_levels, frames, outers, IsLaid};
ghost use Rattle.cbor_builder.specs.inner.BuilderState.{WasLaid, came_open_levels};
ghost use Rattle.cbor_builder.specs.inner.BuilderState.{IsLaidWith, CoreLeaves};
ghost use Rattle.cbor_builder.specs.declared.frame.Shape.TheVariants.{Key};
ghost use Rattle.cbor_builder.specs.declared.span.Span.{Span};
ghost use Rattle.cbor_builder.specs.inner.Repeats.{ReportsOf, Reports};

mod closing;
mod given_up;
mod nesting;

use crate::frame::{Frame, Shape};
use crate::look_up::has_key;
use crate::member::complete;
use crate::opening::opening;
use crate::output_buffer::OutputBuffer;
use crate::repeat::Repeat;
use crate::repeats::{first_repeat, outward};
use crate::span::Span;
use cbor_head::{KeyOrder, Major};
use cbor_memory::Memory;
use std::alloc::{AllocError, Global};
use theory_values::part;

/// A builder. After a call has returned an error, it may only be dropped or cleared.
#[derive(Drop)]
pub(crate) struct Core {
    pub(crate) order: KeyOrder,
    /// Whether anything is open within the item. It is a field of its own here because it takes no
    /// extra space.
    pub(crate) is_open: bool,
    pub(crate) out: OutputBuffer,
    pub(crate) spans: Vec<Span>,
    pub(crate) top: Frame,
    /// The frames around `top`, except the outermost.
    pub(crate) below: Vec<Frame>,
}

impl Core {
    pub(crate) fn new(alloc: Global, order: KeyOrder) -> Core
        ensures order { result.order ≡ order }
        ensures agrees { IsLaidWith result (plain [] ∷ []) }
    {
        Core {
            order,
            is_open: false,
            out: OutputBuffer::new(alloc),
            spans: Vec::new(alloc),
            top: Frame::outermost(),
            below: Vec::new(alloc),
        }
    }

    // Makes it as new, for keys in this order. Its memory stays allocated.
    pub(crate) fn clear(&mut self, order: KeyOrder)
        ensures order { self.new.order ≡ order }
        ensures agrees { IsLaidWith self.new (plain [] ∷ []) }
    {
        self.order = order;
        self.out.cut(0);
        self.spans.clear();
        self.below.clear();
        self.top = Frame::outermost();
        self.is_open = false;
    }

    /// Adds an item that is only a head.
    #[inline(always)]
    pub(crate) fn leaf(
        &mut self,
        memory: &mut Memory,
        major: Major,
        n: u64,
    ) -> Result<(), AllocError>
        requires laid { IsLaid self.old }
        requires takes { Takes self.old.top.shape }
        requires simple { major ≡ Simple → IsSimple n }
        ensures kept { OnOk result (memory.new ≡ memory.old) }
        ensures refused { OnErr result (IsTrue memory.new) }
        ensures leaves { CoreLeaves result self.old self.new
            (give (shortest_head major n) (open_levels self.old)) }
    {
        let at = self.out.len();
        self.out.head(memory, major, n)?;
        complete(
            memory,
            &mut self.top,
            &mut self.spans,
            &self.out,
            self.order,
            at,
        )
    }

    /// Adds a whole string: the first `count` bytes of `prefix`.
    #[inline(always)]
    pub(crate) fn string(
        &mut self,
        memory: &mut Memory,
        major: Major,
        prefix: &[u8],
        count: usize,
    ) -> Result<(), AllocError>
        requires within { count ≤ length prefix.now }
        requires laid { IsLaid self.old }
        requires takes { Takes self.old.top.shape }
        requires kind { major ≢ Simple }
        ensures kept { OnOk result (memory.new ≡ memory.old) }
        ensures refused { OnErr result (IsTrue memory.new) }
        ensures leaves { CoreLeaves result self.old self.new
            (give (shortest_head major count ++ take count prefix.now) (open_levels self.old)) }
    {
        let at = self.out.len();
        self.out.string(memory, major, prefix, count)?;
        complete(
            memory,
            &mut self.top,
            &mut self.spans,
            &self.out,
            self.order,
            at,
        )
    }

    /// Adds an item of no bytes.
    #[inline(always)]
    pub(crate) fn nothing(&mut self, memory: &mut Memory) -> Result<(), AllocError>
        requires laid { IsLaid self.old }
        requires takes { Takes self.old.top.shape }
        ensures kept { OnOk result (memory.new ≡ memory.old) }
        ensures refused { OnErr result (IsTrue memory.new) }
        ensures leaves { CoreLeaves result self.old self.new (give [] (open_levels self.old)) }
    {
        let at = self.out.len();
        complete(
            memory,
            &mut self.top,
            &mut self.spans,
            &self.out,
            self.order,
            at,
        )
    }

    /// Begins a string, an array, a map or a tag. The number is a tag's number; for the others it
    /// is the length or count for which the head gets space.
    #[inline(always)]
    pub(crate) fn begin(
        &mut self,
        memory: &mut Memory,
        major: Major,
        n: u64,
    ) -> Result<(), AllocError>
        requires laid { IsLaid self.old }
        requires kind { major ≢ Simple }
        ensures kept { OnOk result (memory.new ≡ memory.old) }
        ensures refused { OnErr result (IsTrue memory.new) }
        ensures order { self.new.order ≡ self.old.order }
        ensures laid { OnOk result (IsLaid self.new) }
        ensures given { OnOk result (open_levels self.new ≡ opened major n ∷ open_levels self.old) }
    {
        let from = self.out.len();
        self.out.head(memory, major, n)?;
        self.enter(memory)?;
        self.top = opening(major, from, self.out.len(), self.spans.len());
        Ok(())
    }

    /// Extends the open string by the first `count` bytes of `prefix`.
    #[inline(always)]
    pub(crate) fn bytes(
        &mut self,
        memory: &mut Memory,
        prefix: &[u8],
        count: usize,
    ) -> Result<(), AllocError>
        requires within { count ≤ length prefix.now }
        requires laid { IsLaid self.old }
        requires string { IsString self.old.top.shape }
        ensures kept { OnOk result (memory.new ≡ memory.old) }
        ensures refused { OnErr result (IsTrue memory.new) }
        ensures leaves { CoreLeaves result self.old self.new
            (extended (take count prefix.now) (open_levels self.old)) }
    {
        self.out.extend_prefix(memory, prefix, count)?;
        Ok(())
    }

    // Whether the key that waits for its value is equal to an earlier one of its map.
    pub(crate) fn repeated(&self) -> bool
        requires laid { (first : ℕ) → (key : ℕ) → self.now.top.shape ≡ Key first key
            → Laid self.now.order self.now.out self.now.spans.items (frames self.now) }
        ensures { IsTrue result ↔ IsRepeatedKey (open_levels self.now) }
    {
        match self.top.shape {
            Shape::Key(first, key) => has_key(
                &self.out,
                self.order,
                &self.spans[first..],
                self.top.rises,
                key,
                self.out.len(),
            ),
            _ => false,
        }
    }

    // Whether the next item is a key.
    pub(crate) fn is_key_expected(&self) -> bool
        ensures { IsTrue result ↔ IsKeyExpected (open_levels self.now) }
    {
        matches!(self.top.shape, Shape::Map(_))
    }

    // The bytes of the key that waits for its value.
    pub(crate) fn waiting_key(&self) -> Option<&[u8]>
        requires laid { IsLaid self.now }
        ensures { MatchOption result ((q : List ℕ) → IsWaitingKey (open_levels self.now) q → ⊥)
            (λ key. IsWaitingKey (open_levels self.now) key.now) }
    {
        match self.top.shape {
            Shape::Key(_, key) => Some(part(self.out.as_slice(), key, self.out.len())),
            _ => None,
        }
    }

    /// The repeated key that is reported: the first one of the outermost open map that has one.
    /// The spans of the innermost may be in another order than they arrived in. Afterwards nothing
    /// is open. No memory is allocated.
    #[cold]
    #[inline(never)]
    pub(crate) fn first_repeat(&mut self) -> Option<Repeat>
        requires laid { (came : List Span) × WasLaid came self.old }
        ensures order { self.new.order ≡ self.old.order }
        ensures reports { (came : List Span) → WasLaid came self.old
            → Reports (came_open_levels came self.old) result }
    {
        let own = self.take_repeat();
        let mut found = outward(own, None, 0);
        while self.leave() {
            let maps = self.top.maps();
            let own = self.take_repeat();
            found = outward(own, found, maps);
        }
        found
    }

    // The pair of the first repeated key of the innermost. Its bytes and spans are removed.
    fn take_repeat(&mut self) -> Option<usize>
        requires laid { (came : List Span) × WasLaid came self.old }
        ensures reports { (came : List Span) → WasLaid came self.old
            → ReportsOf (shape_open self.old.out came self.old.top.start self.old.top.shape)
            result }
        ensures order { self.new.order ≡ self.old.order }
        ensures out { self.new.out ≡ take self.old.top.from self.old.out }
        ensures spans { self.new.spans.items ≡ outer_spans self.old.spans.items self.old.top.shape }
        ensures around { outers self.new ≡ outers self.old }
    {
        let is_waiting_repeated = self.repeated();
        let first = self.top.first_span(&self.spans);
        let count = self.spans.len() - first;
        let mut pair = None;
        if !self.top.rises {
            pair = first_repeat(self.out.as_slice(), self.order, &mut self.spans[first..]);
        }
        self.spans.truncate(first);
        self.out.cut(self.top.from);
        pair.or(is_waiting_repeated.then_some(count))
    }
}
