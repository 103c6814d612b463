//! Ends what is open, and puts its bytes in their final form.

ghost use Rattle.std.specs.Prelude.{◌≡◌, ◌↔◌, ◌≤◌, ◌++◌, IsTrue, false, OnOk, OnErr, IfOk, drop};
ghost use Rattle.std.specs.Prelude.{take, length, flat_map, IsPermutation};
ghost use Rattle.theory_values.specs.Pairs.{pair_bytes, HasDistinctBytes};
ghost use Rattle.theory_values.specs.Parts.{close, closed, HasNoRepeats};
ghost use Rattle.cbor_builder.specs.declared.frame.Shape.TheVariants.{Map};
ghost use Rattle.cbor_builder.specs.inner.BuilderState.{open_levels, innermost, outers, IsLaid, IsReordered};
ghost use Rattle.cbor_builder.specs.inner.BuilderState.{CoreEnds};
ghost use Rattle.cbor_builder.specs.inner.Laid.{CanClose, OuterTakes, outer_spans, Fits};
ghost use Rattle.cbor_builder.specs.inner.Laid.{pairs_from};
ghost use Rattle.cbor_head.specs.Canonical.{in_order};

use crate::builder::Core;
use crate::frame::{Frame, Shape};
use crate::member::complete;
use crate::sort::sort_distinct;
use crate::span::rearrange;
use cbor_head::Major;
use cbor_memory::Memory;
use std::alloc::AllocError;

impl Core {
    /// Sorts the spans of the open map. Returns false if two of its keys are equal: then they are
    /// sorted only in part.
    #[inline(always)]
    pub(crate) fn order_spans(&mut self, first: usize) -> bool
        requires fits { Fits self.old.order self.old.out self.old.spans.items
            self.old.top.from self.old.top.start self.old.top.rises (Map first) }
        ensures order { self.new.order ≡ self.old.order }
        ensures out { self.new.out ≡ self.old.out }
        ensures top { self.new.top ≡ self.old.top }
        ensures around { outers self.new ≡ outers self.old }
        ensures prefix { take first self.new.spans.items ≡ take first self.old.spans.items }
        ensures permuted { IsPermutation (drop first self.old.spans.items)
            (drop first self.new.spans.items) }
        ensures distinct { IsTrue result
            ↔ HasDistinctBytes (pairs_from self.old.out self.old.spans.items first) }
        ensures pairs { IsTrue result
            → pairs_from self.old.out self.new.spans.items first
            ≡ in_order self.old.order (pairs_from self.old.out self.old.spans.items first) }
    {
        let order = self.order;
        sort_distinct(self.out.as_slice(), order, &mut self.spans[first..])
    }

    // Sorts the pairs of the open map. Returns false if two of its keys are equal.
    #[inline(never)]
    fn order_pairs(&mut self, memory: &mut Memory, first: usize) -> Result<bool, AllocError>
        requires within { self.old.top.start ≤ length self.old.out }
        requires fits { Fits self.old.order self.old.out self.old.spans.items
            self.old.top.from self.old.top.start self.old.top.rises (Map first) }
        ensures kept { OnOk result (memory.new ≡ memory.old) }
        ensures refused { OnErr result (IsTrue memory.new) }
        ensures order { self.new.order ≡ self.old.order }
        ensures top { self.new.top ≡ self.old.top }
        ensures around { outers self.new ≡ outers self.old }
        ensures spans { take first self.new.spans.items ≡ take first self.old.spans.items }
        ensures distinct { IfOk result (λ distinct. IsTrue distinct
            ↔ HasDistinctBytes (pairs_from self.old.out self.old.spans.items first)) }
        ensures out { IfOk result (λ distinct. IsTrue distinct
            → self.new.out ≡ take self.old.top.start self.old.out
            ++ flat_map pair_bytes (in_order self.old.order
            (pairs_from self.old.out self.old.spans.items first))) }
        ensures left { IfOk result (λ distinct. distinct ≡ false → (self.new.out ≡ self.old.out)
            × IsPermutation (drop first self.old.spans.items) (drop first self.new.spans.items)) }
    {
        if self.top.rises {
            return Ok(true);
        }
        if !self.order_spans(first) {
            return Ok(false);
        }
        rearrange(memory, &mut self.out, self.top.start, &self.spans[first..])?;
        Ok(true)
    }

    // Puts the bytes of what is open in their final form. Returns false if two keys of it are
    // equal.
    #[inline(always)]
    fn close_top(&mut self, memory: &mut Memory) -> Result<bool, AllocError>
        requires laid { IsLaid self.old }
        requires closes { CanClose self.old.top.shape }
        ensures kept { OnOk result (memory.new ≡ memory.old) }
        ensures refused { OnErr result (IsTrue memory.new) }
        ensures order { self.new.order ≡ self.old.order }
        ensures top { self.new.top ≡ self.old.top }
        ensures around { outers self.new ≡ outers self.old }
        ensures distinct { IfOk result (λ distinct.
            IsTrue distinct ↔ HasNoRepeats (innermost self.old)) }
        ensures spans { IfOk result (λ distinct. IsTrue distinct
            → self.new.spans.items ≡ outer_spans self.old.spans.items self.old.top.shape) }
        ensures bytes { IfOk result (λ distinct. IsTrue distinct
            → self.new.out ≡ take self.old.top.from self.old.out
            ++ closed self.old.order (innermost self.old)) }
        ensures left { IfOk result (λ distinct. distinct ≡ false → (self.new.out ≡ self.old.out)
            × IsReordered self.old.spans.items self.new.spans.items self.old.top.shape) }
    {
        let Frame {
            from,
            start,
            shape,
            rises: _,
        } = self.top;
        match shape {
            Shape::Plain | Shape::Key(..) => {}
            Shape::Array(n) => self.out.fill_head(memory, from, start, Major::Array, n)?,
            Shape::Map(first) => {
                let n = (self.spans.len() - first) as u64;
                if !self.order_pairs(memory, first)? {
                    return Ok(false);
                }
                self.spans.truncate(first);
                self.out.fill_head(memory, from, start, Major::Map, n)?;
            }
            Shape::Content(major) => {
                let n = (self.out.len() - start) as u64;
                self.out.fill_head(memory, from, start, major, n)?;
            }
        }
        Ok(true)
    }

    /// Ends what is open. Returns false, and does not end it, if it is a map with two equal keys.
    #[inline(always)]
    pub(crate) fn end(&mut self, memory: &mut Memory) -> Result<bool, AllocError>
        requires laid { IsLaid self.old }
        requires closes { CanClose self.old.top.shape }
        requires takes { OuterTakes (outers self.old) }
        ensures kept { OnOk result (memory.new ≡ memory.old) }
        ensures refused { OnErr result (IsTrue memory.new) }
        ensures ends { CoreEnds result self.old self.new (close self.old.order (open_levels self.old)) }
    {
        let from = self.top.from;
        if !self.close_top(memory)? {
            return Ok(false);
        }
        if self.leave() {
            complete(
                memory,
                &mut self.top,
                &mut self.spans,
                &self.out,
                self.order,
                from,
            )?;
        }
        Ok(true)
    }
}
