//! Ends what is open, and removes it.

ghost use Rattle.std.specs.Prelude.{◌≡◌, ◌↔◌, IsTrue, IsOk, false};
ghost use Rattle.cbor_builder.specs.Built.{around};
ghost use Rattle.theory_values.specs.Parts.{HasNoRepeats};
ghost use Rattle.cbor_builder.specs.inner.BuilderState.{open_levels, innermost, outers, IsLaid, IsReordered};
ghost use Rattle.cbor_builder.specs.inner.BuilderState.{CoreEnds};
ghost use Rattle.cbor_builder.specs.inner.Laid.{CanClose, OuterTakes, outer_spans};

use crate::builder::Core;
use crate::frame::Shape;
use std::alloc::AllocError;

// Space for this number of pairs is left allocated.
const KEPT: usize = 256;

impl Core {
    /// Ends what is open, and removes it. Returns false, and does not end it, if it is a map with
    /// two equal keys.
    #[inline(always)]
    pub(crate) fn give_up(&mut self) -> Result<bool, AllocError>
        requires laid { IsLaid self.old }
        requires closes { CanClose self.old.top.shape }
        requires takes { OuterTakes (outers self.old) }
        ensures ok { IsOk result }
        ensures ends { CoreEnds result self.old self.new (around (open_levels self.old)) }
    {
        if !self.give_up_pairs() {
            return Ok(false);
        }
        self.out.cut(self.top.from);
        self.leave();
        Ok(true)
    }

    // Removes the pairs of what is open. Returns false if two keys of it are equal.
    #[inline(always)]
    fn give_up_pairs(&mut self) -> bool
        requires laid { IsLaid self.old }
        requires closes { CanClose self.old.top.shape }
        ensures order { self.new.order ≡ self.old.order }
        ensures out { self.new.out ≡ self.old.out }
        ensures top { self.new.top ≡ self.old.top }
        ensures around { outers self.new ≡ outers self.old }
        ensures distinct { IsTrue result ↔ HasNoRepeats (innermost self.old) }
        ensures spans { IsTrue result
            → self.new.spans.items ≡ outer_spans self.old.spans.items self.old.top.shape }
        ensures left { result ≡ false
            → IsReordered self.old.spans.items self.new.spans.items self.old.top.shape }
    {
        let Shape::Map(first) = self.top.shape else {
            return true;
        };
        if !self.top.rises && !self.order_spans(first) {
            return false;
        }
        self.spans.truncate(first);
        self.spans.shrink_to(KEPT);
        true
    }
}
