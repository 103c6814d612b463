//! What is open around the innermost.

ghost use Rattle.std.specs.Prelude.{◌≡◌, [], IsTrue, false, OnOk, OnErr};
ghost use Rattle.cbor_builder.specs.inner.BuilderState.{frames, outers, IsRooted};

use crate::builder::Core;
use crate::frame::Frame;
use cbor_memory::Memory;
use std::alloc::AllocError;

impl Core {
    // Adds the innermost frame to those around it, so that a new one can begin
    // inside it.
    #[inline(always)]
    pub(crate) fn enter(&mut self, memory: &mut Memory) -> Result<(), AllocError>
        requires rooted { IsRooted self.old }
        ensures kept { OnOk result (memory.new ≡ memory.old) }
        ensures refused { OnErr result (IsTrue memory.new) }
        ensures order { self.new.order ≡ self.old.order }
        ensures out { self.new.out ≡ self.old.out }
        ensures spans { self.new.spans.items ≡ self.old.spans.items }
        ensures open { OnOk result (IsTrue self.new.is_open) }
        ensures around { OnOk result (outers self.new ≡ frames self.old) }
    {
        // The outermost frame is always the same, so it is not stored.
        if !self.is_open {
            self.is_open = true;
            return Ok(());
        }
        memory.push_copy(&mut self.below, &self.top)
    }

    // Makes the frame around the innermost the new innermost. Returns false if
    // there is none.
    #[inline(always)]
    pub(crate) fn leave(&mut self) -> bool
        ensures order { self.new.order ≡ self.old.order }
        ensures out { self.new.out ≡ self.old.out }
        ensures spans { self.new.spans.items ≡ self.old.spans.items }
        ensures rooted { IsTrue result → IsRooted self.new }
        ensures frames { IsTrue result → outers self.old ≡ frames self.new }
        ensures none { result ≡ false → outers self.old ≡ [] }
    {
        if !self.is_open {
            return false;
        }
        match self.below.pop() {
            Some(outer) => self.top = outer,
            None => {
                self.top = Frame::outermost();
                self.is_open = false;
            }
        }
        true
    }
}
