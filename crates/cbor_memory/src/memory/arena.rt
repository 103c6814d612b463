//! The requests for memory of an arena.

ghost use Rattle.std.specs.Prelude.{◌≡◌, IsTrue, OnOk, OnErr, IfOk};

use crate::memory::Memory;
use bumpalo::Bump;
use std::alloc::AllocError;

impl Memory {
    /// A copy of these elements in the arena.
    pub fn copied_into<'a, T: Copy>(
        &mut self,
        arena: &'a Bump,
        elements: &[T],
    ) -> Result<&'a [T], AllocError>
        ensures kept { OnOk result (self.new ≡ self.old) }
        ensures refused { OnErr result (IsTrue self.new) }
        ensures copied { IfOk result (λ copy. copy.now ≡ elements.now) }
    {
        match arena.try_alloc_slice_copy(elements) {
            Ok(copy) => Ok(copy),
            Err(error) => {
                self.refused = true;
                Err(error)
            }
        }
    }

    /// A copy of this text in the arena.
    pub fn text_copied_into<'a>(
        &mut self,
        arena: &'a Bump,
        text: &str,
    ) -> Result<&'a str, AllocError>
        ensures kept { OnOk result (self.new ≡ self.old) }
        ensures refused { OnErr result (IsTrue self.new) }
        ensures copied { IfOk result (λ copy. copy.now ≡ text.now) }
    {
        let done = arena.try_alloc_str(text);
        if done.is_err() {
            self.refused = true;
        }
        done
    }

    /// Moves a value into the arena.
    pub fn moved_into<'a, T: Copy>(
        &mut self,
        arena: &'a Bump,
        value: T,
    ) -> Result<&'a T, AllocError>
        ensures kept { OnOk result (self.new ≡ self.old) }
        ensures refused { OnErr result (IsTrue self.new) }
        ensures moved { IfOk result (λ moved. moved.now ≡ value) }
    {
        match arena.try_alloc(value) {
            Ok(moved) => Ok(moved),
            Err(_) => {
                self.refused = true;
                Err(AllocError)
            }
        }
    }
}
