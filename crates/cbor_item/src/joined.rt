//! The content of a string in chunks.

ghost use Rattle.std.specs.Prelude.{◌≡◌, ◌≤◌, ◌++◌, [], length, take, IsTrue, OnOk, OnErr};

use cbor_memory::Memory;
use std::alloc::{AllocError, Global};
use std::marker::Model;

// This number of bytes is copied in one piece.
const BLOCK: usize = 32;

// For a chunk that did not fit, space for this number of bytes is added.
const SPACE: usize = 128;

/// The content so far of a string in chunks. Some space follows it, so that a short chunk is copied
/// in one piece. The space is reused for the next string.
#[derive(Drop)]
pub struct Joined {
    buf: Vec<u8>,
    len: usize,
}

impl Model for Joined {
    ghost use Rattle.std.specs.Prelude.{List, ℕ, ◌≤◌, take, vec_len};

    ghost Value = { List ℕ };

    ghost view = { λ b. take b.len b.buf.items };

    ghost invariant = { λ b. b.len ≤ vec_len b.buf };
}

impl Joined {
    /// Creates an empty content. Allocates nothing.
    pub fn new(alloc: Global) -> Joined
        ensures { result ≡ [] }
    {
        Joined {
            buf: Vec::new(alloc),
            len: 0,
        }
    }

    /// The content so far.
    pub fn as_slice(&self) -> &[u8]
        ensures { result.now ≡ self.now }
    {
        &self.buf[..self.len]
    }

    /// Empties the content. Its memory stays allocated.
    #[inline(always)]
    pub fn clear(&mut self)
        ensures { self.new ≡ [] }
    {
        self.len = 0;
    }

    /// Appends the first `count` bytes of `prefix`. Up to 32 are copied as one piece of 32, if the
    /// slice has 32 bytes.
    #[inline(always)]
    pub fn extend_prefix(
        &mut self,
        memory: &mut Memory,
        prefix: &[u8],
        count: usize,
    ) -> Result<(), AllocError>
        requires { count ≤ length prefix.now }
        ensures kept { OnOk result (memory.new ≡ memory.old) }
        ensures refused { OnErr result (IsTrue memory.new) }
        ensures extended { OnOk result (self.new ≡ self.old ++ take count prefix.now) }
    {
        if count <= BLOCK && self.buf.len() - self.len >= BLOCK {
            if let Some(block) = prefix.first_chunk::<BLOCK>() {
                self.buf[self.len..self.len + BLOCK].copy_from_slice(block);
                self.len += count;
                return Ok(());
            }
        }
        self.extend(memory, &prefix[..count])
    }

    // Appends all of these bytes, and leaves space after them.
    #[inline(never)]
    fn extend(&mut self, memory: &mut Memory, bytes: &[u8]) -> Result<(), AllocError>
        ensures kept { OnOk result (memory.new ≡ memory.old) }
        ensures refused { OnErr result (IsTrue memory.new) }
        ensures extended { OnOk result (self.new ≡ self.old ++ bytes.now) }
    {
        self.buf.truncate(self.len);
        memory.reserve(&mut self.buf, bytes.len() + SPACE)?;
        memory.extend(&mut self.buf, bytes)?;
        let len = self.buf.len();
        self.buf.resize(len + SPACE, 0)?;
        self.len = len;
        Ok(())
    }
}
