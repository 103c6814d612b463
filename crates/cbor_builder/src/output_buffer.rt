//! The output buffer.

ghost use Rattle.std.specs.Prelude.{◌≡◌, ◌≤◌, ◌<◌, ◌+◌, ◌++◌, ◌^◌, [], length, take, drop};
ghost use Rattle.std.specs.Prelude.{slice_range, vec_len, IsTrue, OnOk, OnErr};

mod heads;

use crate::copies::{copy, copy_after, copy_down};
use cbor_memory::Memory;
use std::alloc::{AllocError, Global};
use std::marker::Model;

// The number of bytes that are copied in one piece.
const BLOCK: usize = 32;

// The bytes of space after the content, once the buffer has grown for it.
const SLACK: usize = 40;

// The least size of the first allocation, so that a small item allocates once.
const FIRST: usize = 256;

// The least growth of an allocation.
const NEXT: usize = 512;

// The least number of bytes by which the buffer is lengthened, so that the next writes fit.
const STEP: usize = 1024;

/// The bytes written so far. Some space follows them, so that a head can be written in one piece
/// and the first bytes of a key can be read in one.
#[derive(Drop)]
pub(crate) struct OutputBuffer {
    buf: Vec<u8>,
    len: usize,
}

impl Model for OutputBuffer {
    ghost use Rattle.std.specs.Prelude.{List, ℕ, ◌≤◌, take, vec_len};

    ghost Value = { List ℕ };

    ghost view = { λ b. take b.len b.buf.items };

    ghost invariant = { λ b. b.len ≤ vec_len b.buf };
}

impl OutputBuffer {
    // An empty buffer; allocates nothing.
    pub(crate) fn new(alloc: Global) -> OutputBuffer
        ensures { result ≡ [] }
    {
        OutputBuffer {
            buf: Vec::new(alloc),
            len: 0,
        }
    }

    #[inline(always)]
    pub(crate) fn len(&self) -> usize
        ensures { result ≡ length self.now }
    {
        self.len
    }

    // The bytes written so far.
    #[inline(always)]
    pub(crate) fn as_slice(&self) -> &[u8]
        ensures { result.now ≡ self.now }
    {
        &self.buf[..self.len]
    }

    // The content and the space after it.
    #[inline(always)]
    pub(crate) fn with_space(&self) -> &[u8]
        ensures { take (length self.now) result.now ≡ self.now }
    {
        self.buf.as_slice()
    }

    #[inline(always)]
    pub(crate) fn into_vec(self) -> Vec<u8>
        ensures { result.items ≡ self }
    {
        let OutputBuffer { mut buf, len } = self;
        buf.truncate(len);
        buf
    }

    // Appends these bytes.
    #[inline(always)]
    fn extend(&mut self, memory: &mut Memory, bytes: &[u8]) -> Result<(), AllocError>
        ensures kept { OnOk result (memory.new ≡ memory.old) }
        ensures refused { OnErr result (IsTrue memory.new) }
        ensures appended { OnOk result (self.new ≡ self.old ++ bytes.now) }
    {
        make_space(memory, &mut self.buf, self.len, bytes.len())?;
        let end = self.len + bytes.len();
        copy(bytes, &mut self.buf[self.len..end]);
        self.len = end;
        Ok(())
    }

    // Appends the first of these bytes. Up to 32 are copied as one piece of 32, if the slice has 32
    // bytes.
    #[inline(always)]
    pub(crate) fn extend_prefix(
        &mut self,
        memory: &mut Memory,
        prefix: &[u8],
        count: usize,
    ) -> Result<(), AllocError>
        requires { count ≤ length prefix.now }
        ensures kept { OnOk result (memory.new ≡ memory.old) }
        ensures refused { OnErr result (IsTrue memory.new) }
        ensures appended { OnOk result (self.new ≡ self.old ++ take count prefix.now) }
    {
        if count <= BLOCK {
            if let Some(block) = prefix.first_chunk::<BLOCK>() {
                return self.extend_block(memory, block, count);
            }
        }
        self.extend(memory, &prefix[..count])
    }

    // Appends a copy of the bytes from `start` to `end`. Up to 32 bytes are copied as one piece of
    // 32, if the space after them allows it.
    #[inline(always)]
    pub(crate) fn extend_within(
        &mut self,
        memory: &mut Memory,
        start: usize,
        end: usize,
    ) -> Result<(), AllocError>
        requires begins { start ≤ end }
        requires ends { end ≤ length self.old }
        ensures kept { OnOk result (memory.new ≡ memory.old) }
        ensures refused { OnErr result (IsTrue memory.new) }
        ensures appended { OnOk result (self.new ≡ self.old ++ slice_range self.old start end) }
    {
        let count = end - start;
        if count <= BLOCK {
            if let Some(block) = self.buf[start..].first_chunk::<BLOCK>() {
                let block = *block;
                return self.extend_block(memory, &block, count);
            }
        }
        make_space(memory, &mut self.buf, self.len, count)?;
        self.len = copy_after(&mut self.buf, self.len, start, end);
        Ok(())
    }

    // Appends the first of these bytes.
    #[inline(always)]
    fn extend_block(
        &mut self,
        memory: &mut Memory,
        block: &[u8; BLOCK],
        count: usize,
    ) -> Result<(), AllocError>
        requires { count ≤ 32 }
        ensures kept { OnOk result (memory.new ≡ memory.old) }
        ensures refused { OnErr result (IsTrue memory.new) }
        ensures appended { OnOk result (self.new ≡ self.old ++ take count block.now) }
    {
        make_space(memory, &mut self.buf, self.len, BLOCK)?;
        self.len = put_block(&mut self.buf, self.len, block, count);
        Ok(())
    }

    // The bytes written up to `end`.
    pub(crate) fn cut(&mut self, end: usize)
        requires { end ≤ length self.old }
        ensures { self.new ≡ take end self.old }
    {
        self.len = end;
    }

    // Moves the bytes from `end` on down to `start`.
    pub(crate) fn close_up(&mut self, start: usize, end: usize)
        requires begins { start ≤ end }
        requires ends { end ≤ length self.old }
        ensures { self.new ≡ take start self.old ++ drop end self.old }
    {
        self.len = copy_down(&mut self.buf, start, end, self.len);
    }
}

// Writes the first of these bytes after the first `len`, if there is space for all of them. Returns
// where they end.
#[inline(always)]
fn put_block(buf: &mut Vec<u8>, len: usize, block: &[u8; BLOCK], count: usize) -> usize
    requires few { count ≤ 32 }
    requires space { len + 32 ≤ vec_len buf.old }
    ensures within { result ≤ vec_len buf.new }
    ensures block { take result buf.new.items ≡ take len buf.old.items ++ take count block.now }
{
    buf[len..len + BLOCK].copy_from_slice(block);
    len + count
}

// Makes space for n bytes after the first `len`, and for the slack. The first `len` bytes are
// unchanged.
#[inline(always)]
fn make_space(
    memory: &mut Memory,
    buf: &mut Vec<u8>,
    len: usize,
    n: usize,
) -> Result<(), AllocError>
    requires within { len ≤ vec_len buf.old }
    requires few { n < 2 ^ 63 }
    ensures kept { OnOk result (memory.new ≡ memory.old) }
    ensures refused { OnErr result (IsTrue memory.new) }
    ensures needed { OnErr result (vec_len buf.old < len + n + 40) }
    ensures space { OnOk result (len + n + 40 ≤ vec_len buf.new) }
    ensures within { len ≤ vec_len buf.new }
    ensures same { take len buf.new.items ≡ take len buf.old.items }
{
    if buf.len() - len < n + SLACK {
        return grow(memory, buf, len, n);
    }
    Ok(())
}

// Makes space in a buffer that is too short. An allocation grows it by at least a half, so that the cost of
// all copies together is proportional to what is written in the end.
#[cold]
#[inline(never)]
fn grow(memory: &mut Memory, buf: &mut Vec<u8>, len: usize, n: usize) -> Result<(), AllocError>
    requires within { len ≤ vec_len buf.old }
    requires few { n < 2 ^ 63 }
    ensures kept { OnOk result (memory.new ≡ memory.old) }
    ensures refused { OnErr result (IsTrue memory.new) }
    ensures space { OnOk result (len + n + 40 ≤ vec_len buf.new) }
    ensures within { len ≤ vec_len buf.new }
    ensures same { take len buf.new.items ≡ take len buf.old.items }
{
    let size = buf.len();
    if size == 0 {
        // Allocated and filled in one step.
        *buf = memory.zeros(*buf.allocator(), n.max(FIRST) + SLACK)?;
        return Ok(());
    }
    let least = n.max(NEXT) + SLACK;
    if buf.capacity() - size < least {
        memory.reserve_exact(buf, least.max(size / 2))?;
    }
    let soon = n.max(STEP) + SLACK;
    buf.resize(size + soon.min(buf.capacity() - size), 0)
}
