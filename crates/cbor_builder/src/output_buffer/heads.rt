//! Heads in the output buffer: appended, or filled into the space left for them.

ghost use Rattle.std.specs.Prelude.{◌≡◌, ◌≢◌, ◌≤◌, ◌++◌, length, take, drop, IsTrue, OnOk, OnErr};
ghost use Rattle.cbor_head.specs.Head.{shortest_head, IsSimple};
ghost use Rattle.cbor_head.specs.declared.major.Major.TheVariants.{Simple};

use crate::head::{head_bytes, put_head};
use crate::output_buffer::{BLOCK, OutputBuffer, make_space, put_block};
use cbor_head::Major;
use cbor_memory::Memory;
use std::alloc::AllocError;

// The longest head.
const HEAD: usize = 9;

impl OutputBuffer {
    // Appends the shortest head.
    #[inline(always)]
    pub(crate) fn head(
        &mut self,
        memory: &mut Memory,
        major: Major,
        n: u64,
    ) -> Result<(), AllocError>
        requires { major ≡ Simple → IsSimple n }
        ensures kept { OnOk result (memory.new ≡ memory.old) }
        ensures refused { OnErr result (IsTrue memory.new) }
        ensures appended { OnOk result (self.new ≡ self.old ++ shortest_head major n) }
    {
        make_space(memory, &mut self.buf, self.len, HEAD)?;
        self.len = put_head(&mut self.buf, self.len, major, n);
        Ok(())
    }

    // Appends the shortest head for a string of this length, and the first bytes of the slice. Few
    // bytes need one check for space.
    #[inline(always)]
    pub(crate) fn string(
        &mut self,
        memory: &mut Memory,
        major: Major,
        prefix: &[u8],
        count: usize,
    ) -> Result<(), AllocError>
        requires within { count ≤ length prefix.now }
        requires kind { major ≢ Simple }
        ensures kept { OnOk result (memory.new ≡ memory.old) }
        ensures refused { OnErr result (IsTrue memory.new) }
        ensures appended { OnOk result
            (self.new ≡ self.old ++ (shortest_head major count ++ take count prefix.now)) }
    {
        if count <= BLOCK {
            if let Some(block) = prefix.first_chunk::<BLOCK>() {
                make_space(memory, &mut self.buf, self.len, HEAD + BLOCK)?;
                let at = put_head(&mut self.buf, self.len, major, count as u64);
                self.len = put_block(&mut self.buf, at, block, count);
                return Ok(());
            }
        }
        self.head(memory, major, count as u64)?;
        self.extend(memory, &prefix[..count])
    }

    // Replaces the bytes between `from` and `start` with the shortest head.
    #[inline(always)]
    pub(crate) fn fill_head(
        &mut self,
        memory: &mut Memory,
        from: usize,
        start: usize,
        major: Major,
        n: u64,
    ) -> Result<(), AllocError>
        requires ends { start ≤ length self.old }
        requires begins { from ≤ start }
        requires simple { major ≡ Simple → IsSimple n }
        ensures kept { OnOk result (memory.new ≡ memory.old) }
        ensures refused { OnErr result (IsTrue memory.new) }
        ensures filled { OnOk result
            (self.new ≡ take from self.old ++ (shortest_head major n ++ drop start self.old)) }
    {
        if n < 24 && start - from == 1 {
            self.buf[from] = 32 * major.number() + n as u8;
            return Ok(());
        }
        self.fill_long(memory, from, start, major, n)
    }

    // Fills in a head of any length. If it differs from the space left for it, the bytes after it are moved.
    #[inline(never)]
    fn fill_long(
        &mut self,
        memory: &mut Memory,
        from: usize,
        start: usize,
        major: Major,
        n: u64,
    ) -> Result<(), AllocError>
        requires ends { start ≤ length self.old }
        requires begins { from ≤ start }
        requires simple { major ≡ Simple → IsSimple n }
        ensures kept { OnOk result (memory.new ≡ memory.old) }
        ensures refused { OnErr result (IsTrue memory.new) }
        ensures filled { OnOk result
            (self.new ≡ take from self.old ++ (shortest_head major n ++ drop start self.old)) }
    {
        let (head, count) = head_bytes(major, n);
        if count == start - from {
            self.buf[from..start].copy_from_slice(&head[..count]);
            return Ok(());
        }
        make_space(memory, &mut self.buf, self.len, HEAD)?;
        self.buf.copy_within(start..self.len, from + count);
        self.buf[from..from + count].copy_from_slice(&head[..count]);
        self.len = from + count + (self.len - start);
        Ok(())
    }
}
