//! A reader that reads few bytes at a time, or fails.

use arrayvec::ArrayVec;
use std::io;
use std::io::Read;

// A reader that reads at most `part` bytes a call, and never bytes from both sides of a cut. Where it
// fails or ends, it does so once, and then continues: the bytes of a second read there show that it
// was called again.
#[derive(Drop)]
pub(super) struct Parts<'a> {
    pub(super) rest: &'a [u8],
    pub(super) part: usize,
    // The bytes left before the cut, before the failure and before the end.
    pub(super) cut: usize,
    pub(super) fails: usize,
    pub(super) ends: usize,
    // The number of bytes requested by each of the first reads, and the number of reads that
    // requested none.
    pub(super) asked: ArrayVec<usize, 16>,
    pub(super) idle: usize,
}

impl<'a> Parts<'a> {
    pub(super) fn new(bytes: &'a [u8]) -> Parts<'a> {
        Parts {
            rest: bytes,
            part: usize::MAX,
            cut: usize::MAX,
            fails: usize::MAX,
            ends: usize::MAX,
            asked: ArrayVec::new(),
            idle: 0,
        }
    }
}

impl Read for Parts<'_> {
    fn read(&mut self, buf: &mut [u8]) -> io::Result<usize> {
        let _ = self.asked.try_push(buf.len());
        if buf.is_empty() {
            self.idle = self.idle.saturating_add(1);
        }
        if self.fails == 0 {
            self.fails = usize::MAX;
            return Err(io::Error::from(io::ErrorKind::Interrupted));
        }
        if self.ends == 0 {
            self.ends = usize::MAX;
            return Ok(0);
        }
        if self.cut == 0 {
            self.cut = usize::MAX;
        }
        let n = buf
            .len()
            .min(self.rest.len())
            .min(self.part)
            .min(self.cut)
            .min(self.fails)
            .min(self.ends);
        buf[..n].copy_from_slice(&self.rest[..n]);
        self.rest = &self.rest[n..];
        self.cut -= n;
        self.fails -= n;
        self.ends -= n;
        Ok(n)
    }
}
