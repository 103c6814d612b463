//! A reader that gives its bytes in parts.

use std::io::{self, Read};

/// A reader that gives at most `most` bytes a read.
#[derive(Drop)]
pub(crate) struct Parts<'a> {
    pub(crate) rest: &'a [u8],
    pub(crate) part: usize,
}

impl Read for Parts<'_> {
    fn read(&mut self, buf: &mut [u8]) -> io::Result<usize> {
        let n = buf.len().min(self.rest.len()).min(self.part);
        buf[..n].copy_from_slice(&self.rest[..n]);
        self.rest = &self.rest[n..];
        Ok(n)
    }
}
