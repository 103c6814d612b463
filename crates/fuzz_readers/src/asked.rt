//! A reader that records the size of each read.

use crate::parts::Parts;
use std::alloc::{AllocError, Global};
use std::io::{self, Read};

/// A reader that gives its bytes in parts, and records the number of bytes requested by each read.
#[derive(Drop)]
pub(crate) struct ObservedReader<'a> {
    pub(crate) parts: Parts<'a>,
    pub(crate) counts: Vec<usize>,
}

impl<'a> ObservedReader<'a> {
    // Has space for the reads that such an input can need: each gives at least a byte, except for
    // the last.
    pub(crate) fn new(alloc: Global, parts: Parts<'a>) -> Result<ObservedReader<'a>, AllocError> {
        let most = parts.rest.len().saturating_add(1);
        Ok(ObservedReader {
            parts,
            counts: Vec::with_capacity(alloc, most)?,
        })
    }
}

impl Read for ObservedReader<'_> {
    fn read(&mut self, buf: &mut [u8]) -> io::Result<usize> {
        // a read beyond the space is recorded as long as there is memory
        let _ = self.counts.push(buf.len());
        self.parts.read(buf)
    }
}
