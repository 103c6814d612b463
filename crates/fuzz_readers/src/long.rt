//! What the strict readers return for long items that have no keys.

use crate::writing::put_refusal;
use cbor_head::{KeyOrder, Limits};
use cbor_reader::{StrictReader, read_strict};
use std::alloc::Global;
use std::io::{self, ErrorKind, Read, Write};

// The first byte of a head with an argument of four bytes, and the byte that follows the head as often
// as the argument counts: a byte string, a text, and an array of zeros.
static LONG: [(u8, u8); 3] = [(0x5a, 0), (0x7a, b'a'), (0x9a, 0)];

/// A head, followed by equal bytes.
#[derive(Drop)]
struct LongItem {
    head: [u8; 5],
    // The number of bytes of the head that were given.
    given: usize,
    byte: u8,
    left: usize,
}

impl LongItem {
    fn new(first: u8, count: u32, byte: u8) -> LongItem {
        let [a, b, c, d] = count.to_be_bytes();
        LongItem {
            head: [first, a, b, c, d],
            given: 0,
            byte,
            left: count as usize,
        }
    }
}

impl Read for LongItem {
    fn read(&mut self, buf: &mut [u8]) -> io::Result<usize> {
        if self.given < 5 {
            let n = buf.len().min(5 - self.given);
            buf[..n].copy_from_slice(&self.head[self.given..self.given + n]);
            self.given += n;
            return Ok(n);
        }
        let n = buf.len().min(self.left);
        buf[..n].fill(self.byte);
        self.left -= n;
        Ok(n)
    }
}

/// For strings of `count` bytes and an array of `count` integers: what `read_strict` returns, how many
/// bytes a `StrictReader` consumed, and how many it stores. Neither the items nor the events are
/// stored here.
pub(crate) fn report_long<W: Write>(alloc: Global, count: u32, out: &mut W) -> io::Result<()> {
    let Some(limits) = Limits::new(1, 1 << 33) else {
        return Err(io::Error::from(ErrorKind::InvalidInput));
    };
    for (first, byte) in LONG {
        let mut item = LongItem::new(first, count, byte);
        match read_strict(alloc, &mut item, limits, KeyOrder::Bytewise) {
            Ok(size) => write!(out, "{size}")?,
            Err(refusal) => put_refusal(refusal, out)?,
        }
        let item = LongItem::new(first, count, byte);
        put_taken(alloc, item, u64::from(count) + 2, limits, out)?;
    }
    writeln!(out)
}

// Reads the events until none is reported, at most `most` of them.
fn put_taken<W: Write>(
    alloc: Global,
    item: LongItem,
    most: u64,
    limits: Limits,
    out: &mut W,
) -> io::Result<()> {
    let mut events = StrictReader::new(alloc, item, limits, KeyOrder::Bytewise);
    for _ in 0..most {
        match events.next() {
            Ok(Some(_)) => {}
            Ok(None) | Err(_) => break,
        }
    }
    write!(out, ",{},{} ", events.taken(), events.kept())
}
