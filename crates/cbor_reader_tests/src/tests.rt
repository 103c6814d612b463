//! The readers on tables, with readers that give all at once, and in parts.

mod built;
mod conformance;
mod conformance_rows;
mod conformance_strict;
mod conformance_table;
mod cut_short;
mod failing;
mod heads;
mod initial_bytes_table;
mod keys;
mod keys_table;
mod promises;
mod refusals_table;
mod requests;
mod sequence;
mod sizes;
mod thresholds;
mod towers;
mod whole;

use cbor_head::Limits;
use std::alloc::Global;
use std::io;
use std::io::Read;
use std::process::Abort;

// A reader that gives at most this number of bytes a read.
#[derive(Drop)]
pub(crate) struct Parts<'a> {
    pub(crate) rest: &'a [u8],
    pub(crate) part: usize,
}

impl Read for Parts<'_> {
    fn read(&mut self, buf: &mut [u8]) -> io::Result<usize> {
        let n = buf.len().min(self.rest.len()).min(self.part);
        buf[..n].copy_from_slice(&self.rest[..n]);
        self.rest = &self.rest[n..];
        Ok(n)
    }
}

pub(crate) fn limits<R: Abort>(rt: &R, depth: u16, bytes: u64) -> Limits {
    Limits::new(depth, bytes).expect(rt, "limits")
}

/// Why a text is not bytes in hex digits.
#[derive(Debug, Drop)]
pub(crate) enum BadHex {
    Digit,
    OddCount,
    Times,
    Memory,
}

// The bytes of pairs of hex digits with white space between them. `3*00` means `000000`.
pub(crate) fn bytes_of(alloc: Global, text: &str) -> Result<Vec<u8>, BadHex> {
    let mut bytes = Vec::new(alloc);
    for word in text.split_whitespace() {
        match word.split_once('*') {
            None => push_pairs(&mut bytes, word)?,
            Some((times, digits)) => {
                let times = times.parse::<u16>().map_err(|_| BadHex::Times)?;
                for _ in 0..times {
                    push_pairs(&mut bytes, digits)?;
                }
            }
        }
    }
    Ok(bytes)
}

fn push_pairs(bytes: &mut Vec<u8>, digits: &str) -> Result<(), BadHex> {
    let mut high = None;
    for c in digits.bytes() {
        let digit = match c {
            b'0'..=b'9' => c - b'0',
            b'a'..=b'f' => c - b'a' + 10,
            _ => return Err(BadHex::Digit),
        };
        high = match high {
            None => Some(digit),
            Some(sixteens) => {
                bytes
                    .push(sixteens << 4 | digit)
                    .map_err(|_| BadHex::Memory)?;
                None
            }
        };
    }
    match high {
        None => Ok(()),
        Some(_) => Err(BadHex::OddCount),
    }
}

#[test]
fn refuses_bad_hex(rt: HostRuntime) {
    for text in [
        "0", "000", "0g", "00 0", "0 0", "FF", "2*0", "two*00", "*00",
    ] {
        assert!(rt; bytes_of(rt.alloc(), text).is_err(), "{text}");
    }
}
