//! What the strict machine reports of an input in parts.

use crate::writing::put_refusal;
use cbor_head::{KeyOrder, Limits};
use cbor_stream::{Out, StrictMachine};
use std::alloc::Global;
use std::io::{self, Write};

/// What `check` returns after the last part, what `end` returns, and the number of bytes that were not
/// used. Parts of no bytes follow the input, and each part is fed, also after the end of the item.
pub(crate) fn report_machine<W: Write>(
    alloc: Global,
    bytes: &[u8],
    part: usize,
    limits: Limits,
    order: KeyOrder,
    out: &mut W,
) -> io::Result<()> {
    let mut machine = StrictMachine::new(alloc, limits, order);
    let mut last = Out::More;
    let mut rest = bytes;
    for _ in 0..=bytes.len() {
        let n = rest.len().min(part);
        last = machine.check(&rest[..n]).out;
        rest = &rest[n..];
    }
    put_out(last, out)?;
    match machine.end() {
        Ok(count) => write!(out, ";{count}")?,
        Err(refusal) => {
            write!(out, ";")?;
            put_refusal(refusal, out)?;
        }
    }
    let left = (bytes.len() as u64).saturating_sub(machine.taken());
    write!(out, ":{left} ")
}

fn put_out<W: Write>(last: Out, out: &mut W) -> io::Result<()> {
    match last {
        Out::Event(_) => write!(out, "event"),
        Out::More => write!(out, "more"),
        Out::Done => write!(out, "done"),
        Out::Refused(refusal) => put_refusal(refusal, out),
    }
}
