//! What the calls over readers return, for the fuzzer: one output line for each line of standard input.
//!
//! An input line is the kinds of keys, a depth limit, a byte limit and the bytes in hex digits, for
//! example `basic 256 1048576 a18000`; the kinds are `any`, or `basic` for integers and texts. The results
//! are in a fixed order, separated by spaces. For readers that give at most 1, 3 and 4096 bytes a read:
//! what `read_tree` and `read_strict` return and the canonical bytes of the tree; what `StrictMachine`
//! returns of parts of at most as many bytes; and what `StrictReader` returns call by call. Then: what
//! `read_view` returns and the canonical bytes of its tree, and what a `Sequence` gives. A refusal is `!`
//! and its reason, `place` and `read`; after the last colon is the number of bytes that the reader has
//! left.
//!
//! For `StrictMachine` it is what the last `check` returns (`more`, `done` or a refusal), `;`, and what
//! `end` returns.
//!
//! A call of `StrictReader` ends with `;`: an event (name, argument, offset, width, and the bytes of a
//! piece), `none` or a refusal; then `taken`, `open`, `spans`, `kept` and the length of `piece`. After the
//! calls is the number of bytes requested by each read.
//!
//! For a line that begins with `memory` and a count, see [`memory`]. For one that begins with `arena`, the
//! output is what `read_view` returns and how many bytes its arena then holds. For a line of `long` and a
//! count, see [`long`].
#![tactic(auto)]

mod asked;
mod events;
mod long;
mod machine;
mod memory;
mod parts;
mod writing;

use crate::events::report_events;
use crate::long::report_long;
use crate::machine::report_machine;
use crate::memory::report_memory;
use crate::parts::Parts;
use crate::writing::{put_hex, put_refusal};
use bumpalo::Bump;
use cbor_head::{Keys, Limits, Refusal};
use cbor_item::encode;
use cbor_reader::{KeyOrder, Sequence, Tree, read_strict, read_tree, read_view};
use std::alloc::Global;
use std::io::{self, BufWriter, ErrorKind, Read, Write};
use std::process::ExitCode;

static ORDERS: [KeyOrder; 2] = [KeyOrder::Bytewise, KeyOrder::LengthFirst];

// The most bytes that a read gives.
static PARTS: [usize; 3] = [1, 3, 4096];

fn main(rt: HostRuntime) -> ExitCode {
    match report_all(rt.alloc(), rt.stdin(), rt.stdout()) {
        Ok(()) => ExitCode::from(0),
        Err(_) => ExitCode::from(1),
    }
}

fn report_all<R: Read + Drop, W: Write + Drop>(
    alloc: Global,
    mut input: R,
    output: W,
) -> io::Result<()> {
    let mut text = String::new(alloc);
    input.read_to_string(&mut text)?;
    let mut out = BufWriter::new(alloc, output)?;
    for line in text.lines() {
        report_line(alloc, line, &mut out)?;
    }
    out.flush()
}

fn malformed() -> io::Error {
    io::Error::from(ErrorKind::InvalidInput)
}

fn report_line<W: Write>(alloc: Global, line: &str, out: &mut W) -> io::Result<()> {
    if let Some(rest) = line.strip_prefix("memory ") {
        let (idle, rest) = rest.split_once(' ').ok_or_else(malformed)?;
        let idle = idle.parse::<u32>().map_err(|_| malformed())?;
        let (limits, bytes) = input_of(alloc, rest)?;
        return report_memory(alloc, &bytes, limits, idle, out);
    }
    if let Some(rest) = line.strip_prefix("arena ") {
        let (limits, bytes) = input_of(alloc, rest)?;
        return report_arena(alloc, &bytes, limits, out);
    }
    if let Some(count) = line.strip_prefix("long ") {
        return report_long(alloc, count.parse::<u32>().map_err(|_| malformed())?, out);
    }
    let (limits, bytes) = input_of(alloc, line)?;
    for part in PARTS {
        report_tree(alloc, &bytes, part, limits, out)?;
        report_strict(alloc, &bytes, part, limits, out)?;
        for order in ORDERS {
            report_machine(alloc, &bytes, part, limits, order, out)?;
        }
        for order in ORDERS {
            let rest = &bytes[..];
            report_events(alloc, Parts { rest, part }, limits, order, out)?;
        }
    }
    report_view(alloc, &bytes, limits, out)?;
    report_sequence(alloc, &bytes, limits, out)?;
    writeln!(out)
}

// The limits that a line begins with, and the bytes of the hex digits after them.
fn input_of(alloc: Global, line: &str) -> io::Result<(Limits, Vec<u8>)> {
    let Some((limits, digits)) = limits_of(line) else {
        return Err(malformed());
    };
    let bytes = hex::decode(alloc, digits).map_err(|_| malformed())?;
    Ok((limits, bytes))
}

// The limits that a line begins with, and the digits after them.
fn limits_of(line: &str) -> Option<(Limits, &str)> {
    let (keys, rest) = line.split_once(' ')?;
    let (depth, rest) = rest.split_once(' ')?;
    let (most, digits) = rest.split_once(' ')?;
    let keys = match keys {
        "any" => Keys::Any,
        "basic" => Keys::IntegersAndTexts,
        _ => return None,
    };
    let limits = Limits::new(depth.parse::<u16>().ok()?, most.parse::<u64>().ok()?)?;
    Some((limits.with_keys(keys), digits))
}

// The count and the canonical bytes in both orders.
fn report_tree<W: Write>(
    alloc: Global,
    bytes: &[u8],
    part: usize,
    limits: Limits,
    out: &mut W,
) -> io::Result<()> {
    let mut reader = Parts { rest: bytes, part };
    match read_tree(alloc, &mut reader, limits) {
        Ok((tree, count)) => {
            write!(out, "{count}")?;
            put_canonical(alloc, &tree, out)?;
        }
        Err(refusal) => put_refusal(refusal, out)?,
    }
    write!(out, ":{} ", reader.rest.len())
}

// Writes the canonical bytes in both orders, each after a comma.
fn put_canonical<W: Write>(alloc: Global, tree: &Tree, out: &mut W) -> io::Result<()> {
    for order in ORDERS {
        write!(out, ",")?;
        let canonical = encode(alloc, tree, order).map_err(|_| malformed())?;
        put_hex(&canonical, out)?;
    }
    Ok(())
}

// Writes what `read_view` returns. If its tree is refused, the refusal replaces the canonical bytes.
fn report_view<W: Write>(
    alloc: Global,
    bytes: &[u8],
    limits: Limits,
    out: &mut W,
) -> io::Result<()> {
    let arena = Bump::new(alloc);
    let taken = match read_view(alloc, bytes, limits, &arena) {
        Ok((view, count)) => {
            write!(out, "{count}")?;
            match view.to_tree(alloc) {
                Ok(tree) => put_canonical(alloc, &tree, out)?,
                Err(refusal) => {
                    write!(out, ",")?;
                    put_refusal(refusal, out)?;
                }
            }
            count
        }
        Err(refusal) => {
            put_refusal(refusal, out)?;
            refusal.read
        }
    };
    write!(out, ":{} ", (bytes.len() as u64).saturating_sub(taken))
}

// Writes the number of bytes of the view, or a refusal, and the number of bytes that the arena allocated
// for it.
fn report_arena<W: Write>(
    alloc: Global,
    bytes: &[u8],
    limits: Limits,
    out: &mut W,
) -> io::Result<()> {
    let arena = Bump::new(alloc);
    match read_view(alloc, bytes, limits, &arena) {
        Ok((_, count)) => write!(out, "{count}")?,
        Err(refusal) => put_refusal(refusal, out)?,
    }
    writeln!(out, " {}", arena.allocated_bytes())
}

fn report_strict<W: Write>(
    alloc: Global,
    bytes: &[u8],
    part: usize,
    limits: Limits,
    out: &mut W,
) -> io::Result<()> {
    for order in ORDERS {
        let mut reader = Parts { rest: bytes, part };
        match read_strict(alloc, &mut reader, limits, order) {
            Ok(count) => write!(out, "{count}")?,
            Err(refusal) => put_refusal(refusal, out)?,
        }
        write!(out, ":{} ", reader.rest.len())?;
    }
    Ok(())
}

// The canonical bytes of each item of the sequence.
fn report_sequence<W: Write>(
    alloc: Global,
    bytes: &[u8],
    limits: Limits,
    out: &mut W,
) -> io::Result<()> {
    let reader = Parts {
        rest: bytes,
        part: 2,
    };
    let mut sequence = Sequence::new(alloc, reader, limits);
    for _ in 0..=bytes.len() {
        match sequence.next() {
            Some(item) => report_item(alloc, item, out)?,
            None => break,
        }
    }
    Ok(())
}

fn report_item<W: Write>(
    alloc: Global,
    item: Result<Tree, Refusal>,
    out: &mut W,
) -> io::Result<()> {
    match item {
        Ok(tree) => {
            let canonical = encode(alloc, &tree, KeyOrder::Bytewise).map_err(|_| malformed())?;
            put_hex(&canonical, out)?;
            write!(out, ",")
        }
        Err(refusal) => put_refusal(refusal, out),
    }
}
