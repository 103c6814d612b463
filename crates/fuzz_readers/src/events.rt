//! What the strict reader returns call by call, and what it requests from its reader.

use crate::asked::ObservedReader;
use crate::parts::Parts;
use crate::writing::{put_hex, put_refusal};
use cbor_head::{Event, EventKind, KeyOrder, Limits, Refusal, Width};
use cbor_reader::StrictReader;
use std::alloc::Global;
use std::io::{self, Read, Write};

/// The calls of `next` until one reports no event, and two more; the number of bytes requested by
/// each read; and the number of bytes that the reader has left.
pub(crate) fn report_events<W: Write>(
    alloc: Global,
    parts: Parts<'_>,
    limits: Limits,
    order: KeyOrder,
    out: &mut W,
) -> io::Result<()> {
    let most = parts.rest.len();
    let mut asked = ObservedReader::new(alloc, parts)?;
    put_calls(
        &mut StrictReader::new(alloc, &mut asked, limits, order),
        most,
        out,
    )?;
    write!(out, ":")?;
    for count in &asked.counts {
        write!(out, "{count}+")?;
    }
    write!(out, ":{} ", asked.parts.rest.len())
}

// Each event consumes at least a byte, and `most` is the number of bytes.
fn put_calls<R: Read, W: Write>(
    events: &mut StrictReader<R>,
    most: usize,
    out: &mut W,
) -> io::Result<()> {
    for _ in 0..=most {
        if !put_call(events, out)? {
            break;
        }
    }
    for _ in 0..2 {
        put_call(events, out)?;
    }
    Ok(())
}

// Writes what a call returns and the reader's state after it. Returns whether an event was
// reported.
fn put_call<R: Read, W: Write>(events: &mut StrictReader<R>, out: &mut W) -> io::Result<bool> {
    let outcome = events.next();
    put_result(&outcome, events.piece(), out)?;
    let taken = events.taken();
    let open = events.open();
    let spans = events.spans();
    let kept = events.kept();
    write!(
        out,
        ",{taken},{open},{spans},{kept},{};",
        events.piece().len()
    )?;
    Ok(matches!(outcome, Ok(Some(_))))
}

fn put_result<W: Write>(
    outcome: &Result<Option<Event>, Refusal>,
    piece: &[u8],
    out: &mut W,
) -> io::Result<()> {
    match outcome {
        Ok(Some(event)) => put_event(event, piece, out),
        Ok(None) => write!(out, "none"),
        Err(refusal) => put_refusal(*refusal, out),
    }
}

fn put_event<W: Write>(event: &Event, piece: &[u8], out: &mut W) -> io::Result<()> {
    let (name, argument) = columns_of(event.kind);
    match argument {
        Some(number) => write!(out, "{name},{number}")?,
        None => write!(out, "{name},-")?,
    }
    write!(out, ",{},{}", event.place, width_of(event.width))?;
    if let EventKind::Piece(_) = event.kind {
        write!(out, ",")?;
        put_hex(piece, out)?;
    }
    Ok(())
}

// The name of an event, and its argument if it has one.
fn columns_of(kind: EventKind) -> (&'static str, Option<u64>) {
    match kind {
        EventKind::Unsigned(n) => ("unsigned", Some(n)),
        EventKind::Negative(n) => ("negative", Some(n)),
        EventKind::Simple(simple) => ("simple", Some(u64::from(simple.number()))),
        EventKind::Bytes(count) => ("bytes", count),
        EventKind::Text(count) => ("text", count),
        EventKind::Chunk(n) => ("chunk", Some(n)),
        EventKind::Piece(n) => ("piece", Some(n as u64)),
        EventKind::Array(count) => ("array", count),
        EventKind::Map(count) => ("map", count),
        EventKind::Tag(n) => ("tag", Some(n)),
        EventKind::End => ("end", None),
    }
}

// The number of bytes of an argument of this width, after the first byte of its head.
fn width_of(width: Width) -> &'static str {
    match width {
        Width::Direct => "0",
        Width::One => "1",
        Width::Two => "2",
        Width::Four => "4",
        Width::Eight => "8",
        Width::Indefinite => "-",
    }
}
