//! The rows of the tables.

use super::{Reported, event, limits, refusal};
use cbor_events::{Event, EventKind, Out};
use cbor_head::{Limits, Reason, Simple, Width};
use std::alloc::{AllocError, Global};
use std::process::Abort;

// A row: bytes, and what is reported of them within the limits.
#[derive(Drop)]
pub(super) struct Row {
    pub(super) line: &'static str,
    pub(super) bytes: Vec<u8>,
    pub(super) limits: Limits,
    pub(super) reported: Reported,
}

pub(super) fn rows_of(
    rt: &impl Abort,
    alloc: Global,
    table: &'static str,
) -> Result<Vec<Row>, AllocError> {
    let mut rows = Vec::new(alloc);
    for line in table.trim().lines() {
        rows.push(row_of(rt, alloc, line)?)?;
    }
    Ok(rows)
}

fn row_of(rt: &impl Abort, alloc: Global, line: &'static str) -> Result<Row, AllocError> {
    let (digits, limits, events, outcome) = columns_of(line).expect(rt, "five columns");
    let bytes = bytes_of(alloc, digits.trim())?;
    let events = events_of(rt, alloc, events)?;
    let (out, taken) = result_of(rt, outcome.trim(), bytes.len() as u64);
    Ok(Row {
        line,
        bytes,
        limits: limits_of(rt, limits.trim()),
        reported: Reported { events, out, taken },
    })
}

fn columns_of(line: &str) -> Option<(&str, &str, &str, &str)> {
    let (digits, rest) = line.split_once('|')?;
    let (limits, rest) = rest.split_once('|')?;
    let (events, rest) = rest.split_once('|')?;
    let (outcome, _) = rest.split_once('|')?;
    Some((digits, limits, events, outcome))
}

fn limits_of(rt: &impl Abort, column: &str) -> Limits {
    let (depth, bytes) = column.split_once(' ').unwrap_or(("256", "1048576"));
    limits(
        rt,
        depth.parse().expect(rt, "a depth"),
        number_of(rt, bytes),
    )
}

// The last result, and how many of the `size` bytes are consumed.
fn result_of(rt: &impl Abort, column: &str, size: u64) -> (Out, u64) {
    let (name, numbers) = column.split_once(' ').unwrap_or((column, ""));
    match name {
        "" => (Out::Done, size),
        "done" => (Out::Done, number_of(rt, numbers)),
        "more" => (Out::More, size),
        _ => {
            let (place, read) = numbers.split_once(' ').expect(rt, "a place and a count");
            let read = number_of(rt, read);
            let refused = refusal(reason_of(rt, name), number_of(rt, place), read);
            (refused, read)
        }
    }
}

fn reason_of(rt: &impl Abort, name: &str) -> Reason {
    match name {
        "TooLong" => Reason::TooLong,
        "Reserved" => Reason::Reserved,
        "NoIndefinite" => Reason::NoIndefinite,
        "Float" => Reason::Float,
        "BadSimple" => Reason::BadSimple,
        "StrayBreak" => Reason::StrayBreak,
        "BadChunk" => Reason::BadChunk,
        "TooDeep" => Reason::TooDeep,
        _ => panic!(rt; "no reason is called {name}"),
    }
}

pub(super) fn bytes_of(alloc: Global, digits: &str) -> Result<Vec<u8>, AllocError> {
    hex::decode(alloc, digits).map_err(|_| AllocError)
}

fn number_of(rt: &impl Abort, word: &str) -> u64 {
    word.parse().expect(rt, "a number")
}

// A count, or none if the length is indefinite.
fn count_of(rt: &impl Abort, word: &str) -> Option<u64> {
    if word == "-" {
        None
    } else {
        Some(number_of(rt, word))
    }
}

fn kind_of(rt: &impl Abort, name: &str, argument: &str) -> EventKind {
    let count = count_of(rt, argument);
    let number = count.unwrap_or(0);
    match name {
        "unsigned" => EventKind::Unsigned(number),
        "negative" => EventKind::Negative(number),
        "simple" => {
            let number = u8::try_from(number).expect(rt, "a number below 256");
            EventKind::Simple(Simple::new(number).expect(rt, "a simple value"))
        }
        "bytes" => EventKind::Bytes(count),
        "text" => EventKind::Text(count),
        "chunk" => EventKind::Chunk(number),
        "piece" => EventKind::Piece(number as usize),
        "array" => EventKind::Array(count),
        "map" => EventKind::Map(count),
        "tag" => EventKind::Tag(number),
        "end" => EventKind::End,
        _ => panic!(rt; "no event is called {name}"),
    }
}

fn width_of(rt: &impl Abort, word: &str) -> Width {
    match word {
        "0" => Width::Direct,
        "1" => Width::One,
        "2" => Width::Two,
        "4" => Width::Four,
        "8" => Width::Eight,
        "-" => Width::Indefinite,
        _ => panic!(rt; "no width is {word}"),
    }
}

// The events of a table, in four words each.
fn events_of(rt: &impl Abort, alloc: Global, text: &str) -> Result<Vec<Event>, AllocError> {
    let words: Vec<&str> = text.split_whitespace().collect(alloc)?;
    let mut events = Vec::new(alloc);
    for line in words.chunks(4) {
        match line {
            [place, name, argument, width] => events.push(event(
                number_of(rt, place),
                width_of(rt, width),
                kind_of(rt, name, argument),
            ))?,
            _ => panic!(rt; "words are left in {text}"),
        }
    }
    Ok(events)
}
