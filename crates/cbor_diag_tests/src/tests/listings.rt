//! The listing against the tables, with readers and writers that read and accept few bytes at a
//! time, or fail.

use super::listing_tables::{ITEMS, REFUSED, Row, outcome_text, rows_of};
use super::streams::{STOPS, Sink, Source, Stop};
use cbor_diag::{listing, listing_from};
use cbor_head::{Limits, Reason, Refusal};
use std::alloc::{AllocError, Global};
use std::process::Abort;
use std::test::Fail;

fn limits<R: Abort>(rt: &R, depth: u16, bytes: u64) -> Limits {
    Limits::new(depth, bytes).expect(rt, "limits")
}

// Whether this is returned and written, and this many bytes of the input are left. The reader and
// the writer are borrowed, and the caller drops them.
fn lists(
    source: &mut Source,
    limits: Limits,
    sink: &mut Sink,
    wanted: Result<u64, Refusal>,
    lines: &[u8],
    left: u64,
) -> bool {
    let given = listing(source, limits, sink);
    given == wanted && sink.ended_with(lines) && source.rest.len() as u64 == left
}

// Lists the bytes, with a limit on the bytes of each read and of each write.
fn list_in_parts(
    row: &Row,
    source: &mut Source,
    sink: &mut Sink,
    parts: (usize, usize),
) -> Result<u64, Refusal> {
    source.part = parts.0;
    sink.part = parts.1;
    listing(source, row.limits, sink)
}

// Whether the row's result is returned, its lines are written, and the rest of the input is left.
fn lists_in_parts(alloc: Global, row: &Row, parts: (usize, usize)) -> Result<bool, AllocError> {
    let mut source = Source::new(alloc, &row.bytes);
    let mut sink = Sink::new(alloc);
    let given = list_in_parts(row, &mut source, &mut sink, parts);
    let taken = match given {
        Ok(size) => size,
        Err(refusal) => refusal.read,
    };
    let left = (row.bytes.len() as u64).saturating_sub(taken);
    let is_right = sink.held.as_slice() == row.listing.as_bytes()
        && source.rest.len() as u64 == left;
    Ok(is_right && outcome_text(alloc, given)?.as_str() == row.outcome)
}

static PARTS: [(usize, usize); 4] = [
    (1, 1),
    (1, usize::MAX),
    (usize::MAX, 1),
    (usize::MAX, usize::MAX),
];

// The bytes of an item, and a byte after it.
#[test]
fn lists_items(rt: HostRuntime) -> Result<(), Fail> {
    for row in &mut rows_of(rt.alloc(), ITEMS)? {
        row.bytes.push(0)?;
        for parts in PARTS {
            assert!(rt; lists_in_parts(rt.alloc(), row, parts)?, "{}", row.line);
        }
    }
    Ok(())
}

// Whether the listing of the item has the row's lines, with offsets counted from `start`.
fn lists_from(alloc: Global, start: u32, limits: Limits, row: &Row) -> bool {
    let mut source = row.bytes.as_slice();
    let mut shown = Vec::new(alloc);
    let outcome = listing_from(&mut source, u64::from(start), limits, &mut shown);
    outcome == Ok(row.bytes.len() as u64) && shown.as_slice() == row.listing.as_bytes()
}

// After 5 bytes, and after 2^32 - 1 bytes.
static STARTS: [(u32, &str); 2] = [
    (
        5,
        "82011864 | 256 4 | 5 array 2 0; 6 unsigned 1 0; 7 unsigned 100 1 | 4 | [1, 100]",
    ),
    (u32::MAX, "00 | 256 1 | 4294967295 unsigned 0 0 | 1 | 0"),
];

#[test]
fn counts_offsets_from_the_start_of_the_input(rt: HostRuntime) -> Result<(), Fail> {
    for (start, table) in STARTS {
        for row in &rows_of(rt.alloc(), table)? {
            assert!(rt;
                lists_from(rt.alloc(), start, row.limits, row),
                "{}",
                row.line
            );
        }
    }
    Ok(())
}

#[test]
fn refuses_malformed_items(rt: HostRuntime) -> Result<(), Fail> {
    for row in &rows_of(rt.alloc(), REFUSED)? {
        for part in [1, usize::MAX] {
            let is_right = lists_in_parts(rt.alloc(), row, (part, usize::MAX))?;
            assert!(rt; is_right, "{}", row.line);
        }
    }
    Ok(())
}

// Items, with the end and the line of each event.
static EVENTS: [(&str, &str); 3] = [
    // 1([1, simple(32)])
    (
        "c18201f820",
        "1 0 tag 1 0; 2 1 array 2 0; 3 2 unsigned 1 0; 5 3 simple 32 1",
    ),
    // (_ h'0102', h'030405')
    (
        "5f42010243030405ff",
        "1 0 bytes - -; 2 1 chunk 2 0; 5 4 chunk 3 0; 9 8 end - -",
    ),
    // {256: "a"}
    (
        "a11901006161",
        "1 0 map 1 0; 4 1 unsigned 256 2; 5 4 text 1 0",
    ),
];

fn end_and_line(event: &str) -> Option<(u64, &str)> {
    let (end, line) = event.split_once(' ')?;
    Some((end.parse().ok()?, line))
}

// The lines of the events that end within the first `taken` bytes.
fn lines_within(alloc: Global, events: &str, taken: u64) -> Result<Vec<u8>, Fail> {
    let mut lines = Vec::new(alloc);
    for event in events.split("; ") {
        let (end, line) = end_and_line(event).ok_or("an end and a line")?;
        if end <= taken {
            lines.extend_from_slice(line.as_bytes())?;
            lines.push(b'\n')?;
        }
    }
    Ok(lines)
}

// The number of bytes consumed when the line at this offset of the listing is written.
fn taken_at(events: &str, place: usize) -> Option<u64> {
    let mut left = place;
    for event in events.split("; ") {
        let (end, line) = end_and_line(event)?;
        // the line feed is one byte more
        if left <= line.len() {
            return Some(end);
        }
        left -= line.len() + 1;
    }
    None
}

// Whether the listing ends with what was read before the reader failed.
fn reports_a_failed_read(
    alloc: Global,
    limits: Limits,
    bytes: &[u8],
    place: usize,
    lines: &[u8],
) -> bool {
    let mut source = Source::new(alloc, bytes);
    source.fails = Some(place);
    let mut sink = Sink::new(alloc);
    let refusal = Err(Refusal::at(Reason::Read, place as u64));
    let left = bytes.len().saturating_sub(place) as u64;
    lists(&mut source, limits, &mut sink, refusal, lines, left)
}

#[test]
fn a_failed_read_ends_the_listing(rt: HostRuntime) -> Result<(), Fail> {
    let limits = limits(&rt, 256, 1 << 20);
    for (digits, events) in EVENTS {
        let bytes = hex::decode(rt.alloc(), digits)?;
        for place in 0..bytes.len() {
            let lines = lines_within(rt.alloc(), events, place as u64)?;
            let is_right = reports_a_failed_read(rt.alloc(), limits, &bytes, place, &lines);
            assert!(rt; is_right, "{digits} at {place}");
        }
    }
    Ok(())
}

// Whether the listing ends where the writer stopped, and no byte after that event was read.
fn reports_a_failed_write(
    alloc: Global,
    limits: Limits,
    bytes: &[u8],
    lines: &[u8],
    read: u64,
    stop: (usize, Stop),
) -> bool {
    let mut source = Source::new(alloc, bytes);
    let mut sink = Sink::stopping(alloc, lines.len(), stop.0, stop.1);
    let refusal = Err(Refusal::new(Reason::Write, lines.len() as u64, read));
    let left = (bytes.len() as u64).saturating_sub(read);
    lists(&mut source, limits, &mut sink, refusal, lines, left)
}

#[test]
fn a_failed_write_ends_the_listing(rt: HostRuntime) -> Result<(), Fail> {
    let limits = limits(&rt, 256, 1 << 20);
    for (digits, events) in EVENTS {
        let bytes = hex::decode(rt.alloc(), digits)?;
        let lines = lines_within(rt.alloc(), events, u64::MAX)?;
        for place in 0..lines.len() {
            let read = taken_at(events, place).ok_or("no such line")?;
            let before = &lines[..place];
            for stop in STOPS {
                let is_right = reports_a_failed_write(
                    rt.alloc(),
                    limits,
                    &bytes,
                    before,
                    read,
                    stop,
                );
                assert!(rt; is_right, "{digits} at {place}");
            }
        }
    }
    Ok(())
}

#[test]
fn stops_within_the_second_line(rt: HostRuntime) {
    let limits = limits(&rt, 256, 1 << 20);
    // [1, 2, 3]
    let bytes = b"\x83\x01\x02\x03";
    let before = b"0 array 3 0\n1 ";
    let stop = (usize::MAX, Stop::Fails);
    assert!(rt; reports_a_failed_write(rt.alloc(), limits, bytes, before, 2, stop));
}

#[test]
fn requests_expected_bytes(rt: HostRuntime) {
    // {256: "a"}: a head, a head and its argument, a head and its payload.
    let mut source = Source::new(rt.alloc(), b"\xa1\x19\x01\x00\x61\x61");
    let mut sink = Sink::new(rt.alloc());
    let outcome = listing(&mut source, limits(&rt, 256, 1 << 20), &mut sink);
    assert!(rt; outcome == Ok(6));
    assert!(rt; source.asked.as_slice() == [1, 1, 2, 1, 1].as_slice());
}
