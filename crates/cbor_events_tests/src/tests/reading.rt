//! The event reader against the tables, with readers that read few bytes at a time, or fail.

use super::parts::Parts;
use super::rows::{Row, bytes_of, rows_of};
use super::tables::{ACCEPTED, NOT_VALID, PREFIXES, REFUSED};
use super::{Reported, event, join, limits, refusal};
use cbor_events::{Event, EventKind, EventReader, ItemEvents, Out, head_of};
use cbor_head::{Limits, Major, Reason, Refusal, Width};
use std::alloc::{AllocError, Global};
use std::io::Read;
use std::process::Abort;

// What was reported of an item, and the bytes of its payloads.
#[derive(Drop)]
struct ReadItem {
    reported: Reported,
    payloads: Vec<u8>,
}

// What the reader reports next, as a result of the machine.
fn next_of<R: Read>(reader: &mut EventReader<R>) -> Out {
    match reader.next() {
        Ok(Some(event)) => Out::Event(event),
        Ok(None) => Out::Done,
        Err(refusal) => Out::Refused(refusal),
    }
}

// Collects the events and the bytes of their payloads up to the last result. Both lists are borrowed: at each `?` an
// owner of them would have to prove that they may be dropped there.
fn gather<R: Read>(
    reader: &mut EventReader<R>,
    events: &mut Vec<Event>,
    payloads: &mut Vec<u8>,
) -> Result<Out, AllocError> {
    for _ in 0..1000 {
        match next_of(reader) {
            Out::Event(event) => {
                if let EventKind::Piece(_) = event.kind {
                    payloads.extend_from_slice(reader.piece())?;
                }
                join(events, event)?;
            }
            out => return Ok(out),
        }
    }
    Ok(Out::More)
}

// Reads all events. The last result must be returned again: if it is not, the events are dropped, so that the test
// fails.
fn read_all<R: Read + Drop>(
    alloc: Global,
    limits: Limits,
    reader: R,
) -> Result<ReadItem, AllocError> {
    let mut reader = EventReader::new(reader, limits);
    let mut events = Vec::new(alloc);
    let mut payloads = Vec::new(alloc);
    let mut out = gather(&mut reader, &mut events, &mut payloads)?;
    let again = next_of(&mut reader);
    if again != out {
        out = again;
        events.clear();
    }
    Ok(ReadItem {
        reported: Reported {
            events,
            out,
            taken: reader.taken(),
        },
        payloads,
    })
}

// The bytes of the pieces.
fn payloads_of(alloc: Global, bytes: &[u8], events: &[Event]) -> Result<Vec<u8>, AllocError> {
    let mut payloads = Vec::new(alloc);
    for event in events {
        if let EventKind::Piece(n) = event.kind {
            for byte in bytes.iter().skip(event.place as usize).take(n) {
                payloads.push(*byte)?;
            }
        }
    }
    Ok(payloads)
}

// Reads the row's bytes in parts, with one cut. Expects the row's events and result, and the rest of the input unread.
fn check_with_cut(
    rt: &impl Abort,
    alloc: Global,
    row: &Row,
    payloads: &[u8],
    cut: usize,
    part: usize,
) -> Result<(), AllocError> {
    let mut parts = Parts::new(&row.bytes);
    parts.cut = cut;
    parts.part = part;
    let item = read_all(alloc, row.limits, &mut parts)?;
    let left = (row.bytes.len() as u64).saturating_sub(row.reported.taken);
    assert!(rt; item.reported == row.reported, "cut at {cut}: {}", row.line);
    assert!(rt;
        item.payloads.as_slice() == payloads,
        "payloads, cut at {cut}: {}",
        row.line
    );
    assert!(rt;
        parts.rest.len() as u64 == left,
        "left, cut at {cut}: {}",
        row.line
    );
    assert!(rt; parts.idle == 0, "idle, cut at {cut}: {}", row.line);
    Ok(())
}

// Reads the bytes at once and one by one, with a cut at each offset, and with a byte after a whole item.
fn check_each_cut(rt: &impl Abort, alloc: Global, row: &mut Row) -> Result<(), AllocError> {
    let payloads = payloads_of(alloc, &row.bytes, &row.reported.events)?;
    match row.reported.out {
        Out::Done => row.bytes.push(0)?,
        // here the reader ends
        Out::More => row.reported.out = refusal(
            Reason::Truncated,
            row.reported.taken,
            row.reported.taken,
        ),
        _ => {}
    }
    for cut in 0..=row.bytes.len() {
        for part in [1, usize::MAX] {
            check_with_cut(rt, alloc, row, &payloads, cut, part)?;
        }
    }
    Ok(())
}

#[test]
fn reads_as_in_the_tables(rt: HostRuntime) -> Result<(), AllocError> {
    for table in [ACCEPTED, NOT_VALID, REFUSED, PREFIXES] {
        for row in &mut rows_of(&rt, rt.alloc(), table)? {
            check_each_cut(&rt, rt.alloc(), row)?;
        }
    }
    Ok(())
}

// Reads an item from a reader that fails or ends at this offset.
fn check_stop_at(
    rt: &impl Abort,
    alloc: Global,
    row: &Row,
    place: usize,
    reason: Reason,
) -> Result<(), AllocError> {
    let mut parts = Parts::new(&row.bytes);
    if reason == Reason::Read {
        parts.fails = place;
    } else {
        parts.ends = place;
    }
    let reported = read_all(alloc, row.limits, &mut parts)?.reported;
    let taken = place as u64;
    let left = row.bytes.len().saturating_sub(place);
    assert!(rt;
        reported.out == refusal(reason, taken, taken),
        "at {place}: {}",
        row.line
    );
    assert!(rt; reported.taken == taken, "at {place}: {}", row.line);
    assert!(rt; parts.rest.len() == left, "at {place}: {}", row.line);
    Ok(())
}

// The reader fails, or ends, once at each offset: that is reported there, and nothing more is read.
#[test]
fn a_failure_and_an_end_are_reported_at_once(rt: HostRuntime) -> Result<(), AllocError> {
    for row in &rows_of(&rt, rt.alloc(), ACCEPTED)? {
        for place in 0..row.bytes.len() {
            check_stop_at(&rt, rt.alloc(), row, place, Reason::Read)?;
            check_stop_at(&rt, rt.alloc(), row, place, Reason::Truncated)?;
        }
    }
    Ok(())
}

// [256, "a string of 600 bytes"], and a byte after it
fn long_string(alloc: Global) -> Result<Vec<u8>, AllocError> {
    let mut bytes = bytes_of(alloc, "82190100790258")?;
    for _ in 0..601 {
        bytes.push(b'a')?;
    }
    Ok(bytes)
}

fn check_whole(rt: &impl Abort, alloc: Global, bytes: &[u8]) -> Result<(), AllocError> {
    let mut parts = Parts::new(bytes);
    let item = read_all(alloc, limits(rt, 1, 607), &mut parts)?;
    assert!(rt; item.reported.out == Out::Done);
    let text = [
        event(0, Width::Direct, EventKind::Array(Some(2))),
        event(1, Width::Two, EventKind::Unsigned(256)),
        event(4, Width::Two, EventKind::Text(Some(600))),
        event(7, Width::Direct, EventKind::Piece(600)),
    ];
    assert!(rt; item.reported.events[..] == text[..]);
    assert!(rt; parts.rest.len() == 1);
    assert!(rt; parts.asked.as_slice() == [1, 1, 2, 1, 2, 512, 88].as_slice());
    Ok(())
}

// Reads the bytes with this limit. Expects this result, and reads that request these numbers of bytes.
fn check_requests(
    rt: &impl Abort,
    alloc: Global,
    bytes: &[u8],
    limit: u64,
    out: Out,
    asked: &[usize],
) -> Result<(), AllocError> {
    let mut parts = Parts::new(bytes);
    let item = read_all(alloc, limits(rt, 1, limit), &mut parts)?;
    assert!(rt; item.reported.out == out);
    assert!(rt; parts.asked.as_slice() == asked);
    Ok(())
}

// It requests one byte of a head, the rest of its argument, and a payload in parts; nothing at the limit.
#[test]
fn asks_for_what_it_needs(rt: HostRuntime) -> Result<(), AllocError> {
    let alloc = rt.alloc();
    let bytes = long_string(alloc)?;
    check_whole(&rt, alloc, &bytes)?;
    // the same, with a limit of 10 bytes
    let out = refusal(Reason::TooLong, 10, 10);
    check_requests(&rt, alloc, &bytes, 10, out, &[1, 1, 2, 1, 2, 3])?;
    // 2^32, by a head of nine bytes
    let bytes = bytes_of(alloc, "1b0000000100000000")?;
    check_requests(&rt, alloc, &bytes, 9, Out::Done, &[1, 8])
}

#[test]
fn counts_open_containers(rt: HostRuntime) {
    // [["a"]]
    let mut reader = EventReader::new(&b"\x81\x81\x61a"[..], limits(&rt, 2, 4));
    for (open, taken, piece) in [(1, 1, 0), (2, 2, 0), (2, 3, 0), (0, 4, 1), (0, 4, 1)] {
        let _ = reader.next();
        assert!(rt; (reader.open(), reader.taken(), reader.piece().len()) == (open, taken, piece));
    }
}

// [[1, .. is too long; then 2 is an item on its own
#[test]
fn restarts_with_another_item(rt: HostRuntime) {
    let mut events = ItemEvents::new(limits(&rt, 2, 3));
    let mut input: &[u8] = b"\x81\x82\x01\x02";
    for _ in 0..3 {
        assert!(rt; matches!(events.next(&mut input), Ok(Some(_))));
    }
    assert!(rt; events.next(&mut input) == Err(Refusal::at(Reason::TooLong, 3)));
    events.restart();
    let next = events.next(&mut input);
    assert!(rt;
        matches!(
            next,
            Ok(Some(Event {
                place: 0,
                kind: EventKind::Unsigned(2),
                ..
            }))
        )
    );
    assert!(rt; events.next(&mut input) == Ok(None));
}

// Reads 1, then h'00', as keys that must be integers or texts: the string is refused at its first byte, and no more of
// it is read. If the kind is not restricted, it is reported.
#[test]
fn judges_the_kind_of_a_key(rt: HostRuntime) {
    let limits = limits(&rt, 1, 4);
    let mut input: &[u8] = b"\x01\x41\x00";
    let mut events = ItemEvents::new(limits);
    let next = events.next_by_kind(true, &mut input);
    assert!(rt;
        matches!(
            next,
            Ok(Some(Event {
                kind: EventKind::Unsigned(1),
                ..
            }))
        )
    );
    let mut events = ItemEvents::new(limits);
    let other = Refusal {
        reason: Reason::KeyKind,
        place: 0,
        read: 1,
    };
    assert!(rt; events.next_by_kind(true, &mut input) == Err(other));
    assert!(rt; input == b"\x00".as_slice());
    let mut events = ItemEvents::new(limits);
    let mut input: &[u8] = b"\x41\x00";
    let next = events.next_by_kind(false, &mut input);
    assert!(rt;
        matches!(
            next,
            Ok(Some(Event {
                kind: EventKind::Bytes(Some(1)),
                ..
            }))
        )
    );
}

#[test]
fn returns_the_head_of_an_event(rt: HostRuntime) {
    assert!(rt; head_of(EventKind::Map(Some(2))) == Some((Major::Map, 2)));
    assert!(rt; head_of(EventKind::Text(None)) == Some((Major::Text, 0)));
    assert!(rt; head_of(EventKind::End) == None);
}
