//! The strict reader event by event: what it reports, and what it stores. The expected numbers were
//! worked out by hand from the bytes of the keys.

use super::limits;
use cbor_head::{Event, EventKind, Keys, Limits, Reason, Refusal, Width};
use cbor_strict::{KeyOrder, StrictReader};
use std::alloc::{AllocError, Global};
use std::io::Read;
use std::test::Fail;

// A line for each event: its offset and kind; then the number of bytes consumed, of open containers, of
// maps with a stored key, and of stored bytes of keys; and which bytes these are.

// {{1: 0}: 0, {1: 1}: 0}
static TWO_MAPS: &str = "
0 Map(Some(2)): 1 1 1 0
1 Map(Some(1)): 2 2 2 1 | a1 of the first key
2 Unsigned(1): 3 2 2 2 | a101, with the inner map's key
3 Unsigned(0): 4 1 1 3 | a10100, complete
4 Unsigned(0): 5 1 1 3
5 Map(Some(1)): 6 2 2 4 | a10100, and a1, a101 of the second key
6 Unsigned(1): 7 2 2 5
7 Unsigned(1): 8 1 1 3 | a10101 alone
8 Unsigned(0): 9 0 0 0
";

// [0, 0]
static NO_KEYS: &str = "
0 Array(Some(2)): 1 1 0 0
1 Unsigned(0): 2 1 0 0
2 Unsigned(0): 3 0 0 0
";

// {"ab": [{0: h'01'}]}
static KEYS_IN_A_CONTENT: &str = "
0 Map(Some(1)): 1 1 1 0
1 Text(Some(2)): 2 1 1 1
2 Piece(2): 4 1 1 3
4 Array(Some(1)): 5 2 1 3
5 Map(Some(1)): 6 3 2 3
6 Unsigned(0): 7 3 2 4
7 Bytes(Some(1)): 8 3 2 4
";

// The line for an event that was reported.
fn line_of<R: Read>(
    alloc: Global,
    event: Event,
    reader: &StrictReader<R>,
) -> Result<String, AllocError> {
    let (taken, open) = (reader.taken(), reader.open());
    let (spans, kept) = (reader.spans(), reader.kept());
    format!(in alloc;
        "{} {:?}: {taken} {open} {spans} {kept}",
        event.place, event.kind
    )
}

// Whether exactly these lines are reported.
fn is_reported(
    alloc: Global,
    limits: Limits,
    input: &[u8],
    steps: &str,
) -> Result<bool, AllocError> {
    let mut reader = StrictReader::new(alloc, input, limits, KeyOrder::Bytewise);
    for line in steps.trim().lines() {
        let (wanted, _) = line.split_once(" | ").unwrap_or((line, ""));
        let Ok(Some(event)) = reader.next() else {
            return Ok(false);
        };
        let is_right = line_of(alloc, event, &reader)?.as_str() == wanted;
        if !is_right || event.width != Width::Direct {
            return Ok(false);
        }
    }
    Ok(true)
}

#[test]
fn stores_the_keys_to_be_compared(rt: HostRuntime) -> Result<(), Fail> {
    let limits = limits(&rt, 256, 1048576);
    let maps = b"\xa2\xa1\x01\x00\x00\xa1\x01\x01\x00";
    assert!(rt; is_reported(rt.alloc(), limits, maps, TWO_MAPS)?);
    assert!(rt; is_reported(rt.alloc(), limits, b"\x82\x00\x00", NO_KEYS)?);
    let content = b"\xa1\x62ab\x81\xa1\x00\x41\x01";
    assert!(rt; is_reported(rt.alloc(), limits, content, KEYS_IN_A_CONTENT)?);
    Ok(())
}

#[test]
fn reports_a_piece_and_the_end(rt: HostRuntime) {
    let limits = limits(&rt, 256, 1048576);
    let mut reader = StrictReader::new(rt.alloc(), &b"\x62ab\x00"[..], limits, KeyOrder::Bytewise);
    assert!(rt; reader.piece() == b"".as_slice());
    let head = Event {
        place: 0,
        width: Width::Direct,
        kind: EventKind::Text(Some(2)),
    };
    assert!(rt; reader.next() == Ok(Some(head)));
    let piece = Event {
        place: 1,
        width: Width::Direct,
        kind: EventKind::Piece(2),
    };
    assert!(rt; reader.next() == Ok(Some(piece)));
    assert!(rt; reader.piece() == b"ab".as_slice());
    assert!(rt; reader.next() == Ok(None));
    assert!(rt; reader.next() == Ok(None));
    assert!(rt; reader.taken() == 3);
}

// {simple(32): 0}, {[]: 0} and {h'07': 0}: only the map is reported, and one byte of the key is read.
#[test]
fn reports_nothing_of_a_key_of_another_kind(rt: HostRuntime) {
    let basic = limits(&rt, 256, 1048576).with_keys(Keys::IntegersAndTexts);
    let map = Event {
        place: 0,
        width: Width::Direct,
        kind: EventKind::Map(Some(1)),
    };
    let refusal = Refusal::new(Reason::KeyKind, 1, 2);
    let inputs: [&[u8]; 3] = [b"\xa1\xf8\x20\x00", b"\xa1\x80\x00", b"\xa1\x41\x07\x00"];
    for input in inputs {
        let mut reader = StrictReader::new(rt.alloc(), input, basic, KeyOrder::Bytewise);
        assert!(rt; reader.next() == Ok(Some(map)));
        assert!(rt; reader.next() == Err(refusal));
        assert!(rt; reader.next() == Err(refusal));
        assert!(rt; reader.taken() == 2 && reader.piece().is_empty());
    }
}

// 256 maps, each the key of the one before, around 0.
fn tower(alloc: Global) -> Result<Vec<u8>, AllocError> {
    let mut bytes = Vec::new(alloc);
    for _ in 0..256 {
        bytes.extend_from_slice(&[0xa1, 0x00])?;
    }
    bytes.push(0)?;
    Ok(bytes)
}

#[test]
fn reads_a_tower(rt: HostRuntime) -> Result<(), Fail> {
    let input = tower(rt.alloc())?;
    let whole = limits(&rt, 256, 1048576);
    let mut reader = StrictReader::new(rt.alloc(), &input[..], whole, KeyOrder::Bytewise);
    // a map and its key 0; its value is the next map
    for level in 1..=256 {
        for _ in 0..2 {
            assert!(rt; reader.next().is_ok());
        }
        let kept = level as u64;
        assert!(rt; reader.open() == level && reader.spans() == level && reader.kept() == kept);
    }
    assert!(rt; reader.next().is_ok());
    assert!(rt; reader.open() == 0 && reader.spans() == 0 && reader.kept() == 0);
    assert!(rt; reader.next() == Ok(None));
    assert!(rt; reader.taken() == 513);
    Ok(())
}
