//! What each call returns if one request for memory is refused. `rt try --test --fail-alloc N`
//! refuses the Nth request of each test, and these pass for every N; with none refused they show the
//! usual result. Nothing here allocates except the calls themselves.

use super::{RECORDS, limits};
use bumpalo::Bump;
use cbor_head::{KeyOrder, Reason, Refusal};
use cbor_reader::{Sequence, Side, canonicalise, read_strict, read_tree, read_view, same_meaning};
use example::{FieldsError, bytes_to_sign, two_fields};

// {1: {"b": 0, "a": h'07..'}, h'07..': [1, "text"], {1: 2}: 24(1)}, with an array and a text of
// indefinite length, and keys that are longer than those stored without an allocation.
static DOCUMENT: &[u8] =
    b"\xa3\x01\xa2\x61b\x00\x61a\x42\x07\x07\x54\x07\x07\x07\x07\x07\x07\x07\x07\x07\x07\x07\x07\x07\x07\x07\x07\x07\x07\x07\x07\x9f\x01\x7f\x62te\x62xt\xff\xff\xa1\x01\x02\xd8\x18\x01";

// The record in canonical bytes.
static CANONICAL: &[u8] =
    b"\xa3\x01\xa2\x61a\x42\x07\x07\x61b\x00\x54\x07\x07\x07\x07\x07\x07\x07\x07\x07\x07\x07\x07\x07\x07\x07\x07\x07\x07\x07\x07\x82\x01\x64text\xa1\x01\x02\xd8\x18\x01";

// Whether a refusal reports refused memory, and the number of bytes consumed.
fn is_memory(refusal: Refusal, taken: usize) -> bool {
    refusal == Refusal::at(Reason::Memory, taken as u64)
}

fn taken(reader: &[u8], input: &[u8]) -> usize {
    input.len().saturating_sub(reader.len())
}

#[test]
fn canonical_bytes_or_memory(rt: HostRuntime) {
    let alloc = rt.alloc();
    match bytes_to_sign(alloc, DOCUMENT) {
        Ok(bytes) => assert!(rt; bytes.as_slice() == CANONICAL),
        Err(refusal) => assert!(rt; refusal.reason == Reason::Memory),
    }
    match canonicalise(alloc, DOCUMENT, limits(&rt), KeyOrder::LengthFirst) {
        Ok(bytes) => assert!(rt; bytes.len() == CANONICAL.len()),
        Err(refusal) => assert!(rt; refusal.reason == Reason::Memory),
    }
}

// The reader has lost exactly the bytes that the refusal reports.
#[test]
fn a_tree_or_memory(rt: HostRuntime) {
    let mut reader = DOCUMENT;
    match read_tree(rt.alloc(), &mut reader, limits(&rt)) {
        Ok((_tree, count)) => assert!(rt; count == DOCUMENT.len() as u64),
        Err(refusal) => assert!(rt; is_memory(refusal, taken(reader, DOCUMENT)), "{refusal}"),
    }
}

#[test]
fn a_view_or_memory(rt: HostRuntime) {
    let arena = Bump::new(rt.alloc());
    match read_view(rt.alloc(), DOCUMENT, limits(&rt), &arena) {
        Ok((_, count)) => assert!(rt; count == DOCUMENT.len() as u64),
        Err(refusal) => assert!(rt; is_memory(refusal, DOCUMENT.len()), "{refusal}"),
    }
}

#[test]
fn fields_or_memory(rt: HostRuntime) {
    match two_fields(rt.alloc(), RECORDS, limits(&rt), "id", "by") {
        Ok(rows) => assert!(rt; rows.len() == 2),
        Err(FieldsError::Refused(refusal)) => assert!(rt; refusal.reason == Reason::Memory),
        Err(fault) => assert!(rt; fault == FieldsError::Memory),
    }
}

#[test]
fn a_strict_count_or_memory(rt: HostRuntime) {
    let mut reader = CANONICAL;
    match read_strict(rt.alloc(), &mut reader, limits(&rt), KeyOrder::Bytewise) {
        Ok(count) => assert!(rt; count == CANONICAL.len() as u64),
        Err(refusal) => assert!(rt; is_memory(refusal, taken(reader, CANONICAL)), "{refusal}"),
    }
}

// The side that was being read is reported: after memory is refused for the left one, the right one
// is not read, though it is invalid.
#[test]
fn sameness_or_memory(rt: HostRuntime) {
    let alloc = rt.alloc();
    match same_meaning(alloc, DOCUMENT, CANONICAL, limits(&rt)) {
        Ok(same) => assert!(rt; same),
        Err((_side, refusal)) => assert!(rt; refusal.reason == Reason::Memory),
    }
    match same_meaning(alloc, CANONICAL, b"\xff", limits(&rt)) {
        Err((Side::Left, refusal)) => assert!(rt; refusal.reason == Reason::Memory),
        Err((Side::Right, refusal)) => {
            assert!(rt; refusal == Refusal::new(Reason::StrayBreak, 0, 1));
        }
        Ok(_) => assert!(rt; false, "a break is no item"),
    }
}

// After a refusal a sequence has no more items, whatever follows.
#[test]
fn an_item_or_memory_and_the_end(rt: HostRuntime) {
    for is_strict in [false, true] {
        let mut items = Sequence::new(rt.alloc(), CANONICAL, limits(&rt));
        let refusal = if is_strict {
            match items.next_strict(KeyOrder::Bytewise) {
                Some(Err(refusal)) => Some(refusal),
                Some(Ok(_)) => None,
                None => Some(Refusal::at(Reason::Truncated, 0)),
            }
        } else {
            match items.next() {
                Some(Err(refusal)) => Some(refusal),
                Some(Ok(_)) => None,
                None => Some(Refusal::at(Reason::Truncated, 0)),
            }
        };
        if let Some(refusal) = refusal {
            assert!(rt; refusal.reason == Reason::Memory);
        }
        assert!(rt; items.next().is_none());
        assert!(rt; items.next_strict(KeyOrder::Bytewise).is_none());
    }
}
