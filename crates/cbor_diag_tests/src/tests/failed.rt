//! Writers that stop once and would accept more later.

use super::streams::{STOPS, Sink, Stop};
use super::{NESTED, NESTED_INDENTED, tree_of};
use cbor_diag::{diagnostic, diagnostic_indented};
use cbor_head::{Reason, Refusal};
use cbor_item::Tree;
use std::alloc::Global;
use std::test::Fail;

fn write_at(place: usize) -> Result<u64, Refusal> {
    Err(Refusal {
        reason: Reason::Write,
        place: place as u64,
        read: 0,
    })
}

// Whether the text ends where a writer stops that accepts only these bytes of it.
fn stops_after(alloc: Global, tree: &Tree, before: &[u8], part: usize, stop: Stop) -> bool {
    let mut sink = Sink::stopping(alloc, before.len(), part, stop);
    diagnostic(tree, &mut sink) == write_at(before.len()) && sink.ended_with(before)
}

fn stops_indented(alloc: Global, tree: &Tree, before: &[u8], part: usize, stop: Stop) -> bool {
    let mut sink = Sink::stopping(alloc, before.len(), part, stop);
    diagnostic_indented(tree, &mut sink) == write_at(before.len()) && sink.ended_with(before)
}

static LINE: &[u8] = b"[1, {\"b\": [2, 3], \"a\": 1, [4]: {}}, []]";

#[test]
fn writers_stop_at_each_place(rt: HostRuntime) -> Result<(), Fail> {
    let alloc = rt.alloc();
    let tree = tree_of(alloc, NESTED)?;
    let lines = NESTED_INDENTED.as_bytes();
    for &(part, stop) in &STOPS {
        for space in 0..LINE.len() {
            let is_right = stops_after(alloc, &tree, &LINE[..space], part, stop);
            assert!(rt; is_right, "at {space}");
        }
        for space in 0..lines.len() {
            let is_right = stops_indented(alloc, &tree, &lines[..space], part, stop);
            assert!(rt; is_right, "at {space}");
        }
    }
    Ok(())
}

#[test]
fn the_third_number_is_cut_off(rt: HostRuntime) -> Result<(), Fail> {
    let alloc = rt.alloc();
    let tree = tree_of(alloc, b"\x83\x01\x02\x03")?;
    assert!(rt; stops_after(alloc, &tree, b"[1, 2", 100, Stop::TakesNothing));
    Ok(())
}

static SPACES: [usize; 14] = [
    0, 1, 2, 3, 511, 512, 513, 514, 515, 1025, 1026, 1027, 1401, 1402,
];

// A byte string with more digits than the outbox holds. The writer stops within each of the
// writes.
#[test]
fn long_strings_are_cut_off(rt: HostRuntime) -> Result<(), Fail> {
    let alloc = rt.alloc();
    let mut bytes = Vec::from_elem(alloc, 0x5a, 703)?;
    // the head of 700 bytes
    bytes[..3].copy_from_slice(b"\x59\x02\xbc");
    let tree = tree_of(alloc, &bytes)?;
    let mut text = Vec::from_slice(alloc, b"h'")?;
    for _ in 0..700 {
        text.extend_from_slice(b"5a")?;
    }
    text.push(b'\'')?;
    for &(part, stop) in &STOPS {
        for &space in &SPACES {
            assert!(rt; space <= text.len());
            let is_right = stops_after(alloc, &tree, &text[..space], part, stop);
            assert!(rt; is_right, "at {space}");
        }
    }
    Ok(())
}
