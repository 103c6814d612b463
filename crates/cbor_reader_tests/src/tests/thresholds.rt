//! Sizes on both sides of each bound: of the widths of a head, of the parts that are requested from
//! a reader, of keys that are allocated separately, of bytes that are moved or checked at once.

use super::heads::{Case, push_head, push_string, push_times, push_wide_head, wide};
use super::{Parts, limits};
use cbor_head::{Limits, Reason, Refusal};
use cbor_item::encode;
use cbor_reader::{KeyOrder, canonicalise, check_canonical, read_strict, read_tree};
use std::alloc::{AllocError, Global};

static SIZES: [u32; 38] = [
    0, 1, 2, 3, 7, 8, 9, 15, 16, 17, 22, 23, 24, 25, 31, 32, 33, 63, 64, 65, 127, 128, 129, 255,
    256, 257, 511, 512, 513, 1023, 1024, 1025, 4095, 4096, 4097, 65535, 65536, 65537,
];

// The type's first byte with additional information 0.
static STRINGS: [(u8, u8); 2] = [(0x40, 7), (0x60, b'a')];

// Whether each call returns the canonical bytes of the input, in both orders. Long inputs are given
// only in large parts.
fn becomes(alloc: Global, input: &[u8], canonical: &[u8], limits: Limits) -> bool {
    for part in [513, 512, 1] {
        if part == 1 && input.len() > 2100 {
            continue;
        }
        let mut reader = Parts { rest: input, part };
        let Ok((tree, count)) = read_tree(alloc, &mut reader, limits) else {
            return false;
        };
        let encoded = encode(alloc, &tree, KeyOrder::Bytewise);
        let is_encoded = encoded.is_ok_and(|bytes| bytes.as_slice() == canonical);
        if !is_encoded || count != input.len() as u64 || !reader.rest.is_empty() {
            return false;
        }
    }
    let size = canonical.len() as u64;
    for order in [KeyOrder::Bytewise, KeyOrder::LengthFirst] {
        let given = canonicalise(alloc, input, limits, order);
        let strict = read_strict(alloc, &mut &canonical[..], limits, order);
        let checked = check_canonical(canonical, limits, order);
        let is_given = given.is_ok_and(|bytes| bytes.as_slice() == canonical);
        if !is_given || strict != Ok(size) || checked != Ok(size) {
            return false;
        }
    }
    true
}

impl Case {
    fn is_reported(&self, alloc: Global, limits: Limits) -> bool {
        becomes(alloc, &self.input, &self.canonical, limits)
    }
}

fn push_three(
    bytes: &mut Vec<u8>,
    before: u8,
    content: &[u8],
    following: &[u8],
) -> Result<(), AllocError> {
    bytes.push(before)?;
    bytes.extend_from_slice(content)?;
    bytes.extend_from_slice(following)
}

// The map from the string to 0.
fn map_from(alloc: Global, string: &Case) -> Result<Case, AllocError> {
    let mut case = Case::empty(alloc);
    push_three(&mut case.input, 0xbf, &string.input, &[0x18, 0, 0xff])?;
    push_three(&mut case.canonical, 0xa1, &string.canonical, &[0])?;
    Ok(case)
}

// Strings of each size, alone and as the keys of a map.
#[test]
fn strings_of_each_size(rt: HostRuntime) -> Result<(), AllocError> {
    let alloc = rt.alloc();
    let limits = limits(&rt, 256, 1048576);
    for size in SIZES {
        for (major, byte) in STRINGS {
            let string = wide(alloc, major, byte, size)?;
            assert!(rt; string.is_reported(alloc, limits), "{major}, {size} bytes");
            let map = map_from(alloc, &string)?;
            assert!(rt; map.is_reported(alloc, limits), "{major}, {size} in a key");
        }
    }
    Ok(())
}

fn push_chunks(bytes: &mut Vec<u8>, major: u8, byte: u8, size: u32) -> Result<(), AllocError> {
    bytes.push(major | 31)?;
    push_string(bytes, major, byte, size)?;
    bytes.extend_from_slice(&[major | 1, byte, 0xff])
}

fn chunks_of(alloc: Global, major: u8, byte: u8, size: u32) -> Result<Case, AllocError> {
    let mut case = Case::empty(alloc);
    push_chunks(&mut case.input, major, byte, size)?;
    push_string(&mut case.canonical, major, byte, size.saturating_add(1))?;
    Ok(case)
}

// Strings in chunks: all but the last byte, and the last byte.
#[test]
fn chunks_of_each_size(rt: HostRuntime) -> Result<(), AllocError> {
    let alloc = rt.alloc();
    let limits = limits(&rt, 256, 1048576);
    for size in SIZES {
        for (major, byte) in STRINGS {
            let chunks = chunks_of(alloc, major, byte, size)?;
            assert!(rt; chunks.is_reported(alloc, limits), "{major}, {size} and 1");
        }
    }
    Ok(())
}

fn push_streamed(bytes: &mut Vec<u8>, size: u32) -> Result<(), AllocError> {
    bytes.push(0x9f)?;
    push_times(bytes, 0, size)?;
    bytes.push(0xff)?;
    Ok(())
}

// An array of this number of zeros, of indefinite length.
fn streamed_array(alloc: Global, size: u32) -> Result<Case, AllocError> {
    let mut case = Case::empty(alloc);
    push_streamed(&mut case.input, size)?;
    push_string(&mut case.canonical, 0x80, 0, size)?;
    Ok(case)
}

// Arrays of each size, of definite and indefinite length.
#[test]
fn arrays_of_each_size(rt: HostRuntime) -> Result<(), AllocError> {
    let alloc = rt.alloc();
    let limits = limits(&rt, 256, 1048576);
    for size in SIZES {
        let streamed = streamed_array(alloc, size)?;
        if size <= 4097 {
            let is_right = wide(alloc, 0x80, 0, size)?.is_reported(alloc, limits)
                && streamed.is_reported(alloc, limits);
            assert!(rt; is_right, "{size} members");
        }
        let given = canonicalise(alloc, &streamed.input, limits, KeyOrder::Bytewise);
        let checked = check_canonical(&streamed.canonical, limits, KeyOrder::Bytewise);
        assert!(rt;
            given.is_ok_and(|bytes| bytes == streamed.canonical),
            "{size} members, no length"
        );
        let length = streamed.canonical.len() as u64;
        assert!(rt; checked == Ok(length), "{size} members");
    }
    Ok(())
}

// The keys of a map, each its own value: rising, falling, and turned with wide heads.
fn push_rising(bytes: &mut Vec<u8>, size: u32) -> Result<(), AllocError> {
    push_head(bytes, 0xa0, size)?;
    for number in 0..size {
        push_head(bytes, 0, number)?;
        push_head(bytes, 0, number)?;
    }
    Ok(())
}

fn push_falling(bytes: &mut Vec<u8>, size: u32) -> Result<(), AllocError> {
    push_head(bytes, 0xa0, size)?;
    for number in 0..size {
        push_head(bytes, 0, size - 1 - number)?;
        push_head(bytes, 0, size - 1 - number)?;
    }
    Ok(())
}

fn push_turned(bytes: &mut Vec<u8>, size: u32) -> Result<(), AllocError> {
    bytes.push(0xbf)?;
    for number in 0..size {
        push_wide_head(bytes, 0, number ^ 1)?;
        push_wide_head(bytes, 0, number ^ 1)?;
    }
    bytes.push(0xff)?;
    Ok(())
}

fn falling_map(alloc: Global, size: u32) -> Result<Case, AllocError> {
    let mut case = Case::empty(alloc);
    push_falling(&mut case.input, size)?;
    push_rising(&mut case.canonical, size)?;
    Ok(case)
}

fn turned_map(alloc: Global, size: u32) -> Result<Case, AllocError> {
    let mut case = Case::empty(alloc);
    push_turned(&mut case.input, size)?;
    push_rising(&mut case.canonical, size)?;
    Ok(case)
}

// Maps of each size up to 4097 pairs, with rising and falling keys: each number is its own value.
#[test]
fn maps_of_each_size(rt: HostRuntime) -> Result<(), AllocError> {
    let alloc = rt.alloc();
    let limits = limits(&rt, 256, 1048576);
    for size in SIZES {
        if size > 4097 {
            continue;
        }
        let falling = falling_map(alloc, size)?;
        assert!(rt; falling.is_reported(alloc, limits), "{size} pairs, falling");
        let rising = &falling.canonical;
        assert!(rt; becomes(alloc, rising, rising, limits), "{size} pairs");
    }
    Ok(())
}

// Maps of an even number of pairs, of indefinite length.
#[test]
fn turned_maps_of_each_size(rt: HostRuntime) -> Result<(), AllocError> {
    let alloc = rt.alloc();
    let limits = limits(&rt, 256, 1048576);
    for size in SIZES {
        if size <= 4097 && size % 2 == 0 {
            let turned = turned_map(alloc, size)?;
            assert!(rt; turned.is_reported(alloc, limits), "{size} pairs, turned");
        }
    }
    Ok(())
}

// This number of letters and these bytes, as a text of this length.
fn push_text(
    bytes: &mut Vec<u8>,
    size: u32,
    length: u32,
    following: &[u8],
) -> Result<(), AllocError> {
    push_head(bytes, 0x60, length)?;
    push_times(bytes, b'a', size)?;
    bytes.extend_from_slice(following)
}

fn text_of(alloc: Global, size: u32, length: u32, following: &[u8]) -> Result<Vec<u8>, AllocError> {
    let mut bytes = Vec::new(alloc);
    push_text(&mut bytes, size, length, following)?;
    Ok(bytes)
}

// Whether each call refuses the input with this refusal.
fn is_refused(alloc: Global, input: &[u8], limits: Limits, refusal: Refusal) -> bool {
    for part in [1, 512, 513] {
        let mut reader = Parts { rest: input, part };
        let outcome = read_tree(alloc, &mut reader, limits);
        let mut reader = Parts { rest: input, part };
        let strict = read_strict(alloc, &mut reader, limits, KeyOrder::Bytewise);
        if outcome.err() != Some(refusal) || strict != Err(refusal) {
            return false;
        }
    }
    let checked = check_canonical(input, limits, KeyOrder::Bytewise);
    let given = canonicalise(alloc, input, limits, KeyOrder::Bytewise);
    checked == Err(refusal) && given.err() == Some(refusal)
}

// A character of four bytes (U+10151) at the end of each size, whole, and without its last byte.
#[test]
fn characters_at_each_end(rt: HostRuntime) -> Result<(), AllocError> {
    let alloc = rt.alloc();
    let limits = limits(&rt, 256, 1048576);
    for size in SIZES {
        let length = size.saturating_add(4);
        let whole = text_of(alloc, size, length, &[0xf0, 0x90, 0x85, 0x91])?;
        assert!(rt;
            becomes(alloc, &whole, &whole, limits),
            "{size} letters before"
        );
        let length = size.saturating_add(3);
        let cut = text_of(alloc, size, length, &[0xf0, 0x90, 0x85])?;
        let end = cut.len() as u64;
        let refusal = Refusal::new(Reason::InvalidText, end.saturating_sub(3), end);
        assert!(rt;
            is_refused(alloc, &cut, limits, refusal),
            "{size} letters before"
        );
    }
    Ok(())
}
