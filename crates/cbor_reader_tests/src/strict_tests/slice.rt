//! The strict check of a slice: maps as keys, lengths of content that is missing, and limits.

use super::limits;
use cbor_head::{Limits, Reason, Refusal};
use cbor_strict::{KeyOrder, check_canonical};
use std::alloc::{AllocError, Global};
use std::process::Abort;
use std::test::Fail;

// Slices, the limits on depth and on bytes, the expected result in the bytewise order (the number of
// bytes, or the refusal), and why.
static BYTEWISE: &str = "
a2a1010000a1010100 | 256 1048576 | 9 | {{1: 0}: 0, {1: 1}: 0}
a2a1010100a1010000 | 256 1048576 | 16 KeyOrder at 5, read 8 | {{1: 1}: 0, {1: 0}: 0}
5bffffffffffffffff | 256 1048576 | 1 Truncated at 9, read 9 | a string of 2^64 - 1
7bffffffffffffffff | 256 1048576 | 1 Truncated at 9, read 9 | a text of 2^64 - 1
9bffffffffffffffff | 256 1048576 | 1 Truncated at 9, read 9 | an array of 2^64 - 1
bbffffffffffffffff | 256 1048576 | 1 Truncated at 9, read 9 | a map of 2^64 - 1
a20100180100 | 256 5 | 14 NotShortest at 3, read 5 | {1: 0, 1: 0}: the second key ends at the limit
a20100180100 | 256 4 | 2 TooLong at 4, read 4 | {1: 0, 1: 0}: the second key ends after the limit
818101 | 2 3 | 3 | [[1]]
818101 | 1 3 | 9 TooDeep at 1, read 2 | [[1]]
a201a102000200ff | 256 64 | 7 | {1: {2: 0}, 2: 0} and what follows it
a101a202000100 | 256 64 | 16 KeyOrder at 5, read 6 | {1: {2: 0, 1: 0}}: the key of the inner map
a201a101000100 | 256 64 | 16 KeyOrder at 5, read 6 | {1: {1: 0}, 1: 0}: the key of the outer map
a2810100810000 | 256 64 | 16 KeyOrder at 4, read 6 | {[1]: 0, [0]: 0}
a1a20100000000 | 256 64 | 16 KeyOrder at 4, read 5 | {{1: 0, 0: 0}: 0}
a2a20000010000a20000010000 | 256 64 | 16 KeyOrder at 7, read 12 | {{0: 0, 1: 0}: 0, {0: 0, 1: 0}: 0}
a2c10000c10000 | 256 64 | 16 KeyOrder at 4, read 6 | {1(0): 0, 1(0): 0}
83a10100a10000a200000000 | 256 64 | 16 KeyOrder at 10, read 11 | [{1: 0}, {0: 0}, {0: 0, 0: 0}]: each map begins anew
a26261610061ff00 | 256 64 | 10 InvalidText at 6, read 7 | a text that is not UTF-8, and sorts before 'aa': the text is reported
a20100180100 | 256 64 | 14 NotShortest at 3, read 5 | a key whose head is not the shortest, and that equals the last key: the head is reported
a2010001 | 256 64 | 16 KeyOrder at 3, read 4 | {1: 0, 1, and nothing after it
a2010002 | 256 64 | 1 Truncated at 4, read 4 | {1: 0, 2, and nothing after it
a30a001864002000 | 256 64 | 8 | {10: 0, 100: 0, -1: 0}
a30a002000186400 | 256 64 | 16 KeyOrder at 5, read 7 | {10: 0, -1: 0, 100: 0}
";

// The last two in the length-first order.
static LENGTH_FIRST: &str = "
a30a001864002000 | 256 64 | 16 KeyOrder at 6, read 7 | {10: 0, 100: 0, -1: 0}
a30a002000186400 | 256 64 | 8 | {10: 0, -1: 0, 100: 0}
";

fn columns_of(line: &str) -> Option<(&str, &str, &str, &str)> {
    let (digits, rest) = line.split_once('|')?;
    let (limits, rest) = rest.split_once('|')?;
    let (outcome, _) = rest.split_once('|')?;
    let (depth, bytes) = limits.trim().split_once(' ')?;
    Some((digits.trim(), depth, bytes, outcome.trim()))
}

fn result_text(alloc: Global, outcome: Result<u64, Refusal>) -> Result<String, AllocError> {
    match outcome {
        Ok(count) => format!(in alloc; "{count}"),
        Err(refusal) => format!(in alloc; "{refusal}, read {}", refusal.read),
    }
}

#[test]
fn checks_slices(rt: HostRuntime) -> Result<(), Fail> {
    for (order, table) in [
        (KeyOrder::Bytewise, BYTEWISE),
        (KeyOrder::LengthFirst, LENGTH_FIRST),
    ] {
        for line in table.trim().lines() {
            let (digits, depth, bytes, wanted) = columns_of(line).ok_or("four columns")?;
            let limits = Limits::new(
                depth.parse().map_err(|_| "depth")?,
                bytes.parse().map_err(|_| "bytes")?,
            )
            .ok_or("limits")?;
            let outcome = check_canonical(&hex::decode(rt.alloc(), digits)?, limits, order);
            assert!(rt;
                result_text(rt.alloc(), outcome)?.as_str() == wanted,
                "{line}"
            );
        }
    }
    Ok(())
}

// {0: {0: .. 0}}, with as many maps as may be open, and with one more
#[test]
fn checks_deep_slices(rt: HostRuntime) -> Result<(), Fail> {
    let mut maps = [0xa1, 0x00].repeat(rt.alloc(), 256)?;
    maps.push(0x00)?;
    look_for(&rt, &maps, 256, 1048576, Ok(513));
    let deep = Err(Refusal::new(Reason::TooDeep, 510, 511));
    look_for(&rt, &maps, 255, 1048576, deep);
    Ok(())
}

// Checks that this is the result in the bytewise order.
fn look_for(rt: &impl Abort, bytes: &[u8], depth: u16, most: u64, wanted: Result<u64, Refusal>) {
    let outcome = check_canonical(bytes, limits(rt, depth, most), KeyOrder::Bytewise);
    assert!(rt; outcome == wanted, "at {bytes:?}");
}

// A map of two texts of this length, "aa.." except for their last bytes, each with the value 0.
fn map_of(alloc: Global, length: u8, ends: [u8; 2]) -> Result<Vec<u8>, AllocError> {
    let mut bytes = Vec::new(alloc);
    bytes.push(0xa2)?;
    for end in ends {
        bytes.extend_from_slice(&[0x78, length])?;
        for _ in 1..length {
            bytes.push(b'a')?;
        }
        bytes.extend_from_slice(&[end, 0])?;
    }
    Ok(bytes)
}

// Keys that are equal, or that differ only in their last byte.
#[test]
fn compares_keys_with_a_long_common_prefix(rt: HostRuntime) -> Result<(), Fail> {
    for length in 24..72 {
        let size = 3 + u64::from(length);
        let rising = map_of(rt.alloc(), length, [b'a', b'b'])?;
        let whole = Ok(2 * size + 1);
        look_for(&rt, &rising, 256, 256, whole);
        let falls = Err(Refusal::new(Reason::KeyOrder, size + 1, 2 * size));
        let equal = map_of(rt.alloc(), length, [b'b', b'b'])?;
        look_for(&rt, &equal, 256, 256, falls);
        let falling = map_of(rt.alloc(), length, [b'b', b'a'])?;
        look_for(&rt, &falling, 256, 256, falls);
    }
    Ok(())
}
