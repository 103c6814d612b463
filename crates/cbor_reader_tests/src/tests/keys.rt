//! Keys of lengths around the one from which they are allocated separately.

use super::limits;
use cbor_head::{Reason, Refusal};
use cbor_reader::{KeyOrder, canonicalise};
use std::alloc::{AllocError, Global};
use std::test::Fail;

// A map of two byte strings of this length, h'07..' except for their last bytes, each with the
// value 0.
fn map_of(alloc: Global, length: u8, ends: [u8; 2]) -> Result<Vec<u8>, AllocError> {
    let mut bytes = Vec::new(alloc);
    bytes.push(0xa2)?;
    for end in ends {
        bytes.push(0x40 | length)?;
        for _ in 1..length {
            bytes.push(7)?;
        }
        bytes.extend_from_slice(&[end, 0])?;
    }
    Ok(bytes)
}

// Two keys of each length are distinguished if only their last bytes differ, and are found to be
// equal.
#[test]
fn distinguishes_keys_at_each_length(rt: HostRuntime) -> Result<(), Fail> {
    let alloc = rt.alloc();
    for length in 1..23 {
        let limits = limits(&rt, 256, 64);
        let input = map_of(alloc, length, [1, 0])?;
        let given = canonicalise(alloc, &input, limits, KeyOrder::Bytewise);
        let wanted = map_of(alloc, length, [0, 1])?;
        assert!(rt; given == Ok(wanted), "at {length}");
        let input = map_of(alloc, length, [1, 1])?;
        let given = canonicalise(alloc, &input, limits, KeyOrder::Bytewise);
        let place = 3 + u64::from(length);
        let refusal = Refusal {
            reason: Reason::RepeatedKey,
            place,
            read: place + 1 + u64::from(length),
        };
        assert!(rt; given == Err(refusal), "at {length}");
    }
    Ok(())
}
