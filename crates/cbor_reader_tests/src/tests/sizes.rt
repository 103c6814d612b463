//! Items larger than those of the tables: each call succeeds on them. The expected bytes are put
//! together here, and not by an encoder.

use super::heads::{Case, push_head, push_times, wide};
use super::{Parts, limits};
use cbor_item::encode;
use cbor_reader::{KeyOrder, canonicalise, read_strict, read_tree, same_meaning};
use std::alloc::{AllocError, Global};
use std::test::Fail;

// {299: 299, 298: 298, .., 0: 0}, in falling order of the keys, and in rising order.
fn map_of_300(alloc: Global) -> Result<Case, AllocError> {
    let mut input = Vec::from_slice(alloc, &[0xb9, 1, 44])?;
    let mut canonical = Vec::from_slice(alloc, &[0xb9, 1, 44])?;
    for number in 0..300u16 {
        let falling = 299 - number;
        for _ in 0..2 {
            input.extend_from_slice(&[0x19, (falling >> 8) as u8, (falling & 0xff) as u8])?;
            push_head(&mut canonical, 0, u32::from(number))?;
        }
    }
    Ok(Case { input, canonical })
}

fn push_long_key(bytes: &mut Vec<u8>, end: u8) -> Result<(), AllocError> {
    bytes.extend_from_slice(&[0x59, 0x13, 0x88])?;
    push_times(bytes, 7, 4999)?;
    bytes.extend_from_slice(&[end, 0])
}

// {h'07..01': 0, h'07..00': 0} with keys of 5,000 bytes (13 88), and in rising order.
fn long_keys(alloc: Global) -> Result<Case, AllocError> {
    let mut input = Vec::from_slice(alloc, &[0xa2])?;
    let mut canonical = Vec::from_slice(alloc, &[0xa2])?;
    for end in [1, 0] {
        push_long_key(&mut input, end)?;
        push_long_key(&mut canonical, 1 - end)?;
    }
    Ok(Case { input, canonical })
}

#[test]
fn takes_large_items(rt: HostRuntime) -> Result<(), Fail> {
    let alloc = rt.alloc();
    let limits = limits(&rt, 256, 1048576);
    for large in [
        map_of_300(alloc)?,
        wide(alloc, 0x40, 0xff, 70000)?,
        wide(alloc, 0x60, b'a', 70000)?,
        wide(alloc, 0x80, 0, 70000)?,
        long_keys(alloc)?,
    ] {
        let Case { input, canonical } = large;
        let same = same_meaning(alloc, &input, &canonical, limits);
        assert!(rt; same == Ok(true));
        let mut reader = Parts {
            rest: &input,
            part: 1000,
        };
        let Ok((tree, count)) = read_tree(alloc, &mut reader, limits) else {
            assert!(rt; false, "no tree");
            continue;
        };
        assert!(rt; count == input.len() as u64);
        for order in [KeyOrder::Bytewise, KeyOrder::LengthFirst] {
            let given = canonicalise(alloc, &input, limits, order);
            assert!(rt; given.is_ok_and(|bytes| bytes == canonical));
            let encoded = encode(alloc, &tree, order);
            assert!(rt; encoded.is_ok_and(|bytes| bytes == canonical));
            let mut reader = canonical.as_slice();
            let strict = read_strict(alloc, &mut reader, limits, order);
            assert!(rt; strict == Ok(canonical.len() as u64));
        }
    }
    Ok(())
}
