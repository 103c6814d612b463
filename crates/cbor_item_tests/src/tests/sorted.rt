//! Maps whose keys do not arrive in order, against the orders of the encoded keys in RFC 8949,
//! sections 4.2.1 and 4.2.3.

use super::check_all;
use cbor_item::{Item, Tree};
use std::alloc::{AllocError, Global};
use std::process::Abort;
use std::test::Fail;

// A head with an argument below 65,536.
fn put_head(bytes: &mut Vec<u8>, major: u8, n: u16) -> Result<(), AllocError> {
    let first = (major % 8) << 5;
    if n < 24 {
        bytes.push(first | n as u8)?;
    } else if n < 256 {
        bytes.extend_from_slice(&[first | 24, n as u8])?;
    } else {
        let [high, low] = n.to_be_bytes();
        bytes.extend_from_slice(&[first | 25, high, low])?;
    }
    Ok(())
}

fn put_times(bytes: &mut Vec<u8>, byte: u8, times: u16) -> Result<(), AllocError> {
    for _ in 0..times {
        bytes.push(byte)?;
    }
    Ok(())
}

// The functions below add the pairs of a map in their order of arrival, and its canonical bytes.
type Pairs = Vec<(Item, Item)>;

// The map has these bytes in both orders.
fn check_bytes(rt: &impl Abort, alloc: Global, pairs: Pairs, wanted: &[u8]) -> Result<(), Fail> {
    match Tree::of(alloc, Item::Map(pairs)) {
        Ok(tree) => check_all(rt, alloc, &tree, wanted, wanted),
        Err(_) => Err("no tree")?,
    }
}

// {size: -1, size - 1: -2 ..}
fn put_falling(pairs: &mut Pairs, wanted: &mut Vec<u8>, size: u16) -> Result<(), AllocError> {
    put_head(wanted, 5, size)?;
    for i in 0..size {
        pairs.push((
            Item::Unsigned(u64::from(size - i)),
            Item::Negative(u64::from(i)),
        ))?;
        put_head(wanted, 0, i + 1)?;
        put_head(wanted, 1, size - 1 - i)?;
    }
    Ok(())
}

// Sizes around those where a head grows.
#[test]
fn maps_of_each_size(rt: HostRuntime) -> Result<(), Fail> {
    let alloc = rt.alloc();
    for size in [0u16, 1, 2, 22, 23, 24, 25, 255, 256, 300] {
        let mut pairs = Vec::new(alloc);
        let mut wanted = Vec::new(alloc);
        put_falling(&mut pairs, &mut wanted, size)?;
        check_bytes(&rt, alloc, pairs, &wanted)?;
    }
    Ok(())
}

// Keys that begin with the same number of sevens, with their last bytes in no order. Each value is
// its key's last byte.
fn put_alike(
    alloc: Global,
    pairs: &mut Pairs,
    wanted: &mut Vec<u8>,
    size: u8,
) -> Result<(), AllocError> {
    put_head(wanted, 5, 5)?;
    for last in [9u8, 3, 23, 0, 4] {
        let mut key = Vec::from_elem(alloc, 7, usize::from(size))?;
        key.push(last)?;
        pairs.push((Item::Bytes(key), Item::Unsigned(u64::from(last))))?;
    }
    for last in [0u8, 3, 4, 9, 23] {
        put_head(wanted, 2, u16::from(size) + 1)?;
        put_times(wanted, 7, u16::from(size))?;
        wanted.extend_from_slice(&[last, last])?;
    }
    Ok(())
}

// Keys of six to eleven bytes that share as many bytes as they can.
#[test]
fn keys_around_eight_bytes(rt: HostRuntime) -> Result<(), Fail> {
    let alloc = rt.alloc();
    for size in 4u8..10 {
        let mut pairs = Vec::new(alloc);
        let mut wanted = Vec::new(alloc);
        put_alike(alloc, &mut pairs, &mut wanted, size)?;
        check_bytes(&rt, alloc, pairs, &wanted)?;
    }
    Ok(())
}

// Strings of 120 bytes and fewer as keys, the longest first.
fn put_long(alloc: Global, pairs: &mut Pairs, wanted: &mut Vec<u8>) -> Result<(), AllocError> {
    put_head(wanted, 5, 21)?;
    for i in 0u16..21 {
        let long = Vec::from_elem(alloc, 5, usize::from(120 - i))?;
        pairs.push((Item::Bytes(long), Item::Unsigned(0)))?;
        put_head(wanted, 2, 100 + i)?;
        put_times(wanted, 5, 100 + i)?;
        wanted.push(0)?;
    }
    Ok(())
}

fn put_maps(alloc: Global, pairs: &mut Pairs, wanted: &mut Vec<u8>) -> Result<(), AllocError> {
    put_head(wanted, 5, 64)?;
    for outer in 0u16..64 {
        put_head(wanted, 0, outer)?;
        let mut inner = Vec::new(alloc);
        put_long(alloc, &mut inner, wanted)?;
        pairs.push((Item::Unsigned(u64::from(outer)), Item::Map(inner)))?;
    }
    pairs.reverse();
    Ok(())
}

// A map of 64 maps. It is so large that its pairs are sorted without being moved.
#[test]
fn a_large_map_of_maps(rt: HostRuntime) -> Result<(), Fail> {
    let alloc = rt.alloc();
    let mut pairs = Vec::new(alloc);
    let mut wanted = Vec::new(alloc);
    put_maps(alloc, &mut pairs, &mut wanted)?;
    check_bytes(&rt, alloc, pairs, &wanted)
}
