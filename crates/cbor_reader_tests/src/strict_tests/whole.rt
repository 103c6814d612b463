//! An item in a reader that holds more.

use super::limits;
use cbor_head::{Reason, Refusal};
use cbor_memory::Memory;
use cbor_strict::{KeyOrder, read_strict, read_strict_in};

#[test]
fn reads_the_item_and_no_more(rt: HostRuntime) {
    let limits = limits(&rt, 256, 1048576);
    // {"a": [true, 1(0)]}, followed by 0
    let mut reader = &b"\xa1\x61a\x82\xf5\xc1\x00\x00"[..];
    assert!(rt; read_strict(rt.alloc(), &mut reader, limits, KeyOrder::Bytewise) == Ok(7));
    assert!(rt; reader == b"\x00".as_slice());
    // {1: 0, 0: 0}: the second key ends with the fourth byte
    let mut reader = &b"\xa2\x01\x00\x00\x00"[..];
    let refusal = Refusal::new(Reason::KeyOrder, 3, 4);
    assert!(rt; read_strict(rt.alloc(), &mut reader, limits, KeyOrder::Bytewise) == Err(refusal));
    assert!(rt; reader == b"\x00".as_slice());
}

#[test]
fn records_no_request_that_was_granted(rt: HostRuntime) {
    let limits = limits(&rt, 256, 1048576);
    let alloc = rt.alloc();
    let mut memory = Memory::new();
    // {1: 0}
    let mut reader = &b"\xa1\x01\x00"[..];
    let result = read_strict_in(&mut memory, alloc, &mut reader, limits, KeyOrder::Bytewise);
    assert!(rt; result == Ok(3));
    // {1: 0, 0: 0}
    let mut reader = &b"\xa2\x01\x00\x00\x00"[..];
    let result = read_strict_in(&mut memory, alloc, &mut reader, limits, KeyOrder::Bytewise);
    assert!(rt; result == Err(Refusal::new(Reason::KeyOrder, 3, 4)));
    assert!(rt; !memory.is_refused());
}
