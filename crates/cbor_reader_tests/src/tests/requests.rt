//! The calls that record refused requests: none is recorded if there is memory, also for an input that is refused.

use super::limits;
use cbor_head::{Reason, Refusal};
use cbor_memory::Memory;
use cbor_reader::{
    KeyOrder, Side, canonical_bytes_in, canonicalise_in, check_valid_in, read_canonical_in,
    same_meaning_in,
};
use std::test::Fail;

#[test]
fn records_no_request_without_a_refusal(rt: HostRuntime) -> Result<(), Fail> {
    let (alloc, order) = (rt.alloc(), KeyOrder::Bytewise);
    let limits = limits(&rt, 64, 64);
    // {"b": 1, "a": 2}, and {"a": 2, "b": 1}
    let (turned, sorted) = (b"\xa2\x61b\x01\x61a\x02", b"\xa2\x61a\x02\x61b\x01");
    let mut memory = Memory::new();
    let made = canonicalise_in(&mut memory, alloc, turned, limits, order);
    assert!(rt; made.is_ok_and(|made| made.as_slice() == &sorted[..]));
    let Ok(made) = canonical_bytes_in(&mut memory, alloc, turned, limits, order) else {
        panic!(rt; "no canonical bytes")
    };
    assert!(rt; made.as_slice() == &sorted[..]);
    let Ok((made, size)) = read_canonical_in(&mut memory, alloc, turned, limits, order) else {
        panic!(rt; "no item")
    };
    assert!(rt; made.as_slice() == &sorted[..]);
    assert!(rt; size == 7);
    assert!(rt; check_valid_in(&mut memory, alloc, turned, limits) == Ok(7));
    let mut right = Memory::new();
    let same = same_meaning_in(&mut memory, &mut right, alloc, turned, sorted, limits);
    assert!(rt; same == Ok(true));
    let cut = Refusal::at(Reason::Truncated, 6);
    let same = same_meaning_in(&mut memory, &mut right, alloc, turned, &sorted[..6], limits);
    assert!(rt; same == Err((Side::Right, cut)));
    assert!(rt; !memory.is_refused() && !right.is_refused());
    Ok(())
}
