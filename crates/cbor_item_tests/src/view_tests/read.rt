//! Views that are read from slices. `cbor_reader_tests` tests on each row of the conformance table
//! that they are read as trees are.

use bumpalo::Bump;
use cbor_head::Limits;
use cbor_item::{Item, KeyOrder, View, encode};
use cbor_reader::read_view;
use std::process::Abort;
use std::test::Fail;

fn limits(rt: &impl Abort) -> Limits {
    Limits::new(256, 1 << 20).expect(rt, "limits")
}

// {1(1): 0, 1: 1}: the pairs keep the order of the input.
#[test]
fn keeps_the_order_of_pairs(rt: HostRuntime) -> Result<(), Fail> {
    let arena = Bump::new(rt.alloc());
    let input = b"\xa2\xc1\x01\x00\x01\x01";
    let (view, _) = read_view(rt.alloc(), input, limits(&rt), &arena)?;
    let [(tagged, zero), (one, _)] = view.as_map().ok_or("no map")? else {
        panic!(rt; "not two pairs")
    };
    assert!(rt; tagged.as_tag().is_some() && zero.as_u64() == Some(0));
    assert!(rt; one.as_u64() == Some(1));
    Ok(())
}

// A text in one piece takes no space in the arena; one in chunks does.
#[test]
fn leaves_strings_in_the_input(rt: HostRuntime) -> Result<(), Fail> {
    let arena = Bump::new(rt.alloc());
    let (whole, _) = read_view(rt.alloc(), b"\x63abc", limits(&rt), &arena)?;
    assert!(rt; matches!(whole, View::Text("abc")) && arena.allocated_bytes() == 0);
    let chunks = b"\x7f\x61a\x62bc\xff";
    let (joined, _) = read_view(rt.alloc(), chunks, limits(&rt), &arena)?;
    assert!(rt; matches!(joined, View::Text("abc")) && arena.allocated_bytes() > 0);
    Ok(())
}

// {[1, {}]: "a", {2: 3, 4: 5}: "b"}, looked up by the same keys in other encodings
#[test]
fn looks_up_by_views(rt: HostRuntime) -> Result<(), Fail> {
    let arena = Bump::new(rt.alloc());
    let input = b"\xa2\x82\x01\xa0\x61a\xa2\x02\x03\x04\x05\x61b";
    let (map, _) = read_view(rt.alloc(), input, limits(&rt), &arena)?;
    // [1, {}], and {4: 5, 2: 3}
    let (array, _) = read_view(rt.alloc(), b"\x9f\x18\x01\xbf\xff\xff", limits(&rt), &arena)?;
    let (turned, _) = read_view(rt.alloc(), b"\xa2\x04\x05\x02\x03", limits(&rt), &arena)?;
    let (other, _) = read_view(rt.alloc(), b"\xa1\x04\x05", limits(&rt), &arena)?;
    assert!(rt; matches!(map.get(&array), Some(View::Text("a"))));
    assert!(rt; matches!(map.get(&turned), Some(View::Text("b"))));
    assert!(rt; map.get(&other).is_none());
    assert!(rt; turned.same(&turned) && !turned.same(&other));
    Ok(())
}

// Maps nested 200 deep that differ in the innermost one. If a pair were compared twice, each level
// would double the work.
#[test]
fn distinguishes_deep_views(rt: HostRuntime) -> Result<(), Fail> {
    let mut bytes = [0xa1, 0x00].repeat(rt.alloc(), 200)?;
    bytes.push(0x01)?;
    let arena = Bump::new(rt.alloc());
    let (one, _) = read_view(rt.alloc(), &bytes, limits(&rt), &arena)?;
    let mut others = Vec::from_slice(rt.alloc(), &bytes)?;
    others[400] = 0x02;
    let (two, _) = read_view(rt.alloc(), &others, limits(&rt), &arena)?;
    assert!(rt; one.same(&one) && !one.same(&two));
    Ok(())
}

// ["a", h'01', {1(0): null}]
#[test]
fn is_read_as_an_item(rt: HostRuntime) -> Result<(), Fail> {
    let arena = Bump::new(rt.alloc());
    let input = b"\x83\x61a\x41\x01\xa1\xc1\x00\xf6";
    let (view, _) = read_view(rt.alloc(), input, limits(&rt), &arena)?;
    let Item::Array(items) = view.to_item(rt.alloc())? else {
        panic!(rt; "no array")
    };
    assert!(rt; items.len() == 3);
    Ok(())
}

// The greatest depth: 1024 arrays around 7.
#[test]
fn becomes_the_deepest_tree(rt: HostRuntime) -> Result<(), Fail> {
    let arena = Bump::new(rt.alloc());
    let mut input = [0x81; 1025];
    input[1024] = 7;
    let limits = Limits::new(1024, 1025).expect(&rt, "limits");
    let (view, _) = read_view(rt.alloc(), &input, limits, &arena)?;
    let tree = view.to_tree(rt.alloc())?;
    let bytes = encode(rt.alloc(), &tree, KeyOrder::Bytewise)?;
    assert!(rt; bytes.as_slice() == input.as_slice());
    Ok(())
}

// One arena for many items: each view is dropped before the next is read.
#[test]
fn takes_an_arena_in_turn(rt: HostRuntime) -> Result<(), Fail> {
    let mut arena = Bump::new(rt.alloc());
    let mut sum = 0;
    for input in [b"\x82\x01\x02", b"\x82\x03\x04"] {
        let (view, _) = read_view(rt.alloc(), input, limits(&rt), &arena)?;
        for member in view.as_array().ok_or("no array")? {
            sum = member.as_u64().ok_or("no number")?.max(sum);
        }
        arena.reset().ok().ok_or("not reset")?;
    }
    assert!(rt; sum == 4);
    Ok(())
}
