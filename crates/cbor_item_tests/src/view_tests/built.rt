//! Views from their parts, and what they hold.

use bumpalo::Bump;
use cbor_head::Major;
use cbor_item::{Item, Joined, Memory, Node, NodeKind, View, ViewBuilder};
use std::test::Fail;

// {"a": [h'01', -1], 1(true): "bc"}, with two strings that are copied
#[test]
fn builds_from_parts(rt: HostRuntime) -> Result<(), Fail> {
    let arena = Bump::new(rt.alloc());
    let mut builder = ViewBuilder::new(rt.alloc(), &arena);
    builder.begin(Major::Map, 0)?;
    builder.leaf(View::Text("a"))?;
    builder.begin(Major::Array, 0)?;
    builder.copied_bytes(b"\x01")?;
    builder.leaf(View::Negative(0))?;
    builder.end()?;
    builder.begin(Major::Tag, 1)?;
    builder.leaf(View::Simple(21))?;
    builder.end()?;
    builder.copied_text("bc")?;
    builder.end()?;
    let view = builder.finish();
    let [(key, array), (tagged, text)] = view.as_map().ok_or("no map")? else {
        panic!(rt; "not two pairs")
    };
    assert!(rt; key.as_text() == Some("a") && text.as_text() == Some("bc"));
    let [bytes, number] = array.as_array().ok_or("no array")? else {
        panic!(rt; "not two members")
    };
    assert!(rt; bytes.as_bytes() == Some(b"\x01".as_slice()) && number.as_i64() == Some(-1));
    let (number, content) = tagged.as_tag().ok_or("no tag")?;
    assert!(rt; number == 1 && content.as_bool() == Some(true));
    Ok(())
}

// Chunks of no bytes, chunks that are copied in one piece, and longer ones; then another
// string.
#[test]
fn joins_chunks(rt: HostRuntime) -> Result<(), Fail> {
    let mut input = [0u8; 80];
    for i in 0..input.len() {
        input[i] = i as u8;
    }
    let mut memory = Memory::new();
    let mut joined = Joined::new(rt.alloc());
    assert!(rt; joined.as_slice().is_empty());
    let mut wanted = Vec::new(rt.alloc());
    for count in [0, 1, 31, 32, 33, 80, 2, 80, 1] {
        joined.extend_prefix(&mut memory, &input, count)?;
        wanted.extend_from_slice(&input[..count])?;
        assert!(rt; joined.as_slice() == wanted.as_slice());
    }
    joined.clear();
    joined.extend_prefix(&mut memory, b"bc", 1)?;
    assert!(rt; joined.as_slice() == b"b".as_slice());
    assert!(rt; !memory.is_refused());
    Ok(())
}

#[test]
fn reports_kinds(rt: HostRuntime) -> Result<(), Fail> {
    let members = [View::Unsigned(7)];
    let pairs = [(View::Unsigned(1), View::Unsigned(2))];
    assert!(rt; View::Unsigned(7).as_u64() == Some(7));
    assert!(rt; View::Negative(7).as_u64() == None);
    assert!(rt; View::Negative(7).as_negative() == Some(7));
    assert!(rt; View::Negative(7).as_i64() == Some(-8));
    assert!(rt; View::Unsigned(1 << 63).as_i64() == None);
    assert!(rt; View::Bytes(b"\x01").as_bytes() == Some(b"\x01".as_slice()));
    assert!(rt; View::Text("a").as_text() == Some("a"));
    let all = View::Array(&members).as_array().ok_or("no array")?;
    assert!(rt; all.len() == 1);
    let all = View::Map(&pairs).as_map().ok_or("no map")?;
    assert!(rt; all.len() == 1);
    let (number, content) = View::Tag(3, &members[0]).as_tag().ok_or("no tag")?;
    assert!(rt; number == 3 && content.as_u64() == Some(7));
    assert!(rt; View::Simple(255).as_simple() == Some(255));
    assert!(rt; View::Simple(20).as_bool() == Some(false));
    assert!(rt; View::Simple(22).as_bool() == None);
    assert!(rt; View::Simple(22).is_null());
    assert!(rt; View::Simple(23).is_undefined());
    Ok(())
}

#[test]
fn finds_members(rt: HostRuntime) -> Result<(), Fail> {
    let members = [View::Unsigned(7), View::Text("a")];
    let array = View::Array(&members);
    assert!(rt; matches!(array.member(1), Some(View::Text("a"))));
    assert!(rt; array.member(2).is_none());
    assert!(rt; View::Unsigned(7).member(0).is_none());
    let pairs = [
        (View::Text("b"), View::Unsigned(1)),
        (View::Negative(0), View::Unsigned(2)),
        (View::Unsigned(5), View::Unsigned(3)),
    ];
    let map = View::Map(&pairs);
    assert!(rt; matches!(map.get_text("b"), Some(View::Unsigned(1))));
    assert!(rt; matches!(map.get_integer(-1), Some(View::Unsigned(2))));
    assert!(rt; matches!(map.get_integer(5), Some(View::Unsigned(3))));
    assert!(rt; map.get_integer(0).is_none());
    Ok(())
}

fn count_of<N: Node>(node: &N) -> usize {
    match node.kind() {
        NodeKind::Array(members) => members.len(),
        _ => 0,
    }
}

// [1, 2], as an item and as a view
#[test]
fn items_and_views_are_nodes(rt: HostRuntime) -> Result<(), Fail> {
    let item = Item::Array(vec![in rt.alloc(); Item::Unsigned(1), Item::Unsigned(2)]?);
    assert!(rt; count_of(&item) == 2);
    let members = [View::Unsigned(1), View::Unsigned(2)];
    assert!(rt; count_of(&View::Array(&members)) == 2);
    Ok(())
}
