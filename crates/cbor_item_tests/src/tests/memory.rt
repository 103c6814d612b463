//! Whether a request for memory was refused.

use super::words::item_of;
use bumpalo::Bump;
use cbor_builder::CanonBuilder;
use cbor_head::{Limits, Major};
use cbor_item::{Item, KeyOrder, Memory, Tree, TreeBuilder, View, ViewBuilder, encode_in, same};
use cbor_tree_reader::read_tree_in;
use std::test::Fail;

// [1, {2: h'0304'}], in bytes and in words.
static INPUT: &[u8] = b"\x82\x01\xa1\x02\x42\x03\x04";

static WORDS: &str = "1 2 h:0304 m:1 a:2";

#[test]
fn no_call_is_refused(rt: HostRuntime) -> Result<(), Fail> {
    let alloc = rt.alloc();
    let mut memory = Memory::new();
    let item = item_of(alloc, WORDS).ok_or("no item")?;
    let Ok(tree) = Tree::of_in(&mut memory, alloc, item) else {
        panic!(rt; "no tree")
    };
    let bytes = encode_in(&mut memory, alloc, &tree, KeyOrder::Bytewise)?;
    assert!(rt; bytes.as_slice() == INPUT);
    let limits = Limits::new(8, 64).ok_or("limits")?;
    let (again, count) = read_tree_in(&mut memory, alloc, &mut bytes.as_slice(), limits)?;
    assert!(rt; count == 7);
    assert!(rt; same(&tree, &again));
    let item = View::Unsigned(7).to_item_in(&mut memory, alloc)?;
    assert!(rt; matches!(item, Item::Unsigned(7)));
    let tree = View::Unsigned(7).to_tree_in(&mut memory, alloc)?;
    assert!(rt; matches!(tree.item(), Item::Unsigned(7)));
    assert!(rt; !memory.is_refused());
    Ok(())
}

#[test]
fn builders_report_no_refusal(rt: HostRuntime) -> Result<(), Fail> {
    let alloc = rt.alloc();
    let mut memory = Memory::new();
    let mut bytes = CanonBuilder::new(alloc, KeyOrder::Bytewise);
    bytes.leaf(Major::Unsigned, 1)?;
    memory.include(bytes.memory());
    let mut tree = TreeBuilder::new(alloc);
    tree.leaf(Item::Unsigned(1))?;
    memory.include(tree.memory());
    let arena = Bump::new(alloc);
    let mut view = ViewBuilder::new(alloc, &arena);
    view.leaf(View::Unsigned(1))?;
    memory.include(view.memory());
    assert!(rt; !memory.is_refused());
    Ok(())
}

#[test]
fn a_refusal_is_recorded(rt: HostRuntime) -> Result<(), Fail> {
    let mut memory = Memory::new();
    let mut bytes = Vec::new(rt.alloc());
    memory.extend(&mut bytes, b"ab")?;
    assert!(rt; !memory.is_refused());
    assert!(rt; memory.reserve(&mut bytes, usize::MAX).is_err());
    assert!(rt; memory.is_refused());
    let mut all = Memory::new();
    all.include(&memory);
    assert!(rt; all.is_refused());
    Ok(())
}
