//! An item from its parts.

ghost use Rattle.std.specs.Prelude.{◌≡◌, ◌∷◌, [], OnOk};
ghost use Rattle.cbor_item.specs.OpenValues.{the_whole, open_levels, IsWhole};

use super::words::item_of;
use cbor_head::Major;
use cbor_item::{Item, KeyOrder, Tree, TreeBuilder, encode};
use std::alloc::Global;
use std::test::Fail;

// {"a": 1, "b": [2, 3]} of RFC 8949, appendix A, within a tag.
fn give_parts(alloc: Global, builder: &mut TreeBuilder) -> Result<(), Fail>
    requires empty { open_levels builder.old ≡ the_whole [] ∷ [] }
    ensures whole { OnOk result (IsWhole (open_levels builder.new)) }
{
    builder.begin(Major::Tag, 55799)?;
    builder.begin(Major::Map, 0)?;
    builder.leaf(item_of(alloc, "t:a").ok_or("no item")?)?;
    builder.leaf(Item::Unsigned(1))?;
    builder.leaf(item_of(alloc, "t:b").ok_or("no item")?)?;
    builder.begin(Major::Array, u64::MAX)?;
    builder.leaf(Item::Unsigned(2))?;
    builder.leaf(Item::Unsigned(3))?;
    builder.end()?;
    builder.end()?;
    builder.end()?;
    Ok(())
}

#[test]
fn parts_make_an_item(rt: HostRuntime) -> Result<(), Fail> {
    let alloc = rt.alloc();
    let mut builder = TreeBuilder::new(alloc);
    give_parts(alloc, &mut builder)?;
    let Ok(tree) = Tree::of(alloc, builder.finish()) else {
        panic!(rt; "no tree")
    };
    let bytes = encode(alloc, &tree, KeyOrder::Bytewise)?;
    let expected = b"\xd9\xd9\xf7\xa2\x61\x61\x01\x61\x62\x82\x02\x03";
    assert!(rt; bytes.as_slice() == expected.as_slice());
    Ok(())
}

// An item deeper than a recursion could go, next to others in an array that stays open.
#[test]
fn drops_deep_items(rt: HostRuntime) -> Result<(), Fail> {
    let alloc = rt.alloc();
    for (near, deep, other) in [
        ("0 2*v", "0 200000*v", "0 2*k"),
        ("0 2*k", "0 200000*k", "0 2*v"),
    ] {
        let mut builder = TreeBuilder::new(alloc);
        builder.begin(Major::Array, 0)?;
        builder.leaf(item_of(alloc, near).ok_or("no item")?)?;
        builder.leaf(item_of(alloc, deep).ok_or("no item")?)?;
        builder.leaf(item_of(alloc, other).ok_or("no item")?)?;
    }
    Ok(())
}
