//! Which items are trees: no map, at any depth, has a key twice, and no item is too deep.

use super::words::{columns_of, item_of, tree_of};
use cbor_head::Reason;
use cbor_item::{Item, KeyOrder, Tree, encode, same};
use std::alloc::Global;
use std::test::Fail;

// Items, and whether they are trees, or why not.
static RESULTS: &str = r#"
0 0 0 1 m:2 | RepeatedKey | | {0: 0, 0: 1}
0 0 0 1 m:2 256*c:1 | RepeatedKey | | within tags
0 0 0 1 m:2 1023*c:1 | RepeatedKey | | within as many tags as may be
0 0 0 1 m:2 1024*c:1 | TooDeep | | within one tag more
1 2 3 4 m:2 0 3 4 1 2 m:2 1 m:2 | RepeatedKey | | {{1: 2, 3: 4}: 0, {3: 4, 1: 2}: 1}
1 1 m:1 0 1 1 1 1 m:2 0 m:2 | RepeatedKey | | {{1: 1}: 0, {1: 1, 1: 1}: 0}
0 1025*v | TooDeep | | maps as values
0 1025*k | TooDeep | | maps as keys
0 0 1 1 m:2 k k | a tree | | {0: 0, 1: 1} as a key of a key
0 0 1 1 m:2 v k | a tree | | as a value in a key
0 0 1 1 m:2 a:1 k | a tree | | as a member of a key
0 0 1 1 m:2 c:1 k | a tree | | as the content of a key's tag
0 0 0 1 m:2 k k | RepeatedKey | | {0: 0, 0: 1} as a key of a key
0 0 0 1 m:2 v k | RepeatedKey | | as a value in a key
0 0 0 1 m:2 a:1 k | RepeatedKey | | as a member of a key
0 0 0 1 m:2 c:1 k | RepeatedKey | | as the content of a key's tag
"#;

fn result_of(alloc: Global, words: &str) -> Result<String, Fail> {
    match Tree::of(alloc, item_of(alloc, words).ok_or("no item")?) {
        Ok(_) => Ok(String::from_str(alloc, "a tree")?),
        Err((_, reason)) => Ok(format!(in alloc; "{reason}")?),
    }
}

#[test]
fn are_found(rt: HostRuntime) -> Result<(), Fail> {
    for line in RESULTS.trim().lines() {
        let (words, outcome, _) = columns_of(line)?;
        assert!(rt; result_of(rt.alloc(), words)?.as_str() == outcome, "{line}");
    }
    Ok(())
}

// The key of a map's first pair.
fn first_key(item: &Item) -> Option<&Item> {
    match item {
        Item::Map(pairs) => Some(&pairs.first()?.0),
        _ => None,
    }
}

// Whether the item is {0: 0, 0: 1}, or a map of the same form.
fn has_equal_keys(item: &Item) -> bool {
    match item {
        Item::Map(pairs) => matches!(
            pairs.as_slice(),
            [_, (Item::Unsigned(0), Item::Unsigned(1))]
        ),
        _ => false,
    }
}

// {{{0: 0, 0: 1}: 0}: 0}
#[test]
fn checks_keys_of_keys(rt: HostRuntime) -> Result<(), Fail> {
    let alloc = rt.alloc();
    let equal = item_of(alloc, "0 0 0 1 m:2 2*k").ok_or("no item")?;
    let Err((item, Reason::RepeatedKey)) = Tree::of(alloc, equal) else {
        panic!(rt; "another result")
    };
    let map = first_key(&item).and_then(first_key);
    assert!(rt; map.is_some_and(has_equal_keys));
    Ok(())
}

// The item within this number of tags.
fn within_tags(item: &Item, tags: usize) -> Option<&Item> {
    let mut inner = item;
    for _ in 0..tags {
        match inner {
            Item::Tag(_, content) => inner = content,
            _ => return None,
        }
    }
    Some(inner)
}

#[test]
fn returns_the_item(rt: HostRuntime) -> Result<(), Fail> {
    let alloc = rt.alloc();
    match Tree::of(alloc, item_of(alloc, "0 0 0 1 m:2").ok_or("no item")?) {
        Err((item, Reason::RepeatedKey)) => assert!(rt; has_equal_keys(&item)),
        _ => panic!(rt; "another result"),
    }
    // 1025 tags around 5
    match Tree::of(alloc, item_of(alloc, "5 1025*c:1").ok_or("no item")?) {
        Err((item, Reason::TooDeep)) => {
            assert!(rt; matches!(within_tags(&item, 1025), Some(Item::Unsigned(5))));
        }
        _ => panic!(rt; "another result"),
    }
    let tree = tree_of(alloc, "n:7")?;
    assert!(rt; matches!(tree.item(), Item::Negative(7)));
    assert!(rt; matches!(tree.into_item(), Item::Negative(7)));
    Ok(())
}

// Trees of the greatest depth, others of the same form that are not the same, and the sizes of
// their bytes.
static DEEPEST: &str = "
0 1024*v | 1 1024*v | 2049 | maps as values
0 1024*k | 1 1024*k | 2049 | maps as keys
0 1024*c:1 | 1 1024*c:1 | 1025 | tags
";

// Each is built, compared, encoded and dropped.
#[test]
fn handles_depth_1024(rt: HostRuntime) -> Result<(), Fail> {
    let alloc = rt.alloc();
    for line in DEEPEST.trim().lines() {
        let (words, other, size) = columns_of(line)?;
        let tree = tree_of(alloc, words)?;
        assert!(rt; same(&tree, &tree_of(alloc, words)?), "{line}");
        assert!(rt; !same(&tree, &tree_of(alloc, other)?), "{line}");
        let size = size.parse::<usize>().ok();
        for order in [KeyOrder::Bytewise, KeyOrder::LengthFirst] {
            assert!(rt; Some(encode(alloc, &tree, order)?.len()) == size, "{line}");
        }
    }
    Ok(())
}
