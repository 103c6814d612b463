//! Examples, as trees.

mod canon_builder;
mod failed;
mod memory;
mod repeats;
mod reused;
mod sorted;
mod tree_builder;
mod trees;
pub(crate) mod words;

use self::words::{columns_of, item_of, tree_of};
use cbor_head::{Reason, Refusal};
use cbor_item::{Item, KeyOrder, Tree, compare_keys, encode, encode_to, same};
use std::alloc::Global;
use std::cmp::Ordering;
use std::process::Abort;
use std::test::Fail;

// The tree has these canonical bytes in bytewise and in length-first order, and they are what is
// written.
pub(crate) fn check_all(
    rt: &impl Abort,
    alloc: Global,
    tree: &Tree,
    bytewise: &[u8],
    length_first: &[u8],
) -> Result<(), Fail> {
    assert!(rt; encode(alloc, tree, KeyOrder::Bytewise)?.as_slice() == bytewise);
    assert!(rt; encode(alloc, tree, KeyOrder::LengthFirst)?.as_slice() == length_first);
    let mut out = Vec::new(alloc);
    let count = encode_to(alloc, tree, KeyOrder::Bytewise, &mut out)?;
    assert!(rt; count == bytewise.len() as u64);
    assert!(rt; out.as_slice() == bytewise);
    Ok(())
}

// {"aa": 1, 10: 2, 100: 3, -1: 4, "z": 5, [100]: 6, [-1]: 7, false: 8}
pub(crate) static EIGHT_KEYS: &str = "t:aa 1 10 2 100 3 n:0 4 t:z 5 100 a:1 6 n:0 a:1 7 s:20 8 m:8";

// Items, their canonical bytes, and those in length-first order, if they differ. For the eight keys
// these are {10: 2, 100: 3, -1: 4, "z": 5, "aa": 1, [100]: 6, [-1]: 7, false: 8}, and {10: 2, -1: 4,
// false: 8, 100: 3, "z": 5, [-1]: 7, "aa": 1, [100]: 6}.
pub(crate) static ENCODED: &str = r#"
0 | 00 | | 0
18446744073709551615 | 1bffffffffffffffff | | 18446744073709551615
n:18446744073709551615 | 3bffffffffffffffff | | -18446744073709551616
s:32 | f820 | | simple(32)
h:01020304 | 4401020304 | | h'01020304'
t:IETF h:01020304 a:2 c:1 | c18264494554464401020304 | | 1(["IETF", h'01020304'])
t:IETF | 6449455446 | | "IETF"
a:0 | 80 | | []
m:0 | a0 | | {}
1363896240 c:1 | c11a514b67b0 | | 1(1363896240)
t:aa 1 10 2 100 3 n:0 4 t:z 5 100 a:1 6 n:0 a:1 7 s:20 8 m:8 | a80a021864032004617a056261610181186406812007f408 | a80a022004f408186403617a058120076261610181186406 | eight keys
100 0 n:0 0 m:2 v | a100a21864002000 | a100a22000186400 | {0: {100: 0, -1: 0}}
100 0 n:0 0 m:2 0 1 0 m:2 | a20100a2186400200000 | a20100a2200018640000 | {{100: 0, -1: 0}: 0, 1: 0}
0 0 1 1 m:2 2*k | a1a1a2000001010000 | | {{{0: 0, 1: 1}: 0}: 0}
"#;

#[test]
fn encodes_items(rt: HostRuntime) -> Result<(), Fail> {
    let alloc = rt.alloc();
    for line in ENCODED.trim().lines() {
        let (words, bytewise, length_first) = columns_of(line)?;
        let bytewise = hex::decode(alloc, bytewise)?;
        let tree = tree_of(alloc, words)?;
        if length_first.is_empty() {
            check_all(&rt, alloc, &tree, &bytewise, &bytewise)?;
        } else {
            let length_first = hex::decode(alloc, length_first)?;
            check_all(&rt, alloc, &tree, &bytewise, &length_first)?;
        }
    }
    Ok(())
}

static COMPARED: &str = r#"
1 2 3 4 m:2 | 3 4 1 2 m:2 | same | {1: 2, 3: 4} and {3: 4, 1: 2}
1 2 3 4 m:2 | 1 2 3 5 m:2 | different | {1: 2, 3: 4} and {1: 2, 3: 5}
1 2 3 4 m:2 | 1 2 m:1 | different | {1: 2, 3: 4} and {1: 2}
h:61 | h:61 | same | h'61' and h'61'
h:61 | t:a | different | h'61' and "a"
h:01 c:2 | 1 | different | 2(h'01') and 1
0 | n:0 | different | 0 and -1
0 a:1 | a:0 | different | [0] and []
"#;

#[test]
fn finds_the_same(rt: HostRuntime) -> Result<(), Fail> {
    let alloc = rt.alloc();
    for line in COMPARED.trim().lines() {
        let (left, right, outcome) = columns_of(line)?;
        let left = tree_of(alloc, left)?;
        let right = tree_of(alloc, right)?;
        let is_same = outcome == "same";
        assert!(rt; same(&left, &right) == is_same, "{line}");
        assert!(rt; same(&right, &left) == is_same, "{line}");
        assert!(rt; same(&left, &left), "{line}");
    }
    Ok(())
}

// If memory runs out, nothing else is reported.
#[test]
fn reports_memory(rt: HostRuntime) -> Result<(), Fail> {
    let alloc = rt.alloc();
    let refusal = Refusal::new(Reason::Memory, 0, 0);
    let Some(item) = item_of(alloc, EIGHT_KEYS) else {
        return Ok(());
    };
    let tree = match Tree::of(alloc, item) {
        Ok(tree) => tree,
        Err((item, reason)) => {
            assert!(rt; reason == Reason::Memory);
            assert!(rt; matches!(&item, Item::Map(pairs) if pairs.len() == 8));
            // One allocation fails, and no later one.
            Tree::of(alloc, item).map_err(|_| "memory was refused again")?
        }
    };
    if let Err(visited) = encode(alloc, &tree, KeyOrder::Bytewise) {
        assert!(rt; visited == refusal);
    }
    let mut out = [0; 40];
    let mut space = out.as_mut_slice();
    match encode_to(alloc, &tree, KeyOrder::LengthFirst, &mut space) {
        Ok(count) => assert!(rt; count == 24),
        Err(visited) => {
            assert!(rt; visited == refusal);
            assert!(rt; space.len() == 40);
        }
    }
    Ok(())
}

// The encoded keys 100, -1 and [100].
#[test]
fn compares_keys(rt: HostRuntime) {
    let (hundred, minus_one, in_array) = (b"\x18\x64", b"\x20", b"\x81\x18\x64");
    for order in [KeyOrder::Bytewise, KeyOrder::LengthFirst] {
        let is_bytewise = order == KeyOrder::Bytewise;
        let wanted = if is_bytewise {
            Ordering::Less
        } else {
            Ordering::Greater
        };
        assert!(rt; compare_keys(order, hundred, minus_one) == wanted);
        assert!(rt; compare_keys(order, in_array, minus_one) == Ordering::Greater);
        assert!(rt; compare_keys(order, minus_one, minus_one) == Ordering::Equal);
    }
}
