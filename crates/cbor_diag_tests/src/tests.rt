//! Diagnostic texts of items, written by hand.

mod annotations;
mod explanations;
mod failed;
mod listing_tables;
mod listings;
mod prefixes;
mod streams;
mod texts;
mod views;

use self::texts::{TEXTS, row_of};
use cbor_diag::{diagnostic, diagnostic_indented};
use cbor_head::Limits;
use cbor_item::Tree;
use cbor_reader::read_tree;
use std::alloc::{AllocError, Global};
use std::test::Fail;

// The tree of an encoded item.
pub(crate) fn tree_of(alloc: Global, mut bytes: &[u8]) -> Result<Tree, Fail> {
    let limits = Limits::new(1024, 1 << 20).ok_or("limits")?;
    let (tree, _) = read_tree(alloc, &mut bytes, limits)?;
    Ok(tree)
}

// Whether this is the item's text, and its number of bytes is returned.
fn shows(alloc: Global, bytes: &[u8], want: &str) -> Result<bool, Fail> {
    let tree = tree_of(alloc, bytes)?;
    let mut shown = Vec::new(alloc);
    let count = diagnostic(&tree, &mut shown);
    Ok(count == Ok(want.len() as u64) && shown.as_slice() == want.as_bytes())
}

fn shows_indented(alloc: Global, bytes: &[u8], want: &str) -> Result<bool, Fail> {
    let tree = tree_of(alloc, bytes)?;
    let mut shown = Vec::new(alloc);
    let count = diagnostic_indented(&tree, &mut shown);
    Ok(count == Ok(want.len() as u64) && shown.as_slice() == want.as_bytes())
}

#[test]
fn trees_are_shown(rt: HostRuntime) -> Result<(), Fail> {
    for line in TEXTS.trim().lines() {
        let (bytes, want) = row_of(rt.alloc(), line)?;
        assert!(rt; shows(rt.alloc(), &bytes, want)?, "{want}");
    }
    Ok(())
}

// [1, {"b": [2, 3], "a": 1, [4]: {}}, []]: the keys of the map are not sorted.
pub(crate) static NESTED: &[u8] = b"\x83\x01\xa3\x61b\x82\x02\x03\x61a\x01\x81\x04\xa0\x80";

pub(crate) static NESTED_INDENTED: &str = "[
  1,
  {
    \"b\": [
      2,
      3
    ],
    \"a\": 1,
    [
      4
    ]: {}
  },
  []
]";

#[test]
fn indented_texts(rt: HostRuntime) -> Result<(), Fail> {
    let alloc = rt.alloc();
    assert!(rt; shows_indented(alloc, b"\x07", "7")?);
    assert!(rt; shows_indented(alloc, b"\x80", "[]")?);
    assert!(rt; shows_indented(alloc, b"\xa0", "{}")?);
    assert!(rt; shows_indented(alloc, NESTED, NESTED_INDENTED)?);
    // the content of a tag begins on the tag's line
    assert!(rt; shows_indented(alloc, b"\xc1\x81\x01", "1([\n  1\n])")?);
    Ok(())
}

pub(crate) fn push_times(text: &mut String, part: &str, times: usize) -> Result<(), AllocError> {
    for _ in 0..times {
        text.push_str(part)?;
    }
    Ok(())
}

fn push_tower(
    text: &mut String,
    opens: &str,
    content: &str,
    closes: &str,
) -> Result<(), AllocError> {
    push_times(text, opens, 1024)?;
    text.push_str(content)?;
    push_times(text, closes, 1024)
}

// The start and the end of a container, in hex and as text: arrays, tags, and maps as keys.
static TOWERS: [(&str, &str, &str, &str); 3] = [
    ("81", "", "[", "]"),
    ("c1", "", "1(", ")"),
    ("a1", "00", "{", ": 0}"),
];

// The greatest depth of a tree: 1024 containers of one kind around 7.
#[test]
fn deepest_texts(rt: HostRuntime) -> Result<(), Fail> {
    let alloc = rt.alloc();
    for (opens, closes, text_opens, text_closes) in TOWERS {
        let mut digits = String::new(alloc);
        push_tower(&mut digits, opens, "07", closes)?;
        let mut want = String::new(alloc);
        push_tower(&mut want, text_opens, "7", text_closes)?;
        let bytes = hex::decode(alloc, digits.as_bytes())?;
        assert!(rt; shows(alloc, &bytes, want.as_str())?, "{text_opens}");
    }
    Ok(())
}

// Whether a string that repeats a part, encoded with a 16-bit length, has this text.
fn shows_long(
    alloc: Global,
    first: u8,
    part: &[u8],
    times: u16,
    text: (&str, &str, &str),
) -> Result<bool, Fail> {
    let size = times.saturating_mul(u16::try_from(part.len()).unwrap_or(0));
    let [high, low] = size.to_be_bytes();
    let mut bytes = Vec::from_slice(alloc, &[first, high, low])?;
    let mut want = String::from_str(alloc, text.0)?;
    for _ in 0..times {
        bytes.extend_from_slice(part)?;
        want.push_str(text.1)?;
    }
    want.push_str(text.2)?;
    shows(alloc, &bytes, want.as_str())
}

static LENGTHS: [u16; 8] = [254, 255, 256, 257, 511, 512, 513, 1500];

// Longer than the outbox, so that runs are written directly.
#[test]
fn long_strings(rt: HostRuntime) -> Result<(), Fail> {
    let alloc = rt.alloc();
    for length in LENGTHS {
        let is_right = shows_long(alloc, 0x59, b"\xa5", length, ("h'", "a5", "'"))?;
        assert!(rt; is_right, "{length} bytes");
        let is_right = shows_long(alloc, 0x79, b"a\n", length, ("\"", "a\\u000a", "\""))?;
        assert!(rt; is_right, "{length} times");
    }
    Ok(())
}
