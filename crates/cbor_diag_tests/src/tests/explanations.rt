//! Explanations of refusals: sentences, the bytes around the offset, and the path to it.

use cbor_diag::{explain, write_sentences};
use cbor_head::{Limits, Reason, Refusal};
use std::alloc::Global;
use std::test::Fail;

// An input, its refusal, and the text that explains it.
#[derive(Clone, Copy)]
struct Row {
    item: &'static [u8],
    refusal: Refusal,
    written: &'static str,
}

fn rows() -> [Row; 8] {
    [
        // {"a": [0, a float]}
        Row {
            item: b"\xa1\x61a\x82\x00\xf9\x00\x00",
            refusal: Refusal::new(Reason::Float, 5, 6),
            written: "  \
  A floating-point number begins here; floats are not accepted.
  Encode it as an integer, as a text, or as a tag that contains integers.
  bytes from 0: a1 61 61 82 00 f9 00 00
                               ^^
  at $.\"a\"[1]
",
        },
        // {"a": 0, "a": 1}
        Row {
            item: b"\xa2\x61a\x00\x61a\x01",
            refusal: Refusal::new(Reason::RepeatedKey, 4, 6),
            written: "  \
  This key equals an earlier key of its map.
  Remove one of the two pairs.
  bytes from 0: a2 61 61 00 61 61 01
                            ^^
  at $, key 2 of the map at 0
",
        },
        // {"a" U+009B "b": a float}
        Row {
            item: b"\xa1\x64a\xc2\x9bb\xf9\x00\x00",
            refusal: Refusal::new(Reason::Float, 6, 7),
            written: "  \
  A floating-point number begins here; floats are not accepted.
  Encode it as an integer, as a text, or as a tag that contains integers.
  bytes from 0: a1 64 61 c2 9b 62 f9 00 00
                                  ^^
  at $.(the key at 1)
",
        },
        // {U+202E: a float}
        Row {
            item: b"\xa1\x63\xe2\x80\xae\xf9\x00\x00",
            refusal: Refusal::new(Reason::Float, 5, 6),
            written: "  \
  A floating-point number begins here; floats are not accepted.
  Encode it as an integer, as a text, or as a tag that contains integers.
  bytes from 0: a1 63 e2 80 ae f9 00 00
                               ^^
  at $.(the key at 1)
",
        },
        // {"a" U+00E9 U+2013: a float}
        Row {
            item: b"\xa1\x66a\xc3\xa9\xe2\x80\x93\xf9\x00\x00",
            refusal: Refusal::new(Reason::Float, 8, 9),
            written: "  \
  A floating-point number begins here; floats are not accepted.
  Encode it as an integer, as a text, or as a tag that contains integers.
  bytes from 0: a1 66 61 c3 a9 e2 80 93 f9 00 00
                                        ^^
  at $.\"a\u{e9}\u{2013}\"
",
        },
        // 24([ with its members missing
        Row {
            item: b"\xd8\x18\x82",
            refusal: Refusal::new(Reason::Truncated, 3, 3),
            written: "  \
  The input ends within the item.
  Check whether the input was cut off, or a length is too large.
  bytes from 0: d8 18 82
                         ^^
  at $(24)[0]
",
        },
        // [0, a text with a chunk of a byte string]
        Row {
            item: b"\x82\x00\x7f\x41\x00\xff",
            refusal: Refusal::new(Reason::BadChunk, 3, 4),
            written: "  \
  A chunk of a string must be a string of the same type and of definite length.
  End the string with a break (ff), or fix the type of the chunk.
  bytes from 0: 82 00 7f 41 00 ff
                         ^^
  at $[1]
",
        },
        // an array of 18 zeros, and a byte after it
        Row {
            item: b"\x92\0\0\0\0\0\0\0\0\0\0\0\0\0\0\0\0\0\0\x01",
            refusal: Refusal::new(Reason::Trailing, 19, 19),
            written: "  \
  The item is complete, and a byte follows it.
  Read several items as a sequence; decode hex text first.
  bytes from 11: 00 00 00 00 00 00 00 00 01
                                         ^^
  at $
",
        },
    ]
}

// The text that `explain` writes.
fn explained(alloc: Global, item: &[u8], refusal: Refusal) -> Result<String, Fail> {
    let limits = Limits::new(256, 1 << 20).ok_or("limits")?;
    let mut written = Vec::with_capacity(alloc, 512)?;
    explain(alloc, item, limits, refusal, &mut written)?;
    Ok(String::from_utf8(written)?)
}

#[test]
fn explains_refusals(rt: HostRuntime) -> Result<(), Fail> {
    for row in rows() {
        let found = explained(rt.alloc(), row.item, row.refusal)?;
        let wanted = row.written;
        assert!(rt;
            found.as_str() == wanted,
            "found {found}, expected {wanted}"
        );
    }
    Ok(())
}

#[test]
fn has_sentences(rt: HostRuntime) -> Result<(), Fail> {
    for (reason, wanted) in [
        (
            Reason::StrayBreak,
            "  There is a break (ff) where an item must begin.
  Check whether a length is wrong, or the value of a key is missing.
",
        ),
        (
            Reason::TooDeep,
            "  An array, map or tag is nested deeper than the limit.
  Raise the depth limit, which can be at most 1024.
",
        ),
        (
            Reason::Read,
            "  The rest of the input could not be read.
  Try again.
",
        ),
    ] {
        let mut written = Vec::with_capacity(rt.alloc(), 128)?;
        write_sentences(reason, &mut written)?;
        let found = String::from_utf8(written)?;
        assert!(rt;
            found.as_str() == wanted,
            "found {found}, expected {wanted}"
        );
    }
    Ok(())
}

// An offset past the end is marked after the last byte; if there are no bytes, after the label.
#[test]
fn marks_the_end(rt: HostRuntime) -> Result<(), Fail> {
    for (item, offset, wanted) in [
        (
            b"\x01\xab".as_slice(),
            9,
            "  bytes from 0: 01 ab\n                      ^^\n  at $\n",
        ),
        (b"", 0, "  bytes from 0:\n                ^^\n  at $\n"),
    ] {
        let found = explained(rt.alloc(), item, Refusal::at(Reason::Truncated, offset))?;
        assert!(rt;
            found.as_str().ends_with(wanted),
            "found {found}, expected {wanted}"
        );
    }
    Ok(())
}

// The input in hex, the offset of a refusal, and the path there. A line that begins with `#` describes
// the next row.
static PATHS: &str = "\
# [{1: [0]}] and what follows it, refused within the inner array
81a1018200ff | 5 | $[0].1[1]
# cut in a string of definite length
82006261 | 4 | $[1]
# a float after one
826161f90000 | 3 | $[1]
# cut in a chunk
82007f6261 | 5 | $[1]
# cut between two chunks
82007f6161 | 5 | $[1]
# cut in the head of a chunk
82007f61617900 | 7 | $[1]
# a float after a string in chunks
827f6161fff90000 | 5 | $[1]
# a float after an item that ends there
8201f90000 | 2 | $[1]
# a chunk of bytes in the text of a key's value
a1017f61614100ff | 5 | $.1
# 99([0, and a break
d8638200ff | 4 | $(99)[1]
# 24([0, and a break
d8188200ff | 4 | $(24)[1]
# 4294967297([, and a break
db000000010000000181ff | 10 | $(4294967297)[0]
# 1([2([, and a float
c181c281f90000 | 4 | $(1)[0](2)[0]
# {1: 0, 1: 0}: the second key
a201000100 | 3 | $, key 2 of the map at 0
# [0, {1: 0, 1: 0}]: the second key
8200a201000100 | 5 | $[1], key 2 of the map at 2
# 99({0: {2: 0, 1: 0}}): the second key of the inner map
d863a100a202000100 | 7 | $(99).0, key 2 of the map at 4
# {1: 0, 2: 0, and a break
a301000200ff | 5 | $, key 3 of the map at 0
# {{1: 0, 1: 0}: 0}: a key in a key
a1a20100010000 | 4 | $, key 1 of the map at 0, key 2 of the map at 1
# {[0, and a break: in a key that is an array
a18200ff | 3 | $, key 1 of the map at 0[1]
# {1: 0, 2: 0, 3: a break
a30100020003ff | 6 | $.3
# {-1: a break, {h'aa': a break, {1(0): a break, {[1]: [0, a break
a120ff | 2 | $.-1
a141aaff | 3 | $.h'aa'
a1c100ff | 3 | $.1(0)
a181018200ff | 5 | $.[1][1]
# {quotes around an a: a break
a163226122ff | 5 | $.\"\\\"a\\\"\"
# [{1: 2}, {3: a break
82a10102a103ff | 6 | $[1].3
# [_ [_ 0], [_ 0, and a reserved byte
9f9f00ff9f001c | 6 | $[1][1]
# [{_ 1: 2}, and a float
82bf0102fff90000 | 5 | $[1]
";

// The path in an explanation: what follows ` at ` on its last line.
fn path(alloc: Global, item: &[u8], offset: u64) -> Result<String, Fail> {
    let text = explained(alloc, item, Refusal::at(Reason::Truncated, offset))?;
    let (_, path) = text.as_str().rsplit_once("  at ").ok_or("no path")?;
    Ok(String::from_str(alloc, path.trim_end())?)
}

#[test]
fn finds_paths(rt: HostRuntime) -> Result<(), Fail> {
    let alloc = rt.alloc();
    for line in PATHS.lines() {
        if line.starts_with("#") {
            continue;
        }
        let (digits, rest) = line.split_once(" | ").ok_or("a row")?;
        let (offset, wanted) = rest.split_once(" | ").ok_or("a row")?;
        let item = hex::decode(alloc, digits)?;
        let found = path(alloc, item.as_slice(), offset.parse::<u64>()?)?;
        assert!(rt;
            found.as_str() == wanted,
            "found {found}, expected {wanted}"
        );
    }
    Ok(())
}

// A key of at most 64 bytes is written as text, a longer one by its offset.
#[test]
fn long_keys_have_offsets(rt: HostRuntime) -> Result<(), Fail> {
    let alloc = rt.alloc();
    for (length, is_text) in [(61u8, true), (62, true), (63, false)] {
        let name = "a".repeat(alloc, usize::from(length))?;
        let name = name.as_str();
        let mut item = Vec::from_slice(alloc, &[0xa1, 0x78, length])?;
        item.extend_from_slice(name.as_bytes())?;
        item.push(0xff)?;
        let found = path(alloc, item.as_slice(), 3 + u64::from(length))?;
        let text = format!(in alloc; "$.\"{name}\"")?;
        let wanted = if is_text {
            text.as_str()
        } else {
            "$.(the key at 1)"
        };
        assert!(rt;
            found.as_str() == wanted,
            "found {found}, expected {wanted}"
        );
    }
    Ok(())
}
