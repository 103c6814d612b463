//! Canonical bytes from the parts of an item.

ghost use Rattle.std.specs.Prelude.{◌≡◌, ◌∷◌, []};
ghost use Rattle.theory_values.specs.Parts.{plain};

use crate::tests::repeats::reported;
use cbor_head::Major;
use cbor_item::{CanonBuilder, KeyOrder, Repeat};
use std::alloc::{AllocError, Global};
use std::process::Abort;

// Functions that give the parts borrow the builder: at each `?` an owner of it would have to prove
// that it may be dropped there.

// {1: [2], 0: "a", -1: h'01020304'} in this order, with the strings in pieces
fn give_in_pieces(rt: &impl Abort, builder: &mut CanonBuilder) -> Result<(), AllocError>
    requires empty { builder.old.open_levels ≡ plain [] ∷ [] }
{
    builder.begin(Major::Map, 0)?;
    builder.leaf(Major::Unsigned, 1)?;
    assert!(rt; !builder.repeated());
    builder.begin(Major::Array, 0)?;
    builder.leaf(Major::Unsigned, 2)?;
    builder.end()?;
    builder.leaf(Major::Unsigned, 0)?;
    builder.begin_string(Major::Text)?;
    builder.bytes(b"a")?;
    builder.end_string()?;
    builder.leaf(Major::Negative, 0)?;
    builder.begin_string(Major::Bytes)?;
    builder.bytes(b"\x01\x02\x03")?;
    builder.bytes(b"\x04")?;
    builder.end_string()?;
    assert!(rt; builder.end_if_distinct()? == None);
    Ok(())
}

#[test]
fn parts_in_order_and_strings_in_pieces(rt: HostRuntime) -> Result<(), AllocError> {
    let mut builder = CanonBuilder::new(rt.alloc(), KeyOrder::Bytewise);
    give_in_pieces(&rt, &mut builder)?;
    // {0: "a", 1: [2], -1: h'01020304'}
    assert!(rt;
        builder.finish().as_slice()
            == b"\xa3\x00\x61a\x01\x81\x02\x20\x44\x01\x02\x03\x04".as_slice()
    );
    Ok(())
}

// Whether this key waits for its value. (With a contract, each later step would be harder to prove.)
fn is_waiting(builder: &CanonBuilder, key: &[u8]) -> bool {
    match builder.waiting_key() {
        Some(waiting) => waiting == key,
        None => false,
    }
}

fn is_none_waiting(builder: &CanonBuilder) -> bool {
    builder.waiting_key().is_none()
}

fn is_key_expected(builder: &CanonBuilder) -> bool {
    builder.is_key_expected()
}

// {"aa": 0, 1: 0, "aa" ..
fn give_repeated_key(rt: &impl Abort, builder: &mut CanonBuilder) -> Result<(), AllocError>
    requires empty { builder.old.open_levels ≡ plain [] ∷ [] }
{
    assert!(rt; !is_key_expected(builder));
    builder.begin(Major::Map, 3)?;
    assert!(rt; is_none_waiting(builder));
    assert!(rt; is_key_expected(builder));
    builder.string(Major::Text, b"aa")?;
    assert!(rt; !is_key_expected(builder));
    assert!(rt; !builder.repeated());
    assert!(rt; is_waiting(builder, b"\x62aa"));
    builder.leaf(Major::Unsigned, 0)?;
    assert!(rt; is_none_waiting(builder));
    builder.leaf(Major::Unsigned, 1)?;
    assert!(rt; !builder.repeated());
    builder.leaf(Major::Unsigned, 0)?;
    builder.string(Major::Text, b"aa")?;
    assert!(rt; builder.repeated());
    builder.leaf(Major::Unsigned, 0)?;
    assert!(rt; builder.end_if_distinct()? == reported(0, 2));
    Ok(())
}

#[test]
fn reports_a_repeated_key(rt: HostRuntime) -> Result<(), AllocError> {
    let mut builder = CanonBuilder::new(rt.alloc(), KeyOrder::LengthFirst);
    give_repeated_key(&rt, &mut builder)
}

// RFC 8949, appendix A: 23, 24, 65535, 4294967295, 18446744073709551615, -1000, 32(0),
// simple(255)
fn give_heads(builder: &mut CanonBuilder) -> Result<(), AllocError>
    requires empty { builder.old.open_levels ≡ plain [] ∷ [] }
{
    builder.begin(Major::Array, 8)?;
    builder.leaf(Major::Unsigned, 23)?;
    builder.leaf(Major::Unsigned, 24)?;
    builder.leaf(Major::Unsigned, 65_535)?;
    builder.leaf(Major::Unsigned, 4_294_967_295)?;
    builder.leaf(Major::Unsigned, 18_446_744_073_709_551_615)?;
    builder.leaf(Major::Negative, 999)?;
    builder.begin(Major::Tag, 32)?;
    builder.leaf(Major::Unsigned, 0)?;
    builder.end()?;
    builder.leaf(Major::Simple, 255)?;
    builder.end()
}

#[test]
fn the_shortest_heads(rt: HostRuntime) -> Result<(), AllocError> {
    let mut builder = CanonBuilder::new(rt.alloc(), KeyOrder::Bytewise);
    give_heads(&mut builder)?;
    assert!(rt;
        builder.finish().as_slice()
            == b"\x88\x17\x18\x18\x19\xff\xff\x1a\xff\xff\xff\xff\x1b\xff\xff\xff\xff\xff\xff\xff\xff\x39\x03\xe7\xd8\x20\x00\xf8\xff".as_slice()
    );
    Ok(())
}

// ["ab", 'x'], each string as the first bytes of a longer slice
fn give_prefixes(builder: &mut CanonBuilder) -> Result<(), AllocError>
    requires empty { builder.old.open_levels ≡ plain [] ∷ [] }
{
    builder.begin(Major::Array, 2)?;
    builder.prefix_string(Major::Text, b"abc", 2)?;
    builder.begin_string(Major::Bytes)?;
    builder.prefix_bytes(b"xyz", 1)?;
    builder.end_string()?;
    builder.end()
}

#[test]
fn copies_prefixes(rt: HostRuntime) -> Result<(), AllocError> {
    let mut builder = CanonBuilder::new(rt.alloc(), KeyOrder::Bytewise);
    give_prefixes(&mut builder)?;
    assert!(rt; builder.finish().as_slice() == b"\x82\x62ab\x41x".as_slice());
    Ok(())
}

// Two pairs whose keys fall, with the same value.
fn give_falling(builder: &mut CanonBuilder, content: &[u8]) -> Result<Option<Repeat>, AllocError>
    requires empty { builder.old.open_levels ≡ plain [] ∷ [] }
{
    builder.begin(Major::Map, 2)?;
    builder.leaf(Major::Unsigned, 2)?;
    builder.string(Major::Bytes, content)?;
    builder.leaf(Major::Unsigned, 1)?;
    builder.string(Major::Bytes, content)?;
    builder.end_if_distinct()
}

// The key, and a string of `size` sevens.
fn put_pair(bytes: &mut Vec<u8>, key: u8, size: u8) -> Result<(), AllocError> {
    bytes.push(key)?;
    if size < 24 {
        bytes.push(0x40 | size)?;
    } else {
        bytes.extend_from_slice(&[0x58, size])?;
    }
    for _ in 0..size {
        bytes.push(7)?;
    }
    Ok(())
}

fn in_order(alloc: Global, size: u8) -> Result<Vec<u8>, AllocError> {
    let mut bytes = vec![in alloc; 0xa2]?;
    put_pair(&mut bytes, 1, size)?;
    put_pair(&mut bytes, 2, size)?;
    Ok(bytes)
}

fn falling(rt: &impl Abort, alloc: Global, size: u8) -> Result<Vec<u8>, AllocError> {
    let content = Vec::from_elem(alloc, 7, usize::from(size))?;
    let mut builder = CanonBuilder::new(alloc, KeyOrder::Bytewise);
    assert!(rt; give_falling(&mut builder, content.as_slice())? == None);
    Ok(builder.finish())
}

// Two pairs whose keys fall, with strings of each length as values: the pairs are exchanged whole.
#[test]
fn pairs_of_each_length(rt: HostRuntime) -> Result<(), AllocError> {
    let alloc = rt.alloc();
    for size in 0u8..70 {
        let given = falling(&rt, alloc, size)?;
        let wanted = in_order(alloc, size)?;
        assert!(rt; given.as_slice() == wanted.as_slice());
    }
    Ok(())
}

// [1, {2: .., 1: ..}]: the map is removed when it ends
fn give_without_a_map(rt: &impl Abort, builder: &mut CanonBuilder) -> Result<(), AllocError>
    requires empty { builder.old.open_levels ≡ plain [] ∷ [] }
{
    builder.begin(Major::Array, 0)?;
    builder.leaf(Major::Unsigned, 1)?;
    builder.begin(Major::Map, 0)?;
    builder.leaf(Major::Unsigned, 2)?;
    builder.nothing()?;
    builder.leaf(Major::Unsigned, 1)?;
    builder.nothing()?;
    assert!(rt; builder.give_up_if_distinct()? == None);
    Ok(())
}

#[test]
fn removes_a_map(rt: HostRuntime) -> Result<(), AllocError> {
    let mut builder = CanonBuilder::new(rt.alloc(), KeyOrder::Bytewise);
    give_without_a_map(&rt, &mut builder)?;
    Ok(())
}
