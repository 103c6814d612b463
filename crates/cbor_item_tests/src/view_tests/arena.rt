//! What an arena holds of views that are read: their members and contents, and no string in one piece.

use crate::tests::ENCODED;
use crate::tests::words::columns_of;
use bumpalo::Bump;
use cbor_head::Limits;
use cbor_item::View;
use cbor_reader::read_view;
use std::alloc::Global;
use std::mem::size_of;
use std::process::Abort;
use std::test::Fail;

// The number of bytes of the members and contents of a view, at every depth.
fn size_of_members(view: &View<'_>) -> usize {
    match view {
        View::Array(members) => {
            let mut size = members.len().saturating_mul(size_of::<View<'_>>());
            for member in *members {
                size = size.saturating_add(size_of_members(member));
            }
            size
        }
        View::Map(pairs) => {
            let mut size = pairs
                .len()
                .saturating_mul(size_of::<(View<'_>, View<'_>)>());
            for (key, value) in *pairs {
                size = size.saturating_add(size_of_members(key));
                size = size.saturating_add(size_of_members(value));
            }
            size
        }
        View::Tag(_, content) => { size_of::<View<'_>>().saturating_add(size_of_members(content)) }
        _ => 0,
    }
}

// Reads an item whose strings are in one piece, and checks the size of the arena.
fn check_arena(rt: &impl Abort, alloc: Global, input: &[u8]) -> Result<(), Fail> {
    let limits = Limits::new(256, 1 << 20).expect(rt, "limits");
    let arena = Bump::try_with_capacity(alloc, 1 << 14)?;
    let space = arena.chunk_capacity();
    let (view, _) = read_view(alloc, input, limits, &arena)?;
    let taken = space.saturating_sub(arena.chunk_capacity());
    assert!(rt;
        taken == size_of_members(&view),
        "{}",
        hex::encode(alloc, input)?
    );
    Ok(())
}

#[test]
fn strings_in_one_piece_stay_in_the_input(rt: HostRuntime) -> Result<(), Fail> {
    let alloc = rt.alloc();
    for line in ENCODED.trim().lines() {
        let (_, bytewise, length_first) = columns_of(line)?;
        check_arena(&rt, alloc, &hex::decode(alloc, bytewise)?)?;
        if !length_first.is_empty() {
            check_arena(&rt, alloc, &hex::decode(alloc, length_first)?)?;
        }
    }
    Ok(())
}

// What is before and after a string: nothing, in an array, as a key, as a value, in a tag.
static AROUND: [(&[u8], &[u8]); 5] = [
    (b"", b""),
    (b"\x81", b""),
    (b"\xa1", b"\x00"),
    (b"\xa1\x00", b""),
    (b"\xc1", b""),
];

#[test]
fn strings_of_any_length_stay_in_the_input(rt: HostRuntime) -> Result<(), Fail> {
    let alloc = rt.alloc();
    for len in [0_u16, 1, 3, 4, 8, 23, 24, 255, 256, 4000] {
        let [high, low] = len.to_be_bytes();
        for initial_byte in [0x59, 0x79] {
            for (before, following) in AROUND {
                let mut input = Vec::from_slice(alloc, before)?;
                input.extend_from_slice(&[initial_byte, high, low])?;
                for _ in 0..len {
                    input.push(b'a')?;
                }
                input.extend_from_slice(following)?;
                check_arena(&rt, alloc, &input)?;
            }
        }
    }
    Ok(())
}
