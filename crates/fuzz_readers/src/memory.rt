//! What the calls over whole items return if memory is refused from some request on.

use crate::writing::{put_hex, put_refusal};
use bumpalo::Bump;
use cbor_builder::CanonBuilder;
use cbor_head::{KeyOrder, Limits, Major, Reason};
use cbor_item::{Tree, ViewBuilder, encode, encode_to, same};
use cbor_reader::{Sequence, Side, StrictReader, read_tree, read_view, same_meaning};
use std::alloc::{AllocError, Global};
use std::io::{self, ErrorKind, Write};

/// Writes the results of `Tree::of`, and whether the item is the one that was given; `encode`;
/// `encode_to`, and how many bytes its writer got; a `CanonBuilder`; `next_strict` until it gives
/// none; `read_view`, and whether the tree of the view is the same; and `same_meaning`, of the bytes
/// and an array of the same item, and of an empty array and the bytes. Bytes that begin with no valid
/// item have no tree: then each of the first three is `-`. In between, each call that allocates
/// nothing is made `idle` times.
pub(crate) fn report_memory<W: Write>(
    alloc: Global,
    bytes: &[u8],
    limits: Limits,
    idle: u32,
    out: &mut W,
) -> io::Result<()> {
    let tree = tree_of(alloc, bytes, limits)?;
    let twin = tree_of(alloc, bytes, limits)?;
    let Ok(array) = array_of(alloc, bytes) else {
        return Err(io::Error::from(ErrorKind::OutOfMemory));
    };
    call_idle(alloc, bytes, limits, idle);
    match (tree, &twin) {
        (Some(tree), Some(twin)) => put_tree(alloc, tree, twin, idle, out)?,
        _ => write!(out, "- - - ")?,
    }
    match build(alloc, idle) {
        Ok(bytes) => put_hex(&bytes, out)?,
        Err(_) => write!(out, "!")?,
    }
    put_items(alloc, bytes, limits, out)?;
    put_view(alloc, bytes, limits, &twin, idle, out)?;
    put_sameness(alloc, bytes, &array, limits, out)?;
    put_sameness(alloc, b"\x9f\xff", bytes, limits, out)?;
    writeln!(out)
}

// The tree of the bytes, if they begin with a valid item, unless the driver's own memory is refused.
fn tree_of(alloc: Global, mut bytes: &[u8], limits: Limits) -> io::Result<Option<Tree>> {
    match read_tree(alloc, &mut bytes, limits) {
        Ok((tree, _)) => Ok(Some(tree)),
        Err(refusal) if matches!(refusal.reason, Reason::Memory) => {
            Err(io::Error::from(ErrorKind::OutOfMemory))
        }
        Err(_) => Ok(None),
    }
}

// Writes what `Tree::of` returns for the tree's item, and `encode` and `encode_to` for the tree.
fn put_tree<W: Write>(
    alloc: Global,
    tree: Tree,
    twin: &Tree,
    idle: u32,
    out: &mut W,
) -> io::Result<()> {
    for _ in 0..idle {
        let _ = same(twin, twin);
        let _ = twin.item();
    }
    let tree = if idle > 0 {
        Tree::from_valid(tree.into_item())
    } else {
        tree
    };
    let tree = match Tree::of(alloc, tree.into_item()) {
        Ok(tree) => {
            write!(out, "ok")?;
            tree
        }
        Err((item, reason)) => {
            write!(out, "!{}", reason.number())?;
            Tree::from_valid(item)
        }
    };
    write!(out, ",{} ", same(&tree, twin))?;
    put_encoded(alloc, &tree, out)
}

// An array of the one item.
fn array_of(alloc: Global, bytes: &[u8]) -> Result<Vec<u8>, AllocError> {
    let mut array = Vec::with_capacity(alloc, bytes.len().saturating_add(1))?;
    array.push(0x81)?;
    array.extend_from_slice(bytes)?;
    Ok(array)
}

// Makes the calls that allocate nothing. The reader is called after the first events, so that it
// holds what it has read of keys.
fn call_idle(alloc: Global, bytes: &[u8], limits: Limits, idle: u32) {
    let mut events = StrictReader::new(alloc, bytes, limits, KeyOrder::Bytewise);
    for _ in 0..4 {
        let _ = events.next();
    }
    for _ in 0..idle {
        let _ = Sequence::new(alloc, bytes, limits);
        let _ = StrictReader::new(alloc, bytes, limits, KeyOrder::Bytewise);
        let _ = events.piece().len();
        let _ = events.open();
        let _ = events.taken();
        let _ = events.spans();
        let _ = events.kept();
        let _ = CanonBuilder::new(alloc, KeyOrder::Bytewise);
    }
}

fn put_encoded<W: Write>(alloc: Global, tree: &Tree, out: &mut W) -> io::Result<()> {
    match encode(alloc, tree, KeyOrder::Bytewise) {
        Ok(bytes) => put_hex(&bytes, out)?,
        Err(refusal) => put_refusal(refusal, out)?,
    }
    write!(out, " ")?;
    let mut taken = [0; 256];
    let mut writer = &mut taken[..];
    match encode_to(alloc, tree, KeyOrder::LengthFirst, &mut writer) {
        Ok(count) => write!(out, "{count}")?,
        Err(refusal) => put_refusal(refusal, out)?,
    }
    write!(out, ":{} ", 256usize.saturating_sub(writer.len()))
}

// Builds a map whose second key is complete, and may be compared with the first; it is finished if
// calls that allocate nothing are made.
fn build_idle(alloc: Global, idle: u32) -> Result<(), AllocError> {
    let mut builder = CanonBuilder::new(alloc, KeyOrder::Bytewise);
    builder.begin(Major::Map, 2)?;
    builder.leaf(Major::Unsigned, 2)?;
    builder.string(Major::Bytes, &[7; 40])?;
    builder.leaf(Major::Unsigned, 1)?;
    for _ in 0..idle {
        let _ = builder.repeated();
    }
    if idle > 0 {
        let _ = builder.finish();
    }
    Ok(())
}

// An array of a number and a string.
fn build(alloc: Global, idle: u32) -> Result<Vec<u8>, AllocError> {
    build_idle(alloc, idle)?;
    let mut builder = CanonBuilder::new(alloc, KeyOrder::Bytewise);
    builder.begin(Major::Array, 2)?;
    builder.leaf(Major::Unsigned, 1)?;
    builder.string(Major::Bytes, &[7; 40])?;
    builder.end()?;
    Ok(builder.finish())
}

// Writes the sizes of the sequence's items, each followed by a comma.
fn put_items<W: Write>(alloc: Global, bytes: &[u8], limits: Limits, out: &mut W) -> io::Result<()> {
    let mut sequence = Sequence::new(alloc, bytes, limits);
    write!(out, " items,")?;
    for _ in 0..=bytes.len() {
        match sequence.next_strict(KeyOrder::Bytewise) {
            Some(Ok(count)) => write!(out, "{count},")?,
            Some(Err(refusal)) => put_refusal(refusal, out)?,
            None => break,
        }
    }
    Ok(())
}

// Writes the number of bytes of the view, and whether its tree is the one that is given.
fn put_view<W: Write>(
    alloc: Global,
    bytes: &[u8],
    limits: Limits,
    tree: &Option<Tree>,
    idle: u32,
    out: &mut W,
) -> io::Result<()> {
    let arena = Bump::new(alloc);
    write!(out, " ")?;
    match read_view(alloc, bytes, limits, &arena) {
        Ok((view, count)) => {
            for _ in 0..idle {
                let _ = ViewBuilder::new(alloc, &arena);
                let _ = view.same(&view);
                let _ = view.get(&view).is_some();
                let _ = view.get_text("a").is_some();
                let _ = view.get_integer(1).is_some();
            }
            write!(out, "{count},")?;
            match (view.to_tree(alloc), tree) {
                (Ok(viewed), Some(tree)) => write!(out, "{}", same(&viewed, tree)),
                (Ok(_), None) => write!(out, "no tree"),
                (Err(refusal), _) => put_refusal(refusal, out),
            }
        }
        Err(refusal) => put_refusal(refusal, out),
    }
}

// Writes whether both mean the same, or the side that is refused.
fn put_sameness<W: Write>(
    alloc: Global,
    left: &[u8],
    right: &[u8],
    limits: Limits,
    out: &mut W,
) -> io::Result<()> {
    match same_meaning(alloc, left, right, limits) {
        Ok(is_same) => write!(out, " {is_same}"),
        Err((Side::Left, refusal)) => {
            write!(out, " left")?;
            put_refusal(refusal, out)
        }
        Err((Side::Right, refusal)) => {
            write!(out, " right")?;
            put_refusal(refusal, out)
        }
    }
}
