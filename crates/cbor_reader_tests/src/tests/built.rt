//! Canonical bytes that are built event by event, at each size at which their heads or the builder
//! change, and for deep nesting of each container. The expected bytes are put together here, from
//! heads, and not by an encoder.

use super::conformance_rows::{ORDERS, rows_of};
use super::heads::{Case, push_head, push_times, push_wide_head, wide};
use super::towers::kinds;
use super::{bytes_of, limits};
use cbor_head::{Reason, Refusal};
use cbor_reader::{
    ItemCanonicaliser, KeyOrder, canonical_bytes, canonicalise, check_valid, read_canonical,
};
use std::alloc::{AllocError, Global};
use std::borrow::CowSlice;
use std::process::Abort;
use std::test::Fail;

// Counts on both sides of each bound at which a head gets longer.
static COUNTS: [u32; 6] = [0, 1, 23, 24, 255, 256];

static LARGE_COUNTS: [u32; 2] = [65535, 65536];

// The high three bits of a first byte.
const BYTES: u8 = 0x40;

const TEXT: u8 = 0x60;

const ARRAY: u8 = 0x80;

const MAP: u8 = 0xa0;

// An array or a string of indefinite length, with this number of zeros as members or of chunks of
// one byte, and the break.
fn indefinite(alloc: Global, major: u8, byte: u8, count: u32) -> Result<Case, AllocError> {
    let mut input = Vec::new(alloc);
    let mut canonical = Vec::new(alloc);
    input.push(major | 31)?;
    for _ in 0..count {
        if major != ARRAY {
            input.push(major | 1)?;
        }
        input.push(byte)?;
    }
    input.push(0xff)?;
    push_head(&mut canonical, major, count)?;
    push_times(&mut canonical, byte, count)?;
    Ok(Case { input, canonical })
}

// A map from this number of integers to 0 with its keys in falling order, of definite or indefinite
// length.
fn falling_map(alloc: Global, count: u32, has_length: bool) -> Result<Case, AllocError> {
    let mut input = Vec::new(alloc);
    let mut canonical = Vec::new(alloc);
    push_head(&mut canonical, MAP, count)?;
    if has_length {
        push_wide_head(&mut input, MAP, count)?;
    } else {
        input.push(MAP | 31)?;
    }
    for key in 0..count {
        push_head(&mut input, 0, (count - 1).saturating_sub(key))?;
        input.push(0)?;
        push_head(&mut canonical, 0, key)?;
        canonical.push(0)?;
    }
    if !has_length {
        input.push(0xff)?;
    }
    Ok(Case { input, canonical })
}

fn look_for(rt: &impl Abort, alloc: Global, case: &Case, name: &str) {
    let limits = limits(rt, 256, 1048576);
    for order in ORDERS {
        let given = canonicalise(alloc, &case.input, limits, order);
        assert!(rt; given.is_ok_and(|bytes| bytes == case.canonical), "{name}");
        let again = canonicalise(alloc, &case.canonical, limits, order);
        assert!(rt; again.is_ok_and(|bytes| bytes == case.canonical), "{name}");
        let same = canonical_bytes(alloc, &case.canonical, limits, order);
        let is_same = match same {
            Ok(CowSlice::Borrowed(bytes)) => bytes == case.canonical.as_slice(),
            _ => false,
        };
        assert!(rt; is_same, "{name}, unchanged");
    }
    let count = check_valid(alloc, &case.input, limits);
    assert!(rt; count == Ok(case.input.len() as u64), "{name}");
}

#[test]
fn builds_each_size(rt: HostRuntime) -> Result<(), Fail> {
    let alloc = rt.alloc();
    for &count in &COUNTS {
        look_for(&rt, alloc, &wide(alloc, BYTES, 0xff, count)?, "bytes");
        look_for(&rt, alloc, &wide(alloc, TEXT, b'a', count)?, "text");
        look_for(&rt, alloc, &wide(alloc, ARRAY, 0, count)?, "array");
        look_for(
            &rt,
            alloc,
            &indefinite(alloc, BYTES, 0xff, count)?,
            "chunks of bytes",
        );
        look_for(
            &rt,
            alloc,
            &indefinite(alloc, TEXT, b'a', count)?,
            "chunks of text",
        );
        look_for(
            &rt,
            alloc,
            &indefinite(alloc, ARRAY, 0, count)?,
            "array without length",
        );
        look_for(&rt, alloc, &falling_map(alloc, count, true)?, "map");
        look_for(
            &rt,
            alloc,
            &falling_map(alloc, count, false)?,
            "map without length",
        );
    }
    Ok(())
}

#[test]
fn builds_large_sizes(rt: HostRuntime) -> Result<(), Fail> {
    let alloc = rt.alloc();
    for &count in &LARGE_COUNTS {
        look_for(&rt, alloc, &wide(alloc, TEXT, b'a', count)?, "text");
        look_for(
            &rt,
            alloc,
            &indefinite(alloc, ARRAY, 0, count)?,
            "array without length",
        );
    }
    Ok(())
}

// Slices, the canonical bytes of the items that they begin with, the sizes of the items, and whether
// these are canonical already.
static PREFIXES: &str = "
00ff | | 00 | 1 borrowed | 0
1800ff | | 00 | 2 built | 0
a263416d74216346756ef500 | | a263416d74216346756ef5 | 11 borrowed | two keys in order
bf6346756ef563416d7421ffff | | a263416d74216346756ef5 | 12 built | two keys, falling
5f41614162ff5f | | 426162 | 6 built | h'6162'
";

#[test]
fn builds_the_prefix_of_a_slice(rt: HostRuntime) -> Result<(), Fail> {
    let mut items = ItemCanonicaliser::new(rt.alloc());
    for row in &rows_of(rt.alloc(), PREFIXES)? {
        let wanted = bytes_of(rt.alloc(), row.plain)?;
        let again = items.canonicalise(&row.input, row.limits, KeyOrder::Bytewise);
        let (bytes, size) = again.map_err(|_| "the item was refused")?;
        assert!(rt; bytes == wanted.as_slice(), "{}", row.line);
        let alone = read_canonical(rt.alloc(), &row.input, row.limits, KeyOrder::Bytewise);
        let (canonical, count) = alone.map_err(|_| "the item was refused")?;
        assert!(rt;
            canonical.as_slice() == wanted.as_slice() && count == size,
            "{}",
            row.line
        );
        let how = match canonical {
            CowSlice::Borrowed(_) => "borrowed",
            CowSlice::Owned(_) => "built",
        };
        let reported = format!(in rt.alloc(); "{size} {how}")?;
        assert!(rt; reported.as_str() == row.strict, "{}", row.line);
    }
    Ok(())
}

// 256 nested containers.
#[test]
fn builds_towers(rt: HostRuntime) -> Result<(), Fail> {
    let alloc = rt.alloc();
    for kind in &kinds(alloc)? {
        let case = kind.tower(alloc, 256, false)?;
        look_for(&rt, alloc, &case, "a tower");
        let shallow = limits(&rt, 255, 1048576);
        let place = (kind.opens.len() as u64).saturating_mul(255);
        let wanted = Err(Refusal::new(Reason::TooDeep, place, place.saturating_add(1)));
        assert!(rt; check_valid(alloc, &case.input, shallow) == wanted);
    }
    Ok(())
}
