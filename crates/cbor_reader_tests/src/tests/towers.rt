//! Nested containers of each kind, in values and in keys, as deep as a depth limit allows, and one
//! level deeper.

use super::conformance_rows::{ORDERS, columns_of};
use super::heads::Case;
use super::{bytes_of, limits};
use cbor_head::{Limits, Reason, Refusal};
use cbor_reader::{KeyOrder, canonicalise, check_canonical, read_strict, read_tree, same_meaning};
use std::alloc::{AllocError, Global};
use std::process::Abort;
use std::test::Fail;

// A kind of nested containers: what opens each, what closes it, and the same in canonical bytes.
#[derive(Drop)]
pub(super) struct Kind {
    pub(super) opens: Vec<u8>,
    closes: Vec<u8>,
    canonical_opens: Vec<u8>,
    canonical_closes: Vec<u8>,
}

// Arrays, tags, and maps around a value and around a key: of definite length, with a head that is
// not the shortest, and of indefinite length.
static KINDS: &str = "
81 | | 81 | | [[0]]
9801 | | 81 | | [[0]]
9f | ff | 81 | | [[0]]
c1 | | c1 | | 1(1(0))
d801 | | c1 | | 1(1(0))
d818 | | d818 | | 24(24(0))
a100 | | a100 | | {0: {0: 0}}
b80100 | | a100 | | {0: {0: 0}}
bf00 | ff | a100 | | {0: {0: 0}}
a1 | 00 | a1 | 00 | {{0: 0}: 0}
bf | 00ff | a1 | 00 | {{0: 0}: 0}
a2010000 | | a200 | 0100 | {1: 0, 0: {1: 0, 0: 0}}
";

pub(super) fn kinds(alloc: Global) -> Result<Vec<Kind>, Fail> {
    let mut kinds = Vec::new(alloc);
    for line in KINDS.trim().lines() {
        kinds.push(kind_of(alloc, line)?)?;
    }
    Ok(kinds)
}

fn kind_of(alloc: Global, line: &str) -> Result<Kind, Fail> {
    let (opens, closes, canonical_opens, canonical_closes) = columns_of(line).ok_or(
        "columns of a kind",
    )?;
    Ok(Kind {
        opens: bytes_of(alloc, opens)?,
        closes: bytes_of(alloc, closes)?,
        canonical_opens: bytes_of(alloc, canonical_opens)?,
        canonical_closes: bytes_of(alloc, canonical_closes)?,
    })
}

impl Kind {
    // A tower of this number of levels, alone or as the key of a map, which is the lowest level.
    pub(super) fn tower(
        &self,
        alloc: Global,
        levels: u16,
        is_key: bool,
    ) -> Result<Case, AllocError> {
        let floors = floors(levels, is_key);
        Ok(Case {
            input: encoded_tower(alloc, &self.opens, &self.closes, floors, is_key)?,
            canonical: encoded_tower(
                alloc,
                &self.canonical_opens,
                &self.canonical_closes,
                floors,
                is_key,
            )?,
        })
    }
}

// The number of containers of its kind in a tower of this number of levels.
fn floors(levels: u16, is_key: bool) -> u16 {
    if is_key {
        levels.saturating_sub(1)
    } else {
        levels
    }
}

// The bytes of this number of containers around 0, as the key of a map with the value 0, or alone.
fn encoded_tower(
    alloc: Global,
    opens: &[u8],
    closes: &[u8],
    floors: u16,
    is_key: bool,
) -> Result<Vec<u8>, AllocError> {
    let mut bytes = Vec::new(alloc);
    if is_key {
        bytes.push(0xa1)?;
    }
    for _ in 0..floors {
        bytes.extend_from_slice(opens)?;
    }
    bytes.push(0)?;
    for _ in 0..floors {
        bytes.extend_from_slice(closes)?;
    }
    if is_key {
        bytes.push(0)?;
    }
    Ok(bytes)
}

// Whether the strict calls return this in both orders.
fn strict_calls_return(
    alloc: Global,
    input: &[u8],
    limits: Limits,
    wanted: Result<u64, Refusal>,
) -> bool {
    for order in ORDERS {
        let read = read_strict(alloc, &mut &input[..], limits, order);
        if read != wanted || check_canonical(input, limits, order) != wanted {
            return false;
        }
    }
    true
}

// Whether a tower of as many levels as the limit allows is accepted.
fn is_tower_accepted(alloc: Global, tower: Case, limits: Limits) -> bool {
    let Case { input, canonical } = tower;
    let size = canonical.len() as u64;
    for order in ORDERS {
        let given = canonicalise(alloc, &input, limits, order);
        if !given.is_ok_and(|bytes| bytes == canonical) {
            return false;
        }
    }
    let is_read = match read_tree(alloc, &mut input.as_slice(), limits) {
        Ok((_tree, count)) => count == input.len() as u64,
        Err(_) => false,
    };
    let is_same = same_meaning(alloc, &input, &canonical, limits) == Ok(true);
    is_read && is_same && strict_calls_return(alloc, &canonical, limits, Ok(size))
}

// Whether a tower of one level more is refused at the first byte of that level.
fn is_too_deep(
    alloc: Global,
    kind: &Kind,
    is_key: bool,
    limit: u16,
    limits: Limits,
) -> Result<bool, AllocError> {
    let Case { input, canonical } = kind.tower(alloc, limit.saturating_add(1), is_key)?;
    let refusal = refusal_after(&kind.opens, is_key, limit);
    for order in ORDERS {
        if canonicalise(alloc, &input, limits, order) != Err(refusal) {
            return Ok(false);
        }
    }
    let is_read = read_tree(alloc, &mut input.as_slice(), limits).err() == Some(refusal);
    let wanted = Err(refusal_after(&kind.canonical_opens, is_key, limit));
    Ok(is_read && strict_calls_return(alloc, &canonical, limits, wanted))
}

// The refusal of the container that would be opened when as many are open as the limit allows.
fn refusal_after(opens: &[u8], is_key: bool, limit: u16) -> Refusal {
    let before = u64::from(is_key && limit > 0);
    let floors = u64::from(floors(limit, is_key));
    let place = floors
        .saturating_mul(opens.len() as u64)
        .saturating_add(before);
    Refusal::new(Reason::TooDeep, place, place.saturating_add(1))
}

fn look_at(
    rt: &impl Abort,
    alloc: Global,
    kind: &Kind,
    is_key: bool,
    limit: u16,
) -> Result<(), Fail> {
    let limits = limits(rt, limit, 1048576);
    let is_accepted = limit == 0 && is_key
        || is_tower_accepted(alloc, kind.tower(alloc, limit, is_key)?, limits);
    let is_refused = is_too_deep(alloc, kind, is_key, limit, limits)?;
    assert!(rt; is_accepted, "{:?}, {limit} deep", kind.opens);
    assert!(rt; is_refused, "{:?}, deeper than {limit}", kind.opens);
    Ok(())
}

// Towers of each kind with each of these limits, alone or as a key.
fn try_limits(
    rt: &impl Abort,
    alloc: Global,
    is_key: bool,
    least: u16,
    most: u16,
) -> Result<(), Fail> {
    for kind in &kinds(alloc)? {
        for limit in least..=most {
            look_at(rt, alloc, kind, is_key, limit)?;
        }
    }
    Ok(())
}

#[test]
fn end_at_small_limits(rt: HostRuntime) -> Result<(), Fail> {
    try_limits(&rt, rt.alloc(), false, 0, 40)?;
    try_limits(&rt, rt.alloc(), true, 0, 17)
}

// Above 128 levels, and above 256, the calls use other memory.
#[test]
fn end_at_128_levels(rt: HostRuntime) -> Result<(), Fail> {
    try_limits(&rt, rt.alloc(), false, 127, 129)?;
    try_limits(&rt, rt.alloc(), true, 127, 129)
}

#[test]
fn end_at_256_levels(rt: HostRuntime) -> Result<(), Fail> {
    try_limits(&rt, rt.alloc(), false, 255, 257)?;
    try_limits(&rt, rt.alloc(), true, 256, 256)
}

#[test]
fn end_at_the_greatest_depth(rt: HostRuntime) -> Result<(), Fail> {
    try_limits(&rt, rt.alloc(), false, 1024, 1024)
}

#[test]
fn end_at_the_greatest_depth_in_a_key(rt: HostRuntime) -> Result<(), Fail> {
    try_limits(&rt, rt.alloc(), true, 1024, 1024)
}
