//! The order of encoded keys.

ghost use Rattle.std.specs.Prelude.{◌≡◌, ◌≤◌, ◌+◌, length, drop};
ghost use Rattle.theory_values.specs.KeyPrefix.{prefix_of};
ghost use Rattle.cbor_head.specs.Order.{key_cmp};
ghost use Rattle.cbor_head.specs.declared.order.KeyOrder.TheVariants.{Bytewise};

use cbor_head::KeyOrder;
use std::cmp::Ordering;

// The number of bytes that are compared in one piece, as a number.
const WORD: usize = 8;

/// How two encoded keys compare in a map (RFC 8949, sections 4.2.1 and 4.2.3).
pub fn compare_keys(order: KeyOrder, a: &[u8], b: &[u8]) -> Ordering
    ensures { result ≡ key_cmp order a.now b.now }
{
    match order {
        KeyOrder::Bytewise => compare_bytes(a, b),
        KeyOrder::LengthFirst => a.len().cmp(&b.len()).then_with(|| compare_bytes(a, b)),
    }
}

// Bytewise. The common length is compared word by word; the last word may overlap the one before.
#[inline(always)]
fn compare_bytes(a: &[u8], b: &[u8]) -> Ordering
    ensures { result ≡ key_cmp Bytewise a.now b.now }
{
    let shared = a.len().min(b.len());
    if shared < WORD {
        return compare_short(a, b);
    }
    let last = shared - WORD;
    let mut at = 0;
    while at < last {
        let x = word(a, at);
        let y = word(b, at);
        if x != y {
            return x.cmp(&y);
        }
        at += WORD;
    }
    let a_last = word(a, last);
    let b_last = word(b, last);
    if a_last != b_last {
        return a_last.cmp(&b_last);
    }
    a.len().cmp(&b.len())
}

// Compares two short keys byte by byte.
#[inline(never)]
fn compare_short(a: &[u8], b: &[u8]) -> Ordering
    ensures { result ≡ key_cmp Bytewise a.now b.now }
{
    a.cmp(b)
}

// The eight bytes from an offset on, as a big-endian number.
#[inline(always)]
fn word(bytes: &[u8], at: usize) -> u64
    requires { at + 8 ≤ length bytes.now }
    ensures { result ≡ prefix_of (drop at bytes.now) }
{
    match bytes[at..].first_chunk::<WORD>() {
        Some(chunk) => u64::from_be_bytes(*chunk),
        None => unreachable!(),
    }
}
