//! Heads that announce more than follows: nothing is allocated for a head alone. What these announce,
//! at a byte a member, is more than a processor can address, so a call that allocated it would return
//! `Memory`.

use super::{bytes_of, limits};
use cbor_head::{Limits, Reason, Refusal};
use cbor_reader::{KeyOrder, canonicalise, check_canonical, read_strict, read_tree, same_meaning};
use std::alloc::{AllocError, Global};
use std::test::Fail;

// Arrays and maps of 2^40 members, and of as many as a head can announce.
static PROMISES: &str =
    "9b0000010000000000 bb0000010000000000 9bffffffffffffffff bbffffffffffffffff";

// 255 of these heads, each the first member, or the first key, of the one before, around 0.
fn nested(alloc: Global, head: &[u8]) -> Result<Vec<u8>, AllocError> {
    let mut bytes = Vec::new(alloc);
    for _ in 0..255 {
        bytes.extend_from_slice(head)?;
    }
    bytes.push(0)?;
    Ok(bytes)
}

// Whether each call reports that the input is cut short.
fn is_cut_short(alloc: Global, input: &[u8], limits: Limits) -> bool {
    let refusal = Refusal::at(Reason::Truncated, input.len() as u64);
    let read = read_tree(alloc, &mut &input[..], limits);
    let mut returned = same_meaning(alloc, input, input, limits).is_err_and(|e| e.1 == refusal)
        && read.err() == Some(refusal);
    for order in [KeyOrder::Bytewise, KeyOrder::LengthFirst] {
        let strict = read_strict(alloc, &mut &input[..], limits, order);
        let checked = check_canonical(input, limits, order);
        let canonical = canonicalise(alloc, input, limits, order);
        returned = returned
            && strict == Err(refusal)
            && checked == Err(refusal)
            && canonical == Err(refusal);
    }
    returned
}

#[test]
fn request_no_memory(rt: HostRuntime) -> Result<(), Fail> {
    let alloc = rt.alloc();
    let limits = limits(&rt, 256, 1048576);
    for head in PROMISES.split_whitespace() {
        let input = nested(alloc, &bytes_of(alloc, head)?)?;
        assert!(rt; is_cut_short(alloc, &input, limits), "{head}");
    }
    // strings of 2^63 bytes, of which one follows
    for string in ["5b800000000000000061", "7b800000000000000061"] {
        let input = bytes_of(alloc, string)?;
        assert!(rt; is_cut_short(alloc, &input, limits), "{string}");
    }
    Ok(())
}
