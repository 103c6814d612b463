//! Items cut short, by the end of the input and by the byte limit: the first bytes of an item are
//! truncated, and a limit within it makes it too long.

use super::Parts;
use super::conformance_rows::{is_refused, rows};
use cbor_head::{Limits, Reason, Refusal};
use cbor_reader::{
    KeyOrder, Sequence, Side, canonicalise, check_canonical, read_strict, read_tree, same_meaning,
};
use std::alloc::Global;
use std::test::Fail;

// Whether each call by the plain rules refuses the input so, and consumes the number of bytes that
// it reports.
fn plain_calls_refuse(alloc: Global, input: &[u8], limits: Limits, refusal: Refusal) -> bool {
    for part in [1, usize::MAX] {
        let mut reader = Parts { rest: input, part };
        let outcome = read_tree(alloc, &mut reader, limits);
        let left = reader.rest.len() as u64;
        if outcome.err() != Some(refusal)
            || left.checked_add(refusal.read) != Some(input.len() as u64)
        {
            return false;
        }
    }
    let bytewise = canonicalise(alloc, input, limits, KeyOrder::Bytewise);
    let length_first = canonicalise(alloc, input, limits, KeyOrder::LengthFirst);
    bytewise == Err(refusal) && length_first == Err(refusal)
}

// The same for the calls by the strict rules.
fn strict_calls_refuse(alloc: Global, input: &[u8], limits: Limits, refusal: Refusal) -> bool {
    for order in [KeyOrder::Bytewise, KeyOrder::LengthFirst] {
        for part in [1, usize::MAX] {
            let mut reader = Parts { rest: input, part };
            let outcome = read_strict(alloc, &mut reader, limits, order);
            let left = reader.rest.len() as u64;
            if outcome != Err(refusal)
                || left.checked_add(refusal.read) != Some(input.len() as u64)
            {
                return false;
            }
        }
        if check_canonical(input, limits, order) != Err(refusal) {
            return false;
        }
    }
    true
}

// Whether a comparison refuses the side that was cut short, and a sequence refuses the item. An
// empty input is the end of a sequence.
fn others_refuse(
    alloc: Global,
    whole: &[u8],
    cut: usize,
    limits: Limits,
    refusal: Refusal,
) -> bool {
    let prefix = &whole[..cut.min(whole.len())];
    let left = same_meaning(alloc, prefix, whole, limits);
    let right = same_meaning(alloc, whole, prefix, limits);
    let mut items = Sequence::new(alloc, prefix, limits);
    let is_reported = match items.next() {
        None => prefix.is_empty(),
        Some(Ok(_)) => false,
        Some(Err(given)) => given == refusal && !prefix.is_empty(),
    };
    left == Err((Side::Left, refusal)) && right == Err((Side::Right, refusal)) && is_reported
}

// Whether an item is refused as expected if the input or the limit ends within it.
fn is_cut_at(alloc: Global, item: &[u8], cut: usize, is_strict: bool) -> Option<bool> {
    let wide = Limits::new(256, 1048576)?;
    let short = Limits::new(256, cut as u64)?;
    let truncated = Refusal::at(Reason::Truncated, cut as u64);
    let too_long = Refusal::at(Reason::TooLong, cut as u64);
    let prefix = &item[..cut.min(item.len())];
    let is_plain = plain_calls_refuse(alloc, prefix, wide, truncated)
        && plain_calls_refuse(alloc, item, short, too_long)
        && others_refuse(alloc, item, cut, wide, truncated);
    let is_strict = !is_strict
        || strict_calls_refuse(alloc, prefix, wide, truncated)
            && strict_calls_refuse(alloc, item, short, too_long);
    Some(is_plain && is_strict)
}

// Each item of the conformance table that is accepted within the widest limits. The calls by the
// strict rules are tried only on what is canonical in both orders.
#[test]
fn refuses_each_prefix_of_an_item(rt: HostRuntime) -> Result<(), Fail> {
    for row in &rows(rt.alloc())? {
        if !row.column.is_empty() || is_refused(row.plain) {
            continue;
        }
        let is_strict = row.plain == "same" && row.strict.is_empty();
        for cut in 0..row.input.len() {
            if row.is_tried_at(cut) {
                let is_right = is_cut_at(rt.alloc(), &row.input, cut, is_strict);
                assert!(rt; is_right == Some(true), "{}, cut at {cut}", row.line);
            }
        }
    }
    Ok(())
}
