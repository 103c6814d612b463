//! The canonical item at the start of a slice.

ghost use Rattle.std.specs.Prelude.{◌≤◌, ◌^◌, IfOk, IfErr, MatchResult, length};
ghost use Rattle.cbor_head.specs.Complaint.{strict};
ghost use Rattle.theory_verdicts.specs.Readers.{IsRead};
ghost use Rattle.theory_verdicts.specs.Stop.{IsRefused};
ghost use Rattle.cbor_parser.specs.NotCanonical.{IsNotCanonical};
ghost use Rattle.cbor_parser.specs.inner.Cells.{IsWhole};

use crate::container::Expected;
use crate::item_start::{Here, ItemStart, item_start};
use crate::last_key::strict_cell;
use crate::limit::{truncated_or_too_long, within};
use crate::parse::parse;
use crate::strict_rules::StrictRules;
use cbor_head::{KeyOrder, Limits, Refusal};

/// Returns the size in bytes of the item that the slice begins with, if its bytes are canonical in
/// this order (RFC 8949, sections 4.2.1 and 4.2.3); else the refusal of the bytes within the limits
/// by the rules of the deterministic encoding. A key that is the same as the one before it is a
/// `RepeatedKey` here.
///
/// It reads the bytes once, without recursion, and allocates nothing. It is inlined into its
/// callers, so that its result is not copied.
#[inline(always)]
pub fn canonical_prefix(bytes: &[u8], limits: Limits, order: KeyOrder) -> Result<u64, Refusal>
    ensures { MatchResult result
        (λ count. IsRead limits (strict order) bytes.now count)
        (IsNotCanonical limits order bytes.now) }
{
    let input = within(bytes, limits.bytes());
    match whole_prefix(input, limits, order) {
        Ok(count) => Ok(count as u64),
        Err(refusal) => Err(truncated_or_too_long(refusal, input, limits.bytes())),
    }
}

// The canonical item at the start of a whole input. If the input ends within the item, it is
// `Truncated`.
#[inline(always)]
fn whole_prefix(input: &[u8], limits: Limits, order: KeyOrder) -> Result<usize, Refusal>
    requires { length input.now ≤ 2 ^ 62 }
    ensures whole { IfOk result (IsWhole order limits input.now) }
    ensures refused { IfErr result (IsRefused order limits input.now) }
{
    // An item that is no container needs no cells.
    if !begins_container(input) {
        let here = Here {
            space: limits.depth() > 0,
            is_key: false,
            may_break: false,
        };
        match item_start(input, 0, here, true) {
            ItemStart::Leaf(used) => return Ok(used),
            ItemStart::Refused(refusal) => return Err(refusal),
            ItemStart::Opens(..) | ItemStart::Indefinite => {}
        }
    }
    let mut rules = StrictRules::new(input, order);
    match parse(&mut rules, input, strict_cell(Expected::Item, 0, 0), limits) {
        Ok(following) => Ok(input.len() - following.len()),
        Err(refusal) => Err(refusal),
    }
}

// Whether the first byte is the whole head of an array, a map or a tag.
#[inline(always)]
fn begins_container(input: &[u8]) -> bool {
    match input.first() {
        Some(first) => *first >= 0x80 && *first < 0xe0 && *first % 32 < 24,
        None => false,
    }
}
