//! The refusal of a key that is the same as an earlier one of its map, from the key's position in the
//! map.

ghost use Rattle.std.specs.Prelude.{◌≡◌, ◌≤◌, ℕ, List, length, take};
ghost use Rattle.cbor_head.specs.Complaint.{plain};
ghost use Rattle.cbor_head.specs.Verdict.{IsVerdict, refused};
ghost use Rattle.cbor_parser.specs.Stack.{open_levels};
ghost use Rattle.cbor_parser.specs.inner.OpenContainer.{Cell};
ghost use Rattle.cbor_parser.specs.inner.OpenMaps.{FindsMap};
ghost use Rattle.cbor_parser.specs.inner.Repeated.{IsKeyReported};

use crate::open_container::OpenContainer;
use crate::skip::past_items;
use crate::stack::Stack;
use cbor_head::{Keys, Limits, Reason, Refusal};

/// The refusal of a key that is the same as an earlier one. `following` bytes of the input follow its map's
/// head, and `pair` pairs come before the key.
pub(crate) fn repeated_key(input: &[u8], following: usize, pair: usize, limits: Limits) -> Refusal
    requires reported { IsKeyReported limits input.now following pair }
    requires within { length input.now ≤ limits.bytes }
    ensures { (bytes : List ℕ) → input.now ≡ take limits.bytes bytes
        → IsVerdict limits plain bytes (refused result) }
{
    // The kinds of these keys were judged before.
    let limits = limits.with_keys(Keys::Any);
    let pairs = &input[input.len() - following..];
    let key = past_items(pairs, 2 * pair as u64, limits);
    let rest = past_items(key, 1, limits);
    let at = (input.len() - key.len()) as u64;
    let end = (input.len() - rest.len()) as u64;
    Refusal::new(Reason::RepeatedKey, at, end)
}

/// The cell of the open map that has this number of open maps around it.
pub(crate) fn reported_map(
    stack: &Stack<OpenContainer<usize>>,
    cells: &[OpenContainer<usize>],
    outside: usize,
) -> Option<OpenContainer<usize>>
    requires { stack.now.height ≤ length cells.now }
    ensures { FindsMap (open_levels Cell stack.now cells.now) outside result }
{
    let mut left = outside;
    for cell in &cells[..stack.height] {
        if cell.expected.is_in_map() {
            if left == 0 {
                return Some(*cell);
            }
            left -= 1;
        }
    }
    if left == 0 && stack.top.expected.is_in_map() {
        Some(stack.top)
    } else {
        None
    }
}
