//! Checks how deep an item is, and finds that its numbers are in range and its texts are UTF-8.

ghost use Rattle.std.specs.Prelude.{◌≤◌, ◌<◌, ◌^◌, ◌↔◌, IsTrue, length, MatchOption};
ghost use Rattle.cbor_head.specs.Value.{depth, AreBytes, IsInRange};
ghost use Rattle.cbor_item.specs.View.{view};
ghost use Rattle.cbor_item.specs.inner.Rest.{left};
ghost use Rattle.cbor_item.specs.inner.Texts.{HasUtf8Texts};
ghost use Rattle.cbor_item.specs.inner.Within.{Holds, HoldsNone};

use crate::item::Item;
use crate::node::{Node, NodeKind};
use crate::rest::Rest;
use cbor_head::MAX_DEPTH;

// Most items are no deeper than this,
const FEW: usize = 16;
// and no tree than this.
const MOST: usize = MAX_DEPTH as usize;

// Whether the item nests no deeper than a tree may. It goes no deeper itself. If it returns true,
// it has read every number and every text.
pub(crate) fn is_within(item: &Item) -> bool
    ensures shallow { IsTrue result ↔ depth (view item.now) ≤ MAX_DEPTH }
    ensures in_range { IsTrue result → IsInRange (view item.now) }
    ensures texts { IsTrue result → HasUtf8Texts (view item.now) }
{
    is_nested_in(item, &mut [Rest::Members(&[]); FEW]) || is_within_most(item)
}

// Whether an item that may be deep is within the depth limit. Its cells take 32 KiB of the stack.
#[inline(never)]
fn is_within_most(item: &Item) -> bool
    ensures shallow { IsTrue result ↔ depth (view item.now) ≤ MAX_DEPTH }
    ensures in_range { IsTrue result → IsInRange (view item.now) }
    ensures texts { IsTrue result → HasUtf8Texts (view item.now) }
{
    is_nested_in(item, &mut [Rest::Members(&[]); MOST])
}

// Whether the item nests no deeper than there are cells: one for each container around the
// current one.
fn is_nested_in<'a>(item: &'a Item, cells: &mut [Rest<'a, Item>]) -> bool
    ensures shallow { IsTrue result ↔ depth (view item.now) ≤ length cells.old }
    ensures in_range { IsTrue result → IsInRange (view item.now) }
    ensures texts { IsTrue result → HasUtf8Texts (view item.now) }
{
    let mut rest = Rest::One(item);
    let mut height = 0;
    'items: loop {
        match rest.next() {
            Some((next, following)) => {
                rest = following;
                if let Some(content) = held(next) {
                    if height == cells.len() {
                        return false;
                    }
                    cells[height] = rest;
                    height += 1;
                    rest = content;
                }
            }
            None => {
                if height == 0 {
                    return true;
                }
                height -= 1;
                rest = cells[height];
            }
        }
    }
}

// What a container holds; `None` for other items.
fn held(item: &Item) -> Option<Rest<'_, Item>>
    ensures { MatchOption result (HoldsNone (view item.now))
        (λ content. Holds (view item.now) (left view content)) }
{
    match item.kind() {
        NodeKind::Unsigned(_) | NodeKind::Negative(_) | NodeKind::Simple(_) => None,
        NodeKind::Bytes(bytes) => {
            check_bytes(bytes);
            None
        }
        NodeKind::Text(text) => {
            check_bytes(text.as_bytes());
            None
        }
        NodeKind::Array(members) => {
            check_count(members);
            Some(Rest::Members(members))
        }
        NodeKind::Map(pairs) => {
            check_count(pairs);
            Some(Rest::Pairs(pairs))
        }
        NodeKind::Tag(_, content) => Some(Rest::One(content)),
    }
}

// What the type of a slice ensures about its bytes. Nothing runs.
fn check_bytes(bytes: &[u8])
    ensures count { length bytes.now < 2 ^ 64 }
    ensures bytes { AreBytes bytes.now }
{}

// What the type of a slice ensures about its length. Nothing runs.
fn check_count<T>(parts: &[T])
    ensures { length parts.now < 2 ^ 64 }
{}
