//! Where items end.

ghost use Rattle.std.specs.Prelude.{◌≡◌, ◌↔◌, ◌<◌, ◌≤◌, ℕ, List, length, drop, IfSome, MatchOption};
ghost use Rattle.cbor_head.specs.Value.{Value};
ghost use Rattle.cbor_head.specs.declared.order.KeyOrder.{KeyOrder};
ghost use Rattle.cbor_cursor.specs.Items.{BeginsWith};
ghost use Rattle.cbor_cursor.specs.WellFormed.{BeginsWithHead, BeginsWithItem, BeginsWithItems, HasNoItem};

use crate::heads::{HeadAt, definite_head};

/// The offset after the item at an offset of any bytes; `None` exactly if no well-formed item of
/// definite lengths begins there and ends within the bytes. It reads each byte at most once, without
/// recursion.
///
/// If an item begins there in its canonical bytes, the offset is the one after that item.
pub fn item_end(bytes: &[u8], offset: usize) -> Option<usize>
    ensures item { (o : KeyOrder) (v : Value) (rest : List ℕ) → BeginsWith o (drop offset bytes.now) v rest
        → MatchOption result ⊥ (λ end. drop end bytes.now ≡ rest) }
    ensures well_formed { MatchOption result (HasNoItem (drop offset bytes.now))
        (λ end. BeginsWithItem (drop offset bytes.now) (drop end bytes.now)) }
    ensures within { IfSome result (λ end. (offset < end) × (end ≤ length bytes.now)) }
{
    end_of(bytes, offset)
}

/// What follows the item that the bytes begin with; `None` exactly if they begin with no well-formed
/// item of definite lengths.
pub fn skip_item(bytes: &[u8]) -> Option<&[u8]>
    ensures item { (o : KeyOrder) (v : Value) (rest : List ℕ) → BeginsWith o bytes.now v rest
        → MatchOption result ⊥ (λ after. after.now ≡ rest) }
    ensures well_formed { MatchOption result (HasNoItem bytes.now) (λ after. BeginsWithItem bytes.now after.now) }
    ensures fewer { IfSome result (λ after. length after.now < length bytes.now) }
{
    let end = end_of(bytes, 0)?;
    Some(&bytes[end..])
}

// The offset after an item.
#[inline(always)]
pub(crate) fn end_of(bytes: &[u8], offset: usize) -> Option<usize>
    ensures item { MatchOption result (HasNoItem (drop offset bytes.now))
        (λ end. (rest : List ℕ) → BeginsWithItem (drop offset bytes.now) rest ↔ (drop end bytes.now ≡ rest)) }
    ensures within { IfSome result (λ end. (offset < end) × (end ≤ length bytes.now)) }
{
    let head = definite_head(bytes, offset)?;
    end_after(bytes, head)
}

// The offset after an item, by its head. Only an item that contains others needs the loop.
#[inline(always)]
pub(crate) fn end_after(bytes: &[u8], head: HeadAt) -> Option<usize>
    requires { head.content ≤ length bytes.now }
    ensures item { (start : List ℕ) → BeginsWithHead start head.kind head.argument (drop head.content bytes.now)
        → MatchOption result (HasNoItem start)
        (λ end. (rest : List ℕ) → BeginsWithItem start rest ↔ (drop end bytes.now ≡ rest)) }
    ensures within { IfSome result (λ end. (head.content ≤ end) × (end ≤ length bytes.now)) }
{
    let step = step_after(bytes, head)?;
    if step.items == 0 {
        return Some(step.end);
    }
    items_end(bytes, step.end, step.items)
}

// The offset after n items. Each item has at least one byte, so a container that promises more items
// than bytes are left is truncated.
pub(crate) fn items_end(bytes: &[u8], offset: usize, count: usize) -> Option<usize>
    requires { offset ≤ length bytes.now }
    ensures items { MatchOption result ((rest : List ℕ) → BeginsWithItems count (drop offset bytes.now) rest → ⊥)
        (λ end. (rest : List ℕ) → BeginsWithItems count (drop offset bytes.now) rest ↔ (drop end bytes.now ≡ rest)) }
    ensures within { IfSome result (λ end. (offset ≤ end) × (end ≤ length bytes.now)) }
{
    let mut end = offset;
    let mut left = count;
    while left > 0 {
        let head = definite_head(bytes, end)?;
        let step = step_after(bytes, head)?;
        end = step.end;
        left -= 1;
        if step.items == 0 {
            continue;
        }
        let space = bytes.len() - end;
        if step.items > space || left > space - step.items {
            return None;
        }
        left += step.items;
    }
    Some(end)
}

// The offset after a head and the payload of a string, and how many items the item contains.
#[derive(Clone, Copy)]
struct Step {
    items: usize,
    end: usize,
}

#[inline(always)]
fn step_after(bytes: &[u8], head: HeadAt) -> Option<Step>
    requires { head.content ≤ length bytes.now }
    ensures item { (start : List ℕ) → BeginsWithHead start head.kind head.argument (drop head.content bytes.now)
        → MatchOption result (HasNoItem start)
        (λ p. (rest : List ℕ) → BeginsWithItem start rest ↔ BeginsWithItems p.items (drop p.end bytes.now) rest) }
    ensures within { IfSome result (λ p. (head.content ≤ p.end) × (p.end ≤ length bytes.now)) }
{
    let number = head.argument;
    let end = head.content;
    let space = (bytes.len() - end) as u64;
    if head.kind < 2 {
        return Some(Step { items: 0, end });
    }
    if head.kind < 4 {
        if number > space {
            return None;
        }
        return Some(Step {
            items: 0,
            end: end + number as usize,
        });
    }
    if head.kind == 4 {
        if number > space {
            return None;
        }
        return Some(Step {
            items: number as usize,
            end,
        });
    }
    if head.kind == 5 {
        if number > space / 2 {
            return None;
        }
        return Some(Step {
            items: 2 * number as usize,
            end,
        });
    }
    if head.kind == 6 {
        return Some(Step { items: 1, end });
    }
    Some(Step { items: 0, end })
}
