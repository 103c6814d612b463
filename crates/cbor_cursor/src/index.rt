//! A table of one item and all items inside it, in the order of their first bytes.
//!
//! ```text
//! 82 18 64 a1 00 f5        [100, {0: true}]
//!
//! entry  kind  number  offset  content  end  entries
//!     0     4       2       0        1    6        5
//!     1     0     100       1        3    3        1
//!     2     5       1       3        4    6        3
//!     3     0       0       4        5    5        1
//!     4     7      21       5        6    6        1
//! ```
//!
//! One pass over the bytes writes the heads. A second one, over the entries from the last to the
//! first, sets where arrays, maps and tags end: the entries of the items inside are complete by then.

ghost use Rattle.std.specs.Prelude.{◌≡◌, ◌<◌, ◌≤◌, ◌+◌, ◌^◌, ◌++◌, ℕ, List, length, take, drop, slice_set};
ghost use Rattle.cbor_head.specs.Spelling.{Spelling, spell};
ghost use Rattle.cbor_head.specs.declared.order.KeyOrder.{KeyOrder};
ghost use Rattle.cbor_cursor.specs.Index.{table, items_count, IsCanonicalItem};
ghost use Rattle.cbor_cursor.specs.WellFormed.{BeginsWithHead, payload_of, members_of};
ghost use Rattle.cbor_cursor.specs.inner.Definite.{IsDefinite};
ghost use Rattle.cbor_cursor.specs.inner.Indexing.{closed, closed_item, opened_item, opened_table, IsDefiniteItem};

use crate::heads::{HeadAt, definite_head};
use crate::placed::PlacedItem;

/// The greatest number of entries that a table has, since `entries` has 32 bits.
pub const MAX_ENTRIES: usize = 0xffff_ffff;

/// Writes the table of an item to the start of `items`, and returns the number of its entries. All of
/// the bytes must be the item, in its canonical form.
///
/// If the table has more entries than `items`, or more than `MAX_ENTRIES`, `items` then holds no
/// table.
pub fn fill_table(bytes: &[u8], items: &mut [PlacedItem]) -> usize
    requires { (o : KeyOrder) × (s : Spelling) × IsCanonicalItem o s bytes.now }
    ensures table { (o : KeyOrder) (s : Spelling) → IsCanonicalItem o s bytes.now
        → (result ≡ length (table 0 s))
        × (result ≤ length items.old → result < 2 ^ 32 → take result items.new ≡ table 0 s) }
    ensures kept { drop result items.new ≡ drop result items.old }
{
    let count = open_items(bytes, items);
    let space = items.len().min(MAX_ENTRIES);
    if count <= space {
        close_items(&mut items[..count]);
    }
    count
}

// Writes an entry for each head. That of an array, map or tag with items inside has no end yet.
fn open_items(bytes: &[u8], items: &mut [PlacedItem]) -> usize
    requires { IsDefiniteItem bytes.now }
    ensures opened { (s : Spelling) → IsDefinite s → bytes.now ≡ spell s → (result ≡ items_count s)
        × (result ≤ length items.old → take result items.new ≡ opened_table 0 s) }
    ensures kept { drop result items.new ≡ drop result items.old }
{
    let mut offset = 0;
    let mut count = 0;
    while offset < bytes.len() {
        let head = head_there(bytes, offset);
        let step = step_of(head);
        put(items, count, opened(head, offset, step));
        count += 1;
        offset = step.end;
    }
    count
}

// The head at an offset at which one begins.
#[inline(always)]
fn head_there(bytes: &[u8], offset: usize) -> HeadAt
    requires { (kind : ℕ) × (argument : ℕ) × (content : List ℕ) × BeginsWithHead (drop offset bytes.now) kind argument content }
    ensures head { BeginsWithHead (drop offset bytes.now) result.kind result.argument (drop result.content bytes.now) }
    ensures within { (offset < result.content) × (result.content ≤ length bytes.now) }
{
    match definite_head(bytes, offset) {
        Some(head) => head,
        None => unreachable!(),
    }
}

// Writes an entry, if there is space for it.
#[inline(always)]
fn put(items: &mut [PlacedItem], at: usize, item: PlacedItem)
    ensures written { at < length items.old → items.new ≡ slice_set items.old at item }
    ensures full { length items.old ≤ at → items.new ≡ items.old }
{
    if at < items.len() {
        items[at] = item;
    }
}

// The offset after a head, or after the payload of a string, and the number of items that follow there
// and are directly inside the item.
#[derive(Clone, Copy)]
struct Step {
    end: usize,
    members: usize,
}

#[inline(always)]
fn step_of(head: HeadAt) -> Step
    requires { head.content + payload_of head.kind head.argument + members_of head.kind head.argument < 2 ^ 64 }
    ensures end { result.end ≡ head.content + payload_of head.kind head.argument }
    ensures members { result.members ≡ members_of head.kind head.argument }
{
    let number = head.argument as usize;
    let (payload, members) = match head.kind {
        2 | 3 => (number, 0),
        4 => (0, number),
        5 => (0, 2 * number),
        6 => (0, 1),
        _ => (0, 0),
    };
    Step {
        end: head.content + payload,
        members,
    }
}

// A new entry. If there are items inside, its end is not known yet: `end` then holds their number, and
// `entries` is 0.
#[inline(always)]
fn opened(head: HeadAt, offset: usize, step: Step) -> PlacedItem
    ensures { result ≡ opened_item head.kind head.argument offset head.content step.end step.members }
{
    let (end, entries) = if step.members == 0 {
        (step.end, 1)
    } else {
        (step.members, 0)
    };
    PlacedItem {
        number: head.argument,
        offset: offset as u64,
        content: head.content as u64,
        end: end as u64,
        kind: u32::from(head.kind),
        entries,
    }
}

// Sets the end of each entry that has none yet, from the last to the first.
fn close_items(items: &mut [PlacedItem])
    requires { length items.old ≤ MAX_ENTRIES }
    ensures { items.new ≡ closed items.old }
{
    let mut i = items.len();
    while i > 0 {
        i -= 1;
        if items[i].entries == 0 {
            items[i] = close(items[i], &items[i + 1..]);
        }
    }
}

// The entry with its end: the end of the last item inside it. The entries after it are complete.
#[inline(always)]
fn close(item: PlacedItem, later: &[PlacedItem]) -> PlacedItem
    requires { length later.now < MAX_ENTRIES }
    ensures { result ≡ closed_item item later.now }
{
    let mut left = item.end;
    let mut end = item.content;
    let mut next = 0;
    while left > 0 && next < later.len() {
        let member = later[next];
        end = member.end;
        next += member.entries as usize;
        left -= 1;
    }
    if next > later.len() {
        return item;
    }
    PlacedItem {
        end,
        entries: next as u32 + 1,
        ..item
    }
}
