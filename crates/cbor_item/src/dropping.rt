//! Items dropped without recursion.

ghost use Rattle.std.specs.Prelude.{◌+◌, ◌≡◌, ◌<◌, ◌≤◌, ◌↔◌, IsTrue, MatchResult};
ghost use Rattle.cbor_item.specs.inner.Containers.{containers, containers_in, containers_in_pairs};

use crate::item::Item;
use std::mem;

// Takes the place of a container that was moved out.
const NONE: Item = Item::Unsigned(0);

/// Drops an item, however deep it nests, in one loop and without allocating. The container that
/// is taken apart is moved out of the one around it; what is around that is stored in its slot.
pub(crate) fn drop_deep(item: Item) {
    let mut inner = item;
    let mut outer = NONE;
    'items: while is_container(&inner) {
        match exchange(&mut inner, outer) {
            Ok(held) => {
                outer = inner;
                inner = held;
            }
            Err(around) => {
                inner = around;
                outer = exchange(&mut inner, NONE).unwrap_or(NONE);
            }
        }
    }
}

fn is_container(item: &Item) -> bool
    ensures { IsTrue result ↔ (0 < containers item.now) }
{
    matches!(item, Item::Array(_) | Item::Map(_) | Item::Tag(..))
}

// Takes out the last container that it holds, and stores the other in its slot. The members after
// it are dropped. If it holds no container, returns the other itself.
fn exchange(item: &mut Item, other: Item) -> Result<Item, Item>
    ensures { MatchResult result
        (λ held. (containers held < containers item.old)
        × (containers item.new + containers held ≡ containers item.old + containers other))
        (λ back. (back ≡ other) × (containers item.new ≡ containers item.old)
        × (containers item.old ≤ 1)) }
{
    match item {
        Item::Array(items) => exchange_member(items, other),
        Item::Map(pairs) => exchange_in_pair(pairs, other),
        Item::Tag(_, content) => exchange_content(content, other),
        _ => Err(other),
    }
}

fn exchange_member(items: &mut Vec<Item>, other: Item) -> Result<Item, Item>
    ensures { MatchResult result
        (λ held. (containers held ≤ containers_in items.old.items)
        × (containers_in items.new.items + containers held
        ≡ containers_in items.old.items + containers other))
        (λ back. (back ≡ other) × (containers_in items.new.items ≡ 0)
        × (containers_in items.old.items ≡ 0)) }
{
    'items: while let Some(last) = items.pop() {
        if is_container(&last) {
            items.push_reserved(other);
            return Ok(last);
        }
    }
    Err(other)
}

fn exchange_in_pair(pairs: &mut Vec<(Item, Item)>, other: Item) -> Result<Item, Item>
    ensures { MatchResult result
        (λ held. (containers held ≤ containers_in_pairs pairs.old.items)
        × (containers_in_pairs pairs.new.items + containers held
        ≡ containers_in_pairs pairs.old.items + containers other))
        (λ back. (back ≡ other) × (containers_in_pairs pairs.new.items ≡ 0)
        × (containers_in_pairs pairs.old.items ≡ 0)) }
{
    'pairs: while let Some((key, value)) = pairs.pop() {
        if is_container(&value) {
            pairs.push_reserved((key, other));
            return Ok(value);
        }
        if is_container(&key) {
            pairs.push_reserved((other, value));
            return Ok(key);
        }
    }
    Err(other)
}

fn exchange_content(content: &mut Box<Item>, other: Item) -> Result<Item, Item>
    ensures { MatchResult result
        (λ held. (held ≡ content.old.value) × (content.new.value ≡ other))
        (λ back. (back ≡ other) × (content.new ≡ content.old)
        × (containers content.new.value ≡ 0)) }
{
    if is_container(content) {
        Ok(mem::replace(&mut **content, other))
    } else {
        Err(other)
    }
}
