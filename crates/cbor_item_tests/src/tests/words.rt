//! Items in words: each word is an item, or holds the items before it.
//!
//! `7` is an integer, `n:0` the integer -1 with its argument 0, `s:20` a simple value, `t:ab` a text
//! and `h:0102` a byte string. `a:2` is the array of the two items before, `m:2` the map of the two
//! pairs before, and `c:1` the tag 1 of the item before. `k` is the map from the item before to 0,
//! and `v` the map from 0 to it. `3*k` means `k k k`.

use cbor_head::Simple;
use cbor_item::{Item, Tree};
use std::alloc::Global;
use std::test::Fail;

// `None` means that memory ran out, or that these are not the words of one item.
pub(super) fn item_of(alloc: Global, words: &str) -> Option<Item> {
    let mut items = Vec::new(alloc);
    push_all(alloc, &mut items, words)?;
    items.pop()
}

pub(super) fn tree_of(alloc: Global, words: &str) -> Result<Tree, Fail> {
    match Tree::of(alloc, item_of(alloc, words).ok_or("no item")?) {
        Ok(tree) => Ok(tree),
        Err(_) => Err("no tree")?,
    }
}

// The content of a word is taken from the borrowed list: at each `?` an owner of the list would have
// to prove that it may be dropped there.
fn push_all(alloc: Global, items: &mut Vec<Item>, words: &str) -> Option<()> {
    for word in words.split_whitespace() {
        let (times, word) = word.split_once('*').unwrap_or(("1", word));
        for _ in 0..times.parse::<u32>().ok()? {
            let item = next_item(alloc, items, word)?;
            items.push(item).ok()?;
        }
    }
    Some(())
}

fn next_item(alloc: Global, items: &mut Vec<Item>, word: &str) -> Option<Item> {
    match word {
        "k" => one_pair(alloc, items.pop()?, Item::Unsigned(0)),
        "v" => one_pair(alloc, Item::Unsigned(0), items.pop()?),
        _ => match word.split_once(':') {
            None => Some(Item::Unsigned(word.parse().ok()?)),
            Some(("t", text)) => Some(Item::Text(String::from_str(alloc, text).ok()?)),
            Some(("h", digits)) => Some(Item::Bytes(hex::decode(alloc, digits).ok()?)),
            Some((kind, number)) => numbered(alloc, items, kind, number.parse().ok()?),
        },
    }
}

fn one_pair(alloc: Global, key: Item, value: Item) -> Option<Item> {
    Some(Item::Map(vec![in alloc; (key, value)].ok()?))
}

fn numbered(alloc: Global, items: &mut Vec<Item>, kind: &str, number: u64) -> Option<Item> {
    match kind {
        "n" => Some(Item::Negative(number)),
        "s" => Some(Item::Simple(Simple::new(u8::try_from(number).ok()?)?)),
        "c" => Some(Item::Tag(number, Box::new(alloc, items.pop()?).ok()?)),
        "a" => array_of(alloc, items, number),
        "m" => map_of(alloc, items, number),
        _ => None,
    }
}

fn array_of(alloc: Global, items: &mut Vec<Item>, size: u64) -> Option<Item> {
    let mut members = Vec::new(alloc);
    take_members(items, &mut members, size)?;
    Some(Item::Array(members))
}

fn take_members(items: &mut Vec<Item>, members: &mut Vec<Item>, size: u64) -> Option<()> {
    for _ in 0..size {
        members.push(items.pop()?).ok()?;
    }
    members.reverse();
    Some(())
}

fn map_of(alloc: Global, items: &mut Vec<Item>, size: u64) -> Option<Item> {
    let mut pairs = Vec::new(alloc);
    take_pairs(items, &mut pairs, size)?;
    Some(Item::Map(pairs))
}

fn take_pairs(items: &mut Vec<Item>, pairs: &mut Vec<(Item, Item)>, size: u64) -> Option<()> {
    for _ in 0..size {
        let value = items.pop()?;
        pairs.push((items.pop()?, value)).ok()?;
    }
    pairs.reverse();
    Some(())
}

// The three columns of a row.
pub(crate) fn columns_of(line: &str) -> Result<(&str, &str, &str), Fail> {
    let (first, rest) = line.split_once('|').ok_or("a column")?;
    let (second, rest) = rest.split_once('|').ok_or("a column")?;
    let (third, _) = rest.split_once('|').ok_or("a column")?;
    Ok((first.trim(), second.trim(), third.trim()))
}
