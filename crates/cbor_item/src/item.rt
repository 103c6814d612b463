//! Data items.

use cbor_head::Simple;

/// A data item (RFC 8949, sections 3.1 and 3.3).
#[derive(Drop)]
pub enum Item {
    /// The number itself.
    Unsigned(u64),
    /// -1 minus the number.
    Negative(u64),
    /// A byte string.
    Bytes(Vec<u8>),
    /// A text.
    Text(String),
    /// The members, in their order.
    Array(Vec<Item>),
    /// The pairs of a key and its value, in any order.
    Map(Vec<(Item, Item)>),
    /// A tag's number and its content.
    Tag(u64, Box<Item>),
    /// `false`, `true`, `null`, `undefined` and the other simple values.
    Simple(Simple),
}
