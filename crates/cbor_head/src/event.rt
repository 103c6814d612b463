//! What is reported of an item.

use crate::{Simple, Width};

/// What one event reports.
#[derive(Clone, Copy, Debug, PartialEq, Eq)]
pub enum EventKind {
    /// An unsigned integer.
    Unsigned(u64),
    /// A negative integer, by its argument: n means the integer -1 - n.
    Negative(u64),
    /// A simple value.
    Simple(Simple),
    /// The head of a byte string of this number of bytes, or of one of indefinite length.
    Bytes(Option<u64>),
    /// The head of a text string of this number of bytes, or of one of indefinite length.
    Text(Option<u64>),
    /// The head of a chunk of this number of bytes, in a string of indefinite length.
    Chunk(u64),
    /// This number of bytes of a payload, at least one.
    Piece(usize),
    /// The head of an array of this number of items, or of one of indefinite length.
    Array(Option<u64>),
    /// The head of a map of this number of pairs, or of one of indefinite length.
    Map(Option<u64>),
    /// A tag number, whose content follows.
    Tag(u64),
    /// The break, which ends a string, array or map of indefinite length.
    End,
}

/// A head, a part of a payload or a break, and its offset.
#[derive(Clone, Copy, Debug, PartialEq, Eq)]
pub struct Event {
    /// The offset of its first byte, from the item's first byte.
    pub place: u64,
    /// The width of the head; Direct for a piece, Indefinite for what has no argument.
    pub width: Width,
    /// What it reports.
    pub kind: EventKind,
}
