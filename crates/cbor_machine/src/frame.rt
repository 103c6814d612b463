//! The containers that are open.

use cbor_head::MAX_DEPTH;

/// The number of containers that can be open: the greatest depth limit.
pub const MOST_OPEN: usize = MAX_DEPTH as usize;

/// An open container, and what follows in it after the member that is expected.
#[derive(Clone, Copy, Default)]
pub enum Frame {
    /// This number of members.
    Array(u64),
    /// Any number of members.
    #[default]
    IndefiniteArray,
    /// This number of pairs after the expected one, and whether that pair's value is expected.
    ///
    /// The members are never counted one by one, because twice the number of pairs may not fit.
    Map(u64, bool),
    /// Any number of pairs after the expected one, and whether that pair's value is expected.
    IndefiniteMap(bool),
    /// Nothing: a tag has one content item.
    Tag,
}
