//! Where a repeated key was found.

/// A key of an open map that is equal to an earlier key of it.
#[derive(Clone, Copy, Debug, PartialEq, Eq)]
pub struct Repeat {
    /// The number of open maps around its map.
    pub outside: usize,
    /// The number of the key's pair in its map, from 0, in the order
    /// in which the pairs arrived.
    pub pair: usize,
}
