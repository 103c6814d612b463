//! The kinds of map keys.

/// Which kinds of keys the maps of an item may have, at every depth.
#[derive(Clone, Copy, Debug, PartialEq, Eq)]
pub enum Keys {
    /// Every item (RFC 8949, section 3.1).
    Any,
    /// Integers and text strings. A text string may be in chunks.
    IntegersAndTexts,
}
