//! The orders of map keys.

/// The order in which a deterministic encoding has the keys of a map.
#[derive(Clone, Copy, Debug, PartialEq, Eq)]
pub enum KeyOrder {
    /// Lexicographic on the encoded keys (RFC 8949, section 4.2.1).
    Bytewise,
    /// The shorter encoded key first; keys of equal length as in `Bytewise` (RFC 8949, section
    /// 4.2.3).
    LengthFirst,
}
