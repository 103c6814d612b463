//! The limits on one item.

ghost use Rattle.std.specs.Prelude.{◌≡◌, ◌↔◌, ◌≤◌, ◌^◌, IsSome, IfSome};
ghost use Rattle.cbor_head.specs.Limits.{Bounds, bounds, with_keys, AreBounds};

use crate::Keys;
use std::marker::Model;

/// The greatest depth limit: arrays, maps and tags never nest deeper.
pub const MAX_DEPTH: u16 = 1024;

/// The limits on one item: how deep its arrays, maps and tags may nest, from 0 to 1024, how many
/// bytes it may have, from 0 to 2^62, and which kinds of keys its maps may have.
#[derive(Clone, Copy, Debug, PartialEq, Eq)]
pub struct Limits {
    // In this order the fields take two words.
    depth: u16,
    keys: Keys,
    bytes: u64,
}

impl Model for Limits {
    ghost Value = { Bounds };

    ghost view = { λ l. with_keys (bounds l.depth l.bytes) l.keys };

    ghost inverse = { λ b. record { depth = b.depth; bytes = b.bytes; keys = b.keys } };

    ghost invariant = { λ l. AreBounds (bounds l.depth l.bytes) };
}

impl Limits {
    /// Returns the limits, with keys of any kind, or `None` for a depth above 1024 or a byte
    /// limit above 2^62.
    pub fn new(depth: u16, bytes: u64) -> Option<Limits>
        ensures allowed { IsSome result ↔ AreBounds (bounds depth bytes) }
        ensures exact { IsSome result ↔ (depth ≤ 1024) × (bytes ≤ 2 ^ 62) }
        ensures value { IfSome result (λ l. l ≡ bounds depth bytes) }
    {
        if depth <= MAX_DEPTH && bytes <= 1 << 62 {
            Some(Limits {
                depth,
                bytes,
                keys: Keys::Any,
            })
        } else {
            None
        }
    }

    /// Returns these limits for keys of the kinds `keys`.
    pub fn with_keys(self, keys: Keys) -> Limits
        ensures { result ≡ with_keys self keys }
    {
        Limits { keys, ..self }
    }

    /// How deep arrays, maps and tags may nest.
    pub fn depth(self) -> u16
        ensures depth { result ≡ self.depth }
        ensures most { result ≤ MAX_DEPTH }
    {
        self.depth
    }

    /// How many bytes the item may have.
    pub fn bytes(self) -> u64
        ensures bytes { result ≡ self.bytes }
        ensures most { result ≤ 2 ^ 62 }
    {
        self.bytes
    }

    /// Which kinds of keys maps may have.
    pub fn keys(self) -> Keys
        ensures { result ≡ self.keys }
    {
        self.keys
    }
}
