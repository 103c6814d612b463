//! The pairs of a map, one after another.

ghost use Rattle.std.specs.Prelude.{◌≡◌, None, IfSome, MatchOption};
ghost use Rattle.cbor_head.specs.Value.{no_entries, entry, entries_count};
ghost use Rattle.cbor_cursor.specs.Decoded.{value_in, pairs_in};
ghost use Rattle.cbor_cursor.specs.inner.Canonical.{encoded_items, AreCanonicalPairs};

use crate::cursor::Cursor;
use crate::map_pairs::first_pair;
use cbor_head::KeyOrder;
use std::marker::Model;

/// The pairs of a map that are still to come. [`Cursor::pairs`] makes it.
///
/// Contracts see it as the bytes of these pairs, their count and the order of keys; `pairs_in` is
/// their keys and values.
#[derive(Drop)]
pub struct Pairs<'a> {
    order: KeyOrder,
    rest: &'a [u8],
    left: u64,
}

impl<'a> Model for Pairs<'a> {
    ghost use Rattle.cbor_cursor.specs.Decoded.{EncodedItems};
    ghost use Rattle.cbor_cursor.specs.inner.Canonical.{encoded_items, AreCanonicalPairs};

    ghost Value = { EncodedItems };

    ghost view = { λ p. encoded_items p.order p.rest.now p.left };

    ghost invariant = { λ p. AreCanonicalPairs (encoded_items p.order p.rest.now p.left) };
}

impl<'a> Pairs<'a> {
    pub(crate) fn new(order: KeyOrder, rest: &'a [u8], left: u64) -> Pairs<'a>
        requires { AreCanonicalPairs (encoded_items order rest.now left) }
        ensures { result ≡ encoded_items order rest.now left }
    {
        Pairs { order, rest, left }
    }

    /// How many pairs are still to come.
    pub fn count(&self) -> u64
        ensures { result ≡ entries_count (pairs_in self.now) }
    {
        self.left
    }

    /// The next key and its value, in the order of the bytes; `None` after the last pair.
    pub fn next(&mut self) -> Option<(Cursor<'a>, Cursor<'a>)>
        ensures value { MatchOption result
            (pairs_in self.old ≡ no_entries)
            (λ p. pairs_in self.old ≡ entry (value_in p.0) (value_in p.1) (pairs_in self.new)) }
        ensures order { IfSome result (λ p. (p.0.order ≡ self.old.order) × (p.1.order ≡ self.old.order)) }
        ensures same_order { self.new.order ≡ self.old.order }
        ensures none { result ≡ None → self.new ≡ self.old }
    {
        let (key, value, rest) = first_pair(self.rest, self.left)?;
        self.rest = rest;
        self.left -= 1;
        Some((Cursor::new(self.order, key), Cursor::new(self.order, value)))
    }
}
