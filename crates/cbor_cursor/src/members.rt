//! The members of an array, one after another.

ghost use Rattle.std.specs.Prelude.{◌≡◌, None, IfSome, MatchOption};
ghost use Rattle.cbor_head.specs.Value.{no_values, a_value, values_count};
ghost use Rattle.cbor_cursor.specs.Decoded.{value_in, members_in};
ghost use Rattle.cbor_cursor.specs.inner.Canonical.{encoded_items, AreCanonical};

use crate::array_members::first_member;
use crate::cursor::Cursor;
use cbor_head::KeyOrder;
use std::marker::Model;

/// The members of an array that are still to come. [`Cursor::members`] makes it.
///
/// Contracts see it as the bytes of these members, their count and the order of keys; `members_in`
/// is their values.
#[derive(Drop)]
pub struct Members<'a> {
    order: KeyOrder,
    rest: &'a [u8],
    left: u64,
}

impl<'a> Model for Members<'a> {
    ghost use Rattle.cbor_cursor.specs.Decoded.{EncodedItems};
    ghost use Rattle.cbor_cursor.specs.inner.Canonical.{encoded_items, AreCanonical};

    ghost Value = { EncodedItems };

    ghost view = { λ m. encoded_items m.order m.rest.now m.left };

    ghost invariant = { λ m. AreCanonical (encoded_items m.order m.rest.now m.left) };
}

impl<'a> Members<'a> {
    pub(crate) fn new(order: KeyOrder, rest: &'a [u8], left: u64) -> Members<'a>
        requires { AreCanonical (encoded_items order rest.now left) }
        ensures { result ≡ encoded_items order rest.now left }
    {
        Members { order, rest, left }
    }

    /// How many members are still to come.
    pub fn count(&self) -> u64
        ensures { result ≡ values_count (members_in self.now) }
    {
        self.left
    }

    /// The next member; `None` after the last one.
    pub fn next(&mut self) -> Option<Cursor<'a>>
        ensures value { MatchOption result
            (members_in self.old ≡ no_values)
            (λ c. members_in self.old ≡ a_value (value_in c) (members_in self.new)) }
        ensures order { IfSome result (λ c. c.order ≡ self.old.order) }
        ensures same_order { self.new.order ≡ self.old.order }
        ensures none { result ≡ None → self.new ≡ self.old }
    {
        let (item, rest) = first_member(self.rest, self.left)?;
        self.rest = rest;
        self.left -= 1;
        Some(Cursor::new(self.order, item))
    }
}
