//! The kind of a view, and what it holds.

ghost use Rattle.std.specs.Prelude.{◌≡◌, ◌≢◌, ◌↔◌, ◌≤ℤ◌, ℕ, ℤ, List, Bool, IsTrue};
ghost use Rattle.std.specs.Prelude.{MatchOption};
ghost use Rattle.cbor_head.specs.Value.{Value, Values, Entries, unsigned, negative, bytes, text};
ghost use Rattle.cbor_head.specs.Value.{array, map, tag, simple};
ghost use Rattle.theory_values.specs.Lists.{values_of, entries_of};
ghost use Rattle.cbor_item.specs.Kinds.{boolean};
ghost use Rattle.theory_values.specs.Lookup.{integer};
ghost use Rattle.cbor_item.specs.ViewValue.{view_value, view_values, view_pairs};

use crate::view::View;

// The greatest number of an `i64`.
const MOST: u64 = 0x7fff_ffff_ffff_ffff;

impl<'a> View<'a> {
    /// The number of an unsigned integer.
    pub fn as_u64(&self) -> Option<u64>
        ensures { MatchOption result ((n : ℕ) → view_value self.now ≢ unsigned n)
            (λ n. view_value self.now ≡ unsigned n) }
    {
        match self {
            View::Unsigned(number) => Some(*number),
            _ => None,
        }
    }

    /// The number n of the negative integer -1 - n.
    pub fn as_negative(&self) -> Option<u64>
        ensures { MatchOption result ((n : ℕ) → view_value self.now ≢ negative n)
            (λ n. view_value self.now ≡ negative n) }
    {
        match self {
            View::Negative(number) => Some(*number),
            _ => None,
        }
    }

    /// The number of an integer of either sign, if an `i64` can hold it.
    pub fn as_i64(&self) -> Option<i64>
        ensures { MatchOption result
            ((z : ℤ) → i64.MIN ≤ℤ z → z ≤ℤ i64.MAX → view_value self.now ≢ integer z)
            (λ z. view_value self.now ≡ integer z) }
    {
        match self {
            View::Unsigned(number) if *number <= MOST => Some(*number as i64),
            View::Negative(number) if *number <= MOST => Some(-1 - *number as i64),
            _ => None,
        }
    }

    /// The bytes of a byte string.
    pub fn as_bytes(&self) -> Option<&'a [u8]>
        ensures { MatchOption result ((s : List ℕ) → view_value self.now ≢ bytes s)
            (λ s. view_value self.now ≡ bytes s.now) }
    {
        match self {
            View::Bytes(content) => Some(content),
            _ => None,
        }
    }

    /// The text of a text string.
    pub fn as_text(&self) -> Option<&'a str>
        ensures { MatchOption result ((s : List ℕ) → view_value self.now ≢ text s)
            (λ s. view_value self.now ≡ text s.now) }
    {
        match self {
            View::Text(content) => Some(content),
            _ => None,
        }
    }

    /// The members of an array, in their order.
    pub fn as_array(&self) -> Option<&'a [View<'a>]>
        ensures { MatchOption result ((vs : Values) → view_value self.now ≢ array vs)
            (λ members. view_value self.now ≡ array (values_of (view_values members.now))) }
    {
        match self {
            View::Array(members) => Some(members),
            _ => None,
        }
    }

    /// The pairs of a map, each a key and its value, in the order of the input.
    pub fn as_map(&self) -> Option<&'a [(View<'a>, View<'a>)]>
        ensures { MatchOption result ((es : Entries) → view_value self.now ≢ map es)
            (λ pairs. view_value self.now ≡ map (entries_of (view_pairs pairs.now))) }
    {
        match self {
            View::Map(pairs) => Some(pairs),
            _ => None,
        }
    }

    /// The number and the content of a tag.
    pub fn as_tag(&self) -> Option<(u64, &'a View<'a>)>
        ensures { MatchOption result ((n : ℕ) (v : Value) → view_value self.now ≢ tag n v)
            (λ t. view_value self.now ≡ tag t.0 (view_value t.1.now)) }
    {
        match self {
            View::Tag(number, content) => Some((*number, content)),
            _ => None,
        }
    }

    /// The number of a simple value.
    pub fn as_simple(&self) -> Option<u8>
        ensures { MatchOption result ((n : ℕ) → view_value self.now ≢ simple n)
            (λ n. view_value self.now ≡ simple n) }
    {
        match self {
            View::Simple(number) => Some(*number),
            _ => None,
        }
    }

    /// The value of `true` or `false` (RFC 8949, section 3.3).
    pub fn as_bool(&self) -> Option<bool>
        ensures { MatchOption result ((b : Bool) → view_value self.now ≢ boolean b)
            (λ b. view_value self.now ≡ boolean b) }
    {
        match self {
            View::Simple(20) => Some(false),
            View::Simple(21) => Some(true),
            _ => None,
        }
    }

    /// Whether it is `null`.
    pub fn is_null(&self) -> bool
        ensures { IsTrue result ↔ (view_value self.now ≡ simple 22) }
    {
        matches!(self, View::Simple(22))
    }

    /// Whether it is `undefined`.
    pub fn is_undefined(&self) -> bool
        ensures { IsTrue result ↔ (view_value self.now ≡ simple 23) }
    {
        matches!(self, View::Simple(23))
    }
}
