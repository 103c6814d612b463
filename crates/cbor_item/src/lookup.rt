//! Members by their index, and values by their keys.

ghost use Rattle.std.specs.Prelude.{◌≡◌, ◌↔◌, IsTrue, MatchOption, option_map};
ghost use Rattle.cbor_head.specs.Value.{Value, IsValid, text};
ghost use Rattle.theory_values.specs.Lookup.{HasValueAt, integer, member_of};
ghost use Rattle.cbor_item.specs.ViewValue.{view_value};

use crate::view::View;

impl<'a> View<'a> {
    /// The member of an array at an index. `None` past its end, and if the item is not an array.
    pub fn member(&self, index: usize) -> Option<&'a View<'a>>
        ensures { option_map (λ v. view_value v.now) result ≡ member_of (view_value self.now) index }
    {
        match self {
            View::Array(members) => members.get(index),
            _ => None,
        }
    }

    /// The value of the map's pair with the same key. `None` if there is none, or if the item is not a
    /// map. It compares one pair after another, as the two calls below do.
    pub fn get(&self, key: &View<'_>) -> Option<&'a View<'a>>
        requires map { IsValid (view_value self.now) }
        requires key { IsValid (view_value key.now) }
        ensures { MatchOption result
            ((v : Value) → HasValueAt (view_value self.now) (view_value key.now) v → ⊥)
            (λ v. HasValueAt (view_value self.now) (view_value key.now) (view_value v.now)) }
    {
        let View::Map(pairs) = self else {
            return None;
        };
        for (found, value) in *pairs {
            if found.same(key) {
                return Some(value);
            }
        }
        None
    }

    /// The value of the map's pair whose key is this text, as `get`.
    pub fn get_text(&self, key: &str) -> Option<&'a View<'a>>
        ensures { MatchOption result
            ((v : Value) → HasValueAt (view_value self.now) (text key.now) v → ⊥)
            (λ v. HasValueAt (view_value self.now) (text key.now) (view_value v.now)) }
    {
        let View::Map(pairs) = self else {
            return None;
        };
        for (found, value) in *pairs {
            if found.is_text(key) {
                return Some(value);
            }
        }
        None
    }

    /// The value of the map's pair whose key is this integer, as `get`.
    pub fn get_integer(&self, key: i64) -> Option<&'a View<'a>>
        ensures { MatchOption result
            ((v : Value) → HasValueAt (view_value self.now) (integer key) v → ⊥)
            (λ v. HasValueAt (view_value self.now) (integer key) (view_value v.now)) }
    {
        let View::Map(pairs) = self else {
            return None;
        };
        for (found, value) in *pairs {
            if found.is_integer(key) {
                return Some(value);
            }
        }
        None
    }

    // Whether it is this text.
    fn is_text(&self, content: &str) -> bool
        ensures { IsTrue result ↔ (view_value self.now ≡ text content.now) }
    {
        match self {
            View::Text(text) => text.as_bytes() == content.as_bytes(),
            _ => false,
        }
    }

    // Whether it is this integer.
    fn is_integer(&self, number: i64) -> bool
        ensures { IsTrue result ↔ (view_value self.now ≡ integer number) }
    {
        match self {
            View::Unsigned(n) => number >= 0 && *n == number as u64,
            View::Negative(n) => number < 0 && *n == (-1 - number) as u64,
            _ => false,
        }
    }
}
