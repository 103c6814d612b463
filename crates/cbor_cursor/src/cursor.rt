//! One item in its canonical bytes.

ghost use Rattle.std.specs.Prelude.{◌⊎◌, ◌≡◌, ◌++◌, ◌↔◌, ℕ, ℤ, List, Some, None, IfOk, IfErr, IfSome, MatchOption, length};
ghost use Rattle.cbor_head.specs.Canonical.{canonical};
ghost use Rattle.cbor_head.specs.Complaint.{strict};
ghost use Rattle.cbor_head.specs.Value.{Value, Values, Entries, IsInRange, IsValid, bytes, text};
ghost use Rattle.cbor_head.specs.Value.{array, map, tag};
ghost use Rattle.cbor_head.specs.Verdict.{IsVerdict, refused};
ghost use Rattle.theory_verdicts.specs.Readers.{BeginsWithCanonical, IsCanonicalPrefix, HasNoCanonicalPrefix};
ghost use Rattle.cbor_cursor.specs.Opening.{IsTrailing};
ghost use Rattle.cbor_cursor.specs.Items.{major_of, argument_of};
ghost use Rattle.cbor_cursor.specs.Decoded.{value_in, members_in, pairs_in, encoded};
ghost use Rattle.cbor_cursor.specs.inner.Canonical.{IsCanonical};
ghost use Rattle.cbor_cursor.specs.Decoded.{count_of};
ghost use Rattle.theory_values.specs.Lookup.{HasValueAt, integer, member_of};

use crate::array_members::member_at;
use crate::contents::{ARRAY, BYTES, MAP, TAG, TEXT, content_in, head_in};
use crate::keys::{integer_head, text_head};
use crate::map_pairs::value_at;
use crate::members::Members;
use crate::pairs::Pairs;
use cbor_head::{KeyOrder, Limits, Major, Refusal};
use cbor_strict::check_canonical;
use std::marker::Model;

/// One item, read from its borrowed canonical bytes.
///
/// Contracts see it as these bytes and the order of the keys in its maps; `value_in` is its value.
#[derive(Drop)]
pub struct Cursor<'a> {
    order: KeyOrder,
    bytes: &'a [u8],
}

impl<'a> Model for Cursor<'a> {
    ghost use Rattle.cbor_cursor.specs.Decoded.{Encoded, encoded};
    ghost use Rattle.cbor_cursor.specs.inner.Canonical.{IsCanonical};

    ghost Value = { Encoded };

    ghost view = { λ c. encoded c.order c.bytes.now };

    ghost invariant = { λ c. IsCanonical (encoded c.order c.bytes.now) };
}

impl<'a> Cursor<'a> {
    /// The item that the bytes begin with, and the bytes after it, if the item is in its canonical
    /// bytes and within the limits. Otherwise fails with the refusal of the strict check.
    pub fn open(
        bytes: &'a [u8],
        limits: Limits,
        order: KeyOrder,
    ) -> Result<(Cursor<'a>, &'a [u8]), Refusal>
        ensures parts { IfOk result (λ r. r.0.bytes ++ r.1.now ≡ bytes.now) }
        ensures order { IfOk result (λ r. r.0.order ≡ order) }
        ensures sound { IfOk result (λ r. IsInRange (value_in r.0) × IsValid (value_in r.0)) }
        ensures canonical { IfOk result (λ r. canonical order (value_in r.0) ≡ r.0.bytes) }
        ensures accepted { IfOk result (λ r. IsCanonicalPrefix limits order bytes.now (length r.0.bytes)) }
        ensures refused { IfErr result (λ f. IsVerdict limits (strict order) bytes.now (refused f)) }
        ensures no_canonical { IfErr result (λ f. HasNoCanonicalPrefix limits order bytes.now) }
    {
        let count = check_canonical(bytes, limits, order)? as usize;
        Ok((Cursor::new(order, &bytes[..count]), &bytes[count..]))
    }

    /// The item, if all of the bytes are its canonical bytes and it is within the limits. Otherwise
    /// fails with the refusal of the strict check, or with `Trailing` at the item's length if a byte
    /// follows the item.
    pub fn open_whole(
        bytes: &'a [u8],
        limits: Limits,
        order: KeyOrder,
    ) -> Result<Cursor<'a>, Refusal>
        ensures whole { IfOk result (λ c. c ≡ encoded order bytes.now) }
        ensures sound { IfOk result (λ c. IsInRange (value_in c) × IsValid (value_in c)) }
        ensures canonical { IfOk result (λ c. canonical order (value_in c) ≡ bytes.now) }
        ensures refused { IfErr result (λ f. IsVerdict limits (strict order) bytes.now (refused f)
            ⊎ IsTrailing limits order bytes.now f) }
        ensures not_whole { IfErr result (λ f. (v : Value) → BeginsWithCanonical limits order bytes.now v
            → canonical order v ≡ bytes.now → ⊥) }
    {
        let (cursor, rest) = Cursor::open(bytes, limits, order)?;
        if !rest.is_empty() {
            return Err(Refusal::trailing(cursor.bytes.len() as u64));
        }
        Ok(cursor)
    }

    pub(crate) fn new(order: KeyOrder, bytes: &'a [u8]) -> Cursor<'a>
        requires { IsCanonical (encoded order bytes.now) }
        ensures { result ≡ encoded order bytes.now }
    {
        Cursor { order, bytes }
    }

    /// The item's canonical bytes.
    pub fn encoded(&self) -> &'a [u8]
        ensures bytes { result.now ≡ self.now.bytes }
        ensures canonical { result.now ≡ canonical self.now.order (value_in self.now) }
    {
        self.bytes
    }

    /// The item's major type.
    pub fn kind(&self) -> Major
        ensures { result ≡ major_of (value_in self.now) }
    {
        Major::of_number(head_in(self.bytes).kind)
    }

    /// The argument of the item's head: the number of an integer, tag or simple value, or how many
    /// bytes, members or pairs it has. A negative integer is -1 minus its argument.
    pub fn argument(&self) -> u64
        ensures { result ≡ argument_of (value_in self.now) }
    {
        head_in(self.bytes).argument
    }

    /// An integer's number, from -2^64 to 2^64 - 1; `None` for other items.
    pub fn integer(&self) -> Option<i128>
        ensures { MatchOption result ((z : ℤ) → value_in self.now ≡ integer z → ⊥)
            (λ z. value_in self.now ≡ integer z) }
    {
        let head = head_in(self.bytes);
        match head.kind {
            0 => Some(head.argument as i128),
            1 => Some(-1 - head.argument as i128),
            _ => None,
        }
    }

    /// A byte string's bytes; `None` for other items.
    pub fn bytes(&self) -> Option<&'a [u8]>
        ensures { MatchOption result ((s : List ℕ) → value_in self.now ≡ bytes s → ⊥)
            (λ s. value_in self.now ≡ bytes s.now) }
    {
        let (content, _) = content_in(self.bytes, BYTES)?;
        Some(content)
    }

    /// A text string's text; `None` for other items.
    pub fn text(&self) -> Option<&'a str>
        ensures { MatchOption result ((s : List ℕ) → value_in self.now ≡ text s → ⊥)
            (λ s. value_in self.now ≡ text s.now) }
    {
        let (content, _) = content_in(self.bytes, TEXT)?;
        // SAFETY: a cursor's item is valid, so its text is UTF-8.
        Some(unsafe { str::from_utf8_unchecked(content) })
    }

    /// How many members an array has, or how many pairs a map has; `None` for other items.
    pub fn count(&self) -> Option<u64>
        ensures { MatchOption result (count_of (value_in self.now) ≡ None)
            (λ n. count_of (value_in self.now) ≡ Some n) }
    {
        let head = head_in(self.bytes);
        if head.kind == ARRAY || head.kind == MAP {
            Some(head.argument)
        } else {
            None
        }
    }

    /// A tag's number and its content; `None` for other items.
    pub fn tag(&self) -> Option<(u64, Cursor<'a>)>
        ensures content { MatchOption result ((n : ℕ) (v : Value) → value_in self.now ≡ tag n v → ⊥)
            (λ t. value_in self.now ≡ tag t.0 (value_in t.1)) }
        ensures order { IfSome result (λ t. t.1.order ≡ self.now.order) }
    {
        let (content, number) = content_in(self.bytes, TAG)?;
        Some((number, Cursor::new(self.order, content)))
    }

    /// An array's members, one after another; `None` for other items.
    pub fn members(&self) -> Option<Members<'a>>
        ensures values { MatchOption result ((vs : Values) → value_in self.now ≡ array vs → ⊥)
            (λ m. value_in self.now ≡ array (members_in m)) }
        ensures order { IfSome result (λ m. m.order ≡ self.now.order) }
    {
        let (content, count) = content_in(self.bytes, ARRAY)?;
        Some(Members::new(self.order, content, count))
    }

    /// A map's pairs, one after another, in the order of the bytes; `None` for other items.
    pub fn pairs(&self) -> Option<Pairs<'a>>
        ensures pairs { MatchOption result ((es : Entries) → value_in self.now ≡ map es → ⊥)
            (λ p. value_in self.now ≡ map (pairs_in p)) }
        ensures order { IfSome result (λ p. p.order ≡ self.now.order) }
    {
        let (content, count) = content_in(self.bytes, MAP)?;
        Some(Pairs::new(self.order, content, count))
    }

    /// An array's member at an index, from 0 on; `None` if there is no such member, or no array.
    pub fn at(&self, index: u64) -> Option<Cursor<'a>>
        ensures member { MatchOption result (member_of (value_in self.now) index ≡ None)
            (λ c. member_of (value_in self.now) index ≡ Some (value_in c)) }
        ensures order { IfSome result (λ c. c.order ≡ self.now.order) }
    {
        let item = member_at(self.bytes, index)?;
        Some(Cursor::new(self.order, item))
    }

    /// A map's value at a key, which is given by its canonical bytes in the cursor's order; `None`
    /// if the map has no such key, if the bytes are not canonical, or if the item is not a map.
    pub fn get(&self, key: &[u8]) -> Option<Cursor<'a>>
        ensures value { (k : Value) → IsInRange k → IsValid k → key.now ≡ canonical self.now.order k
            → MatchOption result ((v : Value) → HasValueAt (value_in self.now) k v → ⊥)
            (λ c. HasValueAt (value_in self.now) k (value_in c)) }
        ensures no_key { ((k : Value) → IsInRange k → IsValid k → key.now ≡ canonical self.now.order k → ⊥)
            → result ≡ None }
        ensures order { IfSome result (λ c. c.order ≡ self.now.order) }
    {
        let item = value_at(self.bytes, key, &[])?;
        Some(Cursor::new(self.order, item))
    }

    /// A map's value at a text; `None` if the map has no such key, or the item is not a map.
    pub fn get_text(&self, key: &str) -> Option<Cursor<'a>>
        ensures value { MatchOption result ((v : Value) → HasValueAt (value_in self.now) (text key.now) v → ⊥)
            (λ c. HasValueAt (value_in self.now) (text key.now) (value_in c)) }
        ensures order { IfSome result (λ c. c.order ≡ self.now.order) }
    {
        let head = text_head(key);
        let item = value_at(self.bytes, head.as_slice(), key.as_bytes())?;
        Some(Cursor::new(self.order, item))
    }

    /// A map's value at an integer; `None` if the map has no such key, or the item is not a map.
    pub fn get_integer(&self, key: i64) -> Option<Cursor<'a>>
        ensures value { MatchOption result ((v : Value) → HasValueAt (value_in self.now) (integer key) v → ⊥)
            (λ c. HasValueAt (value_in self.now) (integer key) (value_in c)) }
        ensures order { IfSome result (λ c. c.order ≡ self.now.order) }
    {
        let head = integer_head(key);
        let item = value_at(self.bytes, head.as_slice(), &[])?;
        Some(Cursor::new(self.order, item))
    }
}
