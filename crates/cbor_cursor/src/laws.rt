//! The laws that connect values, their canonical bytes and what this crate returns for them. These
//! functions have no code to run: their purpose is their contracts.

ghost use Rattle.std.specs.Prelude.{◌≡◌, ◌<◌, ◌+◌, slice_get, ℕ, List, length, take, drop, IfSome, MatchOption, Option, Some, None};
ghost use Rattle.cbor_head.specs.Canonical.{canonical};
ghost use Rattle.cbor_head.specs.Limits.{Bounds};
ghost use Rattle.cbor_head.specs.Value.{Value, Same, IsInRange, IsValid};
ghost use Rattle.cbor_head.specs.declared.order.KeyOrder.{KeyOrder};
ghost use Rattle.theory_verdicts.specs.Readers.{BeginsWithCanonical, IsCanonicalPrefix, HasNoCanonicalPrefix};
ghost use Rattle.cbor_head.specs.Spelling.{Spelling, value_of};
ghost use Rattle.cbor_cursor.specs.Index.{table, IsCanonicalItem};
ghost use Rattle.cbor_cursor.specs.Items.{BeginsWith};
ghost use Rattle.cbor_cursor.specs.Offsets.{IsItemAt, IsWithin, offsets_of};
ghost use Rattle.cbor_cursor.specs.WellFormed.{members_of};
ghost use Rattle.cbor_cursor.specs.declared.items.ItemAt.{ItemAt};
ghost use Rattle.cbor_cursor.specs.declared.placed.PlacedItem.{PlacedItem};
ghost use Rattle.cbor_cursor.specs.Decoded.{value_in, encoded};
ghost use Rattle.theory_values.specs.Lookup.{HasValueAt, member_of};

/// What the strict check accepts, `Cursor::open` accepts, with the same number of bytes: it fails only
/// if no canonical item begins there. The cursor's value is then the value of these bytes.
pub fn checked_bytes_are_opened()
    ensures accepted { (limits : Bounds) (o : KeyOrder) (input : List ℕ) (count : ℕ)
        → IsCanonicalPrefix limits o input count → ¬ HasNoCanonicalPrefix limits o input }
    ensures count { (limits : Bounds) (o : KeyOrder) (input : List ℕ) (m n : ℕ)
        → IsCanonicalPrefix limits o input m → IsCanonicalPrefix limits o input n → m ≡ n }
    ensures value { (limits : Bounds) (o : KeyOrder) (input : List ℕ) (v : Value)
        → BeginsWithCanonical limits o input v
        → Same v (value_in (encoded o (take (length (canonical o v)) input))) }
{}

/// The canonical bytes of a value, opened by a cursor, give the same value.
pub fn encoded_values_are_read_back()
    ensures { (o : KeyOrder) (v : Value) → IsInRange v → Same v (value_in (encoded o (canonical o v))) }
{}

/// Two arrays of the same value have the same members at the same indices, and two maps of the same
/// value have the same values at the same keys.
pub fn same_values_have_the_same_parts()
    ensures members { (v w : Value) (i : ℕ) → Same v w → MatchOption (member_of v i)
        (member_of w i ≡ None) (λ x. (y : Value) × (member_of w i ≡ Some y) × Same x y) }
    ensures keys { (v w k x : Value) → Same v w → HasValueAt v k x → (y : Value) × HasValueAt w k y × Same x y }
{}

/// In the table of a valid item, each entry is the item that `item_at` returns at its offset, except for
/// `entries`. The first item directly inside it has the next entry, and begins at `content`. The entry
/// `entries` places later begins at `end`: it is the next sibling, if there is one.
pub fn entries_lead_to_items()
    ensures item { (o : KeyOrder) (s : Spelling) (bytes : List ℕ) (i : ℕ) (x : PlacedItem)
        → IsCanonicalItem o s bytes → IsValid (value_of s) → slice_get (table 0 s) i ≡ Some x
        → (v : Value) × (rest : List ℕ) × IsItemAt o bytes v rest (offsets_of x) }
    ensures within { (o : KeyOrder) (s : Spelling) (bytes : List ℕ) (i : ℕ) (x : PlacedItem)
        → IsCanonicalItem o s bytes → IsValid (value_of s) → slice_get (table 0 s) i ≡ Some x
        → IsWithin bytes (offsets_of x) }
    // Each result that meets the clauses `item`, `offset` and `within` of `item_at` is this item.
    ensures returned { (o : KeyOrder) (s : Spelling) (bytes : List ℕ) (i : ℕ) (x : PlacedItem) (r : Option ItemAt)
        → IsCanonicalItem o s bytes → IsValid (value_of s) → slice_get (table 0 s) i ≡ Some x
        → ((v : Value) (rest : List ℕ) → BeginsWith o (drop x.offset bytes) v rest
        → MatchOption r ⊥ (λ j. IsItemAt o bytes v rest j))
        → IfSome r (λ j. j.offset ≡ x.offset) → IfSome r (λ j. IsWithin bytes j)
        → r ≡ Some (offsets_of x) }
    ensures first { (o : KeyOrder) (s : Spelling) (bytes : List ℕ) (i : ℕ) (x : PlacedItem)
        → IsCanonicalItem o s bytes → IsValid (value_of s) → slice_get (table 0 s) i ≡ Some x
        → 0 < members_of x.kind x.number
        → (y : PlacedItem) × (slice_get (table 0 s) (i + 1) ≡ Some y) × (y.offset ≡ x.content) }
    ensures next { (o : KeyOrder) (s : Spelling) (bytes : List ℕ) (i : ℕ) (x : PlacedItem)
        → IsCanonicalItem o s bytes → IsValid (value_of s) → slice_get (table 0 s) i ≡ Some x
        → MatchOption (slice_get (table 0 s) (i + x.entries)) (x.end ≡ length bytes) (λ y. y.offset ≡ x.end) }
{}
