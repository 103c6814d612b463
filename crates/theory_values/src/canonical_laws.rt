//! The laws of sameness and of canonical bytes. These functions have no code to run: the contracts
//! are the laws.

ghost use Rattle.std.specs.Prelude.{◌≡◌, ◌++◌, ◌↔◌, ℕ, List, [], Contains, IsPermutation};
ghost use Rattle.cbor_head.specs.Value.{Value, Entries, Same, IsInRange, IsValid};
ghost use Rattle.cbor_head.specs.Value.{AreEntriesInRange, HasDistinctKeys};
ghost use Rattle.cbor_head.specs.Value as value;
ghost use Rattle.cbor_head.specs.Spelling.{Spelling, IsSpelled, spell, value_of, depth};
ghost use Rattle.cbor_head.specs.Canonical.{Pair, canonical, canonical_entries, in_order};
ghost use Rattle.cbor_head.specs.Complaint.{strict, Complaint, Complains};
ghost use Rattle.cbor_head.specs.declared.order.KeyOrder.{KeyOrder};
ghost use Rattle.theory_values.specs.CanonicalSpelling.{IsCanonicalSpelling};
ghost use Rattle.theory_values.specs.Pairs.{IsRising};

/// Sameness is an equivalence.
pub fn sameness_is_an_equivalence()
    ensures reflexive { (v : Value) → Same v v }
    ensures symmetric { (v w : Value) → Same v w → Same w v }
    ensures transitive { (v w u : Value) → Same v w → Same w u → Same v u }
{}

/// Values are the same exactly if their canonical bytes are equal, in either order.
pub fn same_where_bytes_are_equal()
    ensures { (o : KeyOrder) (v w : Value) → IsInRange v → IsValid v → IsInRange w → IsValid w
        → Same v w ↔ (canonical o v ≡ canonical o w) }
{}

/// Canonical bytes determine their value and where they end, whatever follows them and in any
/// combination of orders. So no value's canonical bytes are a proper prefix of another's. This
/// holds with repeated keys too.
pub fn canonical_bytes_determine_the_value()
    ensures reported { (o p : KeyOrder) (v w : Value) (x y : List ℕ) → IsInRange v → IsInRange w
        → canonical o v ++ x ≡ canonical p w ++ y
        → Same v w × (canonical o v ≡ canonical p w) × (x ≡ y) }
    ensures whole { (o p : KeyOrder) (v w : Value) (x : List ℕ) → IsInRange v → IsInRange w
        → canonical o v ++ x ≡ canonical p w → x ≡ [] }
{}

/// Canonical bytes are those of an encoding of the same value and depth, without a complaint of the
/// strict rules at any offset. Each encoding in these bytes is such an encoding.
pub fn canonical_bytes_are_spelled()
    ensures some { (o : KeyOrder) (v : Value) → IsInRange v → IsValid v
        → (s : Spelling) × IsCanonicalSpelling o v s }
    ensures each { (o : KeyOrder) (v : Value) (s : Spelling) → IsInRange v → IsValid v
        → IsSpelled s → spell s ≡ canonical o v → IsCanonicalSpelling o v s }
{}

/// An encoding without a complaint of the strict rules is the canonical one of its value, which is
/// in range and valid.
pub fn strict_spelling_is_canonical()
    ensures { (o : KeyOrder) (s : Spelling) → IsSpelled s
        → ((c : Complaint) → Complains (strict o) 0 s c → ⊥)
        → IsInRange (value_of s) × IsValid (value_of s) × IsCanonicalSpelling o (value_of s) s }
{}

/// The value that canonical bytes encode is in range and valid, and has the same canonical bytes as
/// the value that they were made from, in either order.
pub fn canonical_bytes_again()
    ensures { (o p : KeyOrder) (v : Value) (s : Spelling) → IsInRange v → IsValid v
        → IsSpelled s → spell s ≡ canonical o v
        → IsInRange (value_of s) × IsValid (value_of s)
        × (canonical p (value_of s) ≡ canonical p v) }
{}

/// In canonical bytes, the pairs of a map are the one list in strictly rising order of their
/// encoded keys.
pub fn pairs_in_the_one_order()
    ensures rising { (o : KeyOrder) (es : Entries) → AreEntriesInRange es → HasDistinctKeys es
        → IsRising o (in_order o (canonical_entries o es)) }
    ensures same_pairs { (o : KeyOrder) (es : Entries)
        → IsPermutation (canonical_entries o es) (in_order o (canonical_entries o es)) }
    ensures one { (o : KeyOrder) (ps qs : List Pair) → IsRising o ps → IsRising o qs
        → ((p : Pair) → Contains ps p ↔ Contains qs p) → ps ≡ qs }
{}

/// An encoding has the depth of its value.
pub fn spelling_is_as_deep_as_its_value()
    ensures { (s : Spelling) → value.depth (value_of s) ≡ depth s }
{}
