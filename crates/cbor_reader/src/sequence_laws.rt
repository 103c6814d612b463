//! Laws of sequences: functions with nothing to run, whose contracts are the laws.

ghost use Rattle.std.specs.Prelude.{◌≡◌, ◌≢◌, ◌↔◌, ℕ, Option, Some, List, [], ◌∷◌, ◌++◌, length, IfSome};
ghost use Rattle.cbor_head.specs.Canonical.{canonical};
ghost use Rattle.cbor_head.specs.Complaint.{Rules, plain, strict};
ghost use Rattle.cbor_head.specs.Limits.{Bounds};
ghost use Rattle.cbor_head.specs.Spelling.{Spelling, IsItem, spell, value_of};
ghost use Rattle.cbor_head.specs.Value.{Value};
ghost use Rattle.cbor_head.specs.Verdict.{IsVerdict, refused, refusal};
ghost use Rattle.cbor_head.specs.declared.order.KeyOrder.{KeyOrder};
ghost use Rattle.cbor_head.specs.declared.reason.Reason.TheVariants.{Memory, Read, Truncated, TooLong};
ghost use Rattle.cbor_head.specs.declared.reason.Refusal.{Refusal};
ghost use Rattle.cbor_reader.specs.Headline.{IsValidItem};
ghost use Rattle.theory_verdicts.specs.Readers.{BeginsWithCanonical, IsRead, IsUnread, Loses};
ghost use Rattle.cbor_reader.specs.Sequence.{sequence_bytes, IsAccepted, StartsWithItems, IsLongestSequence, EndsBefore, IsAtEnd, IsRefused, IsTaken};
ghost use Rattle.cbor_reader.specs.Sequence.{Given, given_by, items_of, AreGivenBy, HasGiven};

/// The items of a sequence: by the plain rules the valid items within the limits; by the strict ones,
/// in an order, the items within the limits whose bytes are canonical.
pub fn items_of_sequences()
    ensures plain { (limits : Bounds) (s : Spelling)
        → IsAccepted limits plain s ↔ IsValidItem limits (spell s) s }
    ensures strict { (limits : Bounds) (o : KeyOrder) (s : Spelling) → IsItem limits.depth s (spell s)
        → IsAccepted limits (strict o) s
        ↔ (BeginsWithCanonical limits o (spell s) (value_of s)
        × (spell s ≡ canonical o (value_of s))) }
{}

/// A run begins with nothing given, and each call that gives something adds one item: a tree is its
/// value, a number is its size in bytes. If all items were given by calls with the same rules, the
/// input starts with a sequence that is accepted by these rules.
pub fn runs_of_calls()
    ensures starts { (b : Bounds) (input : List ℕ) → HasGiven b (Some input) input [] }
    ensures value { (r : Rules) (b : Bounds) (from to : Option (List ℕ)) (input : List ℕ)
        (given : List Given) (v : Value) → HasGiven b from input given → IsTaken r b from to v
        → (s : Spelling) × (v ≡ value_of s) × HasGiven b to input (given ++ given_by r s ∷ []) }
    ensures count { (r : Rules) (b : Bounds) (from to : Option (List ℕ)) (input : List ℕ)
        (given : List Given) (n : ℕ) → HasGiven b from input given
        → IfSome from (λ held. IsRead b r held n) → Loses n from to
        → (s : Spelling) × (n ≡ length (spell s)) × HasGiven b to input (given ++ given_by r s ∷ []) }
    ensures by_one { (r : Rules) (b : Bounds) (held : Option (List ℕ)) (input : List ℕ)
        (given : List Given) → (run : HasGiven b held input given) → AreGivenBy r given
        → StartsWithItems b r input (items_of given) run.rest }
    ensures one_more { (r : Rules) (given : List Given) (s : Spelling) → AreGivenBy r given
        → AreGivenBy r (given ++ given_by r s ∷ []) }
{}

/// The items given by calls with the same rules, up to the call that gives none or refuses, are the
/// longest sequence that the input starts with. If none is left, whichever calls gave them, the input
/// is the sequence; else the refusal, unless it is of the reader or of memory, is the verdict on the
/// rest.
pub fn longest_sequences()
    ensures ended { (r : Rules) (b : Bounds) (held to : Option (List ℕ)) (input : List ℕ)
        (given : List Given) → HasGiven b held input given → AreGivenBy r given
        → IsAtEnd b.bytes held to
        → IsLongestSequence b r input (items_of given) [] }
    ensures whole { (b : Bounds) (held to : Option (List ℕ)) (input : List ℕ)
        (given : List Given) → HasGiven b held input given
        → IsAtEnd b.bytes held to → sequence_bytes (items_of given) ≡ input }
    ensures refused { (r : Rules) (b : Bounds) (held to : Option (List ℕ)) (input : List ℕ)
        (given : List Given) (f : Refusal) → (run : HasGiven b held input given)
        → AreGivenBy r given → IsRefused r b held to f → f.reason ≢ Read → f.reason ≢ Memory
        → IsLongestSequence b r input (items_of given) run.rest }
    ensures verdict { (r : Rules) (b : Bounds) (held to : Option (List ℕ)) (input : List ℕ)
        (given : List Given) (f : Refusal) → (run : HasGiven b held input given)
        → IsRefused r b held to f → f.reason ≢ Read → f.reason ≢ Memory
        → IsVerdict b r run.rest (refused f) }
    ensures one { (limits : Bounds) (r : Rules) (input rest following : List ℕ) (items others : List Spelling)
        → IsLongestSequence limits r input items rest → IsLongestSequence limits r input others following
        → (items ≡ others) × (rest ≡ following) }
{}

/// An input ends before an item exactly if the verdict is that it is truncated at 0. With a byte
/// limit of 0 the verdict on each input is that it is too long at 0, and no other refusal is reported
/// except for refused memory.
pub fn inputs_without_an_item()
    ensures ended { (limits : Bounds) (r : Rules) (input : List ℕ)
        → EndsBefore limits.bytes input ↔ IsVerdict limits r input (refused (refusal Truncated 0 0)) }
    ensures no_bytes { (limits : Bounds) (r : Rules) (input : List ℕ)
        → limits.bytes ≡ 0 → IsVerdict limits r input (refused (refusal TooLong 0 0)) }
    ensures reported { (limits : Bounds) (r : Rules) (input : List ℕ) (f : Refusal) → limits.bytes ≡ 0
        → IsUnread limits r input f → f.reason ≢ Memory → f ≡ refusal TooLong 0 0 }
{}
