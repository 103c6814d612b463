//! Laws of the results: functions with nothing to run, whose contracts are the laws.

ghost use Rattle.std.specs.Prelude.{◌≡◌, ◌≢◌, ◌↔◌, ◌⊎◌, ◌≤◌, ◌<◌, ◌^◌, ◌++◌, ℕ, List, length, take};
ghost use Rattle.cbor_head.specs.Canonical.{canonical};
ghost use Rattle.cbor_head.specs.Complaint.{Rules, Complaint, Complains, IsComplaint, plain, strict};
ghost use Rattle.cbor_head.specs.Limits.{Bounds};
ghost use Rattle.cbor_head.specs.Spelling.{Spelling, IsItem, spell, value_of};
ghost use Rattle.cbor_head.specs.Value as value;
ghost use Rattle.cbor_head.specs.Value.{Value, Same, IsInRange, IsValid, HasBasicKeys};
ghost use Rattle.cbor_head.specs.Verdict.{IsVerdict, accepted, refused, refusal};
ghost use Rattle.cbor_head.specs.declared.keys.Keys.TheVariants.{IntegersAndTexts};
ghost use Rattle.cbor_head.specs.declared.order.KeyOrder.{KeyOrder};
ghost use Rattle.cbor_head.specs.declared.reason.Refusal.{Refusal};
ghost use Rattle.cbor_head.specs.declared.reason.Reason.TheVariants.{Memory, Truncated, TooLong, CanonicalTooLong, Trailing, Read};
ghost use Rattle.theory_values.specs.StrictReasons.{IsStrictReason};
ghost use Rattle.cbor_reader.specs.Canonicalise.{IsCanonicalOf, IsRefusal};
ghost use Rattle.cbor_reader.specs.Comparing.{MeanTheSame};
ghost use Rattle.cbor_reader.specs.Headline.{IsValidItem, HasResult, HasNoResult, HasValidTexts};
ghost use Rattle.theory_verdicts.specs.Readers.{BeginsWithCanonical, IsRead, IsReadAs, IsUnread};
ghost use Rattle.theory_verdicts.specs.Refusals.{IsWithinInput};
ghost use Rattle.cbor_tree_reader.specs.Size.{size};
ghost use Rattle.cbor_reader.specs.WholeItem.{IsWholeItem, IsItemRefusal};
ghost use Rattle.cbor_reader.specs.Written.{written};

/// An input has one result, unless memory is refused.
pub fn one_result()
    ensures bytes { (limits : Bounds) (o : KeyOrder) (input x y : List ℕ)
        → IsCanonicalOf limits o input x → IsCanonicalOf limits o input y → x ≡ y }
    ensures refusal { (limits : Bounds) (o : KeyOrder) (input : List ℕ) (f g : Refusal)
        → IsRefusal limits o input f → IsRefusal limits o input g
        → f.reason ≢ Memory → g.reason ≢ Memory → f ≡ g }
    ensures either { (limits : Bounds) (o : KeyOrder) (input x : List ℕ) (f : Refusal)
        → IsCanonicalOf limits o input x → IsRefusal limits o input f → f.reason ≡ Memory }
{}

/// Canonical bytes are returned exactly for an input that is one well-formed, valid item within the
/// limits whose canonical bytes are within the byte limit too; and they are the canonical bytes of
/// its value. Such an input is refused only if memory is refused.
pub fn inputs_with_results_are_valid_items()
    ensures accepted { (limits : Bounds) (o : KeyOrder) (input : List ℕ)
        → ((out : List ℕ) × IsCanonicalOf limits o input out)
        ↔ ((s : Spelling) × IsValidItem limits input s × (length (canonical o (value_of s)) ≤ limits.bytes)) }
    ensures outcome { (limits : Bounds) (o : KeyOrder) (input out : List ℕ)
        → IsCanonicalOf limits o input out ↔ HasResult limits o input out }
    ensures refused { (limits : Bounds) (o : KeyOrder) (input : List ℕ) (f : Refusal)
        → IsRefusal limits o input f → f.reason ≢ Memory → HasNoResult limits o input }
{}

/// The result for an input is the encoding of its tree. If `read_tree` reads all of it as a value, the
/// result is the canonical bytes of this value, if they are within the limit; if they are longer, or
/// bytes follow the item, that is the refusal; and what `read_tree` refuses, except for a failure of
/// the reader, has the same refusal here.
pub fn results_are_encoded_trees()
    ensures outcome { (limits : Bounds) (o : KeyOrder) (input out : List ℕ) (v : Value)
        → IsReadAs limits plain input v (length input)
        → IsCanonicalOf limits o input out ↔ ((out ≡ canonical o v) × (length out ≤ limits.bytes)) }
    ensures too_long { (limits : Bounds) (o : KeyOrder) (input : List ℕ) (v : Value)
        → IsReadAs limits plain input v (length input) → limits.bytes < length (canonical o v)
        → IsRefusal limits o input (refusal CanonicalTooLong (length input) (length input)) }
    ensures followed { (limits : Bounds) (o : KeyOrder) (input : List ℕ) (v : Value) (count : ℕ)
        → IsReadAs limits plain input v count → count < length input
        → IsRefusal limits o input (refusal Trailing count count) }
    ensures refused { (limits : Bounds) (o : KeyOrder) (input : List ℕ) (f : Refusal)
        → IsUnread limits plain input f → f.reason ≢ Read → IsRefusal limits o input f }
{}

/// The parts of a valid value, written one after another in any order of its pairs, each head as short
/// as possible, are one valid item. `canonicalise` returns the canonical bytes of the value for them.
pub fn written_parts_are_canonicalised()
    ensures item { (limits : Bounds) (v : Value) → IsInRange v → IsValid v
        → (limits.keys ≡ IntegersAndTexts → HasBasicKeys v) → value.depth v ≤ limits.depth
        → length (written v) ≤ limits.bytes → IsWholeItem limits (written v) }
    ensures canonical { (limits : Bounds) (o : KeyOrder) (v : Value) (out : List ℕ) → IsInRange v
        → IsValid v → (limits.keys ≡ IntegersAndTexts → HasBasicKeys v)
        → value.depth v ≤ limits.depth → length (written v) ≤ limits.bytes
        → IsCanonicalOf limits o (written v) out
        ↔ ((out ≡ canonical o v) × (length out ≤ limits.bytes)) }
{}

/// An item has no plain complaint except on the kind of a key, at any offset, exactly if each text
/// and each chunk of one is UTF-8 and its value is valid. A valid item is the whole input exactly
/// if the plain verdict accepts it and nothing follows it. Its value is in range, valid, and within
/// the depth, and its keys are of the kinds that the limits allow.
pub fn valid_items()
    ensures complaints { (s : Spelling) (at : ℕ) → ((c : Complaint) → Complains plain at s c → ⊥)
        ↔ (HasValidTexts s × IsValid (value_of s)) }
    ensures verdict { (limits : Bounds) (input : List ℕ) (s : Spelling) → IsValidItem limits input s
        ↔ (IsVerdict limits plain input (accepted s) × (spell s ≡ input)) }
    ensures value { (limits : Bounds) (input : List ℕ) (s : Spelling) → limits.bytes ≤ 2 ^ 62 → IsValidItem limits input s
        → IsInRange (value_of s) × IsValid (value_of s) × (value.depth (value_of s) ≤ limits.depth) }
    ensures keys { (limits : Bounds) (input : List ℕ) (s : Spelling) → limits.keys ≡ IntegersAndTexts
        → IsValidItem limits input s → HasBasicKeys (value_of s) }
{}

/// Two accepted inputs get equal results in one order, within any limits, exactly if they are items of
/// the same value.
pub fn equal_results_of_same_values()
    ensures { (limits others : Bounds) (o : KeyOrder) (x y a b : List ℕ) (s t : Spelling)
        → limits.bytes ≤ 2 ^ 62 → others.bytes ≤ 2 ^ 62
        → IsCanonicalOf limits o x a → IsItem limits.depth s x
        → IsCanonicalOf others o y b → IsItem others.depth t y
        → (a ≡ b) ↔ Same (value_of s) (value_of t) }
{}

/// A result, given again as input in the same order and within the same limits, is its own result.
pub fn results_are_their_own_results()
    ensures { (limits : Bounds) (o : KeyOrder) (input out : List ℕ) → limits.bytes ≤ 2 ^ 62
        → IsCanonicalOf limits o input out → IsCanonicalOf limits o out out }
{}

/// An input is its own result exactly if the strict verdict in this order accepts it whole.
pub fn own_results_are_strictly_accepted()
    ensures { (limits : Bounds) (o : KeyOrder) (input : List ℕ) → limits.bytes ≤ 2 ^ 62
        → IsCanonicalOf limits o input input
        ↔ ((s : Spelling) × IsVerdict limits (strict o) input (accepted s) × (spell s ≡ input)) }
{}

/// The plain verdict accepts an item whose value is in range, valid, and within the depth, with
/// keys of the kinds that the limits allow, and that has no more bytes than the limit.
pub fn plainly_accepted_values()
    ensures range { (limits : Bounds) (input : List ℕ) (s : Spelling) → limits.bytes ≤ 2 ^ 62
        → IsVerdict limits plain input (accepted s) → IsInRange (value_of s) }
    ensures valid { (limits : Bounds) (input : List ℕ) (s : Spelling)
        → IsVerdict limits plain input (accepted s) → IsValid (value_of s) }
    ensures depth { (limits : Bounds) (input : List ℕ) (s : Spelling)
        → IsVerdict limits plain input (accepted s) → value.depth (value_of s) ≤ limits.depth }
    ensures fits { (limits : Bounds) (input : List ℕ) (s : Spelling)
        → IsVerdict limits plain input (accepted s) → length (spell s) ≤ limits.bytes }
    ensures keys { (limits : Bounds) (input : List ℕ) (s : Spelling) → limits.keys ≡ IntegersAndTexts
        → IsVerdict limits plain input (accepted s) → HasBasicKeys (value_of s) }
{}

/// A value has no more items, at every depth, and string bytes together than its item has bytes.
pub fn values_are_no_larger_than_their_items()
    ensures { (s : Spelling) → size (value_of s) ≤ length (spell s) }
{}

/// The strict verdict accepts exactly an input that begins with the canonical bytes of a valid value
/// within the limits. What it accepts is just these bytes, and their value is the same. If an input
/// begins with the canonical bytes of two values, the values are the same, and so are the bytes.
pub fn strictly_accepted_prefixes()
    ensures accepted { (limits : Bounds) (o : KeyOrder) (input : List ℕ)
        → ((s : Spelling) × IsVerdict limits (strict o) input (accepted s))
        ↔ ((v : Value) × BeginsWithCanonical limits o input v) }
    ensures value { (limits : Bounds) (o : KeyOrder) (input : List ℕ) (s : Spelling)
        → IsVerdict limits (strict o) input (accepted s)
        → BeginsWithCanonical limits o input (value_of s) }
    ensures taken { (limits : Bounds) (o : KeyOrder) (input : List ℕ) (s : Spelling) (v : Value)
        → IsVerdict limits (strict o) input (accepted s) → BeginsWithCanonical limits o input v
        → (spell s ≡ canonical o v) × Same (value_of s) v }
    ensures one { (limits : Bounds) (o : KeyOrder) (input : List ℕ) (v w : Value)
        → BeginsWithCanonical limits o input v → BeginsWithCanonical limits o input w
        → Same v w × (canonical o v ≡ canonical o w) }
{}

/// A proper prefix of an item within the depth and without complaint is refused: as truncated if the
/// input ends after it and the limit is larger; as too long if it fills the limit, whatever follows.
pub fn items_cut_short()
    ensures truncated { (limits : Bounds) (r : Rules) (s : Spelling) (b : List ℕ) (k : ℕ)
        → IsItem limits.depth s b → ((c : Complaint) → IsComplaint limits r s c → ⊥)
        → k < length b → k < limits.bytes → IsVerdict limits r (take k b) (refused (refusal Truncated k k)) }
    ensures too_long { (limits : Bounds) (r : Rules) (s : Spelling) (b rest : List ℕ)
        → IsItem limits.depth s b → ((c : Complaint) → IsComplaint limits r s c → ⊥)
        → limits.bytes < length b
        → IsVerdict limits r (b ++ rest) (refused (refusal TooLong limits.bytes limits.bytes)) }
{}

/// The readers of the start of one input agree. What one of them reads is one value, of one number of
/// bytes. What is refused, except by a failure of the reader or of memory, has one refusal; and what
/// is read can otherwise be refused only by these failures.
pub fn one_reading()
    ensures value { (limits : Bounds) (r : Rules) (input : List ℕ) (v w : Value) (m n : ℕ)
        → IsReadAs limits r input v m → IsReadAs limits r input w n → (v ≡ w) × (m ≡ n) }
    ensures refusal { (limits : Bounds) (r : Rules) (input : List ℕ) (f g : Refusal)
        → IsUnread limits r input f → IsUnread limits r input g
        → f.reason ≢ Read → f.reason ≢ Memory → g.reason ≢ Read → g.reason ≢ Memory → f ≡ g }
    ensures either { (limits : Bounds) (r : Rules) (input : List ℕ) (n : ℕ) (f : Refusal)
        → IsRead limits r input n → IsUnread limits r input f
        → (f.reason ≡ Read) ⊎ (f.reason ≡ Memory) }
{}

/// The verdict of the strict rules, in some order, is the plain one too, unless it refuses for a
/// reason that only the deterministic encoding has: a head that is not the shortest, an indefinite
/// length, keys that do not rise.
pub fn strict_verdicts_are_plain()
    ensures accepted { (limits : Bounds) (o : KeyOrder) (input : List ℕ) (s : Spelling)
        → IsVerdict limits (strict o) input (accepted s) → IsVerdict limits plain input (accepted s) }
    ensures refused { (limits : Bounds) (o : KeyOrder) (input : List ℕ) (f : Refusal)
        → ¬ IsStrictReason f.reason
        → IsVerdict limits (strict o) input (refused f) → IsVerdict limits plain input (refused f) }
{}

/// What is accepted is accepted within wider limits: with at least the same depth and bytes, and with
/// kinds of keys restricted only if the others restrict them.
pub fn wider_limits_accept_as_much()
    ensures { (limits others : Bounds) (r : Rules) (input : List ℕ) (s : Spelling)
        → limits.depth ≤ others.depth → limits.bytes ≤ others.bytes
        → (others.keys ≡ IntegersAndTexts → limits.keys ≡ IntegersAndTexts)
        → IsVerdict limits r input (accepted s) → IsVerdict others r input (accepted s) }
{}

/// The result for a prefix of an input is the result for the input, unless the prefix ends within the
/// item.
pub fn prefixes_decide()
    ensures accepted { (limits : Bounds) (r : Rules) (prefix following : List ℕ) (s : Spelling)
        → IsVerdict limits r prefix (accepted s) → IsVerdict limits r (prefix ++ following) (accepted s) }
    ensures refused { (limits : Bounds) (r : Rules) (prefix following : List ℕ) (f : Refusal)
        → IsVerdict limits r prefix (refused f) → f.reason ≢ Truncated
        → IsVerdict limits r (prefix ++ following) (refused f) }
{}

/// A refusal's offset is at most the number of bytes read, which is at most the limit and at most
/// the length of the input.
pub fn refusals_are_within_the_input()
    ensures verdict { (limits : Bounds) (r : Rules) (input : List ℕ) (f : Refusal)
        → IsVerdict limits r input (refused f) → IsWithinInput limits.bytes input f }
    ensures unread { (limits : Bounds) (r : Rules) (input : List ℕ) (f : Refusal)
        → IsUnread limits r input f → IsWithinInput limits.bytes input f }
    ensures outcome { (limits : Bounds) (o : KeyOrder) (input : List ℕ) (f : Refusal)
        → IsRefusal limits o input f → IsWithinInput limits.bytes input f }
{}

/// On the inputs that are whole valid items within the limits, having the same meaning is an
/// equivalence.
pub fn meaning_is_an_equivalence()
    ensures reflexive { (limits : Bounds) (x : List ℕ) → IsWholeItem limits x → MeanTheSame limits x x }
    ensures symmetric { (limits : Bounds) (x y : List ℕ) → MeanTheSame limits x y → MeanTheSame limits y x }
    ensures transitive { (limits : Bounds) (x y z : List ℕ)
        → MeanTheSame limits x y → MeanTheSame limits y z → MeanTheSame limits x z }
{}

/// Two whole valid items have the same value exactly if their results are equal, in any order of keys
/// and within any limits for which both have one.
pub fn same_meaning_of_equal_results()
    ensures { (limits others : Bounds) (o : KeyOrder) (x y a b : List ℕ) → others.bytes ≤ 2 ^ 62
        → IsWholeItem limits x → IsWholeItem limits y
        → IsCanonicalOf others o x a → IsCanonicalOf others o y b
        → MeanTheSame limits x y ↔ (a ≡ b) }
{}

/// An input is a whole valid item, or has one refusal, unless memory is refused.
pub fn items_and_their_refusals()
    ensures one { (limits : Bounds) (r : Rules) (input : List ℕ) (f g : Refusal)
        → IsItemRefusal limits r input f → IsItemRefusal limits r input g
        → f.reason ≢ Memory → g.reason ≢ Memory → f ≡ g }
    ensures either { (limits : Bounds) (input : List ℕ) (f : Refusal)
        → IsWholeItem limits input → IsItemRefusal limits plain input f → f.reason ≡ Memory }
{}
