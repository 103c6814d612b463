//! The laws of what a builder is given and makes. These functions have no code to run: their
//! purpose is their contracts.

ghost use Rattle.std.specs.Prelude.{◌≡◌, ◌∷◌, ◌↔◌, [], List};
ghost use Rattle.cbor_head.specs.Value.{Value, Entries, IsInRange, IsValid};
ghost use Rattle.cbor_head.specs.Value.{AreEntriesInRange, HasDistinctKeys};
ghost use Rattle.cbor_head.specs.Canonical.{canonical, canonical_entries};
ghost use Rattle.cbor_head.specs.declared.order.KeyOrder.{KeyOrder};
ghost use Rattle.theory_values.specs.Pairs.{AreKeysValid};
ghost use Rattle.theory_values.specs.Parts.{Open, a_map, a_key, Part, Makes, plain, run, give, HasNoRepeats};
ghost use Rattle.cbor_builder.specs.Built.{IsRepeatedKey, HasSameKey};

/// From nothing, the parts that make a value leave its canonical bytes; whatever is open, they
/// leave these bytes as one more finished member. Repeated keys do not change this.
#[tactic(auto, using(crate::proofs::PartsMade::builds, crate::proofs::PartsMade::builds_whole))]
pub fn parts_make_canonical_bytes()
    ensures whole { (o : KeyOrder) (v : Value) (ps : List Part) → Makes v ps
        → run o ps (plain [] ∷ []) ≡ plain (canonical o v) ∷ [] }
    ensures member { (o : KeyOrder) (v : Value) (ps : List Part) → Makes v ps
        → (os : List Open) → run o ps os ≡ give (canonical o v) os }
{}

/// No two keys of an open map have equal bytes exactly if no two keys of the entries that made it
/// are the same.
#[tactic(auto, using(theory_values::proofs::Keys::distinct_exactly))]
pub fn repeats_are_those_of_the_value()
    ensures { (o : KeyOrder) (es : Entries) → AreEntriesInRange es → AreKeysValid es
        → HasNoRepeats (a_map (canonical_entries o es)) ↔ HasDistinctKeys es }
{}

/// A key that waits for its value is repeated exactly if it is the same as the key of one of the
/// entries before it.
#[tactic(auto, using(crate::proofs::LookUp::same_key_exactly))]
pub fn repeated_key_is_the_same_as_an_earlier_one()
    ensures { (o : KeyOrder) (es : Entries) (k : Value) (os : List Open)
        → AreEntriesInRange es → AreKeysValid es → IsInRange k → IsValid k
        → IsRepeatedKey (a_key (canonical_entries o es) (canonical o k) ∷ os) ↔ HasSameKey es k }
{}
