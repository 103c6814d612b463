//! The laws of the model: what the definitions of this crate imply. Nothing here runs. Each
//! function has an empty body, and its contract is a law for all numbers, bytes and items.

ghost use Rattle.std.specs.Prelude.{◌≡◌, ◌↔◌, ◌≤◌, ◌++◌, ℕ, List, [], length, Some, None};
ghost use Rattle.cbor_head.specs.Beginning.{IsBeginning, IsLongestBeginning};
ghost use Rattle.cbor_head.specs.Complaint.{Rules, Complaint, OfKinds, Complains, IsComplaint};
ghost use Rattle.cbor_head.specs.Head.{Holds, head, shortest};
ghost use Rattle.cbor_head.specs.Laws.{IsAtStart, IsPrefixWithoutComplaint, StartsWith};
ghost use Rattle.cbor_head.specs.Laws.{IsFirstComplaint, IsWithout, Decides};
ghost use Rattle.cbor_head.specs.Limits.{Bounds};
ghost use Rattle.cbor_head.specs.Read.{Prefix, prefix, read_head, read};
ghost use Rattle.cbor_head.specs.Spelling.{Spelling, IsSpelled, IsItem, HoldsOrIndefinite};
ghost use Rattle.cbor_head.specs.Spelling.{spell, value_of};
ghost use Rattle.cbor_head.specs.Value.{AreBytes, HasBasicKeys};
ghost use Rattle.cbor_head.specs.Verdict.{Decision, accepted, HasNoneOf, IsFirstOf, IsVerdictBy, IsVerdict};
ghost use Rattle.cbor_head.specs.declared.keys.Keys.TheVariants.{Any};
ghost use Rattle.cbor_head.specs.declared.major.Major.{Major};
ghost use Rattle.cbor_head.specs.declared.width.Width.{Width};
ghost use Rattle.cbor_head.specs.declared.width.Width.TheVariants.{Indefinite};

/// A head is read back, whatever follows it; and what is read as a head is that head's bytes.
pub fn heads_are_read_back()
    ensures definite { (m : Major) (w : Width) (n : ℕ) (x : List ℕ) → Holds w n
        → read_head (head m w n ++ x) ≡ Some (prefix m w n x) }
    ensures opener { (m : Major) (n : ℕ) (x : List ℕ)
        → read_head (head m Indefinite n ++ x) ≡ Some (prefix m Indefinite 0 x) }
    ensures only { (b : List ℕ) (f : Prefix) → AreBytes b → read_head b ≡ Some f
        → HoldsOrIndefinite f.width f.argument × (head f.major f.width f.argument ++ f.rest ≡ b) }
{}

/// No head of an argument has fewer bytes than the shortest one with space for the argument, and no
/// other has as few.
pub fn shortest_is_least()
    ensures holds { (w : Width) (n : ℕ) → Holds w n → Holds (shortest n) n }
    ensures least { (m : Major) (w : Width) (n : ℕ) → Holds w n
        → length (head m (shortest n) n) ≤ length (head m w n) }
    ensures only { (m : Major) (w : Width) (n : ℕ) → Holds w n
        → length (head m w n) ≤ length (head m (shortest n) n) → w ≡ shortest n }
{}

/// Bytes begin with at most one item. So they encode at most one, and no item's bytes are a proper
/// prefix of another's.
pub fn one_spelling()
    ensures one { (s t : Spelling) (x y : List ℕ) → IsSpelled s → IsSpelled t
        → spell s ++ x ≡ spell t ++ y → (s ≡ t) × (x ≡ y) }
    ensures unique { (s t : Spelling) → IsSpelled s → IsSpelled t → spell s ≡ spell t → s ≡ t }
    ensures free { (s t : Spelling) (x : List ℕ) → IsSpelled s → IsSpelled t
        → spell s ++ x ≡ spell t → x ≡ [] }
{}

/// Reading finds the item within a depth that bytes begin with, and nothing if they begin with
/// none.
pub fn reading_is_exact()
    ensures found { (d : ℕ) (b : List ℕ) (s : Spelling) (rest : List ℕ) → AreBytes b
        → read d b ≡ Some (s, rest) ↔ IsAtStart d b s rest }
    ensures none { (d : ℕ) (b : List ℕ) → AreBytes b
        → read d b ≡ None ↔ ((s : Spelling) (rest : List ℕ) → ¬ IsAtStart d b s rest) }
{}

/// The beginnings of items within a depth: the empty list is one, a prefix of one is one, and the
/// longest prefix of an input that is one exists. If the input begins with an item, that prefix is
/// the item; if that prefix is a whole item, it is the only item that starts with it.
pub fn beginnings()
    ensures empty { (d : ℕ) → IsBeginning d [] }
    ensures prefixes { (d : ℕ) (p q : List ℕ) → IsBeginning d (p ++ q) → IsBeginning d p }
    ensures longest { (d : ℕ) (b p q : List ℕ)
        → IsLongestBeginning d b p → IsLongestBeginning d b q → p ≡ q }
    ensures item { (d : ℕ) (b : List ℕ) (s : Spelling) (rest : List ℕ)
        → IsAtStart d b s rest → IsLongestBeginning d b (spell s) }
    ensures whole { (d : ℕ) (s t : Spelling) (p : List ℕ)
        → IsItem d s p → StartsWith d t p → s ≡ t }
{}

/// Items that start with the same bytes have the same complaints that end within these bytes.
pub fn complaints_within_a_beginning()
    ensures { (d : ℕ) (p : List ℕ) (s t : Spelling) → StartsWith d s p → StartsWith d t p
        → (limits : Bounds) (r : Rules) (c : Complaint)
        → c.end ≤ length p → IsComplaint limits r s c → IsComplaint limits r t c }
{}

/// There is at most one first complaint that ends within some bytes, and it is the same for each
/// item that starts with these bytes.
pub fn first_complaint_is_one()
    ensures one { (limits : Bounds) (r : Rules) (s : Spelling) (t : ℕ) (c e : Complaint)
        → IsFirstComplaint limits r s t c → IsFirstComplaint limits r s t e → c ≡ e }
    ensures each { (d : ℕ) (p : List ℕ) (s t : Spelling) → StartsWith d s p → StartsWith d t p
        → (limits : Bounds) (r : Rules) (c : Complaint)
        → IsFirstComplaint limits r s (length p) c → IsFirstComplaint limits r t (length p) c }
{}

/// An input has one verdict, whichever item is chosen among those that start with its longest
/// beginning.
pub fn verdict_is_one()
    ensures one { (limits : Bounds) (r : Rules) (input : List ℕ) (x y : Decision)
        → IsVerdict limits r input x → IsVerdict limits r input y → x ≡ y }
    ensures each { (limits : Bounds) (r : Rules) (p following : List ℕ) (s t : Spelling)
        → StartsWith limits.depth s p → StartsWith limits.depth t p
        → (x : Decision) → Decides limits r p following s x → Decides limits r p following t x }
{}

/// Accepted is exactly an item that the first bytes of the input, up to the byte limit, begin with,
/// and that is well-formed within the depth and without complaint.
pub fn acceptance_is_exact()
    ensures { (limits : Bounds) (r : Rules) (input : List ℕ) (s : Spelling)
        → IsVerdict limits r input (accepted s) ↔ IsPrefixWithoutComplaint limits r input s }
{}

/// With limits that allow keys of any kind, the complaints, the first complaint, its absence and
/// the verdicts depend only on texts, heads and the order of keys.
pub fn keys_of_any_kind()
    ensures complaints { (limits : Bounds) (r : Rules) (s : Spelling) (c : Complaint)
        → limits.keys ≡ Any → IsComplaint limits r s c ↔ Complains r 0 s c }
    ensures first { (limits : Bounds) (r : Rules) (s : Spelling) (t : ℕ) (c : Complaint)
        → limits.keys ≡ Any → IsFirstComplaint limits r s t c ↔ IsFirstOf (Complains r 0 s) t c }
    ensures without { (limits : Bounds) (r : Rules) (s : Spelling) (t : ℕ)
        → limits.keys ≡ Any → IsWithout limits r s t ↔ HasNoneOf (Complains r 0 s) t }
    ensures verdict { (limits : Bounds) (r : Rules) (input : List ℕ) (x : Decision)
        → limits.keys ≡ Any → IsVerdict limits r input x ↔ IsVerdictBy (Complains r 0) limits input x }
{}

/// An item has no complaint on the kind of a key, at any offset, exactly if each key of its value,
/// at every depth, is an integer or a text.
pub fn keys_of_basic_kinds()
    ensures { (s : Spelling) (at : ℕ) → ((c : Complaint) → OfKinds at s c → ⊥) ↔ HasBasicKeys (value_of s) }
{}
