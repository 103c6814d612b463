//! The laws of events. Nothing here runs: each contract is a law.

ghost use Rattle.std.specs.Prelude.{◌≡◌, ◌++◌, List, [], ◌∷◌, ℕ, length};
ghost use Rattle.cbor_head.specs.Limits.{bounds};
ghost use Rattle.cbor_head.specs.Spelling.{Spelling, IsSpelled, IsItem, spell};
ghost use Rattle.cbor_head.specs.Complaint.{form};
ghost use Rattle.cbor_head.specs.Verdict.{IsVerdict, accepted, refused};
ghost use Rattle.cbor_head.specs.declared.reason.Refusal.{Refusal};
ghost use Rattle.theory_automaton.specs.Trace.{Mark, total, trace};
ghost use Rattle.cbor_head.specs.Value.{AreBytes};
ghost use Rattle.cbor_head.specs.Beginning.{IsLongestBeginning};
ghost use Rattle.theory_automaton.specs.Marks.{marks_of};
ghost use Rattle.theory_automaton.specs.Event.{events, marks_in, joined, cut, AreReported};
ghost use Rattle.cbor_head.specs.declared.event.Event.{Event};
ghost use Rattle.cbor_machine.specs.NextEvent.{Call, AgreesBetween, IsNextEvent, IsEnd};
ghost use Rattle.cbor_machine.specs.MachineView.{MachineView};
ghost use Rattle.cbor_machine.specs.Machine.{Represents, IsComplete, IsGiven, IsRefused};

/// What a machine returns is the verdict of form: its refusals, and the complete item.
pub fn machine_verdict()
    ensures refuses { (r : Refusal) (m : MachineView) (t bs : List ℕ) (ms : List Mark)
        → IsRefused r m t bs ms → (more : List ℕ)
        → IsVerdict (bounds m.depth m.bytes) form ((t ++ bs) ++ more) (refused r) }
    ensures accepts { (m : MachineView) (t : List ℕ) (ms : List Mark)
        → Represents m t ms → IsComplete m → (more : List ℕ)
        → (s : Spelling) × IsVerdict (bounds m.depth m.bytes) form (t ++ more) (accepted s) }
{}

/// The events that a machine reported, with neighbouring pieces joined, are those of each item that
/// starts with the bytes consumed, as far as they end within these bytes. The last piece is cut
/// there.
pub fn reported_events()
    ensures none { AreReported [] [] }
    ensures more { (es : List Event) (ms : List Mark) (e : Event) (m : MachineView) (t bs : List ℕ)
        → AreReported es ms → IsGiven e m t bs ms
        → AreReported (es ++ e ∷ []) (ms ++ marks_of e.width e.kind) }
    ensures joined { (m : MachineView) (t : List ℕ) (ms : List Mark) (es : List Event)
        → Represents m t ms → AreReported es ms
        → (s : Spelling) (rest : List ℕ) → IsItem m.depth s (t ++ rest)
        → joined es ≡ cut (length t) (events 0 s) }
{}

/// The events that `ItemEvents::next` reported. Each follows those before it. At the end of an item
/// they are, with neighbouring pieces joined, all of its events. After a refusal `reported_events`
/// says what they are.
pub fn next_events()
    ensures more { (c : Call) (es : List Event) (e : Event) → AreReported es c.reported
        → AgreesBetween c.old c.taken c.reported → IsNextEvent e c
        → AreReported (es ++ e ∷ []) (c.reported ++ marks_of e.width e.kind) }
    ensures all { (c : Call) (es : List Event) → AreReported es c.reported
        → AgreesBetween c.old c.taken c.reported → IsEnd c
        → (s : Spelling) × IsItem c.old.depth s c.taken × (joined es ≡ events 0 s) }
{}

/// The marks of an item are those of its events, and cover all of its bytes.
pub fn marks_of_events()
    ensures marks { (s : Spelling) → IsSpelled s → marks_in (events 0 s) ≡ trace s }
    ensures bytes { (s : Spelling) → IsSpelled s → total (trace s) ≡ length (spell s) }
{}

/// Every input has a longest beginning within a depth.
pub fn longest_beginning()
    ensures { (d : ℕ) (b : List ℕ) → AreBytes b → (p : List ℕ) × IsLongestBeginning d b p }
{}
