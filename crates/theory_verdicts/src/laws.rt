//! The law of positions. Nothing here runs: its contract is the law.

ghost use Rattle.std.specs.Prelude.{◌≡◌, ◌↔◌, List, [], ℕ, length};
ghost use Rattle.theory_automaton.specs.Trace.{Mark};
ghost use Rattle.cbor_machine.specs.NextEvent.{Call, AgreesBetween, IsNextEvent};
ghost use Rattle.cbor_machine.specs.Machine.{IsComplete};
ghost use Rattle.cbor_machine.specs.MachineView.{MachineView};
ghost use Rattle.cbor_head.specs.declared.event.Event.{Event};
ghost use Rattle.theory_verdicts.specs.Place.{Place, at_item, done, open_at, IsPlaced, LeadsOn};

/// The position in an item between two events, and after each event: before the first byte an item
/// is expected, each event leads from the position before it to the next, and the position says
/// which containers are open and whether the item is complete.
pub fn events_lead_from_place_to_place()
    ensures begins { (d : ℕ) → IsPlaced d [] [] (at_item []) }
    ensures leads { (e : Event) (c : Call) (p : Place) → AgreesBetween c.old c.taken c.reported
        → IsPlaced c.old.depth c.taken c.reported p → c.new.depth ≡ c.old.depth
        → (next : IsNextEvent e c) → LeadsOn e c next.bytes p }
    ensures open { (m : MachineView) (t : List ℕ) (ms : List Mark) (p : Place)
        → AgreesBetween m t ms → IsPlaced m.depth t ms p → m.open_count ≡ length (open_at p) }
    ensures complete { (m : MachineView) (t : List ℕ) (ms : List Mark) (p : Place)
        → AgreesBetween m t ms → IsPlaced m.depth t ms p → IsComplete m ↔ (p ≡ done) }
{}
