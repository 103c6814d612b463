//! The next event of an item by the strict rules, from a reader.

ghost use Rattle.std.specs.Prelude.{◌≡◌, ℕ, List, length, None, IsTrue, OnOk, IfErr};
ghost use Rattle.cbor_head.specs.declared.reason.Reason.TheVariants as reasons;
ghost use Rattle.theory_automaton.specs.Trace.{Mark};
ghost use Rattle.theory_automaton.specs.Marks.{IsProper};
ghost use Rattle.cbor_machine.specs.Machine.{KeepsLimits, IsIdle};
ghost use Rattle.cbor_machine.specs.NextEvent.{IfReported, AgreesBetween, call};
ghost use Rattle.cbor_strict.specs.StrictReader.{StopsAtOnce};
ghost use Rattle.cbor_strict.specs.inner.LastKeys.{view_value};
ghost use Rattle.cbor_strict.specs.inner.StrictEvents.{AgreesWithSome, ReturnsStep};

use crate::open_items::OpenItems;
use cbor_events::ItemEvents;
use cbor_head::{Event, Keys, Refusal};
use std::io::Read;

// The next event, if no complaint ends with it.
pub(crate) fn next_event<R: Read>(
    events: &mut ItemEvents,
    items: &mut OpenItems,
    keys: Keys,
    reader: &mut R,
) -> Result<Option<Event>, Refusal>
    requires { AgreesWithSome keys items.old events.old }
    ensures order { items.new.order ≡ items.old.order }
    ensures returned { ReturnsStep keys items.old items.new events.old events.new
        (R.remaining reader.old) (R.remaining reader.new) result }
    ensures at_once { IfErr result (λ f. (t : List ℕ) (ms : List Mark)
        → AgreesBetween events.old.machine t ms
        → StopsAtOnce items.old.order (length (view_value items.old.keys).spans) f
        (call events.old events.new (R.remaining reader.old) (R.remaining reader.new) t ms)) }
    ensures limits { KeepsLimits events.old.machine events.new.machine }
    ensures proper { IfReported result (λ e. IsProper e.width e.kind) }
    ensures live { OnOk result (events.new.refusal ≡ None) }
    ensures taken { IfErr result (λ f. events.new.machine.taken ≡ f.read) }
    ensures memory { IfErr result (λ f. f.reason ≡ reasons.Memory → IsTrue items.new.memory) }
    ensures granted { OnOk result (items.new.memory ≡ items.old.memory) }
    ensures idle { IsIdle events.old.machine → reader.new ≡ reader.old }
{
    let is_asked = items.asks(keys);
    let event = match events.next_by_kind(is_asked, reader) {
        Ok(Some(event)) => event,
        Ok(None) => return Ok(None),
        Err(refusal) => return Err(refusal),
    };
    let open = events.open();
    let taken = events.taken();
    match items.admit(&event, events.piece(), open, taken) {
        Ok(()) => Ok(Some(event)),
        Err(refusal) => Err(refusal),
    }
}
