//! A whole item at once, where an item is expected that is in no key.

ghost use Rattle.std.specs.Prelude.{◌≡◌, ◌<◌, ◌≤◌, ◌+◌, ◌++◌, ℕ, List, length, take, true, None, IfSome};
ghost use Rattle.cbor_head.specs.Limits.{Bounds};
ghost use Rattle.cbor_head.specs.declared.keys.Keys.{Keys};
ghost use Rattle.theory_automaton.specs.Trace.{Mark};
ghost use Rattle.cbor_machine.specs.Machine.{KeepsLimits};
ghost use Rattle.cbor_strict.specs.inner.LastKeys.{view_value};
ghost use Rattle.cbor_stream.specs.inner.Amid.{IsAmid, IsSomewhere};

use cbor_head::Keys;
use cbor_machine::Machine;
use cbor_strict::OpenItems;

/// Consumes the item that the input begins with, if its bytes are canonical, and returns their
/// number. Otherwise it consumes nothing: the item may be longer than the input.
pub(crate) fn take_item(
    machine: &mut Machine,
    items: &mut OpenItems,
    keys: Keys,
    input: &[u8],
) -> Option<usize>
    requires somewhere { IsSomewhere machine.old items.old keys }
    requires expected { machine.old.item_expected ≡ true }
    requires outside { (view_value items.old.keys).open_keys ≡ 0 }
    ensures used { IfSome result (λ used. (0 < used) × (used ≤ length input.now)
        × (machine.new.taken ≡ machine.old.taken + used)) }
    ensures agrees { IfSome result (λ used. (b : Bounds) (t : List ℕ) (ms : List Mark)
        → IsAmid machine.old items.old b t ms → b.keys ≡ keys
        → (ns : List Mark) × IsAmid machine.new items.new b (t ++ take used input.now) ns) }
    ensures limits { IfSome result (λ used. KeepsLimits machine.old machine.new) }
    ensures order { items.new.order ≡ items.old.order }
    ensures none { result ≡ None → (machine.new ≡ machine.old) × (items.new ≡ items.old) }
{
    let Some(count) = items.canonical_item(input, machine.limits_left(keys)) else {
        return None;
    };
    let used = count as usize;
    machine.take_item(&input[..used]);
    items.end_whole_item(machine.open());
    Some(used)
}
