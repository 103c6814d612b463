//! The law of parts. Nothing here runs: the contract is the law.

ghost use Rattle.std.specs.Prelude.{◌≡◌, ◌++◌, ℕ, List, length, Result};
ghost use Rattle.cbor_head.specs.Limits.{Bounds};
ghost use Rattle.cbor_head.specs.declared.order.KeyOrder.{KeyOrder};
ghost use Rattle.cbor_head.specs.declared.reason.Refusal.{Refusal};
ghost use Rattle.cbor_machine.specs.declared.step.Out.{Out};
ghost use Rattle.cbor_stream.specs.StrictMachine.{StrictMachineView, limits_of};
ghost use Rattle.cbor_stream.specs.Said.{Says, Tells, IsOfWhole};

/// An input has one result, `Tells`, which `cbor_strict::check_canonical` returns. However its bytes
/// are cut, it is what `StrictMachine::check` reports of them.
pub fn parts_are_the_whole()
    ensures one { (limits : Bounds) (o : KeyOrder) (input : List ℕ) (x y : Result ℕ Refusal)
        → Tells limits o input x → Tells limits o input y → x ≡ y }
    ensures whole { (out : Out) (v : StrictMachineView) (all more : List ℕ) (x : Result ℕ Refusal)
        → Says out v all → Tells (limits_of v) v.order (all ++ more) x
        → IsOfWhole out (length all) more x }
{}
