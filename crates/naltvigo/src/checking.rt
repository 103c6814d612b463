//! Whether an input is one item.

ghost use Rattle.std.specs.Prelude.{◌≡◌, ◌≢◌, ◌↔◌, ◌⊎◌, ◌<◌, ◌≤◌, length, IfOk, IfErr, IsTrue};
ghost use Rattle.cbor_head.specs.Complaint.{plain, strict};
ghost use Rattle.cbor_head.specs.Value.{Value};
ghost use Rattle.cbor_head.specs.declared.order.KeyOrder.TheVariants as orders;
ghost use Rattle.cbor_head.specs.declared.reason.Reason.TheVariants as reasons;
ghost use Rattle.cbor_reader.specs.Canonicalise.{IsCanonicalOf};
ghost use Rattle.theory_verdicts.specs.Readers.{BeginsWithCanonical, IsRead, IsCanonicalPrefix, ReportsMemoryAtStart};
ghost use Rattle.cbor_reader.specs.WholeItem.{IsWholeItem, IsItemRefusal};
ghost use Rattle.naltvigo.specs.Settings.{key_order, item_limits, AreLimits};
ghost use Rattle.naltvigo.specs.Checking.{HasCheckedValid, HasNoWholePrefix};
ghost use Rattle.naltvigo.specs.Reported.{ReportsOf};
ghost use Rattle.naltvigo.specs.inner.Checking.{IsOwnResult, IsNotOwn};

use crate::settings::{limits_of, order_numbered};
use crate::status::{
    BAD_LIMITS, BAD_ORDER, NO_MEMORY, NaltvigoRefusal, OK, REFUSED, report, reported,
};
use cbor_head::{KeyOrder, Limits, Refusal};
use cbor_memory::Memory;
use cbor_reader::laws::{
    inputs_with_results_are_valid_items, items_and_their_refusals,
    own_results_are_strictly_accepted, strictly_accepted_prefixes, valid_items,
};
use cbor_reader::{check_canonical, check_valid_in};
use std::alloc::Global;

/// Whether `input` is exactly one valid item in its canonical bytes. It allocates nothing.
#[unsafe(no_mangle)]
pub extern "C" fn naltvigo_check_canonical_raw(
    input: &[u8],
    order: u32,
    keys: u32,
    depth: u32,
    bytes: u64,
    refusal: &mut NaltvigoRefusal,
) -> u32
    ensures own { result ≡ OK
        → IsCanonicalOf (item_limits keys depth bytes) (key_order order) input.now input.now }
    ensures accepted { result ≡ OK
        → IsRead (item_limits keys depth bytes) (strict (key_order order)) input.now (length input.now) }
    ensures canonical { result ≡ OK
        → IsCanonicalPrefix (item_limits keys depth bytes) (key_order order) input.now (length input.now) }
    ensures refused { result ≡ REFUSED
        → ReportsOf (IsItemRefusal (item_limits keys depth bytes) (strict (key_order order)) input.now)
        refusal.new }
    ensures not_own { result ≡ REFUSED
        → ¬ IsCanonicalOf (item_limits keys depth bytes) (key_order order) input.now input.now }
    ensures prefix { result ≡ REFUSED
        → HasNoWholePrefix (item_limits keys depth bytes) (key_order order) input.now refusal.new.offset }
    ensures bad_order { (result ≡ BAD_ORDER) ↔ (1 < order) }
    ensures bad_limits { result ≡ BAD_LIMITS → ¬ AreLimits keys depth bytes }
    ensures in_range { result ≢ BAD_ORDER → result ≢ BAD_LIMITS
        → (order ≤ 1) × AreLimits keys depth bytes }
    // OK, REFUSED, BAD_ORDER, BAD_LIMITS
    ensures statuses { (result ≡ 0) ⊎ (result ≡ 1) ⊎ (result ≡ 4) ⊎ (result ≡ 5) }
    ensures unreported { result ≢ REFUSED → refusal.new ≡ refusal.old }
{
    let Some(order) = order_numbered(order) else {
        return BAD_ORDER;
    };
    let Some(limits) = limits_of(keys, depth, bytes) else {
        return BAD_LIMITS;
    };
    match check_own_bytes(input, limits, order) {
        Ok(()) => OK,
        Err(reason) => {
            *refusal = reported(reason);
            REFUSED
        }
    }
}

/// Whether `input` is exactly one valid item. For input that begins with an item in its canonical
/// bytes, in the bytewise order, it allocates nothing.
#[unsafe(no_mangle)]
pub extern "C" fn naltvigo_check_valid_raw(
    alloc: Global,
    input: &[u8],
    keys: u32,
    depth: u32,
    bytes: u64,
    refusal: &mut NaltvigoRefusal,
) -> u32
    ensures checked { HasCheckedValid input.now keys depth bytes refusal.old refusal.new result }
{
    check_valid_item(
        &mut Memory::new(),
        alloc,
        input,
        keys,
        depth,
        bytes,
        refusal,
    )
}

// Checks an item as the export does, and records in `memory` whether a request for memory was refused. If none was, it
// does not return `NO_MEMORY`.
fn check_valid_item(
    memory: &mut Memory,
    alloc: Global,
    input: &[u8],
    keys: u32,
    depth: u32,
    bytes: u64,
    refusal: &mut NaltvigoRefusal,
) -> u32
    ensures checked { HasCheckedValid input.now keys depth bytes refusal.old refusal.new result }
    ensures request { result ≡ NO_MEMORY → IsTrue memory.new }
{
    let Some(limits) = limits_of(keys, depth, bytes) else {
        return BAD_LIMITS;
    };
    own_results_are_strictly_accepted();
    strictly_accepted_prefixes();
    inputs_with_results_are_valid_items();
    match check_whole_item(memory, alloc, input, limits) {
        Ok(()) => OK,
        Err(reason) => report(reason, refusal),
    }
}

// The item at the start is all of the input; else why it is not one in its canonical bytes.
pub(crate) fn check_own_bytes(input: &[u8], limits: Limits, order: KeyOrder) -> Result<(), Refusal>
    ensures own { IfOk result (λ _. IsOwnResult limits order input.now) }
    ensures refused { IfErr result (IsNotOwn limits order input.now) }
{
    own_results_are_strictly_accepted();
    match check_canonical(input, limits, order) {
        Ok(count) if count < input.len() as u64 => Err(Refusal::trailing(count)),
        Ok(_) => Ok(()),
        Err(refusal) => Err(refusal),
    }
}

// The input is one valid item; else why it is none. It records in `memory` whether a request for memory was refused. If
// none was, the refusal is not `Memory`.
pub(crate) fn check_whole_item(
    memory: &mut Memory,
    alloc: Global,
    input: &[u8],
    limits: Limits,
) -> Result<(), Refusal>
    ensures accepted { IfOk result (λ _. IsWholeItem limits input.now) }
    ensures refused { IfErr result (IsItemRefusal limits plain input.now) }
    ensures own { IfErr result (λ f. (v : Value)
        → BeginsWithCanonical limits orders.Bytewise input.now v → f.reason ≢ reasons.Memory) }
    ensures memory { IfErr result ReportsMemoryAtStart }
    ensures request { IfErr result (λ f. f.reason ≡ reasons.Memory → IsTrue memory.new) }
    ensures not_accepted { IfErr result (λ f. f.reason ≢ reasons.Memory
        → ¬ IsWholeItem limits input.now) }
{
    valid_items();
    items_and_their_refusals();
    match check_valid_in(memory, alloc, input, limits) {
        Ok(size) if size < input.len() as u64 => Err(Refusal::trailing(size)),
        Ok(_) => Ok(()),
        Err(refusal) => Err(refusal),
    }
}
