//! The item at the start of a buffer, as in a sequence of items (RFC 8742).

ghost use Rattle.std.specs.Prelude.{◌≡◌, ◌≢◌, ◌↔◌, ◌⊎◌, ◌<◌, ◌≤◌, IsTrue};
ghost use Rattle.cbor_head.specs.Complaint.{strict};
ghost use Rattle.cbor_head.specs.Verdict.{IsVerdict, refused};
ghost use Rattle.theory_verdicts.specs.Readers.{HasNoCanonicalPrefix, IsCanonicalPrefix, IsRead};
ghost use Rattle.naltvigo.specs.Sequence.{HasCheckedNext};
ghost use Rattle.naltvigo.specs.Settings.{key_order, item_limits, AreLimits};
ghost use Rattle.naltvigo.specs.Reported.{ReportsOf};

use crate::settings::{limits_of, order_numbered};
use crate::status::{
    BAD_LIMITS, BAD_ORDER, NO_MEMORY, NaltvigoRefusal, OK, REFUSED, report, reported,
};
use cbor_memory::Memory;
use cbor_reader::{check_canonical, check_valid_in};
use std::alloc::Global;

/// Whether `input` begins with one valid item; `taken` becomes the number of its bytes, and 0 if
/// the status is not `OK`. For an item in its canonical bytes, in the bytewise order, it allocates
/// nothing.
#[unsafe(no_mangle)]
pub extern "C" fn naltvigo_next_valid_raw(
    alloc: Global,
    input: &[u8],
    keys: u32,
    depth: u32,
    bytes: u64,
    taken: &mut u64,
    refusal: &mut NaltvigoRefusal,
) -> u32
    ensures checked { HasCheckedNext input.now keys depth bytes taken.new refusal.old refusal.new
        result }
{
    check_next_item(
        &mut Memory::new(),
        alloc,
        input,
        keys,
        depth,
        bytes,
        taken,
        refusal,
    )
}

// Checks an item as the export does, and records in `memory` whether a request for memory was refused. If none was, it
// does not return `NO_MEMORY`.
fn check_next_item(
    memory: &mut Memory,
    alloc: Global,
    input: &[u8],
    keys: u32,
    depth: u32,
    bytes: u64,
    taken: &mut u64,
    refusal: &mut NaltvigoRefusal,
) -> u32
    ensures checked { HasCheckedNext input.now keys depth bytes taken.new refusal.old refusal.new
        result }
    ensures request { result ≡ NO_MEMORY → IsTrue memory.new }
{
    *taken = 0;
    let Some(limits) = limits_of(keys, depth, bytes) else {
        return BAD_LIMITS;
    };
    match check_valid_in(memory, alloc, input, limits) {
        Ok(count) => {
            *taken = count;
            OK
        }
        Err(reason) => report(reason, refusal),
    }
}

/// Whether `input` begins with one valid item in its canonical bytes; `taken` becomes their number,
/// and 0 if the status is not `OK`. It allocates nothing.
#[unsafe(no_mangle)]
pub extern "C" fn naltvigo_next_canonical_raw(
    input: &[u8],
    order: u32,
    keys: u32,
    depth: u32,
    bytes: u64,
    taken: &mut u64,
    refusal: &mut NaltvigoRefusal,
) -> u32
    ensures accepted { result ≡ OK
        → IsRead (item_limits keys depth bytes) (strict (key_order order)) input.now taken.new }
    ensures canonical { result ≡ OK
        → IsCanonicalPrefix (item_limits keys depth bytes) (key_order order) input.now taken.new }
    ensures refused { result ≡ REFUSED
        → ReportsOf (λ f. IsVerdict (item_limits keys depth bytes) (strict (key_order order)) input.now
        (refused f)) refusal.new }
    ensures no_canonical { result ≡ REFUSED
        → HasNoCanonicalPrefix (item_limits keys depth bytes) (key_order order) input.now }
    ensures bad_order { (result ≡ BAD_ORDER) ↔ (1 < order) }
    ensures bad_limits { result ≡ BAD_LIMITS → ¬ AreLimits keys depth bytes }
    ensures in_range { result ≢ BAD_ORDER → result ≢ BAD_LIMITS
        → (order ≤ 1) × AreLimits keys depth bytes }
    // OK, REFUSED, BAD_ORDER, BAD_LIMITS
    ensures statuses { (result ≡ 0) ⊎ (result ≡ 1) ⊎ (result ≡ 4) ⊎ (result ≡ 5) }
    ensures no_count { result ≢ OK → taken.new ≡ 0 }
    ensures unreported { result ≢ REFUSED → refusal.new ≡ refusal.old }
{
    *taken = 0;
    let Some(order) = order_numbered(order) else {
        return BAD_ORDER;
    };
    let Some(limits) = limits_of(keys, depth, bytes) else {
        return BAD_LIMITS;
    };
    match check_canonical(input, limits, order) {
        Ok(count) => {
            *taken = count;
            OK
        }
        Err(reason) => {
            *refusal = reported(reason);
            REFUSED
        }
    }
}
