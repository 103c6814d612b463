//! Diagnostic text into a buffer of the caller's.

ghost use Rattle.std.specs.Prelude.{◌≡◌, ◌≢◌, ◌⊎◌, ◌<◌, ◌≤◌, ℕ, List, length, take, drop};
ghost use Rattle.cbor_head.specs.Complaint.{plain};
ghost use Rattle.cbor_reader.specs.WholeItem.{IsItemRefusal, IsWholeItem};
ghost use Rattle.naltvigo.specs.Diagnosing.{IsTextOf};
ghost use Rattle.naltvigo.specs.Settings.{item_limits, AreLimits};
ghost use Rattle.naltvigo.specs.Reported.{ReportsMemory, ReportsOf};

use crate::buffer::give;
use crate::checking::check_whole_item;
use crate::settings::limits_of;
use crate::status::{
    BAD_LIMITS, NO_MEMORY, NaltvigoRefusal, OK, REFUSED, TOO_SMALL, report, reported,
};
use cbor_diag::TextBuffer;
use cbor_head::{Limits, Reason, Refusal};
use cbor_memory::Memory;
use cbor_reader::laws::valid_items;
use std::alloc::Global;

/// Writes the diagnostic text (RFC 8949, section 8) of the one valid item that `input` is to the
/// prefix of `out`, its pairs in their order. For the rest it is as `naltvigo_canonicalise_raw`.
#[unsafe(no_mangle)]
pub extern "C" fn naltvigo_diagnostic_raw(
    alloc: Global,
    input: &[u8],
    keys: u32,
    depth: u32,
    bytes: u64,
    out: &mut [u8],
    needed: &mut usize,
    refusal: &mut NaltvigoRefusal,
) -> u32
    ensures written { result ≡ OK
        → IsTextOf (item_limits keys depth bytes) input.now (take needed.new out.new) }
    ensures space { result ≡ OK → needed.new ≤ length out.old }
    ensures too_small { result ≡ TOO_SMALL
        → (x : List ℕ) × IsTextOf (item_limits keys depth bytes) input.now x
        × (needed.new ≡ length x) × (length out.old < length x) }
    ensures refused { result ≡ REFUSED
        → ReportsOf (IsItemRefusal (item_limits keys depth bytes) plain input.now) refusal.new }
    ensures not_accepted { result ≡ REFUSED → ¬ IsWholeItem (item_limits keys depth bytes) input.now }
    // While the input was read; or after it, for the text.
    ensures no_memory { result ≡ NO_MEMORY → ReportsMemory 0 refusal.new
        ⊎ (IsWholeItem (item_limits keys depth bytes) input.now
        × ReportsMemory (length input.now) refusal.new) }
    ensures bad_limits { result ≡ BAD_LIMITS → ¬ AreLimits keys depth bytes }
    ensures in_range { result ≢ BAD_LIMITS → AreLimits keys depth bytes }
    // OK, REFUSED, TOO_SMALL, NO_MEMORY, BAD_LIMITS
    ensures statuses { (result ≡ 0) ⊎ (result ≡ 1) ⊎ (result ≡ 2) ⊎ (result ≡ 3) ⊎ (result ≡ 5) }
    ensures kept { (result ≢ OK → out.new ≡ out.old)
        × (drop needed.new out.new ≡ drop needed.new out.old) }
    ensures no_count { result ≢ OK → result ≢ TOO_SMALL → needed.new ≡ 0 }
    ensures unreported { result ≢ REFUSED → result ≢ NO_MEMORY → refusal.new ≡ refusal.old }
{
    *needed = 0;
    let Some(limits) = limits_of(keys, depth, bytes) else {
        return BAD_LIMITS;
    };
    match check_whole_item(&mut Memory::new(), alloc, input, limits) {
        Ok(()) => give_text(alloc, input, limits, out, needed, refusal),
        Err(reason) => report(reason, refusal),
    }
}

// Gives the text of the one valid item that the input is. The space for it is in a frame of its own,
// which is not there yet as the input is checked.
#[inline(never)]
fn give_text(
    alloc: Global,
    input: &[u8],
    limits: Limits,
    out: &mut [u8],
    needed: &mut usize,
    refusal: &mut NaltvigoRefusal,
) -> u32
    requires { IsWholeItem limits input.now }
    ensures written { result ≡ OK → IsTextOf limits input.now (take needed.new out.new) }
    ensures space { result ≡ OK → needed.new ≤ length out.old }
    ensures too_small { result ≡ TOO_SMALL → (x : List ℕ) × IsTextOf limits input.now x
        × (needed.new ≡ length x) × (length out.old < length x) }
    ensures no_memory { result ≡ NO_MEMORY → ReportsMemory (length input.now) refusal.new }
    ensures statuses { (result ≡ OK) ⊎ (result ≡ TOO_SMALL) ⊎ (result ≡ NO_MEMORY) }
    ensures kept { (result ≢ OK → out.new ≡ out.old)
        × (drop needed.new out.new ≡ drop needed.new out.old) }
    ensures no_count { result ≢ OK → result ≢ TOO_SMALL → needed.new ≡ needed.old }
    ensures unreported { result ≢ NO_MEMORY → refusal.new ≡ refusal.old }
{
    valid_items();
    let mut space = TextBuffer::new(alloc);
    match space.diagnostic_prefix(input, limits) {
        Ok(text) => give(text, out, needed),
        Err(_) => {
            *refusal = reported(Refusal::at(Reason::Memory, input.len() as u64));
            NO_MEMORY
        }
    }
}
