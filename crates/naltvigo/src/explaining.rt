//! An explanation of a refusal, into a buffer of the caller's.

ghost use Rattle.std.specs.Prelude.{◌≡◌, ◌≢◌, ◌⊎◌, ◌<◌, ◌≤◌, ℕ, List, length, take, drop};
ghost use Rattle.cbor_head.specs.Limits.{bounds, AreBounds};
ghost use Rattle.naltvigo.specs.Explaining.{IsExplanationOf};

use crate::buffer::give;
use crate::naming::reason_numbered;
use crate::settings::bounds_of;
use crate::status::{BAD_LIMITS, NO_MEMORY, OK, TOO_SMALL};
use cbor_diag::explanation_text;
use cbor_head::Refusal;
use std::alloc::Global;

/// Writes what a refusal means, what to do, and the path to its offset, joined by line feeds, to the
/// prefix of `out`. The input begins with the item that was refused within these limits. Of a number
/// that is no reason's the text is empty.
#[unsafe(no_mangle)]
pub extern "C" fn naltvigo_explain_raw(
    alloc: Global,
    input: &[u8],
    depth: u32,
    bytes: u64,
    reason: u32,
    offset: u64,
    out: &mut [u8],
    needed: &mut usize,
) -> u32
    ensures written { result ≡ OK
        → IsExplanationOf depth input.now reason offset (take needed.new out.new) }
    ensures space { result ≡ OK → needed.new ≤ length out.old }
    ensures too_small { result ≡ TOO_SMALL
        → (x : List ℕ) × IsExplanationOf depth input.now reason offset x
        × (needed.new ≡ length x) × (length out.old < length x) }
    ensures bad_limits { result ≡ BAD_LIMITS → ¬ AreBounds (bounds depth bytes) }
    ensures in_range { result ≢ BAD_LIMITS → AreBounds (bounds depth bytes) }
    ensures statuses { (result ≡ OK) ⊎ (result ≡ TOO_SMALL)
        ⊎ (result ≡ NO_MEMORY) ⊎ (result ≡ BAD_LIMITS) }
    ensures kept { (result ≢ OK → out.new ≡ out.old)
        × (drop needed.new out.new ≡ drop needed.new out.old) }
    ensures no_count { result ≢ OK → result ≢ TOO_SMALL → needed.new ≡ 0 }
{
    *needed = 0;
    let Some(limits) = bounds_of(depth, bytes) else {
        return BAD_LIMITS;
    };
    let Some(reason) = reason_numbered(reason) else {
        return OK;
    };
    match explanation_text(alloc, input, limits, Refusal::at(reason, offset)) {
        Ok(text) => give(text.as_slice(), out, needed),
        Err(_) => NO_MEMORY,
    }
}
