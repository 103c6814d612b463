//! Canonical bytes into a buffer of the caller's.

ghost use Rattle.std.specs.Prelude.{◌≡◌, IsTrue};
ghost use Rattle.naltvigo.specs.Canonicalising.{HasCanonicalised};

use crate::buffer::give;
use crate::settings::{limits_of, order_numbered};
use crate::status::{BAD_LIMITS, BAD_ORDER, NO_MEMORY, NaltvigoRefusal, report};
use cbor_memory::Memory;
use cbor_reader::canonical_bytes_in;
use cbor_reader::laws::{
    equal_results_of_same_values, inputs_with_results_are_valid_items,
    results_are_their_own_results,
};
use std::alloc::Global;

/// Writes the canonical bytes of the one valid item that `input` is to the prefix of `out`.
///
/// `needed` becomes their number if the status is `OK` or `TOO_SMALL`, else 0, and `refusal` is
/// filled if it is `REFUSED` or `NO_MEMORY`. Unless it is `OK`, `out` is unchanged. For
/// canonical input it allocates nothing, and the only copy is the one in `out`.
#[unsafe(no_mangle)]
pub extern "C" fn naltvigo_canonicalise_raw(
    alloc: Global,
    input: &[u8],
    order: u32,
    keys: u32,
    depth: u32,
    bytes: u64,
    out: &mut [u8],
    needed: &mut usize,
    refusal: &mut NaltvigoRefusal,
) -> u32
    ensures canonicalised { HasCanonicalised input.now order keys depth bytes out.old out.new
        needed.new refusal.old refusal.new result }
{
    canonicalise_item(
        &mut Memory::new(),
        alloc,
        input,
        order,
        keys,
        depth,
        bytes,
        out,
        needed,
        refusal,
    )
}

// Writes what the export writes, and records in `memory` whether a request for memory was refused. If none was, it does
// not return `NO_MEMORY`.
fn canonicalise_item(
    memory: &mut Memory,
    alloc: Global,
    input: &[u8],
    order: u32,
    keys: u32,
    depth: u32,
    bytes: u64,
    out: &mut [u8],
    needed: &mut usize,
    refusal: &mut NaltvigoRefusal,
) -> u32
    ensures canonicalised { HasCanonicalised input.now order keys depth bytes out.old out.new
        needed.new refusal.old refusal.new result }
    ensures request { result ≡ NO_MEMORY → IsTrue memory.new }
{
    *needed = 0;
    let Some(order) = order_numbered(order) else {
        return BAD_ORDER;
    };
    let Some(limits) = limits_of(keys, depth, bytes) else {
        return BAD_LIMITS;
    };
    inputs_with_results_are_valid_items();
    equal_results_of_same_values();
    results_are_their_own_results();
    match canonical_bytes_in(memory, alloc, input, limits, order) {
        Ok(canonical) => give(canonical.as_slice(), out, needed),
        Err(reason) => report(reason, refusal),
    }
}
