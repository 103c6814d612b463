//! Whether two inputs mean the same.

ghost use Rattle.std.specs.Prelude.{◌≡◌, IsTrue};
ghost use Rattle.cbor_reader.specs.Comparing.{memory_of};
ghost use Rattle.cbor_reader.specs.declared.comparison.Side.{Side};
ghost use Rattle.naltvigo.specs.Comparing.{HasCompared, side_number as number_of};

use crate::settings::limits_of;
use crate::status::{BAD_LIMITS, DIFFERENT, NO_MEMORY, NaltvigoRefusal, OK, report};
use cbor_memory::Memory;
use cbor_reader::{Side, same_meaning_in};
use std::alloc::Global;

/// The first of two inputs.
pub const LEFT: u32 = 0;
/// The second of two inputs.
pub const RIGHT: u32 = 1;

/// Whether the one valid item that each input is has the same value: `OK` or `DIFFERENT`.
///
/// `side` and `refusal` are filled if the status is `REFUSED` or `NO_MEMORY`. For a side in its
/// canonical bytes, in the bytewise order, it allocates nothing, nor for a right one with the bytes
/// of the left.
#[unsafe(no_mangle)]
pub extern "C" fn naltvigo_compare_raw(
    alloc: Global,
    left: &[u8],
    right: &[u8],
    keys: u32,
    depth: u32,
    bytes: u64,
    side: &mut u32,
    refusal: &mut NaltvigoRefusal,
) -> u32
    ensures compared { HasCompared left.now right.now keys depth bytes side.old side.new
        refusal.old refusal.new result }
{
    compare_items(
        &mut Memory::new(),
        &mut Memory::new(),
        alloc,
        left,
        right,
        keys,
        depth,
        bytes,
        side,
        refusal,
    )
}

// Compares as the export does, and records for each input whether a request for memory was refused. If none was refused
// for the input of that side, it does not return `NO_MEMORY`.
fn compare_items(
    left_memory: &mut Memory,
    right_memory: &mut Memory,
    alloc: Global,
    left: &[u8],
    right: &[u8],
    keys: u32,
    depth: u32,
    bytes: u64,
    side: &mut u32,
    refusal: &mut NaltvigoRefusal,
) -> u32
    ensures compared { HasCompared left.now right.now keys depth bytes side.old side.new
        refusal.old refusal.new result }
    ensures request { result ≡ NO_MEMORY → (s : Side) × (side.new ≡ number_of s)
        × IsTrue (memory_of s left_memory.new right_memory.new) }
{
    let Some(limits) = limits_of(keys, depth, bytes) else {
        return BAD_LIMITS;
    };
    match same_meaning_in(left_memory, right_memory, alloc, left, right, limits) {
        Ok(true) => OK,
        Ok(false) => DIFFERENT,
        Err((refused, reason)) => {
            *side = side_number(refused);
            report(reason, refusal)
        }
    }
}

// The side as C has it.
fn side_number(side: Side) -> u32
    ensures { result ≡ number_of side }
{
    match side {
        Side::Left => LEFT,
        Side::Right => RIGHT,
    }
}
