//! The item at the start of a slice, if it is valid.

ghost use Rattle.std.specs.Prelude.{◌≡◌, ◌≢◌, IfOk, IfErr, IsOk, IsTrue};
ghost use Rattle.cbor_head.specs.Complaint.{plain};
ghost use Rattle.cbor_head.specs.Value.{Value};
ghost use Rattle.cbor_head.specs.declared.order.KeyOrder.TheVariants as orders;
ghost use Rattle.cbor_head.specs.declared.reason.Reason.TheVariants as reasons;
ghost use Rattle.theory_verdicts.specs.Readers.{BeginsWithCanonical, IsRead, IsUnread, ReportsMemoryAtStart};

use crate::canonical_probe::probe_canonical;
use crate::key_bytes::KeyBytes;
use cbor_head::{KeyOrder, Limits, Refusal};
use cbor_memory::Memory;
use cbor_parser::Parser;
use std::alloc::Global;

/// Returns the size in bytes of the well-formed, valid item that the slice begins with (RFC 8949, sections 3 and
/// 5.3.1); else the refusal of the bytes within the limits, or `Memory`, if memory was refused before that, with 0 as
/// `place` and `read`.
///
/// It returns what [`read_tree`](crate::read_tree) returns for a reader over the slice. No tree is made. For an item
/// that is not canonical, the canonical bytes of keys are stored, to find equal ones; for a canonical one nothing is
/// allocated.
pub fn check_valid(alloc: Global, bytes: &[u8], limits: Limits) -> Result<u64, Refusal>
    ensures accepted { IfOk result (λ count. IsRead limits plain bytes.now count) }
    ensures own { (v : Value) → BeginsWithCanonical limits orders.Bytewise bytes.now v
        → IsOk result }
    ensures refused { IfErr result (λ f. IsUnread limits plain bytes.now f) }
    ensures no_read { IfErr result (λ f. f.reason ≢ reasons.Read) }
    ensures memory { IfErr result ReportsMemoryAtStart }
{
    check_valid_in(&mut Memory::new(), alloc, bytes, limits)
}

/// Checks an item as [`check_valid`] does, and records in `memory` whether a request for memory was refused. If none was,
/// the refusal is not `Memory`. Pass a new `Memory` to learn whether this call was refused memory: if `memory` records a
/// refusal already, the clause `request` says nothing.
pub fn check_valid_in(
    memory: &mut Memory,
    alloc: Global,
    bytes: &[u8],
    limits: Limits,
) -> Result<u64, Refusal>
    ensures accepted { IfOk result (λ count. IsRead limits plain bytes.now count) }
    ensures own { (v : Value) → BeginsWithCanonical limits orders.Bytewise bytes.now v
        → IsOk result }
    ensures refused { IfErr result (λ f. IsUnread limits plain bytes.now f) }
    ensures no_read { IfErr result (λ f. f.reason ≢ reasons.Read) }
    ensures memory { IfErr result ReportsMemoryAtStart }
    ensures request { IfErr result (λ f. f.reason ≡ reasons.Memory → IsTrue memory.new) }
    ensures kept { IfOk result (λ _. memory.new ≡ memory.old) }
{
    match probe_canonical(bytes, limits, KeyOrder::Bytewise)? {
        Some(size) => Ok(size),
        None => valid_size(memory, alloc, bytes, limits),
    }
}

// The size in bytes of a valid item that is not canonical. Not inlined, so that a canonical item needs no space on the
// stack for keys.
#[inline(never)]
fn valid_size(
    memory: &mut Memory,
    alloc: Global,
    bytes: &[u8],
    limits: Limits,
) -> Result<u64, Refusal>
    ensures accepted { IfOk result (λ count. IsRead limits plain bytes.now count) }
    ensures refused { IfErr result (λ f. IsUnread limits plain bytes.now f) }
    ensures no_read { IfErr result (λ f. f.reason ≢ reasons.Read) }
    ensures memory { IfErr result ReportsMemoryAtStart }
    ensures request { IfErr result (λ f. f.reason ≡ reasons.Memory → IsTrue memory.new) }
    ensures kept { IfOk result (λ _. memory.new ≡ memory.old) }
{
    let mut building = Parser::new(KeyBytes::new(alloc));
    match building.parse_item(bytes, limits) {
        Ok(size) => Ok(size),
        Err(refusal) => {
            memory.include(building.sink.memory());
            Err(refusal)
        }
    }
}
