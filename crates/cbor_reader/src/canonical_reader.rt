//! The canonical bytes of the item at the start of a slice.

ghost use Rattle.std.specs.Prelude.{◌≡◌, ◌≢◌, IfOk, IfErr, IsOk, IsTrue};
ghost use Rattle.std.specs.Cow.{cow_slice_items, IsBorrowedSlice};
ghost use Rattle.cbor_head.specs.Complaint.{plain};
ghost use Rattle.cbor_head.specs.Value.{Value};
ghost use Rattle.cbor_head.specs.declared.reason.Reason.TheVariants as reasons;
ghost use Rattle.theory_verdicts.specs.Readers.{BeginsWithCanonical, IsUnread, ReportsMemoryAtStart};
ghost use Rattle.cbor_reader.specs.BuiltPrefix.{IsBuiltPrefix};

use crate::built_prefix::build_prefix;
use crate::canonical_probe::probe_canonical;
use cbor_head::{KeyOrder, Limits, Refusal};
use cbor_memory::Memory;
use std::alloc::Global;
use std::borrow::CowSlice;

/// Returns the canonical bytes, in this order and of any length, of the well-formed, valid item
/// that the slice begins with (RFC 8949, sections 4.2.1 and 4.2.3), and the item's size in bytes.
///
/// If the item is canonical already, its bytes are returned unchanged, and nothing is allocated.
/// The refusal is that of the bytes within the limits; or `Memory`, if memory was refused before
/// that, with 0 as `place` and `read`.
#[inline(always)]
pub fn read_canonical<'a>(
    alloc: Global,
    bytes: &'a [u8],
    limits: Limits,
    order: KeyOrder,
) -> Result<(CowSlice<'a, u8>, u64), Refusal>
    ensures accepted { IfOk result (λ outcome.
        IsBuiltPrefix limits order bytes.now (cow_slice_items outcome.0) outcome.1) }
    ensures own { (v : Value) → BeginsWithCanonical limits order bytes.now v → IsOk result }
    ensures borrowed { (v : Value) → BeginsWithCanonical limits order bytes.now v
        → IfOk result (λ outcome. IsBorrowedSlice outcome.0) }
    ensures refused { IfErr result (λ f. IsUnread limits plain bytes.now f) }
    ensures no_read { IfErr result (λ f. f.reason ≢ reasons.Read) }
    ensures memory { IfErr result ReportsMemoryAtStart }
{
    read_canonical_in(&mut Memory::new(), alloc, bytes, limits, order)
}

/// Returns what [`read_canonical`] returns, and records in `memory` whether a request for memory was refused. If none was,
/// the refusal is not `Memory`. Pass a new `Memory` to learn whether this call was refused memory: if `memory` records a
/// refusal already, the clause `request` says nothing.
#[inline(always)]
pub fn read_canonical_in<'a>(
    memory: &mut Memory,
    alloc: Global,
    bytes: &'a [u8],
    limits: Limits,
    order: KeyOrder,
) -> Result<(CowSlice<'a, u8>, u64), Refusal>
    ensures accepted { IfOk result (λ outcome.
        IsBuiltPrefix limits order bytes.now (cow_slice_items outcome.0) outcome.1) }
    ensures own { (v : Value) → BeginsWithCanonical limits order bytes.now v → IsOk result }
    ensures borrowed { (v : Value) → BeginsWithCanonical limits order bytes.now v
        → IfOk result (λ outcome. IsBorrowedSlice outcome.0) }
    ensures refused { IfErr result (λ f. IsUnread limits plain bytes.now f) }
    ensures no_read { IfErr result (λ f. f.reason ≢ reasons.Read) }
    ensures memory { IfErr result ReportsMemoryAtStart }
    ensures request { IfErr result (λ f. f.reason ≡ reasons.Memory → IsTrue memory.new) }
    ensures kept { IfOk result (λ _. memory.new ≡ memory.old) }
{
    match probe_canonical(bytes, limits, order)? {
        Some(size) => Ok((CowSlice::Borrowed(&bytes[..size as usize]), size)),
        None => match build_prefix(memory, alloc, bytes, limits, order) {
            Ok(prefix) => Ok((CowSlice::Owned(prefix.canonical), prefix.size)),
            Err(refusal) => Err(refusal),
        },
    }
}
