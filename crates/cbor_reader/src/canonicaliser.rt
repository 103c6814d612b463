//! The canonical bytes of a whole input.

ghost use Rattle.std.specs.Prelude.{◌≡◌, ◌≢◌, IfOk, IfErr, IsOk, IsTrue, MatchResult};
ghost use Rattle.std.specs.Cow.{cow_slice_items, IsBorrowedSlice};
ghost use Rattle.cbor_head.specs.declared.reason.Reason.TheVariants as reasons;
ghost use Rattle.theory_verdicts.specs.Readers.{ReportsMemoryAtStart};
ghost use Rattle.cbor_reader.specs.Canonicalise.{IsCanonicalOf, IsRefusal, DeterminesItsValue, IsCanonicaliserReason, IsMemoryRefusal};
ghost use Rattle.cbor_reader.specs.Headline.{HasResult, HasNoResult};

use crate::whole_item::encoded_item;
use cbor_head::{KeyOrder, Limits, Reason, Refusal};
use cbor_memory::Memory;
use std::alloc::Global;
use std::borrow::CowSlice;

/// Returns the canonical bytes, in this order, of the one well-formed, valid item that the whole
/// input is, if the input and these bytes are within the limits (RFC 8949, sections 4.2.1 and
/// 4.2.3).
///
/// The refusal is that of the bytes within the limits; then `Trailing`, if a byte follows the item,
/// even past the limit, with the item's length as `place` and `read`; then `CanonicalTooLong`, with
/// the input's length as both. If memory is refused before that, it is `Memory`, with 0 as both; or
/// with the input's length, if the result is known but could not be copied.
pub fn canonicalise(
    alloc: Global,
    bytes: &[u8],
    limits: Limits,
    order: KeyOrder,
) -> Result<Vec<u8>, Refusal>
    ensures outcome { MatchResult result
        (λ v. IsCanonicalOf limits order bytes.now v.items)
        (λ f. IsRefusal limits order bytes.now f) }
    ensures accepted { IfOk result (λ v. HasResult limits order bytes.now v.items) }
    ensures refused { IfErr result
        (λ f. f.reason ≢ reasons.Memory → HasNoResult limits order bytes.now) }
    ensures reason { IfErr result (λ f. IsCanonicaliserReason limits f.reason) }
    ensures memory { IfErr result
        (λ f. f.reason ≡ reasons.Memory → IsMemoryRefusal limits order bytes.now f) }
    ensures equal { IfOk result (λ v. DeterminesItsValue limits.depth order bytes.now v.items) }
    ensures again { IfOk result (λ v. IsCanonicalOf limits order v.items v.items) }
{
    canonicalise_in(&mut Memory::new(), alloc, bytes, limits, order)
}

/// Returns what [`canonicalise`] returns, and records in `memory` whether a request for memory was refused. If none was,
/// the refusal is not `Memory`. Pass a new `Memory` to learn whether this call was refused memory: if `memory` records a
/// refusal already, the clause `request` says nothing.
pub fn canonicalise_in(
    memory: &mut Memory,
    alloc: Global,
    bytes: &[u8],
    limits: Limits,
    order: KeyOrder,
) -> Result<Vec<u8>, Refusal>
    ensures outcome { MatchResult result
        (λ v. IsCanonicalOf limits order bytes.now v.items)
        (λ f. IsRefusal limits order bytes.now f) }
    ensures memory { IfErr result
        (λ f. f.reason ≡ reasons.Memory → IsMemoryRefusal limits order bytes.now f) }
    ensures request { IfErr result (λ f. f.reason ≡ reasons.Memory → IsTrue memory.new) }
    ensures kept { IfOk result (λ _. memory.new ≡ memory.old) }
{
    match canonical_bytes_in(memory, alloc, bytes, limits, order)? {
        CowSlice::Owned(made) => Ok(made),
        CowSlice::Borrowed(same) => match memory.copied(alloc, same) {
            Ok(copy) => Ok(copy),
            Err(_) => Err(Refusal::at(Reason::Memory, bytes.len() as u64)),
        },
    }
}

/// Returns the result of [`canonicalise`], without a copy if possible: if the input is canonical,
/// the result is the input itself, and nothing is allocated.
pub fn canonical_bytes<'a>(
    alloc: Global,
    bytes: &'a [u8],
    limits: Limits,
    order: KeyOrder,
) -> Result<CowSlice<'a, u8>, Refusal>
    ensures outcome { MatchResult result
        (λ c. IsCanonicalOf limits order bytes.now (cow_slice_items c))
        (λ f. IsRefusal limits order bytes.now f) }
    ensures own { IsCanonicalOf limits order bytes.now bytes.now → IsOk result }
    ensures borrowed { IsCanonicalOf limits order bytes.now bytes.now
        → IfOk result IsBorrowedSlice }
    ensures accepted { IfOk result (λ c. HasResult limits order bytes.now (cow_slice_items c)) }
    ensures refused { IfErr result
        (λ f. f.reason ≢ reasons.Memory → HasNoResult limits order bytes.now) }
    ensures reason { IfErr result (λ f. IsCanonicaliserReason limits f.reason) }
    ensures memory { IfErr result ReportsMemoryAtStart }
    ensures equal { IfOk result
        (λ c. DeterminesItsValue limits.depth order bytes.now (cow_slice_items c)) }
    ensures again { IfOk result
        (λ c. IsCanonicalOf limits order (cow_slice_items c) (cow_slice_items c)) }
{
    canonical_bytes_in(&mut Memory::new(), alloc, bytes, limits, order)
}

/// Returns what [`canonical_bytes`] returns, and records in `memory` whether a request for memory was refused. If none was,
/// the refusal is not `Memory`. Pass a new `Memory` to learn whether this call was refused memory: if `memory` records a
/// refusal already, the clause `request` says nothing.
pub fn canonical_bytes_in<'a>(
    memory: &mut Memory,
    alloc: Global,
    bytes: &'a [u8],
    limits: Limits,
    order: KeyOrder,
) -> Result<CowSlice<'a, u8>, Refusal>
    ensures outcome { MatchResult result
        (λ c. IsCanonicalOf limits order bytes.now (cow_slice_items c))
        (λ f. IsRefusal limits order bytes.now f) }
    ensures own { IsCanonicalOf limits order bytes.now bytes.now → IsOk result }
    ensures borrowed { IsCanonicalOf limits order bytes.now bytes.now
        → IfOk result IsBorrowedSlice }
    ensures memory { IfErr result ReportsMemoryAtStart }
    ensures request { IfErr result (λ f. f.reason ≡ reasons.Memory → IsTrue memory.new) }
    ensures kept { IfOk result (λ _. memory.new ≡ memory.old) }
{
    let canonical = encoded_item(memory, alloc, bytes, limits, order)?;
    if canonical.len() as u64 > limits.bytes() {
        return Err(Refusal::at(Reason::CanonicalTooLong, bytes.len() as u64));
    }
    Ok(canonical)
}
