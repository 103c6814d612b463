//! Whether two inputs mean the same.

ghost use Rattle.std.specs.Prelude.{◌≡◌, ◌≢◌, ◌↔◌, ◌≤◌, IsTrue, IfOk, IfErr, length};
ghost use Rattle.cbor_head.specs.Spelling.{Spelling, value_of};
ghost use Rattle.cbor_head.specs.Value.{Same};
ghost use Rattle.cbor_head.specs.declared.order.KeyOrder.TheVariants as orders;
ghost use Rattle.cbor_head.specs.declared.reason.Reason.TheVariants as reasons;
ghost use Rattle.theory_verdicts.specs.Readers.{ReportsMemoryAtStart};
ghost use Rattle.cbor_reader.specs.Canonicalise.{IsCanonicalOf};
ghost use Rattle.cbor_reader.specs.Comparing.{MeanTheSame, IsSideRefusal, input_of, memory_of};
ghost use Rattle.cbor_reader.specs.Headline.{IsValidItem};
ghost use Rattle.cbor_reader.specs.WholeItem.{IsWholeItem};

use crate::whole_item::encoded_item;
use cbor_head::{KeyOrder, Limits, Refusal};
use cbor_memory::Memory;
use std::alloc::Global;

/// One of the two inputs of a comparison.
#[derive(Clone, Copy, Debug, PartialEq, Eq)]
pub enum Side {
    /// The first one; its refusal is reported first.
    Left,
    /// The second one.
    Right,
}

/// Whether the two inputs, each one well-formed, valid item, have the same value (RFC 8949, section
/// 5.6.1): equal kinds, numbers and bytes, arrays member by member, maps by their pairs in any
/// order.
///
/// The limits hold for each input separately, and not for canonical bytes. The refusal is that of
/// the left input, or of the right one if the left is accepted: that of its bytes within the
/// limits; then `Trailing`, if a byte follows the item, with the item's length as `place` and
/// `read`; or `Memory`, if memory was refused before that, with 0 as both, for the side that was
/// being read. A side that is canonical already allocates nothing, nor does a right one with the
/// bytes of the left. Canonical bytes are compared, so large maps in different orders take as long
/// as sorting them.
pub fn same_meaning(
    alloc: Global,
    left: &[u8],
    right: &[u8],
    limits: Limits,
) -> Result<bool, (Side, Refusal)>
    ensures outcome { IfOk result (λ same. IsTrue same ↔ MeanTheSame limits left.now right.now) }
    ensures accepted { IfOk result (λ _. IsWholeItem limits left.now
        × IsWholeItem limits right.now) }
    ensures values { IfOk result (λ same. (s t : Spelling)
        → IsValidItem limits left.now s
        → IsValidItem limits right.now t
        → IsTrue same ↔ Same (value_of s) (value_of t)) }
    ensures refused { IfErr result (λ e. IsSideRefusal limits left.now right.now e.0 e.1) }
    ensures memory { IfErr result (λ e. ReportsMemoryAtStart e.1) }
    ensures own { IfErr result (λ e. ¬ IsCanonicalOf limits orders.Bytewise
        (input_of e.0 left.now right.now) (input_of e.0 left.now right.now)) }
    ensures equal { IfErr result (λ e. left.now ≡ right.now → e.0 ≡ Side.Left) }
    ensures only { IfErr result (λ e. e.1.reason ≢ reasons.Memory
        → IsWholeItem limits left.now
        → ¬ IsWholeItem limits right.now) }
{
    same_meaning_in(
        &mut Memory::new(),
        &mut Memory::new(),
        alloc,
        left,
        right,
        limits,
    )
}

/// Compares two inputs as [`same_meaning`] does, and records for each whether a request for memory was refused. The
/// refusal of an input is not `Memory` if none was refused for it. Pass two new `Memory`s to learn whether this call was
/// refused memory: if the `Memory` of an input records a refusal already, the clause `request` says nothing about it.
pub fn same_meaning_in(
    left_memory: &mut Memory,
    right_memory: &mut Memory,
    alloc: Global,
    left: &[u8],
    right: &[u8],
    limits: Limits,
) -> Result<bool, (Side, Refusal)>
    ensures outcome { IfOk result (λ same. IsTrue same ↔ MeanTheSame limits left.now right.now) }
    ensures accepted { IfOk result (λ _. IsWholeItem limits left.now
        × IsWholeItem limits right.now) }
    ensures values { IfOk result (λ same. (s t : Spelling)
        → IsValidItem limits left.now s
        → IsValidItem limits right.now t
        → IsTrue same ↔ Same (value_of s) (value_of t)) }
    ensures refused { IfErr result (λ e. IsSideRefusal limits left.now right.now e.0 e.1) }
    ensures memory { IfErr result (λ e. ReportsMemoryAtStart e.1) }
    ensures own { IfErr result (λ e. ¬ IsCanonicalOf limits orders.Bytewise
        (input_of e.0 left.now right.now) (input_of e.0 left.now right.now)) }
    ensures equal { IfErr result (λ e. left.now ≡ right.now → e.0 ≡ Side.Left) }
    ensures only { IfErr result (λ e. e.1.reason ≢ reasons.Memory
        → IsWholeItem limits left.now
        → ¬ IsWholeItem limits right.now) }
    ensures request { IfErr result (λ e. e.1.reason ≡ reasons.Memory
        → IsTrue (memory_of e.0 left_memory.new right_memory.new)) }
    ensures kept { IfOk result (λ _. (left_memory.new ≡ left_memory.old)
        × (right_memory.new ≡ right_memory.old)) }
{
    let left_item = match encoded_item(left_memory, alloc, left, limits, KeyOrder::Bytewise) {
        Ok(bytes) => bytes,
        Err(refusal) => return Err((Side::Left, refusal)),
    };
    // The same bytes are the same item, which is checked already.
    if left == right {
        return Ok(true);
    }
    // If the right input is the left one's canonical bytes, it is a valid item of the same value.
    if is_within(right, left_item.as_slice(), limits.bytes()) {
        return Ok(true);
    }
    let right_item = match encoded_item(right_memory, alloc, right, limits, KeyOrder::Bytewise) {
        Ok(bytes) => bytes,
        Err(refusal) => return Err((Side::Right, refusal)),
    };
    Ok(left_item.as_slice() == right_item.as_slice())
}

// Whether an input is these bytes, and they are within the limit.
#[inline(always)]
fn is_within(input: &[u8], canonical: &[u8], limit: u64) -> bool
    ensures equal { IsTrue result → input.now ≡ canonical.now }
    ensures within { IsTrue result → length input.now ≤ limit }
{
    input.len() as u64 <= limit && input == canonical
}
