//! The item that a whole input is.

ghost use Rattle.std.specs.Prelude.{◌≡◌, IfOk, IfErr, IsOk, IsTrue};
ghost use Rattle.std.specs.Cow.{cow_slice_items, IsBorrowedSlice};
ghost use Rattle.cbor_head.specs.Canonical.{canonical};
ghost use Rattle.cbor_head.specs.Complaint.{plain};
ghost use Rattle.cbor_head.specs.Spelling.{Spelling, value_of};
ghost use Rattle.cbor_head.specs.declared.reason.Reason.TheVariants as reasons;
ghost use Rattle.theory_verdicts.specs.Readers.{ReportsMemoryAtStart};
ghost use Rattle.cbor_reader.specs.Canonicalise.{IsCanonicalOf};
ghost use Rattle.cbor_reader.specs.Headline.{IsValidItem};
ghost use Rattle.cbor_reader.specs.WholeItem.{IsItemRefusal};

use crate::canonical_reader::read_canonical_in;
use cbor_head::{KeyOrder, Limits, Refusal};
use cbor_memory::Memory;
use std::alloc::Global;
use std::borrow::CowSlice;

// The canonical bytes, in this order and of any length, of the one item that the whole input is; the
// input itself if it is canonical.
#[inline(always)]
pub(crate) fn encoded_item<'a>(
    memory: &mut Memory,
    alloc: Global,
    bytes: &'a [u8],
    limits: Limits,
    order: KeyOrder,
) -> Result<CowSlice<'a, u8>, Refusal>
    ensures encoded { IfOk result (λ c. (s : Spelling)
        × IsValidItem limits bytes.now s
        × (cow_slice_items c ≡ canonical order (value_of s))) }
    ensures refused { IfErr result (IsItemRefusal limits plain bytes.now) }
    ensures memory { IfErr result ReportsMemoryAtStart }
    ensures request { IfErr result (λ f. f.reason ≡ reasons.Memory → IsTrue memory.new) }
    ensures kept { IfOk result (λ _. memory.new ≡ memory.old) }
    ensures own { IsCanonicalOf limits order bytes.now bytes.now → IsOk result }
    ensures borrowed { IsCanonicalOf limits order bytes.now bytes.now
        → IfOk result IsBorrowedSlice }
{
    // Calling this gives the prover the bound that all limits keep.
    let _bytes = limits.bytes();
    match read_canonical_in(memory, alloc, bytes, limits, order) {
        Ok((canonical, size)) => {
            if size < bytes.len() as u64 {
                return Err(Refusal::trailing(size));
            }
            Ok(canonical)
        }
        Err(refusal) => Err(refusal),
    }
}
