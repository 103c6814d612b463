//! The canonical bytes of the valid item at the start of a slice.

ghost use Rattle.std.specs.Prelude.{◌≡◌, ◌≢◌, IfOk, IfErr, IsTrue};
ghost use Rattle.cbor_head.specs.Complaint.{plain};
ghost use Rattle.cbor_head.specs.declared.reason.Reason.TheVariants as reasons;
ghost use Rattle.theory_verdicts.specs.Readers.{IsUnread, ReportsMemoryAtStart};
ghost use Rattle.cbor_reader.specs.BuiltPrefix.{IsBuiltPrefix};

use cbor_builder::CanonBuilder;
use cbor_head::{KeyOrder, Limits, Refusal};
use cbor_memory::Memory;
use cbor_parser::Parser;
use std::alloc::Global;

/// The canonical bytes of the item that a slice begins with, and the item's size in bytes.
#[derive(Drop)]
pub(crate) struct BuiltPrefix {
    pub(crate) canonical: Vec<u8>,
    pub(crate) size: u64,
}

/// The canonical bytes, in this order and of any length, of the well-formed, valid item that the
/// slice begins with (RFC 8949, sections 3, 4.2 and 5.3.1), within the limits; else its refusal.
/// `memory` records whether a request was refused, and the refusal is `Memory` only then.
///
/// It reads the bytes once, without recursion; if a key is repeated, it reads its map once more, up
/// to that key. It is not inlined, so that a caller that first checks for canonical bytes has no
/// space on its stack for the walk.
#[inline(never)]
pub(crate) fn build_prefix(
    memory: &mut Memory,
    alloc: Global,
    bytes: &[u8],
    limits: Limits,
    order: KeyOrder,
) -> Result<BuiltPrefix, Refusal>
    ensures accepted { IfOk result (λ f.
        IsBuiltPrefix limits order bytes.now f.canonical.items f.size) }
    ensures refused { IfErr result (λ f. IsUnread limits plain bytes.now f) }
    ensures no_read { IfErr result (λ f. f.reason ≢ reasons.Read) }
    ensures memory { IfErr result ReportsMemoryAtStart }
    ensures request { IfErr result (λ f. f.reason ≡ reasons.Memory → IsTrue memory.new) }
    ensures kept { IfOk result (λ _. memory.new ≡ memory.old) }
{
    let mut building = Parser::new(CanonBuilder::new(alloc, order));
    match building.parse_item(bytes, limits) {
        Ok(size) => Ok(BuiltPrefix {
            canonical: building.sink.finish(),
            size,
        }),
        Err(refusal) => {
            memory.include(building.sink.memory());
            Err(refusal)
        }
    }
}

/// Builds the canonical bytes of one item after another, in memory that it reuses.
#[derive(Drop)]
pub(crate) struct PrefixBuilder {
    building: Parser<CanonBuilder>,
}

impl PrefixBuilder {
    /// A builder with no memory; allocates nothing.
    pub(crate) fn new(alloc: Global) -> PrefixBuilder {
        PrefixBuilder {
            building: Parser::new(CanonBuilder::new(alloc, KeyOrder::Bytewise)),
        }
    }

    /// Returns what [`build_prefix`] returns, whatever was called before. The bytes are in the
    /// sink.
    pub(crate) fn build(
        &mut self,
        memory: &mut Memory,
        bytes: &[u8],
        limits: Limits,
        order: KeyOrder,
    ) -> Result<(&[u8], u64), Refusal>
        ensures accepted { IfOk result (λ outcome.
            IsBuiltPrefix limits order bytes.now outcome.0.now outcome.1) }
        ensures refused { IfErr result (λ f. IsUnread limits plain bytes.now f) }
        ensures no_read { IfErr result (λ f. f.reason ≢ reasons.Read) }
        ensures memory { IfErr result ReportsMemoryAtStart }
        ensures request { IfErr result (λ f. f.reason ≡ reasons.Memory → IsTrue memory.new) }
        ensures kept { IfOk result (λ _. memory.new ≡ memory.old) }
    {
        self.building.sink.clear(order);
        match self.building.parse_item(bytes, limits) {
            Ok(size) => Ok((self.building.sink.as_slice(), size)),
            Err(refusal) => {
                memory.include(self.building.sink.memory());
                Err(refusal)
            }
        }
    }
}
