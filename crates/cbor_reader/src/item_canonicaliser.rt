//! Canonical bytes of one item after another.

ghost use Rattle.std.specs.Prelude.{◌≢◌, IfOk, IfErr};
ghost use Rattle.cbor_head.specs.Complaint.{plain};
ghost use Rattle.cbor_head.specs.declared.reason.Reason.TheVariants as reasons;
ghost use Rattle.theory_verdicts.specs.Readers.{IsUnread, ReportsMemoryAtStart};
ghost use Rattle.cbor_reader.specs.BuiltPrefix.{IsBuiltPrefix};

use crate::built_prefix::PrefixBuilder;
use crate::canonical_probe::{CanonicalProbe, probe_canonical};
use cbor_head::{KeyOrder, Limits, Refusal};
use cbor_memory::Memory;
use std::alloc::Global;

/// Returns the canonical bytes of one item after another, each as
/// [`read_canonical`](crate::read_canonical) does, in memory that it reuses.
#[derive(Drop)]
pub struct ItemCanonicaliser {
    prefixes: PrefixBuilder,
    looks: CanonicalProbe,
}

impl ItemCanonicaliser {
    /// Allocates nothing.
    pub fn new(alloc: Global) -> ItemCanonicaliser {
        ItemCanonicaliser {
            prefixes: PrefixBuilder::new(alloc),
            looks: CanonicalProbe::new(),
        }
    }

    /// Returns the canonical bytes of the item that the slice begins with, and the item's size in
    /// bytes; or its refusal. The slice is first checked for canonical bytes if the item before was
    /// canonical, and else only for some items; if it is canonical, it is not copied.
    pub fn canonicalise<'a>(
        &'a mut self,
        bytes: &'a [u8],
        limits: Limits,
        order: KeyOrder,
    ) -> Result<(&'a [u8], u64), Refusal>
        ensures accepted { IfOk result (λ outcome.
            IsBuiltPrefix limits order bytes.now outcome.0.now outcome.1) }
        ensures refused { IfErr result (λ f. IsUnread limits plain bytes.now f) }
        ensures no_read { IfErr result (λ f. f.reason ≢ reasons.Read) }
        ensures memory { IfErr result ReportsMemoryAtStart }
    {
        if self.looks.is_expected() {
            match probe_canonical(bytes, limits, order)? {
                Some(size) => return Ok((&bytes[..size as usize], size)),
                None => self.looks.failed(),
            }
        }
        self.prefixes
            .build(&mut Memory::new(), bytes, limits, order)
    }
}
