//! Checks of one item after another.

ghost use Rattle.std.specs.Prelude.{◌≢◌, [], IfOk, IfErr};
ghost use Rattle.cbor_head.specs.Complaint.{plain};
ghost use Rattle.cbor_head.specs.declared.reason.Reason.TheVariants as reasons;
ghost use Rattle.theory_verdicts.specs.Levels.{item_expected};
ghost use Rattle.theory_verdicts.specs.Readers.{IsRead, IsUnread, ReportsMemoryAtStart};
ghost use Rattle.cbor_reader.specs.inner.KeyBytes.{keys_agree};

use crate::canonical_probe::{CanonicalProbe, probe_canonical};
use crate::key_bytes::KeyBytes;
use cbor_head::{KeyOrder, Limits, Refusal};
use cbor_parser::Parser;
use std::alloc::Global;

/// Checks one item after another, each as [`check_valid`](crate::check_valid) does, in memory that it
/// reuses.
#[derive(Drop)]
pub struct ItemCheck {
    building: Parser<KeyBytes>,
    looks: CanonicalProbe,
}

impl ItemCheck {
    /// Allocates nothing.
    pub fn new(alloc: Global) -> ItemCheck {
        ItemCheck {
            building: Parser::new(KeyBytes::new(alloc)),
            looks: CanonicalProbe::new(),
        }
    }

    /// Returns the size in bytes of the item that the slice begins with, or its refusal. Bytes that
    /// are canonical in the order of RFC 8949 are checked without a copy of their keys; this is tried
    /// first if the item before was canonical, and else only for some items.
    pub fn check(&mut self, bytes: &[u8], limits: Limits) -> Result<u64, Refusal>
        ensures accepted { IfOk result (λ count. IsRead limits plain bytes.now count) }
        ensures refused { IfErr result (λ f. IsUnread limits plain bytes.now f) }
        ensures no_read { IfErr result (λ f. f.reason ≢ reasons.Read) }
        ensures memory { IfErr result ReportsMemoryAtStart }
    {
        if self.looks.is_expected() {
            match probe_canonical(bytes, limits, KeyOrder::Bytewise)? {
                Some(size) => return Ok(size),
                None => self.looks.failed(),
            }
        }
        self.building.sink.clear();
        size_by_keys(&mut self.building, bytes, limits)
    }
}

// The size in bytes of the item that the slice begins with, or its refusal. The sink held no keys
// before. Not inlined, so that the check for canonical bytes before it has no space on its stack for
// the walk.
#[inline(never)]
fn size_by_keys(
    building: &mut Parser<KeyBytes>,
    bytes: &[u8],
    limits: Limits,
) -> Result<u64, Refusal>
    requires none { keys_agree building.old.sink building.old.sink (item_expected []) }
    ensures accepted { IfOk result (λ count. IsRead limits plain bytes.now count) }
    ensures refused { IfErr result (λ f. IsUnread limits plain bytes.now f) }
    ensures no_read { IfErr result (λ f. f.reason ≢ reasons.Read) }
    ensures memory { IfErr result ReportsMemoryAtStart }
{
    match building.parse_item(bytes, limits) {
        Ok(size) => Ok(size),
        Err(refusal) => Err(refusal),
    }
}
