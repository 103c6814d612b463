//! A check of an item for canonical bytes, before anything is built for it.

ghost use Rattle.std.specs.Prelude.{◌≡◌, ◌≤◌, ◌≢◌, IfOk, IfErr, IfSome, Ok, None, length, take};
ghost use Rattle.cbor_head.specs.Complaint.{plain};
ghost use Rattle.cbor_head.specs.Verdict.{IsVerdict, refused};
ghost use Rattle.cbor_head.specs.declared.reason.Reason.TheVariants as reasons;
ghost use Rattle.theory_verdicts.specs.Readers.{HasNoCanonicalPrefix};
ghost use Rattle.cbor_reader.specs.BuiltPrefix.{IsBuiltPrefix};

use cbor_head::{KeyOrder, Limits, Reason, Refusal};
use cbor_parser::canonical_prefix;

/// The size in bytes of the item that the slice begins with, if its bytes are canonical in this
/// order. None if they are not: the item may still be valid. Else its refusal.
#[inline(always)]
pub(crate) fn probe_canonical(
    bytes: &[u8],
    limits: Limits,
    order: KeyOrder,
) -> Result<Option<u64>, Refusal>
    ensures accepted { IfOk result (λ found. IfSome found (λ count.
        IsBuiltPrefix limits order bytes.now (take count bytes.now) count)) }
    ensures within { IfOk result (λ found. IfSome found (λ count. count ≤ length bytes.now)) }
    ensures none { result ≡ Ok None → HasNoCanonicalPrefix limits order bytes.now }
    ensures refused { IfErr result (λ f. IsVerdict limits plain bytes.now (refused f)) }
    ensures reason { IfErr result (λ f. (f.reason ≢ reasons.Read) × (f.reason ≢ reasons.Memory)) }
    ensures no_canonical { IfErr result (λ _. HasNoCanonicalPrefix limits order bytes.now) }
{
    match canonical_prefix(bytes, limits, order) {
        Ok(size) => Ok(Some(size)),
        Err(refusal) => match refusal.reason {
            Reason::NotShortest | Reason::Indefinite | Reason::KeyOrder => Ok(None),
            _ => Err(refusal),
        },
    }
}

// The number of items that are not probed after one that is not canonical.
const PAUSE: u8 = 15;

/// Decides which items of many are probed: an item is if the one before was canonical, or after
/// [`PAUSE`] items that were not probed.
#[derive(Clone, Copy)]
pub(crate) struct CanonicalProbe {
    // The number of next items that are not probed.
    pause: u8,
}

impl CanonicalProbe {
    /// The state before the first item.
    pub(crate) fn new() -> CanonicalProbe {
        CanonicalProbe { pause: 0 }
    }

    /// Whether the next item is to be probed.
    #[inline(always)]
    pub(crate) fn is_expected(&mut self) -> bool {
        if self.pause == 0 {
            return true;
        }
        self.pause -= 1;
        false
    }

    /// The item was probed, and is not canonical.
    #[inline(always)]
    pub(crate) fn failed(&mut self) {
        self.pause = PAUSE;
    }
}
