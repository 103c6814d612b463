//! The item at the start of a slice, if it is canonical.

ghost use Rattle.std.specs.Prelude.{◌≡◌, IfOk, IfErr};
ghost use Rattle.cbor_head.specs.Complaint.{strict};
ghost use Rattle.cbor_head.specs.Verdict.{IsVerdict, refused};
ghost use Rattle.theory_verdicts.specs.Readers.{IsRead, IsCanonicalPrefix, HasNoCanonicalPrefix};
ghost use Rattle.cbor_parser.specs.NotCanonical.{strict_refusal};

use cbor_head::{KeyOrder, Limits, Reason, Refusal};
use cbor_parser::canonical_prefix;

/// Returns the size in bytes of the item that the slice begins with, if its bytes are canonical in
/// this order (RFC 8949, sections 4.2.1 and 4.2.3); else the refusal of the bytes within the
/// limits, by the rules of the deterministic encoding.
///
/// It returns what [`read_strict`](crate::read_strict) returns for a reader over the slice. It
/// reads the bytes once, without recursion, and allocates nothing: the last key of each open map is
/// a part of the slice.
pub fn check_canonical(bytes: &[u8], limits: Limits, order: KeyOrder) -> Result<u64, Refusal>
    ensures accepted { IfOk result (λ count. IsRead limits (strict order) bytes.now count) }
    ensures canonical { IfOk result (λ count. IsCanonicalPrefix limits order bytes.now count) }
    ensures refused { IfErr result (λ f. IsVerdict limits (strict order) bytes.now (refused f)) }
    ensures no_canonical { IfErr result (λ f. HasNoCanonicalPrefix limits order bytes.now) }
{
    match canonical_prefix(bytes, limits, order) {
        Ok(count) => Ok(count),
        Err(refusal) => Err(strictly(refusal)),
    }
}

// For keys that do not rise the strict rules have one reason, whether the keys are the same or not.
fn strictly(refusal: Refusal) -> Refusal
    ensures { result ≡ strict_refusal refusal }
{
    match refusal.reason {
        Reason::RepeatedKey => Refusal::new(Reason::KeyOrder, refusal.place, refusal.read),
        _ => refusal,
    }
}
