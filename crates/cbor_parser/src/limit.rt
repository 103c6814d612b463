//! The limit on the bytes of an item: the part of an input within it, and the reason if that part
//! ends within an item.

ghost use Rattle.std.specs.Prelude.{◌≡◌, take};
ghost use Rattle.theory_verdicts.specs.Stop.{IsReportedAs};

use cbor_head::{Reason, Refusal};

/// The bytes within a limit.
pub fn within(bytes: &[u8], limit: u64) -> &[u8]
    ensures { result.now ≡ take limit bytes.now }
{
    if limit < bytes.len() as u64 {
        &bytes[..limit as usize]
    } else {
        bytes
    }
}

/// If the input ends within an item because of the limit, the item is too long and not truncated.
pub fn truncated_or_too_long(refusal: Refusal, input: &[u8], limit: u64) -> Refusal
    ensures { IsReportedAs limit input.now refusal result }
{
    if let Reason::Truncated = refusal.reason {
        if input.len() as u64 == limit {
            return Refusal::at(Reason::TooLong, limit);
        }
    }
    refusal
}
