//! Why a string in chunks is refused.

ghost use Rattle.std.specs.Prelude.{◌<◌, ◌+◌, ◌^◌, length, MatchOption};
ghost use Rattle.cbor_parser.specs.inner.Begins.{AreWholeChunks};
ghost use Rattle.cbor_parser.specs.inner.Parts.{chunked_from};
ghost use Rattle.cbor_parser.specs.inner.Faults.{AreChunksRefused};

use crate::item_start::{refusal_at, string_refusal};
use cbor_head::{Reason, Refusal, read_argument};

/// The refusal of a string in chunks, for the first part that is no chunk or is incomplete. The
/// string's opener is at this offset of the input, and `following` follows it. None if a break ends
/// the string.
#[cold]
#[inline(never)]
pub(crate) fn chunks_fault(is_text: bool, following: &[u8], at: usize) -> Option<Refusal>
    requires { at + 1 + length following.now < 2 ^ 63 }
    ensures { MatchOption result (AreWholeChunks is_text following.now)
        (AreChunksRefused (chunked_from is_text following.now) at) }
{
    let kind = if is_text { 3 } else { 2 };
    let end = at + 1 + following.len();
    let mut rest = following;
    'chunks: loop {
        let Some((first, following)) = rest.split_first() else {
            return Some(refusal_at(Reason::Truncated, end, end));
        };
        if *first == 0xff {
            return None;
        }
        let here = end - rest.len();
        let low = *first % 32;
        if *first / 32 != kind || low > 27 {
            return Some(refusal_at(Reason::BadChunk, here, here + 1));
        }
        let Some(head) = read_argument(low, following) else {
            return Some(refusal_at(Reason::Truncated, end, end));
        };
        if let Some(refusal) = string_refusal(rest, head, here) {
            return Some(refusal);
        }
        rest = &head.rest[head.number as usize..];
    }
}
