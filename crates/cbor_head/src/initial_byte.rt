//! Whether an item may begin with a byte, and why not.

ghost use Rattle.std.specs.Prelude.{◌≡◌, ◌↔◌, IsTrue, MatchOption};
ghost use Rattle.cbor_head.specs.InitialByte.{MayBegin, IsInitialByteError};
ghost use Rattle.cbor_head.specs.Verdict.{initial_reason};

use crate::Reason;

/// Returns why no item may begin with this byte, or `None` if one may (RFC 8949, section 3 and
/// appendix F). `space` says whether the depth limit lets one more array, map or tag open.
///
/// ```
/// assert_eq!(rt; initial_byte_error(0x81, true), None);
/// assert_eq!(rt; initial_byte_error(0x81, false), Some(Reason::TooDeep));
/// ```
pub fn initial_byte_error(first: u8, space: bool) -> Option<Reason>
    ensures { MatchOption result (MayBegin first space) (IsInitialByteError first space) }
{
    if may_begin(first, space) {
        return None;
    }
    Some(initial_byte_reason(first))
}

/// Why an item cannot begin with this byte. For a byte that begins an item it is `TooDeep`.
pub fn initial_byte_reason(first: u8) -> Reason
    ensures { result ≡ initial_reason first }
{
    match first {
        0xff => Reason::StrayBreak,
        0xf9 | 0xfa | 0xfb => Reason::Float,
        0x1f | 0x3f | 0xdf => Reason::NoIndefinite,
        _ if 28 <= first % 32 && first % 32 <= 30 => Reason::Reserved,
        _ => Reason::TooDeep,
    }
}

// Whether an item may begin with this byte.
fn may_begin(first: u8, space: bool) -> bool
    ensures { IsTrue result ↔ MayBegin first space }
{
    let is_head = match first % 32 {
        0..=27 => first < 0xf9,
        31 => 0x40 <= first && first < 0xc0,
        _ => false,
    };
    let is_container = 0x80 <= first && first < 0xe0;
    is_head && (space || !is_container)
}
