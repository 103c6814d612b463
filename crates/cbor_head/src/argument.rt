//! The argument of a head.

ghost use Rattle.std.specs.Prelude.{◌≡◌, ◌≤◌, ◌<◌, ◌-◌, ◌^◌, length, None, IfSome};
ghost use Rattle.cbor_head.specs.Argument.{IsArgument};

use crate::Width;
use byteorder::{BigEndian, ByteOrder};

/// The argument of a head, and what follows it.
#[derive(Clone, Copy, Debug)]
pub struct Argument<'a> {
    /// How the argument is encoded. It is not `Indefinite`.
    pub width: Width,
    /// The argument.
    pub number: u64,
    /// The bytes after the head.
    pub rest: &'a [u8],
}

/// Reads the argument of a head from the additional information, the low five bits of its initial
/// byte, and the bytes after that byte (RFC 8949, section 3). Returns `None` for additional
/// information above 27, or if the argument is truncated.
///
/// ```
/// // the head 19 03e8, and one byte more
/// let argument = read_argument(0x19 % 32, b"\x03\xe8\x00").unwrap();
/// assert_eq!(rt; argument.number, 1000);
/// assert_eq!(rt; argument.rest.len(), 1);
/// ```
#[inline(always)]
pub fn read_argument<'a>(low: u8, following: &'a [u8]) -> Option<Argument<'a>>
    ensures spelled { IfSome result (λ a. IsArgument low following.now a.width a.number a.rest.now) }
    ensures fewer { IfSome result (λ a. length a.rest.now ≤ length following.now) }
    ensures direct { IfSome result (λ a. low < 24 → a.number ≡ low) }
    ensures byte { IfSome result (λ a. low ≡ 24 → a.number < 256) }
    ensures long { result ≡ None → 24 ≤ low }
    ensures cut { result ≡ None → low < 28 → length following.now < 2 ^ (low - 24) }
{
    if low < 24 {
        return Some(Argument {
            width: Width::Direct,
            number: u64::from(low),
            rest: following,
        });
    }
    let (width, size) = match low {
        24 => (Width::One, 1),
        25 => (Width::Two, 2),
        26 => (Width::Four, 4),
        27 => (Width::Eight, 8),
        _ => return None,
    };
    if following.len() < size {
        return None;
    }
    let number = match width {
        Width::One => u64::from(following[0]),
        Width::Two => u64::from(BigEndian::read_u16(following)),
        Width::Four => u64::from(BigEndian::read_u32(following)),
        _ => BigEndian::read_u64(following),
    };
    Some(Argument {
        width,
        number,
        rest: &following[size..],
    })
}
