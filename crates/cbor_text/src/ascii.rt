//! Short texts of ASCII, seen at once.

ghost use Rattle.std.specs.Prelude.{◌≡◌, ◌<◌, ◌+◌, ◌↔◌, true, take};
ghost use Rattle.std.specs.Str.{IsAscii};

use std::simd::prelude::*;

// Whether the first byte and the given number of bytes after it are ASCII.
#[inline(always)]
fn is_ascii_prefix(chunk: &[u8; 32], count: u8) -> bool
    requires { count < 32 }
    ensures { (result ≡ true) ↔ IsAscii (take (count + 1) chunk.now) }
{
    let high = u8x32::from_array(*chunk)
        .simd_ge(u8x32::splat(0x80))
        .to_bitmask();
    high << (63 - count) == 0
}

// Whether the given number of bytes at the start are ASCII. False says nothing: for more than 32
// bytes it is always false.
#[inline(always)]
pub(crate) fn is_short_ascii(prefix: &[u8], count: usize) -> bool
    ensures { result ≡ true → IsAscii (take count prefix.now) }
{
    if count == 0 || count > 32 {
        return false;
    }
    match prefix.first_chunk::<32>() {
        Some(chunk) => is_ascii_prefix(chunk, count as u8 - 1),
        None => is_ascii_end(&prefix[..count.min(prefix.len())]),
    }
}

// Whether fewer than 32 bytes, at the end of an input, are ASCII.
#[inline(never)]
fn is_ascii_end(bytes: &[u8]) -> bool
    ensures { result ≡ true → IsAscii bytes.now }
{
    bytes.is_ascii()
}
