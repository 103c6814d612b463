//! The bytes of a key, and the first of them as a number.

ghost use Rattle.std.specs.Prelude.{◌≡◌, ◌<◌, ◌≤◌, ◌-◌, ◌*◌, ◌/◌, ◌^◌, length, slice_range};
ghost use Rattle.std.specs.Prelude.{slice_index};
ghost use Rattle.theory_values.specs.KeyPrefix.{prefix_of};

/// The first eight bytes of the encoded key in the bytes from `start` to `end`, as a big-endian
/// number; a byte that the key does not have counts as 0. They are read in one piece if the slice
/// has eight bytes from `start` on, whatever follows the key.
///
/// Of two keys with different prefixes, the one with the lower prefix comes first in a map,
/// bytewise (RFC 8949, section 4.2.1).
#[inline(always)]
pub fn key_prefix(bytes: &[u8], start: usize, end: usize) -> u64
    requires begins { start ≤ end }
    requires ends { end ≤ length bytes.now }
    ensures { result ≡ prefix_of (slice_range bytes.now start end) }
{
    match bytes[start..].first_chunk::<8>() {
        Some(chunk) => kept(u64::from_be_bytes(*chunk), end - start),
        None => short_prefix(&bytes[start..end]),
    }
}

/// The bytes from `start` to `end`, cut off at the end of the slice.
#[inline(always)]
pub fn part(bytes: &[u8], start: usize, end: usize) -> &[u8]
    ensures { result.now ≡ slice_range bytes.now start end }
{
    let end = end.min(bytes.len());
    let start = start.min(end);
    &bytes[start..end]
}

// The first n bytes of the eight, and zeros.
#[inline(always)]
fn kept(word: u64, n: usize) -> u64
    ensures whole { 8 ≤ n → result ≡ word }
    ensures none { n ≡ 0 → result ≡ 0 }
    ensures part { 0 < n → n < 8 → result ≡ word / 2 ^ (64 - 8 * n) * 2 ^ (64 - 8 * n) }
{
    if n >= 8 {
        return word;
    }
    if n == 0 {
        return 0;
    }
    let rest = 64 - 8 * n as u32;
    (word >> rest) << rest
}

// The first bytes of a key of fewer than eight bytes as a number, with zeros after it.
#[cold]
#[inline(never)]
fn short_prefix(key: &[u8]) -> u64
    ensures { result ≡ prefix_of key.now }
{
    u64::from_be_bytes([
        byte(key, 0),
        byte(key, 1),
        byte(key, 2),
        byte(key, 3),
        byte(key, 4),
        byte(key, 5),
        byte(key, 6),
        byte(key, 7),
    ])
}

fn byte(key: &[u8], at: usize) -> u8
    ensures { result ≡ slice_index key.now at }
{
    if at < key.len() { key[at] } else { 0 }
}
