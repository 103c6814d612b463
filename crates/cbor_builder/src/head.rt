//! The shortest head of a major type and number, as bytes.

ghost use Rattle.std.specs.Prelude.{◌≡◌, ◌≤◌, ◌+◌, ◌++◌, length, take, vec_len};
ghost use Rattle.cbor_head.specs.Head.{shortest_head};

use cbor_head::Major;

// Writes the shortest head after the first `len` bytes, if there is space for any head. Returns
// where it ends. Each width has a write of its own, so that the argument is written as one word.
#[inline(always)]
pub(crate) fn put_head(buf: &mut Vec<u8>, len: usize, major: Major, n: u64) -> usize
    requires space { len + 9 ≤ vec_len buf.old }
    ensures few { result ≤ len + 9 }
    ensures same { vec_len buf.new ≡ vec_len buf.old }
    ensures head { take result buf.new.items ≡ take len buf.old.items ++ shortest_head major n }
{
    let first = 32 * major.number();
    if n < 24 {
        put(buf, len, &[first + n as u8])
    } else if n < 0x100 {
        put(buf, len, &[first + 24, n as u8])
    } else if n < 0x1_0000 {
        let [a, b] = (n as u16).to_be_bytes();
        put(buf, len, &[first + 25, a, b])
    } else if n < 0x1_0000_0000 {
        let [a, b, c, d] = (n as u32).to_be_bytes();
        put(buf, len, &[first + 26, a, b, c, d])
    } else {
        let [a, b, c, d, e, f, g, h] = n.to_be_bytes();
        put(buf, len, &[first + 27, a, b, c, d, e, f, g, h])
    }
}

// Writes these bytes after the first `len`, if there is space for them. Returns where they end.
#[inline(always)]
fn put(buf: &mut Vec<u8>, len: usize, bytes: &[u8]) -> usize
    requires space { len + length bytes.now ≤ vec_len buf.old }
    ensures end { result ≡ len + length bytes.now }
    ensures same { vec_len buf.new ≡ vec_len buf.old }
    ensures bytes { take result buf.new.items ≡ take len buf.old.items ++ bytes.now }
{
    let end = len + bytes.len();
    buf[len..end].copy_from_slice(bytes);
    end
}

// The bytes of the shortest head, followed by zeros, and their number.
#[inline(always)]
pub(crate) fn head_bytes(major: Major, n: u64) -> ([u8; 9], usize)
    ensures count { result.1 ≡ length (shortest_head major n) }
    ensures few { result.1 ≤ 9 }
    ensures bytes { take result.1 result.0 ≡ shortest_head major n }
{
    let first = 32 * major.number();
    if n < 24 {
        ([first + n as u8, 0, 0, 0, 0, 0, 0, 0, 0], 1)
    } else if n < 0x100 {
        ([first + 24, n as u8, 0, 0, 0, 0, 0, 0, 0], 2)
    } else if n < 0x1_0000 {
        let [a, b] = (n as u16).to_be_bytes();
        ([first + 25, a, b, 0, 0, 0, 0, 0, 0], 3)
    } else if n < 0x1_0000_0000 {
        let [a, b, c, d] = (n as u32).to_be_bytes();
        ([first + 26, a, b, c, d, 0, 0, 0, 0], 5)
    } else {
        let [a, b, c, d, e, f, g, h] = n.to_be_bytes();
        ([first + 27, a, b, c, d, e, f, g, h], 9)
    }
}
