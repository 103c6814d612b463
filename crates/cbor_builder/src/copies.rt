//! Bytes copied within a slice, and from one to another.

ghost use Rattle.std.specs.Prelude.{◌≡◌, ◌≤◌, ◌+◌, ◌-◌, ◌++◌, length, take, slice_range};

/// Copies the bytes from `start` to `end` to after the first `len` bytes, if there is space.
/// Returns where the copy ends.
#[inline(always)]
pub(crate) fn copy_after(buf: &mut [u8], len: usize, start: usize, end: usize) -> usize
    requires begins { start ≤ end }
    requires ends { end ≤ len }
    requires space { len + (end - start) ≤ length buf.old }
    ensures within { result ≤ length buf.new }
    ensures following { take result buf.new ≡ take len buf.old ++ slice_range buf.old start end }
{
    let (prefix, space) = buf.split_at_mut(len);
    copy(&prefix[start..end], &mut space[..end - start]);
    len + (end - start)
}

/// Moves the bytes from `end` to `len` down to `start`. Returns their new end. If old and new bytes
/// do not overlap, they are copied as one slice.
pub(crate) fn copy_down(buf: &mut [u8], start: usize, end: usize, len: usize) -> usize
    requires begins { start ≤ end }
    requires ends { end ≤ len }
    requires len { len ≤ length buf.old }
    ensures within { result ≤ length buf.new }
    ensures down { take result buf.new ≡ take start buf.old ++ slice_range buf.old end len }
{
    let count = len - end;
    if count > end - start {
        buf.copy_within(end..len, start);
        return start + count;
    }
    let (prefix, back) = buf.split_at_mut(end);
    prefix[start..start + count].copy_from_slice(&back[..count]);
    start + count
}

/// Overwrites bytes with the same number of bytes. Up to 32 are copied without a call.
#[inline(always)]
pub(crate) fn copy(bytes: &[u8], to: &mut [u8])
    requires { length bytes.now ≡ length to.old }
    ensures { to.new ≡ bytes.now }
{
    match bytes.len() {
        0 => {}
        1..=2 => copy_ends(bytes, to, 1),
        3..=4 => copy_ends(bytes, to, 2),
        5..=8 => copy_ends(bytes, to, 4),
        9..=16 => copy_ends(bytes, to, 8),
        17..=32 => copy_ends(bytes, to, 16),
        _ => to.copy_from_slice(bytes),
    }
}

// The first n bytes and the last n, which together cover the slice.
#[inline(always)]
fn copy_ends(bytes: &[u8], to: &mut [u8], n: usize)
    requires length { length bytes.now ≡ length to.old }
    requires within { n ≤ length bytes.now }
    requires meet { length bytes.now ≤ n + n }
    ensures { to.new ≡ bytes.now }
{
    let at = bytes.len() - n;
    to[..n].copy_from_slice(&bytes[..n]);
    to[at..].copy_from_slice(&bytes[at..]);
}
