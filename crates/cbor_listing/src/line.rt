//! Lines that are put together to be written at once.

ghost use Rattle.std.specs.Prelude.{◌≡◌, ◌≤◌, ◌+◌, ◌++◌, length, decimal, replicate};
ghost use Rattle.arrayvec.specs.ArrayVec.{array_vec_len};

use arrayvec::ArrayVec;
use itoa::Buffer;

// The number of spaces that are pushed at once.
const MOST_SPACES: usize = 64;

const SPACES: [u8; MOST_SPACES] = [b' '; MOST_SPACES];

pub(crate) fn push<const N: usize>(line: &mut ArrayVec<u8, N>, text: &[u8])
    requires { array_vec_len line.old + length text.now ≤ N }
    ensures text { line.new.items ≡ line.old.items ++ text.now }
    ensures len { array_vec_len line.new ≡ array_vec_len line.old + length text.now }
{
    match line.try_extend_from_slice(text) {
        Ok(()) => {}
        Err(_) => unreachable!(),
    }
}

pub(crate) fn push_number<const N: usize>(line: &mut ArrayVec<u8, N>, n: u64)
    requires { array_vec_len line.old + 20 ≤ N }
    ensures text { line.new.items ≡ line.old.items ++ decimal n }
    ensures short { array_vec_len line.new ≤ array_vec_len line.old + 20 }
{
    let mut buffer = Buffer::new();
    push(line, buffer.format(n).as_bytes());
}

pub(crate) fn push_spaces<const N: usize>(line: &mut ArrayVec<u8, N>, count: usize)
    requires few { count ≤ 64 }
    requires fits { array_vec_len line.old + count ≤ N }
    ensures text { line.new.items ≡ line.old.items ++ replicate count 0x20 }
    ensures len { array_vec_len line.new ≡ array_vec_len line.old + count }
{
    push(line, &SPACES[..count]);
}
