//! What the head of an item, or a break, means.

ghost use Rattle.std.specs.Prelude.{◌≡◌, ◌≤◌, ◌+◌, ◌++◌, length, codes, decimal};
ghost use Rattle.arrayvec.specs.ArrayVec.{array_vec_len};
ghost use Rattle.cbor_listing.specs.Annotated.{counted, extent, meaning, simple_meaning};

use crate::line::{push, push_number};
use arrayvec::ArrayVec;
use cbor_head::EventKind;
use itoa::Buffer;

// A name has at most 18 letters, a number of 128 bits at most 39 digits, a unit at most 8 letters.
const LONGEST: usize = 64;

// What a head or a break means; nothing of a piece.
pub(crate) fn push_meaning<const N: usize>(line: &mut ArrayVec<u8, N>, kind: &EventKind)
    requires { array_vec_len line.old + LONGEST ≤ N }
    ensures text { line.new.items ≡ line.old.items ++ meaning kind.now }
    ensures short { array_vec_len line.new ≤ array_vec_len line.old + LONGEST }
{
    match kind {
        EventKind::Unsigned(n) => push_named(line, b"unsigned integer ", *n),
        EventKind::Negative(n) => push_negative(line, *n),
        EventKind::Simple(simple) => push_simple(line, simple.number()),
        EventKind::Bytes(count) => push_sized(line, b"byte string, ", *count, b" byte", b" bytes"),
        EventKind::Text(count) => push_sized(line, b"text string, ", *count, b" byte", b" bytes"),
        EventKind::Chunk(n) => push_sized(line, b"chunk, ", Some(*n), b" byte", b" bytes"),
        EventKind::Piece(_) => {}
        EventKind::Array(count) => push_sized(line, b"array, ", *count, b" member", b" members"),
        EventKind::Map(count) => push_sized(line, b"map, ", *count, b" pair", b" pairs"),
        EventKind::Tag(n) => push_named(line, b"tag ", *n),
        EventKind::End => push(line, b"break"),
    }
}

fn push_named<const N: usize>(line: &mut ArrayVec<u8, N>, name: &[u8], n: u64)
    requires short_name { length name.now ≤ 18 }
    requires fits { array_vec_len line.old + LONGEST ≤ N }
    ensures text { line.new.items ≡ line.old.items ++ (name.now ++ decimal n) }
    ensures short { array_vec_len line.new ≤ array_vec_len line.old + LONGEST }
{
    push(line, name);
    push_number(line, n);
}

// The number -1 - n.
fn push_negative<const N: usize>(line: &mut ArrayVec<u8, N>, n: u64)
    requires fits { array_vec_len line.old + LONGEST ≤ N }
    ensures text { line.new.items
        ≡ line.old.items ++ (codes "negative integer -" ++ decimal (n + 1)) }
    ensures short { array_vec_len line.new ≤ array_vec_len line.old + LONGEST }
{
    push(line, b"negative integer -");
    let mut buffer = Buffer::new();
    push(line, buffer.format(u128::from(n) + 1).as_bytes());
}

fn push_simple<const N: usize>(line: &mut ArrayVec<u8, N>, number: u8)
    requires fits { array_vec_len line.old + LONGEST ≤ N }
    ensures text { line.new.items ≡ line.old.items ++ simple_meaning number }
    ensures short { array_vec_len line.new ≤ array_vec_len line.old + LONGEST }
{
    match number {
        20 => push(line, b"false"),
        21 => push(line, b"true"),
        22 => push(line, b"null"),
        23 => push(line, b"undefined"),
        _ => push_named(line, b"simple value ", u64::from(number)),
    }
}

// Writes a name, and the number of what is counted.
fn push_sized<const N: usize>(
    line: &mut ArrayVec<u8, N>,
    name: &[u8],
    count: Option<u64>,
    one: &[u8],
    many: &[u8],
)
    requires short_name { length name.now ≤ 13 }
    requires short_one { length one.now ≤ 8 }
    requires short_many { length many.now ≤ 8 }
    requires fits { array_vec_len line.old + LONGEST ≤ N }
    ensures text { line.new.items ≡ line.old.items ++ (name.now ++ extent one.now many.now count) }
    ensures short { array_vec_len line.new ≤ array_vec_len line.old + LONGEST }
{
    push(line, name);
    match count {
        None => push(line, b"indefinite length"),
        Some(n) => push_counted(line, n, one, many),
    }
}

fn push_counted<const N: usize>(line: &mut ArrayVec<u8, N>, n: u64, one: &[u8], many: &[u8])
    requires short_one { length one.now ≤ 8 }
    requires short_many { length many.now ≤ 8 }
    requires fits { array_vec_len line.old + 28 ≤ N }
    ensures text { line.new.items ≡ line.old.items ++ counted one.now many.now n }
    ensures short { array_vec_len line.new ≤ array_vec_len line.old + 28 }
{
    push_number(line, n);
    push(line, if n == 1 { one } else { many });
}
