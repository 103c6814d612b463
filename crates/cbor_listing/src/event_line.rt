//! The line of an event.

ghost use Rattle.std.specs.Prelude.{◌≡◌, ◌≤◌, ◌<◌, ◌+◌, ◌^◌, ◌++◌, length, None, Some, decimal};
ghost use Rattle.std.specs.Prelude.{MatchOption, IfSome};
ghost use Rattle.arrayvec.specs.ArrayVec.{array_vec_len};
ghost use Rattle.cbor_listing.specs.Listing.{columns, argument_text, width_text, line};

use crate::line::{push, push_number};
use arrayvec::ArrayVec;
use cbor_head::{Event, EventKind, Width};

// An offset and an argument have at most 20 digits each, a name at most 8 letters; with the width,
// three spaces and the line feed that is 53.
const LONGEST: usize = 64;

// A line that is put together to be written at once.
pub(crate) type Line = ArrayVec<u8, LONGEST>;

// The line of an event of the item that starts at this offset; nothing of a piece.
pub(crate) fn line_of(start: u64, event: &Event) -> Line
    requires { start + event.now.place < 2 ^ 64 }
    ensures { result.items ≡ line start event.now }
{
    let mut line = Line::new();
    if let Some((name, argument)) = columns_of(&event.kind) {
        push_number(&mut line, start + event.place);
        push(&mut line, b" ");
        push(&mut line, name);
        push(&mut line, b" ");
        push_argument(&mut line, argument);
        push(&mut line, b" ");
        push(&mut line, &width_digit(event.width));
        push(&mut line, b"\n");
    }
    line
}

fn push_argument(line: &mut Line, argument: Option<u64>)
    requires { array_vec_len line.old + 20 ≤ 64 }
    ensures text { line.new.items ≡ line.old.items ++ argument_text argument }
    ensures short { array_vec_len line.new ≤ array_vec_len line.old + 20 }
{
    match argument {
        Some(n) => push_number(line, n),
        None => push(line, b"-"),
    }
}

// The name of an event, and its argument if it has one.
fn columns_of(kind: &EventKind) -> Option<(&'static [u8], Option<u64>)>
    ensures is { MatchOption result (columns kind.now ≡ None)
        (λ c. columns kind.now ≡ Some (c.0.now, c.1)) }
    ensures short { IfSome result (λ c. length c.0.now ≤ 8) }
{
    let columns: (&'static [u8], Option<u64>) = match kind {
        EventKind::Unsigned(n) => (b"unsigned", Some(*n)),
        EventKind::Negative(n) => (b"negative", Some(*n)),
        EventKind::Simple(simple) => (b"simple", Some(u64::from(simple.number()))),
        EventKind::Bytes(count) => (b"bytes", *count),
        EventKind::Text(count) => (b"text", *count),
        EventKind::Chunk(n) => (b"chunk", Some(*n)),
        EventKind::Piece(_) => return None,
        EventKind::Array(count) => (b"array", *count),
        EventKind::Map(count) => (b"map", *count),
        EventKind::Tag(n) => (b"tag", Some(*n)),
        EventKind::End => (b"end", None),
    };
    Some(columns)
}

// The number of bytes that an argument of this width has after the first byte of its head.
fn width_digit(width: Width) -> [u8; 1]
    ensures { result ≡ width_text width }
{
    match width {
        Width::Direct => *b"0",
        Width::One => *b"1",
        Width::Two => *b"2",
        Width::Four => *b"4",
        Width::Eight => *b"8",
        Width::Indefinite => *b"-",
    }
}
