//! The lines of an event with its bytes.

ghost use Rattle.std.specs.Prelude.{◌≡◌, ◌≤◌, ◌<◌, ◌+◌, ◌-◌, ◌*◌, ◌/◌, ◌^◌, ◌++◌, [], length, map, min};
ghost use Rattle.std.specs.Prelude.{take, drop, decimal};
ghost use Rattle.arrayvec.specs.ArrayVec.{array_vec_len};
ghost use Rattle.hex.specs.Hex.{encode_lower};
ghost use Rattle.theory_automaton.specs.Event.{event_size};
ghost use Rattle.theory_automaton.specs.Marks.{count_of};
ghost use Rattle.cbor_listing.specs.Annotated.{row_start, spaces, visible, content, payload_row, payload_rows};
ghost use Rattle.cbor_listing.specs.Annotated.{payload_text, ends_payload, event_rows, context_by, no_string, level};
ghost use Rattle.cbor_listing.specs.Annotated.{string_context as spec_of_string};
ghost use Rattle.cbor_listing.specs.inner.Annotated.{IsShortHead, IsHeldAfter};

use crate::event_meaning::push_meaning;
use crate::line::{push, push_number, push_spaces};
use arrayvec::ArrayVec;
use cbor_head::{Event, EventKind};
use itoa::Buffer;

// The number of payload bytes on a line, and of their hex digits.
const ROW: usize = 16;

const DIGITS: usize = 2 * ROW;

// Deeper levels are indented as this one.
const MOST_LEVELS: usize = 32;

// The number of bytes of a payload that are shown.
const MOST_SHOWN: usize = 512;

// A line of a payload has at most 160 bytes, that of a head at most 190. An event has at most 33 lines.
const LONGEST: usize = 5376;

// The lines of an event, put together to be written at once.
pub(crate) type Rows = ArrayVec<u8, LONGEST>;

// What the last head of a string, or of a chunk, says about what comes after it.
#[derive(Clone, Copy)]
pub(crate) struct Context {
    // Whether it is a text.
    pub(crate) is_text: bool,
    // Whether it has indefinite length, and its break is still missing.
    pub(crate) in_chunks: bool,
    // The level of its payload.
    pub(crate) level: usize,
    // Where its payload begins, counted from the start of the item.
    pub(crate) begun: u64,
    // How many bytes it has.
    pub(crate) size: u64,
    // How many of them are still missing.
    pub(crate) left: u64,
}

impl Context {
    // The context before any event.
    pub(crate) fn none() -> Context
        ensures { result ≡ no_string }
    {
        Context {
            is_text: false,
            in_chunks: false,
            level: 0,
            begun: 0,
            size: 0,
            left: 0,
        }
    }

    // The context after an event that is at this level and ends at this offset.
    pub(crate) fn after(self, kind: &EventKind, level: usize, at: u64) -> Context
        requires { level < 2 ^ 32 }
        ensures { result ≡ context_by kind.now level at self }
    {
        match kind {
            EventKind::Bytes(count) => string_context(
                false,
                count.is_none(),
                level,
                at,
                size_of(*count),
            ),
            EventKind::Text(count) => string_context(
                true,
                count.is_none(),
                level,
                at,
                size_of(*count),
            ),
            EventKind::Chunk(n) => string_context(self.is_text, self.in_chunks, level, at, *n),
            EventKind::Piece(n) => Context {
                left: self.left.saturating_sub(*n as u64),
                ..self
            },
            EventKind::End => Context {
                in_chunks: false,
                ..self
            },
            _ => self,
        }
    }

    // The level of an event, before which this number of containers is open.
    pub(crate) fn level_of(self, opened: usize, kind: &EventKind) -> usize
        requires { opened < 2 ^ 16 }
        ensures { result ≡ level opened self kind.now }
    {
        match kind {
            EventKind::Chunk(_) => opened + 1,
            EventKind::End if !self.in_chunks => opened.saturating_sub(1),
            _ => opened,
        }
    }

    // Whether a piece of this number of bytes is the last of the payload.
    fn ends_with(self, n: usize) -> bool
        ensures { result ≡ ends_payload self.left n }
    {
        0 < self.left && self.left <= n as u64
    }
}

fn string_context(is_text: bool, in_chunks: bool, level: usize, at: u64, size: u64) -> Context
    requires { level < 2 ^ 32 }
    ensures { result ≡ spec_of_string is_text in_chunks level at size }
{
    Context {
        is_text,
        in_chunks,
        level: level + 1,
        begun: at,
        size,
        left: size,
    }
}

fn size_of(count: Option<u64>) -> u64
    ensures { result ≡ count_of count }
{
    match count {
        Some(n) => n,
        None => 0,
    }
}

// Sets `rows` to the lines of an event of the item that the input starts with. `start` is the item's own
// offset. The first `taken` bytes of the item end with the event.
pub(crate) fn set_rows(
    rows: &mut Rows,
    start: u64,
    level: usize,
    context: Context,
    event: &Event,
    input: &[u8],
    taken: u64,
)
    requires range { start + taken < 2 ^ 64 }
    requires within { taken ≤ length input.now }
    requires size { taken ≡ event.now.place + event_size event.now }
    requires short { IsShortHead event.now.kind (event_size event.now) }
    requires held { IsHeldAfter event.now.kind taken context }
    ensures { rows.new.items ≡ event_rows start level context event.now input.now }
{
    rows.clear();
    match event.kind {
        EventKind::Piece(n) => {
            if context.ends_with(n) {
                let payload = part_of(input, context.begun, context.size);
                push_payload(
                    rows,
                    start + context.begun,
                    context.level,
                    context.is_text,
                    payload,
                );
            }
        }
        _ => {
            let head = part_of(input, event.place, taken - event.place);
            push_start(rows, start + event.place, level, head);
            push_meaning(rows, &event.kind);
            push(rows, b"\n");
        }
    }
}

// This number of bytes, from this offset on.
fn part_of(input: &[u8], from: u64, size: u64) -> &[u8]
    requires { from + size ≤ length input.now }
    ensures { result.now ≡ take size (drop from input.now) }
{
    let from = from as usize;
    &input[from..from + size as usize]
}

// The lines of the bytes of a payload.
fn push_payload(rows: &mut Rows, at: u64, level: usize, is_text: bool, bytes: &[u8])
    requires empty { rows.old.items ≡ [] }
    requires range { at + length bytes.now < 2 ^ 64 }
    ensures { rows.new.items ≡ payload_text at level is_text bytes.now }
{
    push_rows(rows, at, level, is_text, bytes);
    if bytes.len() > MOST_SHOWN {
        push(rows, b"          ..\n");
    }
}

// The lines of the bytes of a payload that are shown.
fn push_rows(rows: &mut Rows, at: u64, level: usize, is_text: bool, bytes: &[u8])
    requires empty { rows.old.items ≡ [] }
    requires range { at + length bytes.now < 2 ^ 64 }
    ensures text { rows.new.items
        ≡ payload_rows ((min 512 (length bytes.now) + 15) / 16) at level is_text bytes.now }
    ensures short { array_vec_len rows.new ≤ 5120 }
{
    let count = (bytes.len().min(MOST_SHOWN) + ROW - 1) / ROW;
    for row in 0..count {
        let begun = ROW * row;
        push_row(
            rows,
            at + begun as u64,
            level,
            is_text,
            first_row(&bytes[begun..]),
        );
    }
}

// The bytes of the first line of these.
fn first_row(bytes: &[u8]) -> &[u8]
    ensures is { result.now ≡ take 16 bytes.now }
    ensures short { length result.now ≤ 16 }
{
    &bytes[..bytes.len().min(ROW)]
}

// The line of some bytes of a payload.
fn push_row(rows: &mut Rows, at: u64, level: usize, is_text: bool, bytes: &[u8])
    requires few { length bytes.now ≤ 16 }
    requires fits { array_vec_len rows.old + 160 ≤ 5376 }
    ensures text { rows.new.items ≡ rows.old.items ++ payload_row at level is_text bytes.now }
    ensures short { array_vec_len rows.new ≤ array_vec_len rows.old + 160 }
{
    push_start(rows, at, level, bytes);
    push_content(rows, is_text, bytes);
    push(rows, b"\n");
}

// Writes the offset, the bytes and the indentation.
fn push_start(rows: &mut Rows, at: u64, level: usize, bytes: &[u8])
    requires few { length bytes.now ≤ 16 }
    requires fits { array_vec_len rows.old + 120 ≤ 5376 }
    ensures text { rows.new.items ≡ rows.old.items ++ row_start at level bytes.now }
    ensures short { array_vec_len rows.new ≤ array_vec_len rows.old + 120 }
{
    push_offset(rows, at);
    push(rows, b"  ");
    push_digits(rows, bytes);
    push_spaces(rows, DIGITS - 2 * bytes.len());
    push(rows, b"  ");
    push_spaces(rows, 2 * level.min(MOST_LEVELS));
}

// Writes the offset, right-aligned in its column.
fn push_offset(rows: &mut Rows, at: u64)
    requires fits { array_vec_len rows.old + 20 ≤ 5376 }
    ensures text { rows.new.items
        ≡ rows.old.items ++ spaces (8 - length (decimal at)) ++ decimal at }
    ensures short { array_vec_len rows.new ≤ array_vec_len rows.old + 20 }
{
    let mut buffer = Buffer::new();
    let digits = buffer.format(at).as_bytes();
    push_spaces(rows, 8usize.saturating_sub(digits.len()));
    push(rows, digits);
}

// Writes two hex digits for each byte.
fn push_digits(rows: &mut Rows, bytes: &[u8])
    requires few { length bytes.now ≤ 16 }
    requires fits { array_vec_len rows.old + 32 ≤ 5376 }
    ensures text { rows.new.items ≡ rows.old.items ++ encode_lower bytes.now }
    ensures len { array_vec_len rows.new ≡ array_vec_len rows.old + 2 * length bytes.now }
{
    let mut digits = [0; DIGITS];
    let digits = &mut digits[..2 * bytes.len()];
    match hex::encode_to_slice(bytes, digits) {
        Ok(()) => push(rows, digits),
        Err(_) => unreachable!(),
    }
}

// Writes what bytes of a payload hold.
fn push_content(rows: &mut Rows, is_text: bool, bytes: &[u8])
    requires few { length bytes.now ≤ 16 }
    requires fits { array_vec_len rows.old + 36 ≤ 5376 }
    ensures text { rows.new.items ≡ rows.old.items ++ content is_text bytes.now }
    ensures short { array_vec_len rows.new ≤ array_vec_len rows.old + 36 }
{
    if is_text {
        push(rows, b"\"");
        push_visible(rows, bytes);
        push(rows, b"\"");
    } else {
        push(rows, b"h'");
        push_digits(rows, bytes);
        push(rows, b"'");
    }
}

// Writes the bytes of a text, with a dot for each that is not printable ASCII.
fn push_visible(rows: &mut Rows, bytes: &[u8])
    requires few { length bytes.now ≤ 16 }
    requires fits { array_vec_len rows.old + 16 ≤ 5376 }
    ensures text { rows.new.items ≡ rows.old.items ++ map visible bytes.now }
    ensures len { array_vec_len rows.new ≡ array_vec_len rows.old + length bytes.now }
{
    for byte in bytes {
        push(rows, &[visible(*byte)]);
    }
}

fn visible(byte: u8) -> u8
    ensures { result ≡ visible byte }
{
    if (0x20..=0x7e).contains(&byte) {
        byte
    } else {
        b'.'
    }
}
