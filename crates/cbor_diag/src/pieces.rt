//! The texts of items that hold no others, and the parts of such texts.

ghost use Rattle.std.specs.Prelude.{◌≡◌, ◌≢◌, ◌+◌, ◌*◌, ◌≤◌, ◌↔◌, [], ◌∷◌, ◌++◌, IsTrue, codes, decimal};
ghost use Rattle.std.specs.Prelude.{flat_map, length, replicate};
ghost use Rattle.hex.specs.Hex.{encode_lower};
ghost use Rattle.cbor_diag.specs.inner.Outbox.{Puts};
ghost use Rattle.cbor_diag.specs.inner.Strings.{opening, content_text, closing, string_text};
ghost use Rattle.cbor_diag.specs.Text.{escaped, simple_text};

use crate::outbox::{Outbox, Stopped};
use cbor_head::MAX_DEPTH;
use itoa::Buffer;
use std::io::Write;

// The number of bytes that are turned into digits at once.
const HEX_RUN: usize = 256;

// Two spaces for each possible level.
const MOST_SPACES: usize = 2 * MAX_DEPTH as usize;

const SPACES: [u8; MOST_SPACES] = [b' '; MOST_SPACES];

pub(crate) fn put_number<W: Write>(
    number: u64,
    out: &mut Outbox,
    writer: &mut W,
) -> Result<(), Stopped>
    ensures { Puts (W.contents writer.old) (W.contents writer.new) out.old out.new
        (decimal number) result }
{
    out.put(writer, Buffer::new().format(number).as_bytes())
}

// Puts the number -1 - n.
#[inline(never)]
pub(crate) fn put_negative<W: Write>(
    n: u64,
    out: &mut Outbox,
    writer: &mut W,
) -> Result<(), Stopped>
    ensures { Puts (W.contents writer.old) (W.contents writer.new) out.old out.new
        (codes "-" ++ decimal (n + 1)) result }
{
    out.put(writer, b"-")?;
    out.put(writer, Buffer::new().format(u128::from(n) + 1).as_bytes())
}

pub(crate) fn put_simple<W: Write>(
    number: u8,
    out: &mut Outbox,
    writer: &mut W,
) -> Result<(), Stopped>
    ensures { Puts (W.contents writer.old) (W.contents writer.new) out.old out.new
        (simple_text number) result }
{
    match number {
        20 => out.put(writer, b"false"),
        21 => out.put(writer, b"true"),
        22 => out.put(writer, b"null"),
        23 => out.put(writer, b"undefined"),
        _ => {
            out.put(writer, b"simple(")?;
            put_number(u64::from(number), out, writer)?;
            out.put(writer, b")")
        }
    }
}

// Puts a byte string or a text string.
pub(crate) fn put_string<W: Write>(
    is_text: bool,
    content: &[u8],
    out: &mut Outbox,
    writer: &mut W,
) -> Result<(), Stopped>
    ensures { Puts (W.contents writer.old) (W.contents writer.new) out.old out.new
        (string_text is_text content.now) result }
{
    put_opening(is_text, out, writer)?;
    put_content(is_text, content, out, writer)?;
    put_closing(is_text, out, writer)
}

// Puts the text before the content of a string.
#[inline(always)]
pub(crate) fn put_opening<W: Write>(
    is_text: bool,
    out: &mut Outbox,
    writer: &mut W,
) -> Result<(), Stopped>
    ensures { Puts (W.contents writer.old) (W.contents writer.new) out.old out.new
        (opening is_text) result }
{
    if is_text {
        out.put(writer, b"\"")
    } else {
        out.put(writer, b"h'")
    }
}

// Puts the content of a string, or a part of it. The parts may be cut anywhere.
#[inline(always)]
pub(crate) fn put_content<W: Write>(
    is_text: bool,
    content: &[u8],
    out: &mut Outbox,
    writer: &mut W,
) -> Result<(), Stopped>
    ensures { Puts (W.contents writer.old) (W.contents writer.new) out.old out.new
        (content_text is_text content.now) result }
{
    if is_text {
        put_escaped(content, out, writer)
    } else {
        put_hex(content, out, writer)
    }
}

// Puts the text after the content of a string.
#[inline(always)]
pub(crate) fn put_closing<W: Write>(
    is_text: bool,
    out: &mut Outbox,
    writer: &mut W,
) -> Result<(), Stopped>
    ensures { Puts (W.contents writer.old) (W.contents writer.new) out.old out.new
        (closing is_text) result }
{
    if is_text {
        out.put(writer, b"\"")
    } else {
        out.put(writer, b"'")
    }
}

// Puts two digits for each byte.
#[inline(never)]
fn put_hex<W: Write>(bytes: &[u8], out: &mut Outbox, writer: &mut W) -> Result<(), Stopped>
    ensures { Puts (W.contents writer.old) (W.contents writer.new) out.old out.new
        (encode_lower bytes.now) result }
{
    let mut at = 0;
    while at < bytes.len() {
        let end = bytes.len().min(at + HEX_RUN);
        put_digits(&bytes[at..end], out, writer)?;
        at = end;
    }
    Ok(())
}

// Puts two digits for each of at most `HEX_RUN` bytes.
fn put_digits<W: Write>(bytes: &[u8], out: &mut Outbox, writer: &mut W) -> Result<(), Stopped>
    requires { length bytes.now ≤ HEX_RUN }
    ensures { Puts (W.contents writer.old) (W.contents writer.new) out.old out.new
        (encode_lower bytes.now) result }
{
    let mut digits = [0; 2 * HEX_RUN];
    let digits = &mut digits[..2 * bytes.len()];
    match hex::encode_to_slice(bytes, digits) {
        Ok(()) => out.put(writer, digits),
        Err(_) => unreachable!(),
    }
}

// Puts the bytes of a text, escaped where necessary.
#[inline(always)]
fn put_escaped<W: Write>(text: &[u8], out: &mut Outbox, writer: &mut W) -> Result<(), Stopped>
    ensures { Puts (W.contents writer.old) (W.contents writer.new) out.old out.new
        (flat_map escaped text.now) result }
{
    let mut start = 0;
    for (at, byte) in text.iter().enumerate() {
        if !is_raw(*byte) {
            out.put(writer, &text[start..at])?;
            put_escape(*byte, out, writer)?;
            start = at + 1;
        }
    }
    out.put(writer, &text[start..])
}

// Whether a byte of a text is written as it is. Small letters need one comparison.
fn is_raw(byte: u8) -> bool
    ensures { IsTrue result ↔ (escaped byte ≡ byte ∷ []) }
{
    if byte > b'\\' {
        byte != 0x7f
    } else {
        byte >= 0x20 && byte != b'"' && byte != b'\\'
    }
}

// Puts a byte that must be escaped.
#[inline(never)]
fn put_escape<W: Write>(byte: u8, out: &mut Outbox, writer: &mut W) -> Result<(), Stopped>
    requires { escaped byte ≢ byte ∷ [] }
    ensures { Puts (W.contents writer.old) (W.contents writer.new) out.old out.new
        (escaped byte) result }
{
    match byte {
        b'"' => out.put(writer, b"\\\""),
        b'\\' => out.put(writer, b"\\\\"),
        _ => {
            out.put(writer, b"\\u00")?;
            put_digits(&[byte], out, writer)
        }
    }
}

// Puts these bytes, and two spaces for each level.
#[inline(never)]
pub(crate) fn put_line<W: Write>(
    start: &[u8],
    level: u16,
    out: &mut Outbox,
    writer: &mut W,
) -> Result<(), Stopped>
    requires { level ≤ MAX_DEPTH }
    ensures { Puts (W.contents writer.old) (W.contents writer.new) out.old out.new
        (start.now ++ replicate (2 * level) 0x20) result }
{
    out.put(writer, start)?;
    out.put(writer, &SPACES[..2 * usize::from(level)])
}
