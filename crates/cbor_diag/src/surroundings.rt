//! The bytes around an offset.

ghost use Rattle.std.specs.Prelude.{◌≡◌, ◌<◌, replicate, OnOk};
ghost use Rattle.std.specs.Io.KnownBytes.{Appends};
ghost use Rattle.cbor_diag.specs.Surroundings.{digit, spaced, surroundings};

use std::alloc::Global;
use std::io::{self, Write};

// The number of bytes that are shown, and the number of those before the offset.
const SHOWN: usize = 16;

const BEFORE: usize = 8;

/// Writes two lines: the offset of the first byte and some bytes around the offset as hex digits,
/// and a mark below the byte at the offset. An offset past the end is marked after the last byte.
pub(crate) fn write_surroundings<W: Write>(
    alloc: Global,
    bytes: &[u8],
    place: usize,
    writer: &mut W,
) -> io::Result<()>
    ensures { OnOk result (Appends (W.contents writer.old) (W.contents writer.new)
        (surroundings bytes.now place)) }
{
    let place = place.min(bytes.len());
    let before = place.min(BEFORE);
    let start = place - before;
    let end = start + SHOWN.min(bytes.len() - start);
    let label = format!(in alloc; "  bytes from {start}:")?;
    let label = label.as_bytes();
    writer.write_all(label)?;
    write_digits(&bytes[start..end], writer)?;
    writer.write_all(b"\n")?;
    write_blanks(label.len(), writer)?;
    write_blanks(3 * before + 1, writer)?;
    writer.write_all(b"^^\n")
}

// Writes a space and two hex digits for each byte.
fn write_digits<W: Write>(bytes: &[u8], writer: &mut W) -> io::Result<()>
    ensures { OnOk result (Appends (W.contents writer.old) (W.contents writer.new)
        (spaced bytes.now)) }
{
    for byte in bytes {
        writer.write_all(&[b' ', digit(byte / 16), digit(byte % 16)])?;
    }
    Ok(())
}

fn digit(number: u8) -> u8
    requires { number < 16 }
    ensures { result ≡ digit number }
{
    if number < 10 {
        b'0' + number
    } else {
        b'a' + (number - 10)
    }
}

fn write_blanks<W: Write>(count: usize, writer: &mut W) -> io::Result<()>
    ensures { OnOk result (Appends (W.contents writer.old) (W.contents writer.new)
        (replicate count 32)) }
{
    for _ in 0..count {
        writer.write_all(b" ")?;
    }
    Ok(())
}
