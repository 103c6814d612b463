//! Refusals and bytes in the form of the output.

use cbor_head::Refusal;
use std::io::{self, Write};

pub(crate) fn put_refusal<W: Write>(refusal: Refusal, out: &mut W) -> io::Result<()> {
    let Refusal {
        reason,
        place,
        read,
    } = refusal;
    write!(out, "!{},{place},{read}", reason.number())
}

pub(crate) fn put_hex<W: Write>(bytes: &[u8], out: &mut W) -> io::Result<()> {
    for byte in bytes {
        write!(out, "{byte:02x}")?;
    }
    Ok(())
}
