//! Writes what a refusal means.

ghost use Rattle.std.specs.Prelude.{IfOk, OnOk};
ghost use Rattle.std.specs.Io.KnownBytes.{Appends};
ghost use Rattle.cbor_diag.specs.Explanation.{sentences, IsExplained, IsExplanation};

use crate::item_path::path_to;
use crate::path_text::write_path;
use crate::sentences::{advice, meaning};
use crate::surroundings::write_surroundings;
use cbor_head::{Limits, Reason, Refusal};
use std::alloc::{AllocError, Global};
use std::io::{self, Write};

/// Writes what a refusal means and what to do, the bytes around its offset, and the path to it. The
/// bytes begin with the item that was refused within these limits.
pub fn explain<W: Write>(
    alloc: Global,
    item: &[u8],
    limits: Limits,
    refusal: Refusal,
    writer: &mut W,
) -> io::Result<()>
    ensures { OnOk result (IsExplained limits.depth item.now refusal
        (W.contents writer.old) (W.contents writer.new)) }
{
    write_sentences(refusal.reason, writer)?;
    write_surroundings(alloc, item, refusal.place as usize, writer)?;
    let way = path_to(alloc, item, limits, refusal)?;
    writer.write_all(b"  at ")?;
    write_path(alloc, item, way.as_slice(), writer)?;
    writer.write_all(b"\n")
}

/// What a refusal means, what to do, and the path to it, joined by line feeds. The bytes begin with
/// the item that was refused within these limits.
pub fn explanation_text(
    alloc: Global,
    item: &[u8],
    limits: Limits,
    refusal: Refusal,
) -> Result<Vec<u8>, AllocError>
    ensures { IfOk result (λ text. IsExplanation limits.depth item.now refusal text.items) }
{
    let way = path_to(alloc, item, limits, refusal)?;
    let mut text = Vec::new(alloc);
    text.extend_from_slice(meaning(refusal.reason).as_bytes())?;
    text.push(b'\n')?;
    text.extend_from_slice(advice(refusal.reason).as_bytes())?;
    text.push(b'\n')?;
    match write_path(alloc, item, way.as_slice(), &mut text) {
        Ok(()) => Ok(text),
        Err(_) => Err(AllocError),
    }
}

/// Writes what a reason means and what to do, each on a line.
pub fn write_sentences<W: Write>(reason: Reason, writer: &mut W) -> io::Result<()>
    ensures { OnOk result (Appends (W.contents writer.old) (W.contents writer.new)
        (sentences reason)) }
{
    writeln!(writer, "  {}", meaning(reason))?;
    writeln!(writer, "  {}", advice(reason))
}
