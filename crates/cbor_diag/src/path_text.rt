//! The text of a path.

ghost use Rattle.std.specs.Prelude.{◌≡◌, IfOk, OnOk};
ghost use Rattle.cbor_item.specs.View.{view as value_of};
ghost use Rattle.cbor_diag.specs.ItemPath.{IsKeyText, IsStepText, IsPathText};
ghost use Rattle.cbor_diag.specs.Text.{text};
ghost use Rattle.cbor_diag.specs.inner.Written.{Writes};

use crate::hidden::has_hidden;
use crate::item_path::Step;
use crate::text::diagnostic;
use cbor_head::{Limits, Reason};
use cbor_item::Tree;
use cbor_tree_reader::read_tree;
use std::alloc::Global;
use std::io::{self, ErrorKind, Write};

/// Writes a path through an item: `$` is the item, `[2]` a member of an array, `."a"` the value of a
/// key, `(24)` the content of a tag.
pub(crate) fn write_path<W: Write>(
    alloc: Global,
    item: &[u8],
    way: &[Step],
    writer: &mut W,
) -> io::Result<()>
    ensures { OnOk result
        (Writes (IsPathText item.now way.now) (W.contents writer.old) (W.contents writer.new)) }
{
    writer.write_all(b"$")?;
    for step in way {
        write_step(alloc, item, step, writer)?;
    }
    Ok(())
}

fn write_step<W: Write>(alloc: Global, item: &[u8], step: &Step, writer: &mut W) -> io::Result<()>
    ensures { OnOk result
        (Writes (IsStepText item.now step.now) (W.contents writer.old) (W.contents writer.new)) }
{
    match *step {
        Step::Member(index) => write!(writer, "[{index}]"),
        Step::Content(number) => write!(writer, "({number})"),
        Step::Value { key } => write_key(alloc, item, key, writer),
        Step::Key { number, map } => write!(writer, ", key {number} of the map at {map}"),
    }
}

// Writes the key at an offset: its text, if that is short and a terminal shows all of it; otherwise
// the offset.
fn write_key<W: Write>(alloc: Global, item: &[u8], place: u64, writer: &mut W) -> io::Result<()>
    ensures { OnOk result
        (Writes (IsKeyText item.now place) (W.contents writer.old) (W.contents writer.new)) }
{
    let start = item.len().min(place as usize);
    let mut rest = &item[start..];
    let short = Limits::new(256, 64).unwrap();
    match read_tree(alloc, &mut rest, short) {
        Ok((key, _)) => {
            let text = diagnostic_text(alloc, &key)?;
            let bytes = text.as_slice();
            if has_hidden(bytes) {
                return write!(writer, ".(the key at {place})");
            }
            writer.write_all(b".")?;
            writer.write_all(bytes)
        }
        Err(refusal) => match refusal.reason {
            Reason::Memory => Err(io::Error::from(ErrorKind::OutOfMemory)),
            _ => write!(writer, ".(the key at {place})"),
        },
    }
}

fn diagnostic_text(alloc: Global, tree: &Tree) -> io::Result<Vec<u8>>
    ensures { IfOk result (λ bytes. bytes.items ≡ text (value_of tree.now)) }
{
    let mut bytes = Vec::new(alloc);
    match diagnostic(tree, &mut bytes) {
        Ok(_) => Ok(bytes),
        Err(_) => Err(io::Error::from(ErrorKind::OutOfMemory)),
    }
}
