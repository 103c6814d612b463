//! The subcommand `events`: the lines of an item's events.

ghost use Rattle.std.specs.Prelude.{◌≡◌, length, OnOk, IfErr};
ghost use Rattle.cborc_commands.specs.EventStyles.{AreListed};
ghost use Rattle.cborc_commands.specs.Events.{IsNotListed, IsListedOf, IsNotListedOf};
ghost use Rattle.cborc_files.specs.Folder.{KeepsFiles};

use crate::fault::Fault;
use crate::input::{Judge, read_item};
use crate::listing::list_prefix;
use cbor_head::{Limits, Refusal};
use cborc_files::Folder;
use cborc_words::{EventStyle, Options};
use std::alloc::Global;
use std::io::Write;

/// Writes the lines of the events of the item in the file `source` to `out`. Lines that were written
/// before a refusal stay.
pub fn events<'a, F: Folder, O: Write>(
    alloc: Global,
    files: &mut F,
    out: &mut O,
    source: &'a str,
    event_style: EventStyle,
    options: Options,
) -> Result<(), Fault<'a>>
    ensures listed { OnOk result (IsListedOf event_style options source.now
        (F.held files.old) (O.contents out.old) (O.contents out.new)) }
    ensures fault { IfErr result (IsNotListedOf event_style options source.now
        (F.held files.old) (O.contents out.old) (O.contents out.new)) }
    ensures keeps { KeepsFiles (F.held files.old) (F.held files.new) }
    ensures same { F.forwards_to files.new ≡ F.forwards_to files.old }
{
    let limits = options.limits;
    let bytes = read_item(alloc, files, source, Judge::Form, options)?;
    list(event_style, bytes.as_slice(), limits, out)
}

// Writes the lines of the item that the bytes are. The refusal is that of the item's form, or else
// `Trailing`.
fn list<'a, W: Write>(
    event_style: EventStyle,
    bytes: &[u8],
    limits: Limits,
    out: &mut W,
) -> Result<(), Fault<'a>>
    ensures listed { OnOk result (AreListed event_style 0 limits bytes.now
        (length bytes.now) (W.contents out.old) (W.contents out.new)) }
    ensures fault { IfErr result (IsNotListed event_style limits bytes.now
        (W.contents out.old) (W.contents out.new)) }
{
    let size = list_prefix(event_style, bytes, 0, limits, out)?;
    if size == bytes.len() as u64 {
        Ok(())
    } else {
        Err(Fault::Refused(Refusal::trailing(size)))
    }
}
