//! `events --seq`: the lines of each item of a sequence (RFC 8742).

ghost use Rattle.std.specs.Prelude.{◌≡◌, ◌<◌, [], OnOk, IfErr};
ghost use Rattle.std.specs.Io.KnownBytes.{Appends};
ghost use Rattle.cbor_head.specs.Complaint.{form};
ghost use Rattle.cbor_reader.specs.Sequence.{IsAccepted};
ghost use Rattle.cborc_commands.specs.EventsSequence.{gap, item_lines, IsSequenceListed};
ghost use Rattle.cborc_commands.specs.EventsSequence.{IsSequenceNotListed};
ghost use Rattle.cborc_files.specs.Folder.{KeepsFiles};
ghost use Rattle.cborc_commands.specs.inner.SequenceItems.{IsItemNotListed};

use crate::fault::Fault;
use crate::first_item::Scratch;
use crate::listing::{is_undecided, list_prefix};
use crate::sequence::{ItemWriter, write_items};
use cbor_head::Limits;
use cbor_item::write_whole;
use cborc_files::Folder;
use cborc_words::{EventStyle, Options};
use std::alloc::Global;
use std::io::Write;

/// Writes the lines of the events of each item of the sequence in the file `source` to `out`, with an
/// empty line before each item but the first. Offsets count from the start of the input. Lines that
/// were written before a refusal, or before a fault of hex text, stay.
pub fn events_sequence<'a, F: Folder, O: Write>(
    alloc: Global,
    files: &mut F,
    out: &mut O,
    source: &'a str,
    event_style: EventStyle,
    options: Options,
) -> Result<(), Fault<'a>>
    ensures listed { OnOk result (IsSequenceListed event_style options source.now
        (F.held files.old) (O.contents out.old) (O.contents out.new)) }
    ensures fault { IfErr result (IsSequenceNotListed event_style options source.now
        (F.held files.old) (O.contents out.old) (O.contents out.new)) }
    ensures keeps { KeepsFiles (F.held files.old) (F.held files.new) }
    ensures same { F.forwards_to files.new ≡ F.forwards_to files.old }
{
    write_items(
        alloc,
        &ListedItems { event_style },
        files,
        source,
        options,
        out,
    )?;
    Ok(())
}

// Writes the lines of items.
#[derive(Clone, Copy)]
struct ListedItems {
    event_style: EventStyle,
}

impl ItemWriter for ListedItems {
    ghost takes = { λ _ b. IsAccepted b form };

    ghost text = { λ listed. item_lines listed.event_style };

    ghost stops = { λ listed. IsItemNotListed listed.event_style };

    fn write_item<'f, W: Write>(
        &self,
        _alloc: Global,
        bytes: &[u8],
        goes_on: bool,
        start: usize,
        limits: Limits,
        _space: &mut Scratch,
        out: &mut W,
    ) -> Result<Option<usize>, Fault<'f>> {
        if goes_on && is_undecided(bytes, limits) {
            return Ok(None);
        }
        write_gap(start, out)?;
        let size = list_prefix(self.event_style, bytes, start, limits, out)?;
        Ok(Some(size as usize))
    }
}

// Writes the empty line before the item at this offset, unless it is the first.
fn write_gap<'a, W: Write>(start: usize, out: &mut W) -> Result<(), Fault<'a>>
    ensures written { OnOk result
        (Appends (W.contents out.old) (W.contents out.new) (gap start)) }
    ensures fault { IfErr result (λ fault. (fault ≡ Fault.CannotPrint) × (0 < start)
        × Appends (W.contents out.old) (W.contents out.new) []) }
{
    if start > 0 && write_whole(out, b"\n").is_err() {
        return Err(Fault::CannotPrint);
    }
    Ok(())
}
