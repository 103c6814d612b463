//! `show --seq`: the diagnostic text of each item of a sequence (RFC 8742).

ghost use Rattle.std.specs.Prelude.{◌≡◌, OnOk, IfErr};
ghost use Rattle.cbor_head.specs.Complaint.{plain};
ghost use Rattle.cbor_reader.specs.Sequence.{IsAccepted};
ghost use Rattle.cborc_commands.specs.ShowSequence.{item_text, IsSequenceShown};
ghost use Rattle.cborc_commands.specs.ShowSequence.{IsSequenceNotShown};
ghost use Rattle.cborc_files.specs.Folder.{KeepsFiles};
ghost use Rattle.cborc_commands.specs.inner.SequenceItems.{IsItemNotShown};

use crate::fault::Fault;
use crate::first_item::Scratch;
use crate::sequence::{ItemWriter, unless_cut, write_items};
use cbor_head::Limits;
use cborc_files::Folder;
use cborc_words::{Accepted, Options, TextStyle};
use std::alloc::Global;
use std::io::Write;

/// Writes the diagnostic text of each item of the sequence in the file `source` to `out`, with a line
/// feed after each. Texts that were written before a refusal, or before a fault of hex text,
/// stay.
pub fn show_sequence<'a, F: Folder, O: Write>(
    alloc: Global,
    files: &mut F,
    out: &mut O,
    source: &'a str,
    text_style: TextStyle,
    options: Options,
) -> Result<(), Fault<'a>>
    ensures shown { OnOk result (IsSequenceShown text_style options source.now
        (F.held files.old) (O.contents out.old) (O.contents out.new)) }
    ensures fault { IfErr result (IsSequenceNotShown text_style options source.now
        (F.held files.old) (O.contents out.old) (O.contents out.new)) }
    ensures keeps { KeepsFiles (F.held files.old) (F.held files.new) }
    ensures same { F.forwards_to files.new ≡ F.forwards_to files.old }
{
    write_items(
        alloc,
        &ShownItems { text_style },
        files,
        source,
        options,
        out,
    )?;
    Ok(())
}

// Writes the diagnostic text of items.
#[derive(Clone, Copy)]
struct ShownItems {
    text_style: TextStyle,
}

impl ItemWriter for ShownItems {
    ghost takes = { λ shown b. IsAccepted b plain };

    ghost text = { λ shown _. item_text shown.text_style };

    ghost stops = { λ shown b start bytes fault before after.
        IsItemNotShown b shown.text_style bytes fault before after };

    fn write_item<'f, W: Write>(
        &self,
        _alloc: Global,
        bytes: &[u8],
        goes_on: bool,
        _start: usize,
        limits: Limits,
        scratch: &mut Scratch,
        out: &mut W,
    ) -> Result<Option<usize>, Fault<'f>> {
        match scratch.size_at_start(bytes, Accepted::Valid, limits) {
            Ok(size) => {
                scratch.print_prefix(bytes, limits, self.text_style, out)?;
                Ok(Some(size as usize))
            }
            Err(refusal) => unless_cut(refusal, goes_on),
        }
    }
}
