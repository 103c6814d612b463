//! `check --seq`: whether a file is a sequence of items (RFC 8742).

ghost use Rattle.std.specs.Prelude.{◌≡◌, ◌≢◌, [], Option, OnOk, IfErr};
ghost use Rattle.std.specs.Io.KnownBytes.{Appends};
ghost use Rattle.cbor_reader.specs.Sequence.{IsAccepted};
ghost use Rattle.cborc_commands.specs.Rules.{rules_of};
ghost use Rattle.cborc_commands.specs.inner.NotWritten.{IsNotTaken};
ghost use Rattle.cborc_commands.specs.CheckSequence.{accepted_items};
ghost use Rattle.cborc_commands.specs.CheckSequence.{IsSequenceChecked, IsSequenceNotChecked};
ghost use Rattle.cborc_files.specs.Folder.{KeepsFiles};
ghost use Rattle.cborc_commands.specs.inner.SequenceItems.{IsUncounted};

use crate::fault::Fault;
use crate::first_item::Scratch;
use crate::sequence::{ItemWriter, unless_cut, write_items};
use cbor_head::Limits;
use cbor_item::write_whole;
use cborc_files::Folder;
use cborc_words::{Accepted, Options};
use std::alloc::Global;
use std::io::{self, Write};

/// Writes the number of items of the sequence in the file `source` to `out`.
pub fn check_sequence<'a, F: Folder, O: Write>(
    alloc: Global,
    files: &mut F,
    out: &mut O,
    source: &'a str,
    accepted: Accepted,
    options: Options,
) -> Result<(), Fault<'a>>
    ensures reported { OnOk result (IsSequenceChecked (rules_of accepted) options source.now
        (F.held files.old) (Appends (O.contents out.old) (O.contents out.new))) }
    ensures fault { IfErr result
        (IsSequenceNotChecked (rules_of accepted) options source.now (F.held files.old)
        (O.contents out.old) (O.contents out.new)) }
    ensures silent { IfErr result (λ fault. fault ≢ Fault.CannotPrint → out.new ≡ out.old) }
    ensures keeps { KeepsFiles (F.held files.old) (F.held files.new) }
    ensures same { F.forwards_to files.new ≡ F.forwards_to files.old }
{
    let counted = CountedItems { accepted };
    let count = write_items(alloc, &counted, files, source, options, &mut io::sink())?;
    report(alloc, out, count)
}

// Writes the line of an accepted sequence, with its number of items.
fn report<'a, O: Write>(alloc: Global, out: &mut O, count: usize) -> Result<(), Fault<'a>>
    ensures reported { OnOk result
        (Appends (O.contents out.old) (O.contents out.new) (accepted_items count)) }
    ensures fault { IfErr result
        (IsNotTaken (accepted_items count) (O.contents out.old) (O.contents out.new)) }
    ensures silent { IfErr result (λ fault. fault ≢ Fault.CannotPrint → out.new ≡ out.old) }
{
    let line = match format!(in alloc; "accepted {count} items\n") {
        Ok(line) => line,
        Err(_) => return Err(Fault::Memory),
    };
    match write_whole(out, line.as_bytes()) {
        Ok(()) => Ok(()),
        Err(_) => Err(Fault::CannotPrint),
    }
}

// Counts items.
#[derive(Clone, Copy)]
struct CountedItems {
    // Which items are accepted.
    accepted: Accepted,
}

impl ItemWriter for CountedItems {
    ghost takes = { λ counted b. IsAccepted b (rules_of counted.accepted) };

    ghost text = { λ _ _ _. [] };

    ghost stops = { λ counted b start bytes fault before after.
        IsUncounted b (rules_of counted.accepted) bytes fault };

    fn write_item<'f, W: Write>(
        &self,
        _alloc: Global,
        bytes: &[u8],
        goes_on: bool,
        _start: usize,
        limits: Limits,
        scratch: &mut Scratch,
        _out: &mut W,
    ) -> Result<Option<usize>, Fault<'f>> {
        match scratch.size_at_start(bytes, self.accepted, limits) {
            Ok(size) => Ok(Some(size as usize)),
            Err(refusal) => unless_cut(refusal, goes_on),
        }
    }
}
