//! `canon --seq`: the canonical bytes of each item of a sequence (RFC 8742), from file to file.

ghost use Rattle.std.specs.Prelude.{◌≡◌, ℕ, List, Option, OnOk, OnErr, IfErr, false};
ghost use Rattle.cborc_commands.specs.CanonSequence.{HasCanonicalBytes, canonical_text};
ghost use Rattle.cborc_commands.specs.CanonSequence.{IsSequenceCanonised};
ghost use Rattle.cborc_commands.specs.CanonSequence.{IsSequenceNotCanonised};
ghost use Rattle.cborc_files.specs.Folder.{is_stream, KeepsFiles};
ghost use Rattle.cborc_commands.specs.inner.SequenceItems.{IsUnwritten};

use crate::fault::Fault;
use crate::first_item::Scratch;
use crate::sequence::{ItemWriter, unless_cut, write_items};
use crate::texts::formed;
use cbor_head::{KeyOrder, Limits, Reason, Refusal};
use cbor_item::write_whole;
use cborc_files::{Folder, is_stream};
use cborc_words::{Form, Options, Output};
use std::alloc::Global;
use std::borrow::CowSlice;
use std::io::Write;

/// Writes the canonical bytes of each item of the sequence in the file `source` to the output, one
/// after another. A file is replaced with those of all items, or left unchanged. Bytes that were
/// written to standard output before a refusal stay.
pub fn canon_sequence<'a, F: Folder, O: Write>(
    alloc: Global,
    files: &mut F,
    out: &mut O,
    source: &'a str,
    output: Output<'a>,
    order: KeyOrder,
    options: Options,
) -> Result<(), Fault<'a>>
    ensures written { OnOk result (IsSequenceCanonised order options source.now output.entry
        (F.held files.old) (F.held files.new) (O.contents out.old) (O.contents out.new)) }
    ensures untouched { OnErr result (KeepsFiles (F.held files.old) (F.held files.new)) }
    ensures same { F.forwards_to files.new ≡ F.forwards_to files.old }
    ensures fault { IfErr result (IsSequenceNotCanonised order options source.now output.entry
        (F.held files.old) (O.contents out.old) (O.contents out.new)) }
    ensures silent { is_stream output.entry.path.now ≡ false → out.new ≡ out.old }
{
    if !is_stream(output.path) {
        return replace_file(alloc, files, source, output, order, options);
    }
    let form = output.form;
    let canonical = CanonicalItems { order, form };
    write_items(alloc, &canonical, files, source, options, out)?;
    Ok(())
}

// Writes them to a file that replaces the one at the output's path. Standard output gets nothing.
fn replace_file<'a, F: Folder>(
    alloc: Global,
    files: &mut F,
    source: &'a str,
    output: Output<'a>,
    order: KeyOrder,
    options: Options,
) -> Result<(), Fault<'a>>
    requires { is_stream output.path.now ≡ false }
    ensures written { OnOk result ((out : Option (List ℕ)) → IsSequenceCanonised order options
        source.now output.entry (F.held files.old) (F.held files.new) out out) }
    ensures untouched { OnErr result (KeepsFiles (F.held files.old) (F.held files.new)) }
    ensures same { F.forwards_to files.new ≡ F.forwards_to files.old }
    ensures fault { IfErr result (λ fault. (out : Option (List ℕ)) → IsSequenceNotCanonised order
        options source.now output.entry (F.held files.old) out out fault) }
{
    let Output { path, form } = output;
    let canonical = CanonicalItems { order, form };
    let mut draft = match files.begin(path) {
        Ok(draft) => draft,
        Err(_) => return Err(Fault::Memory),
    };
    match write_items(alloc, &canonical, files, source, options, &mut draft) {
        Ok(_) => match files.replace(path, draft) {
            Ok(()) => Ok(()),
            Err(cause) => Err(Fault::of_writing(path, cause)),
        },
        Err(fault) => {
            let cause = files.abandon(draft);
            match fault {
                Fault::CannotPrint => Err(Fault::of_writing(path, cause)),
                _ => Err(fault),
            }
        }
    }
}

// Writes the canonical bytes of items.
#[derive(Clone, Copy)]
struct CanonicalItems {
    order: KeyOrder,
    form: Form,
}

impl ItemWriter for CanonicalItems {
    ghost takes = { λ canonical b. HasCanonicalBytes b canonical.order };

    ghost text = { λ canonical _. canonical_text canonical.order canonical.form };

    ghost stops = { λ canonical b start bytes fault before after.
        IsUnwritten b canonical.order canonical.form bytes fault before after };

    fn write_item<'f, W: Write>(
        &self,
        alloc: Global,
        bytes: &[u8],
        goes_on: bool,
        _start: usize,
        limits: Limits,
        scratch: &mut Scratch,
        out: &mut W,
    ) -> Result<Option<usize>, Fault<'f>> {
        let (canonical, size) = match scratch.canonical_at_start(bytes, limits, self.order) {
            Ok(prefix) => prefix,
            Err(refusal) => return unless_cut(refusal, goes_on),
        };
        if canonical.len() as u64 > limits.bytes() {
            return Err(Fault::Refused(Refusal::at(Reason::CanonicalTooLong, size)));
        }
        let Ok(text) = formed(alloc, CowSlice::Borrowed(canonical), self.form) else {
            return Err(Fault::Memory);
        };
        match write_whole(out, text.as_slice()) {
            Ok(()) => Ok(Some(size as usize)),
            Err(_) => Err(Fault::CannotPrint),
        }
    }
}
