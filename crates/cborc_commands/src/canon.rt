//! The subcommand `canon`: the canonical bytes of an item, from file to file.

ghost use Rattle.std.specs.Prelude.{◌≡◌, ◌≢◌, OnOk, OnErr, IfErr};
ghost use Rattle.cborc_commands.specs.Put.{IsPut, IsNotPut};
ghost use Rattle.cborc_commands.specs.Texts.{GoesInPart};
ghost use Rattle.cborc_commands.specs.Canon.{HasText, IsNotCanonised};
ghost use Rattle.cborc_files.specs.Folder.{KeepsFiles};

use crate::fault::Fault;
use crate::input::{Judge, read_item};
use crate::texts::canonical_text;
use cbor_head::{KeyOrder, Limits};
use cbor_item::write_whole;
use cborc_files::{Folder, is_stream};
use cborc_words::{Accepted, Options, Output};
use std::alloc::Global;
use std::io::Write;

/// Writes the canonical bytes of the item in the file `source` to the output: all of them, or none.
/// So a file is replaced whole or left unchanged.
pub fn canon<'a, F: Folder, O: Write>(
    alloc: Global,
    files: &mut F,
    out: &mut O,
    source: &'a str,
    output: Output<'a>,
    order: KeyOrder,
    options: Options,
) -> Result<(), Fault<'a>>
    ensures written { OnOk result (HasText order options source.now output.entry.form
        (F.held files.old) (IsPut output.entry.path.now (F.held files.old) (F.held files.new)
        (O.contents out.old) (O.contents out.new))) }
    ensures untouched { OnErr result (KeepsFiles (F.held files.old) (F.held files.new)) }
    ensures same { F.forwards_to files.new ≡ F.forwards_to files.old }
    ensures fault { IfErr result
        (IsNotCanonised order options source.now output.entry (F.held files.old)
        (O.contents out.old) (O.contents out.new)) }
    ensures silent { IfErr result (λ fault. fault ≢ Fault.CannotPrint → out.new ≡ out.old) }
{
    let limits = options.limits;
    let Output { path, form } = output;
    let bytes = read_item(alloc, files, source, Judge::Item(Accepted::Valid), options)?;
    let text = canonical_text(alloc, bytes.as_slice(), limits, order, form)?;
    put(files, out, path, text.as_slice())
}

// Writes the text to the file at the path, or to standard output for the path `-`.
fn put<'a, F: Folder, O: Write>(
    files: &mut F,
    out: &mut O,
    path: &'a str,
    text: &[u8],
) -> Result<(), Fault<'a>>
    ensures put { OnOk result (IsPut path.now (F.held files.old) (F.held files.new)
        (O.contents out.old) (O.contents out.new) text.now) }
    ensures untouched { OnErr result (KeepsFiles (F.held files.old) (F.held files.new)) }
    ensures same { F.forwards_to files.new ≡ F.forwards_to files.old }
    ensures fault { IfErr result (λ fault. IsNotPut path.now fault × (fault ≡ Fault.CannotPrint
        → GoesInPart (O.contents out.old) (O.contents out.new) text.now)) }
    ensures silent { IfErr result (λ fault. fault ≢ Fault.CannotPrint → out.new ≡ out.old) }
{
    if is_stream(path) {
        match write_whole(out, text) {
            Ok(()) => Ok(()),
            Err(_) => Err(Fault::CannotPrint),
        }
    } else {
        match files.write(path, text) {
            Ok(()) => Ok(()),
            Err(fault) => Err(Fault::of_writing(path, fault)),
        }
    }
}
