//! The subcommand `check`: whether a file is one item.

ghost use Rattle.std.specs.Prelude.{◌≡◌, ◌≢◌, true, false, OnOk, IfOk, IfErr};
ghost use Rattle.std.specs.Io.KnownBytes.{Appends};
ghost use Rattle.cbor_head.specs.Verdict.{refusal};
ghost use Rattle.cbor_head.specs.declared.reason.Reason.TheVariants as reasons;
ghost use Rattle.cbor_reader.specs.WholeItem.{IsItemRefusal};
ghost use Rattle.cborc_commands.specs.Fault.{IsOfInput};
ghost use Rattle.cborc_commands.specs.Rules.{rules_of};
ghost use Rattle.cborc_commands.specs.inner.NotWritten.{IsNotTaken};
ghost use Rattle.cborc_commands.specs.Check.{accepted_bytes, IsWhole, IsChecked, IsNotChecked};
ghost use Rattle.cborc_commands.specs.Check.{IsNoWholeInput};
ghost use Rattle.cborc_commands.specs.inner.WholeInput.{IsWholeInput};
ghost use Rattle.cborc_files.specs.Folder.{KeepsFiles};

use crate::check_parts::strict_size;
use crate::fault::Fault;
use crate::first_item::Scratch;
use crate::input::{Judge, read_item};
use cbor_head::{Limits, Refusal};
use cbor_item::write_whole;
use cborc_files::Folder;
use cborc_words::{Accepted, Options};
use std::alloc::Global;
use std::io::Write;

/// What is kept of an input when its verdict is known.
#[derive(Clone, Copy)]
pub enum Retention {
    /// The first bytes, with the refused item: an explanation shows them.
    Item,
    /// Nothing, so that an item may be larger than the memory.
    Nothing,
}

/// Writes the number of bytes of the item in the file `source` to `out`.
pub fn check<'a, F: Folder, O: Write>(
    alloc: Global,
    files: &mut F,
    out: &mut O,
    source: &'a str,
    accepted: Accepted,
    options: Options,
    retention: Retention,
) -> Result<(), Fault<'a>>
    ensures reported { OnOk result (IsChecked (rules_of accepted) options source.now
        (F.held files.old) (Appends (O.contents out.old) (O.contents out.new))) }
    ensures fault { IfErr result
        (IsNotChecked (rules_of accepted) options source.now (F.held files.old)
        (O.contents out.old) (O.contents out.new)) }
    ensures silent { IfErr result (λ fault. fault ≢ Fault.CannotPrint → out.new ≡ out.old) }
    ensures keeps { KeepsFiles (F.held files.old) (F.held files.new) }
    ensures same { F.forwards_to files.new ≡ F.forwards_to files.old }
{
    let size = match (accepted, retention) {
        (Accepted::Canonical(order), Retention::Nothing) => {
            strict_size(alloc, files, source, order, options)?
        }
        _ => size_of_input(alloc, files, source, accepted, options)?,
    };
    report(alloc, out, size)
}

// The number of bytes of the item that the input at this path is.
fn size_of_input<'a, F: Folder>(
    alloc: Global,
    files: &mut F,
    source: &'a str,
    accepted: Accepted,
    options: Options,
) -> Result<u64, Fault<'a>>
    ensures whole { IfOk result
        (IsWholeInput (rules_of accepted) options source.now (F.held files.old)) }
    ensures fault { IfErr result
        (IsNoWholeInput (rules_of accepted) options source.now (F.held files.old)) }
    ensures keeps { KeepsFiles (F.held files.old) (F.held files.new) }
    ensures same { F.forwards_to files.new ≡ F.forwards_to files.old }
{
    let limits = options.limits;
    let bytes = read_item(alloc, files, source, Judge::Item(accepted), options)?;
    let mut scratch = Scratch::new(alloc);
    let size = size_of_item(&mut scratch, bytes.as_slice(), accepted, limits)?;
    Ok(size)
}

// Writes the line of an accepted item, with its number of bytes.
fn report<'a, O: Write>(alloc: Global, out: &mut O, size: u64) -> Result<(), Fault<'a>>
    ensures reported { OnOk result
        (Appends (O.contents out.old) (O.contents out.new) (accepted_bytes size)) }
    ensures fault { IfErr result
        (IsNotTaken (accepted_bytes size) (O.contents out.old) (O.contents out.new)) }
    ensures silent { IfErr result (λ fault. fault ≢ Fault.CannotPrint → out.new ≡ out.old) }
{
    let line = match format!(in alloc; "accepted {size} bytes\n") {
        Ok(line) => line,
        Err(_) => return Err(Fault::Memory),
    };
    match write_whole(out, line.as_bytes()) {
        Ok(()) => Ok(()),
        Err(_) => Err(Fault::CannotPrint),
    }
}

/// The number of bytes of the item that the bytes are. The refusal is the item's, or else `Trailing`.
pub(crate) fn size_of_item(
    scratch: &mut Scratch,
    bytes: &[u8],
    accepted: Accepted,
    limits: Limits,
) -> Result<u64, Refusal>
    ensures whole { IfOk result (IsWhole limits (rules_of accepted) bytes.now) }
    ensures refused { IfErr result (λ f. IsOfInput f.reason
        → IsItemRefusal limits (rules_of accepted) bytes.now f) }
{
    let size = scratch.size_at_start(bytes, accepted, limits)?;
    all_of(size, size == bytes.len() as u64)
}

/// The size of the first item of an input, if the item is all of it. Else the refusal is `Trailing`.
pub(crate) fn all_of(size: u64, is_all: bool) -> Result<u64, Refusal>
    ensures all { IfOk result (λ n. (n ≡ size) × (is_all ≡ true)) }
    ensures followed { IfErr result (λ f. (f ≡ refusal reasons.Trailing size size) × (is_all ≡ false)) }
{
    if is_all {
        Ok(size)
    } else {
        Err(Refusal::trailing(size))
    }
}
