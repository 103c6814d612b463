//! The subcommand `compare`: whether the items in two files have the same value.

ghost use Rattle.std.specs.Prelude.{◌≡◌, ◌≢◌, IfOk, IfErr};
ghost use Rattle.std.specs.Io.KnownBytes.{Appends};
ghost use Rattle.cborc_commands.specs.Compare.{IsReported, IsUnreported, AreCompared, AreNotCompared};
ghost use Rattle.cborc_files.specs.Folder.{KeepsFiles};

use crate::fault::Fault;
use crate::input::{Judge, read_item};
use crate::status::Status;
use cbor_head::Limits;
use cbor_item::write_whole;
use cbor_reader::laws::valid_items;
use cbor_reader::same_meaning;
use cborc_files::Folder;
use cborc_words::{Accepted, Options};
use std::alloc::Global;
use std::io::Write;

/// Writes to `out` whether the items in two files have the same value. Both are read, and decoded
/// from hex, before either is judged.
pub fn compare<'a, F: Folder, O: Write>(
    alloc: Global,
    files: &mut F,
    out: &mut O,
    left: &'a str,
    right: &'a str,
    options: &Options,
) -> Result<Status, Fault<'a>>
    ensures reported { IfOk result (AreCompared options.now left.now right.now
        (F.held files.old) (O.contents out.old) (O.contents out.new)) }
    ensures fault { IfErr result
        (AreNotCompared options.now left.now right.now (F.held files.old)
        (O.contents out.old) (O.contents out.new)) }
    ensures silent { IfErr result (λ fault. fault ≢ Fault.CannotPrint → out.new ≡ out.old) }
    ensures keeps { KeepsFiles (F.held files.old) (F.held files.new) }
    ensures same { F.forwards_to files.new ≡ F.forwards_to files.old }
{
    valid_items();
    let judge = Judge::Item(Accepted::Valid);
    let first = read_item(alloc, files, left, judge, *options)?;
    let second = read_item(alloc, files, right, judge, *options)?;
    report(
        alloc,
        out,
        first.as_slice(),
        second.as_slice(),
        options.limits,
    )
}

// Writes to `out` whether two inputs are items with the same value. The status says so too.
fn report<'a, O: Write>(
    alloc: Global,
    out: &mut O,
    left: &[u8],
    right: &[u8],
    limits: Limits,
) -> Result<Status, Fault<'a>>
    ensures reported { IfOk result (IsReported limits left.now right.now
        (Appends (O.contents out.old) (O.contents out.new))) }
    ensures fault { IfErr result (IsUnreported limits left.now right.now
        (O.contents out.old) (O.contents out.new)) }
    ensures silent { IfErr result (λ fault. fault ≢ Fault.CannotPrint → out.new ≡ out.old) }
{
    let (line, status) = if same_meaning(alloc, left, right, limits)? {
        (b"same\n".as_slice(), Status::Accepted)
    } else {
        (b"different\n".as_slice(), Status::Refused)
    };
    match write_whole(out, line) {
        Ok(()) => Ok(status),
        Err(_) => Err(Fault::CannotPrint),
    }
}
