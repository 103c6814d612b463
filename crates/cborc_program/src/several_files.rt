//! `check` of several files: each in turn, with its name before each line.

ghost use Rattle.std.specs.Prelude.{◌≡◌, ◌≢◌, ◌≤◌, OnOk, IfOk, IfErr};
ghost use Rattle.std.specs.Io.KnownBytes.{Appends};
ghost use Rattle.cborc_commands.specs.Fault.{fault_status};
ghost use Rattle.cborc_commands.specs.declared.status.Status.TheVariants as statuses;
ghost use Rattle.cborc_files.specs.Folder.{KeepsFiles};
ghost use Rattle.cborc_program.specs.SeveralFiles.{label, request_for, AreChecked, IsCutShort, IsEnd, IsNamed};

use crate::labelled::Labelled;
use cbor_item::write_whole;
use cborc_commands::{Fault, end_in, perform};
use cborc_files::{Folder, Visible};
use cborc_words::{Accepted, Action, Request, Task};
use std::alloc::{AllocError, Global};
use std::io::Write;

// The space for the line of an accepted file, in bytes: `accepted`, a number and `bytes` need 36.
const LINE: usize = 64;

/// Checks each file of the task in turn, and returns the worst status. Before each line is the name
/// of its file. After a file that is refused or cannot be read, the next one is checked. If standard
/// output or memory fails, the run ends.
pub(crate) fn check_each<F: Folder, O: Write, E: Write>(
    alloc: Global,
    task: &Task<'_>,
    accepted: Accepted,
    files: &mut F,
    out: &mut O,
    err: &mut E,
) -> u8
    ensures checked { AreChecked task.now.verbosity task.now.request accepted task.now.files.items
        (F.held files.old) (F.held files.new) (O.contents out.old) (O.contents out.new) result }
    ensures keeps { KeepsFiles (F.held files.old) (F.held files.new) }
    ensures range { result ≤ 3 }
    ensures used_well { result ≢ 2 }
{
    let mut worst = 0;
    let paths = task.files.as_slice();
    'paths: for path in paths {
        match check_one(alloc, task, accepted, *path, files, out, err) {
            Ok(status) => worst = worst.max(status),
            Err(fault) => return end_in(task.verbosity, fault, err),
        }
    }
    worst
}

// Checks one of the files and returns its status. The fault is one of standard output or of memory.
fn check_one<'a, F: Folder, O: Write, E: Write>(
    alloc: Global,
    task: &Task<'a>,
    accepted: Accepted,
    path: &'a str,
    files: &mut F,
    out: &mut O,
    err: &mut E,
) -> Result<u8, Fault<'a>>
    ensures named { IfOk result (IsNamed task.now.verbosity
        (request_for task.now.request accepted path.entry) (F.held files.old) (F.held files.new)
        (O.contents out.old) (O.contents out.new)) }
    ensures ended { IfErr result (λ fault. (fault_status fault ≡ statuses.Failed)
        × IsEnd task.now.verbosity
        (request_for task.now.request accepted path.entry) (F.held files.old) (F.held files.new)
        (O.contents out.old) (O.contents out.new)) }
    ensures keeps { KeepsFiles (F.held files.old) (F.held files.new) }
    ensures range { IfOk result (λ status. status ≤ 3) }
    ensures used_well { IfOk result (λ status. status ≢ 2) }
{
    let request = Request {
        action: Action::Check(accepted),
        source: path,
        sequence: task.request.sequence,
        options: task.request.options,
    };
    let Ok(mut text) = labelled(alloc, path) else {
        return Err(Fault::Memory);
    };
    let label = text.len();
    let mut messages = Labelled::new(path, err);
    let status = perform(
        alloc,
        &request,
        task.verbosity,
        files,
        &mut text,
        &mut messages,
    );
    let _ = err.flush();
    if text.len() != label {
        print(out, text.as_slice())?;
    }
    Ok(status)
}

// The name of a file before its line, with space for the line.
fn labelled(alloc: Global, path: &str) -> Result<Vec<u8>, AllocError>
    ensures { IfOk result (λ text. text.items ≡ label path.now) }
{
    let mut text = format!(in alloc; "{}: ", Visible(path))?.into_bytes();
    text.reserve(LINE)?;
    Ok(text)
}

// Writes a line to standard output, and flushes it.
fn print<'a, O: Write>(out: &mut O, line: &[u8]) -> Result<(), Fault<'a>>
    ensures printed { OnOk result (Appends (O.contents out.old) (O.contents out.new) line.now) }
    ensures fault { IfErr result (λ fault. (fault ≡ Fault.CannotPrint)
        × IsCutShort line.now (O.contents out.old) (O.contents out.new)) }
{
    match write_whole(out, line) {
        Ok(()) => match out.flush() {
            Ok(()) => Ok(()),
            Err(_) => Err(Fault::CannotPrint),
        },
        Err(_) => Err(Fault::CannotPrint),
    }
}
