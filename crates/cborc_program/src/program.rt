//! The program, over any folder and any two outputs.

ghost use Rattle.std.specs.Prelude.{◌≡◌, ◌≢◌, ◌≤◌, ◌⊎◌, Ok, Err};
ghost use Rattle.std.specs.Io.KnownBytes.{Keeps};
ghost use Rattle.clap.specs.Words.{kind_of};
ghost use Rattle.cborc_files.specs.Folder.{KeepsFiles};
ghost use Rattle.cborc_words.specs.Words.{parsed_words, texts_of};
ghost use Rattle.cborc_program.specs.Run.{IsRun};
ghost use Rattle.cborc_program.specs.SeveralFiles.{several, IsPerformed};
ghost use Rattle.cborc_program.specs.inner.WordsEnd.{IsWordsEnd};

use crate::several_files::check_each;
use cborc_commands::{Fault, Status, end, flushed, perform};
use cborc_files::Folder;
use cborc_words::{Accepted, Action, Task, parse};
use clap::error::ErrorKind;
use std::alloc::Global;
use std::io::Write;

/// Performs what the arguments request, of which the first is the program's name. Returns the exit
/// status: 0 accepted or same, 1 refused or different, 2 a usage error, 3 an error of a file, its
/// hex text, the output or memory. The reason for a status other than 0 is written to `err`; if
/// that fails, the status is the same. `out` is flushed before that.
pub fn run<F: Folder, O: Write, E: Write>(
    alloc: Global,
    words: Vec<String>,
    files: &mut F,
    out: &mut O,
    err: &mut E,
) -> u8
    ensures range { result ≤ 3 }
    ensures leaves { IsRun (parsed_words (texts_of words.items)) (F.held files.old) (F.held files.new)
        (O.contents out.old) (O.contents out.new) result }
    ensures refused { result ≡ 1 → KeepsFiles (F.held files.old) (F.held files.new) }
    ensures unchanged { result ≡ 2 → files.new ≡ files.old }
    ensures unwritten { result ≡ 2 → Keeps (O.contents out.old) (O.contents out.new) }
{
    match parse(alloc, words.as_slice()) {
        Ok(task) => perform_task(alloc, &task, files, out, err),
        Err(error) => {
            let ended = explain_words(&error, out, err);
            end(flushed(ended, out), err)
        }
    }
}

// Performs the task: `check` of several files, or one request.
fn perform_task<F: Folder, O: Write, E: Write>(
    alloc: Global,
    task: &Task<'_>,
    files: &mut F,
    out: &mut O,
    err: &mut E,
) -> u8
    ensures performed { IsPerformed task.now (F.held files.old) (F.held files.new)
        (O.contents out.old) (O.contents out.new) result }
    ensures range { result ≤ 3 }
    ensures refused { result ≡ 1 → KeepsFiles (F.held files.old) (F.held files.new) }
    ensures used_well { result ≢ 2 }
{
    match several(task) {
        Some(accepted) => check_each(alloc, task, accepted, files, out, err),
        None => perform(alloc, &task.request, task.verbosity, files, out, err),
    }
}

// Which items the task accepts, if it is `check` of several files.
fn several(task: &Task<'_>) -> Option<Accepted>
    ensures { result ≡ several task.now }
{
    match task.request.action {
        Action::Check(accepted) if task.files.len() > 1 => Some(accepted),
        _ => None,
    }
}

// Writes why the arguments request nothing: help to `out`, a usage error to `err`.
fn explain_words<'a, O: Write, E: Write>(
    error: &clap::Error,
    out: &mut O,
    err: &mut E,
) -> Result<Status, Fault<'a>>
    ensures memory { kind_of error.now ≡ ErrorKind.OutOfMemory → result ≡ Err Fault.Memory }
    ensures help { kind_of error.now ≡ ErrorKind.DisplayHelp
        → (result ≡ Ok Status.Accepted) ⊎ (result ≡ Err Fault.CannotPrint) }
    ensures misused { kind_of error.now ≢ ErrorKind.OutOfMemory
        → kind_of error.now ≢ ErrorKind.DisplayHelp → kind_of error.now ≢ ErrorKind.DisplayVersion
        → result ≡ Ok Status.Misused }
    ensures ends { IsWordsEnd (kind_of error.now) result (O.contents out.old) (O.contents out.new) }
{
    if error.kind() == ErrorKind::OutOfMemory {
        return Err(Fault::Memory);
    }
    if error.use_stderr() {
        let _ = write!(err, "{error}");
        return Ok(Status::Misused);
    }
    match write!(out, "{error}") {
        Ok(()) => Ok(Status::Accepted),
        Err(_) => Err(Fault::CannotPrint),
    }
}
