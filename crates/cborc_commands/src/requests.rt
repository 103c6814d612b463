//! Performs requests over any folder and any two outputs.

ghost use Rattle.std.specs.Prelude.{◌≡◌, ◌⊎◌, Ok, Err, OnErr, IfOk, IfErr};
ghost use Rattle.std.specs.Io.KnownBytes.{Keeps};
ghost use Rattle.cborc_commands.specs.Performed.{IsDone, IsNotDone};
ghost use Rattle.cborc_commands.specs.Fault.{end_status, fault_status, status_number};
ghost use Rattle.cborc_files.specs.Folder.{KeepsFiles};
ghost use Rattle.cborc_commands.specs.Outcome.{IsSilent, IsFinished, IsFinishedQuietly, IsReportedBy};

use crate::canon::canon;
use crate::canon_sequence::canon_sequence;
use crate::check::{Retention, check};
use crate::check_sequence::check_sequence;
use crate::compare::compare;
use crate::events::events;
use crate::events_sequence::events_sequence;
use crate::explanation::{explain, explain_output};
use crate::fault::Fault;
use crate::show::show;
use crate::show_sequence::show_sequence;
use crate::status::Status;
use cborc_files::{Folder, Recording, RecordingFolder};
use cborc_words::{Action, Request, Verbosity};
use std::alloc::Global;
use std::io::{self, Write};

/// Performs the request, reports it in this verbosity, and returns the exit status. `out` is flushed
/// before that.
pub fn perform<F: Folder, O: Write, E: Write>(
    alloc: Global,
    request: &Request<'_>,
    verbosity: Verbosity,
    files: &mut F,
    out: &mut O,
    err: &mut E,
) -> u8
    ensures { IsReportedBy verbosity request.now (F.held files.old)
        (F.held files.new) (O.contents out.old) (O.contents out.new) result }
{
    match verbosity {
        Verbosity::Plain => {
            let ended = perform_request(alloc, request, files, out, Retention::Nothing);
            end(flushed(ended, out), err)
        }
        Verbosity::Quiet => perform_quietly(alloc, request, files, out),
        Verbosity::Explained => perform_explained(alloc, request, files, out, err),
    }
}

// Performs the request, explains a fault on standard error, and returns the status.
fn perform_explained<F: Folder, O: Write, E: Write>(
    alloc: Global,
    request: &Request<'_>,
    files: &mut F,
    out: &mut O,
    err: &mut E,
) -> u8
    ensures { IsFinished request.now (F.held files.old) (F.held files.new)
        (O.contents out.old) (O.contents out.new) result }
{
    let mut kept = Recording::new();
    let mut memory = RecordingFolder::new(files, &mut kept);
    let ended = perform_request(alloc, request, &mut memory, out, Retention::Item);
    let sent = flushed(ended, out);
    end_explained(alloc, request, sent, &memory, err)
}

// Writes the line of a fault and its explanation, and returns the status.
fn end_explained<F: Folder, E: Write>(
    alloc: Global,
    request: &Request<'_>,
    ended: Result<Status, Fault<'_>>,
    memory: &RecordingFolder<'_, F>,
    err: &mut E,
) -> u8
    ensures { result ≡ status_number (end_status ended.entry) }
{
    let status = end(ended, err);
    if let Err(fault) = ended {
        let _ = explain(alloc, request, &fault, memory, err);
    }
    status
}

// Performs the request without any line, and returns the status. Standard output gets canonical bytes only.
fn perform_quietly<F: Folder, O: Write>(
    alloc: Global,
    request: &Request<'_>,
    files: &mut F,
    out: &mut O,
) -> u8
    ensures { IsFinishedQuietly request.now (F.held files.old) (F.held files.new)
        (O.contents out.old) (O.contents out.new) result }
{
    match request.action {
        Action::Canon { .. } => {
            let ended = perform_request(alloc, request, files, out, Retention::Nothing);
            end(flushed(ended, out), &mut io::sink())
        }
        _ => {
            let ended = perform_request(alloc, request, files, &mut io::sink(), Retention::Nothing);
            end(ended, &mut io::sink())
        }
    }
}

/// Flushes `out`, and returns the end, or the fault of the flush.
pub fn flushed<'a, O: Write>(
    ended: Result<Status, Fault<'a>>,
    out: &mut O,
) -> Result<Status, Fault<'a>>
    ensures end { (result ≡ ended.entry) ⊎ (result ≡ Err Fault.CannotPrint) }
    ensures keeps { Keeps (O.contents out.old) (O.contents out.new) }
{
    match out.flush() {
        Ok(()) => ended,
        Err(_) => Err(Fault::CannotPrint),
    }
}

/// Writes the line of a fault, and returns the status.
pub fn end<E: Write>(ended: Result<Status, Fault<'_>>, err: &mut E) -> u8
    ensures { result ≡ status_number (end_status ended.entry) }
{
    let status = match ended {
        Ok(status) => status,
        Err(fault) => {
            let _ = writeln!(err, "{fault}");
            fault.status()
        }
    };
    status as u8
}

/// Writes the line of a fault of standard output or of memory in this verbosity, and returns the
/// status.
pub fn end_in<E: Write>(verbosity: Verbosity, fault: Fault<'_>, err: &mut E) -> u8
    ensures { result ≡ status_number (fault_status fault.entry) }
{
    let status = match verbosity {
        Verbosity::Quiet => end(Err(fault), &mut io::sink()),
        _ => end(Err(fault), err),
    };
    if let Verbosity::Explained = verbosity {
        let _ = explain_output(&fault, err);
    }
    status
}

// Performs the request.
fn perform_request<'a, F: Folder, O: Write>(
    alloc: Global,
    request: &Request<'a>,
    files: &mut F,
    out: &mut O,
    retention: Retention,
) -> Result<Status, Fault<'a>>
    ensures done { IfOk result (IsDone request.now (F.held files.old) (F.held files.new)
        (O.contents out.old) (O.contents out.new)) }
    ensures fault { IfErr result (IsNotDone request.now (F.held files.old)
        (O.contents out.old) (O.contents out.new)) }
    ensures silent { IfErr result (λ fault. IsSilent request.now fault
        (O.contents out.old) (O.contents out.new)) }
    ensures untouched { OnErr result (KeepsFiles (F.held files.old) (F.held files.new)) }
    ensures same { F.forwards_to files.new ≡ F.forwards_to files.old }
{
    let source = request.source;
    let options = request.options;
    match &request.action {
        Action::Check(accepted) => {
            if request.sequence {
                check_sequence(alloc, files, out, source, *accepted, options)?;
            } else {
                check(alloc, files, out, source, *accepted, options, retention)?;
            }
            Ok(Status::Accepted)
        }
        Action::Show(style) => {
            if request.sequence {
                show_sequence(alloc, files, out, source, *style, options)?;
            } else {
                show(alloc, files, out, source, *style, options)?;
            }
            Ok(Status::Accepted)
        }
        Action::Events(style) => {
            if request.sequence {
                events_sequence(alloc, files, out, source, *style, options)?;
            } else {
                events(alloc, files, out, source, *style, options)?;
            }
            Ok(Status::Accepted)
        }
        Action::Canon { output, order } => {
            if request.sequence {
                canon_sequence(alloc, files, out, source, *output, *order, options)?;
            } else {
                canon(alloc, files, out, source, *output, *order, options)?;
            }
            Ok(Status::Accepted)
        }
        Action::Compare { right } => compare(alloc, files, out, source, right, &options),
    }
}
