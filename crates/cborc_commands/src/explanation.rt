//! Explains the line of a fault.

ghost use Rattle.std.specs.Prelude.{◌≡◌, ◌+◌, ◌-◌, ◌^◌, min, option_map};
ghost use Rattle.cborc_commands.specs.inner.Explained.{cause_text, last_source};

use crate::fault::Fault;
use cbor_diag::write_sentences;
use cbor_head::{Reason, Refusal};
use cborc_files::{Cause, Folder, RecordingFolder, Visible, is_stream};
use cborc_words::{Action, Options, Request};
use std::alloc::Global;
use std::io::{self, ErrorKind, Write};

/// Writes what the line of a fault means and what to do. For a refusal it also writes the file, the
/// bytes around the offset and the path to it. `memory` has the bytes that the fault is about.
pub(crate) fn explain<F: Folder, E: Write>(
    alloc: Global,
    request: &Request<'_>,
    fault: &Fault<'_>,
    memory: &RecordingFolder<'_, F>,
    err: &mut E,
) -> io::Result<()> {
    let options = request.options;
    match fault {
        Fault::Refused(refusal) => {
            write_file(request.source, None, err)?;
            explain_refusal(alloc, memory.last(), options, *refusal, err)
        }
        Fault::RightRefused(refusal) => {
            write_file(last_source(request), None, err)?;
            explain_refusal(alloc, memory.last(), options, *refusal, err)
        }
        Fault::LeftRefused(refusal) => {
            write_file(request.source, None, err)?;
            explain_refusal(alloc, memory.earlier(), options, *refusal, err)
        }
        Fault::RefusedItem { start, refusal, .. } => {
            write_file(request.source, Some((*start, refusal.place)), err)?;
            explain_refusal(alloc, memory.last(), options, *refusal, err)
        }
        Fault::CannotRead(_) | Fault::CannotWrite(_) => write_cause(memory.cause(), err),
        Fault::NotHex(_) => {
            writeln!(
                err,
                "  With --hex, the input must consist of hex digits, two for each byte, and white space."
            )?;
            match memory.hex_error() {
                Some(hex_error) => hex_error.write(err),
                None => Ok(()),
            }
        }
        Fault::CannotPrint | Fault::Memory | Fault::NotText(_) => explain_output(fault, err),
    }
}

/// The same for a fault of standard output or of memory, which is about no file.
pub(crate) fn explain_output<E: Write>(fault: &Fault<'_>, err: &mut E) -> io::Result<()> {
    match fault {
        Fault::CannotPrint => writeln!(err, "  Standard output is closed or full."),
        Fault::Memory => writeln!(err, "  Use a lower --bytes to need less memory."),
        _ => Ok(()),
    }
}

// Writes which file is refused. For an item of a sequence it also writes the offset in the file and the
// item's offset.
fn write_file<E: Write>(path: &str, item: Option<(usize, u64)>, err: &mut E) -> io::Result<()> {
    if is_stream(path) {
        write!(err, "  in standard input")?;
    } else {
        write!(err, "  in {}", Visible(path))?;
    }
    match item {
        Some((start, place)) => {
            let offset = offset_in_input(start, place);
            writeln!(err, ", at offset {offset}; the item starts at {start}")
        }
        None => writeln!(err),
    }
}

// The offset in the input of this offset in the item at `start`.
fn offset_in_input(start: usize, place: u64) -> u64
    ensures { result ≡ min (start + place) (2 ^ 64 - 1) }
{
    (start as u64).saturating_add(place)
}

// Writes why a file could not be read or written.
fn write_cause<E: Write>(cause: Option<Cause>, err: &mut E) -> io::Result<()> {
    let Some(Cause { kind, code, beside }) = cause else {
        return writeln!(err, "  The cause is unknown.");
    };
    if beside {
        write!(err, "  A new file next to it could not be created.")?;
    } else {
        write!(err, " ")?;
    }
    match (cause_text(kind), code) {
        (Some(text), _) => writeln!(err, " {text}"),
        (None, Some(code)) => writeln!(err, " The system reports error {code}."),
        (None, None) => writeln!(err, " The cause is unknown."),
    }
}

// The path of the last file that a request reads.
fn last_source<'a>(request: &Request<'a>) -> &'a str
    ensures { result.now ≡ last_source request.now }
{
    match &request.action {
        Action::Compare { right } => right,
        _ => request.source,
    }
}

// Explains a refusal of the item at the start of these bytes, or without bytes only its reason.
fn explain_refusal<E: Write>(
    alloc: Global,
    read: Option<&[u8]>,
    options: Options,
    refusal: Refusal,
    err: &mut E,
) -> io::Result<()> {
    match read {
        Some(item) => cbor_diag::explain(alloc, item, options.limits, refusal, err)?,
        None => write_sentences(refusal.reason, err)?,
    }
    match refusal.reason {
        Reason::TooLong | Reason::CanonicalTooLong => {
            writeln!(err, "  The option --bytes sets the byte limit.")
        }
        Reason::TooDeep => writeln!(err, "  The option --depth sets the depth limit."),
        _ => Ok(()),
    }
}

// Why a file could not be read or written, for the most common errors.
fn cause_text(kind: ErrorKind) -> Option<&'static str>
    ensures { option_map (λ text. text.now) result ≡ cause_text kind }
{
    match kind {
        ErrorKind::NotFound => Some("There is no such file or folder."),
        ErrorKind::PermissionDenied => Some("It is not permitted."),
        ErrorKind::IsADirectory => Some("It is a folder."),
        ErrorKind::NotADirectory => Some("A part of the path is not a folder."),
        ErrorKind::ReadOnlyFilesystem => Some("The file system is read-only."),
        ErrorKind::StorageFull | ErrorKind::QuotaExceeded => Some("The disk is full."),
        ErrorKind::FileTooLarge => Some("The file would be larger than the system allows."),
        ErrorKind::ExecutableFileBusy => Some("It is a running program."),
        ErrorKind::ResourceBusy => Some("It is in use."),
        ErrorKind::InvalidInput => Some("The path contains a NUL byte."),
        ErrorKind::InvalidFilename => Some("The name is too long."),
        ErrorKind::FilesystemLoop => Some("Symbolic links form a loop."),
        ErrorKind::BrokenPipe => Some("Its reader has closed it."),
        _ => None,
    }
}
