//! The machine's files.

ghost use Rattle.std.specs.Prelude.{◌≡◌, ◌≢◌, ◌++◌, take, drop, Some, OnOk, IfErr, IfSome};
ghost use Rattle.std.specs.IoError.{error_kind};
ghost use Rattle.cborc_files.specs.Disk.{IsAppended, IsCutShort};

use crate::folder::{Cause, FileFault, Folder, is_stream};
use crate::replacement::Replacement;
use std::alloc::{AllocError, Global};
use std::fs;
use std::io::{self, BufWriter, ErrorKind, Input, Read, Write};
use std::random::RandomSource;
use std::rt::Files;

/// The maximum length of a file on the machine.
pub const LONGEST: u64 = i64::MAX as u64;

/// The machine's files, and standard input. Other programs change them too, so a contract cannot
/// say what they hold: `held` keeps its default.
#[derive(Drop)]
pub struct Disk<'a, R: Files + Input + RandomSource + AllocGlobal> {
    rt: &'a R,
    // The file that was opened last, if it is not a standard stream.
    open: Option<R::File>,
    // The cause of the last failure.
    cause: Option<Cause>,
}

impl<'a, R: Files + Input + RandomSource + AllocGlobal> Disk<'a, R> {
    /// The files that this runtime can access.
    pub fn new(rt: &'a R) -> Disk<'a, R> {
        Disk {
            rt,
            open: None,
            cause: None,
        }
    }

    // Appends the next bytes of the file at a path, at most this number: its first bytes, or those
    // after the last read.
    fn append_next(
        &mut self,
        path: &str,
        is_first: bool,
        most: u64,
        bytes: &mut Vec<u8>,
    ) -> io::Result<()>
        ensures { OnOk result (IsAppended most bytes.old.items bytes.new.items) }
    {
        if is_stream(path) {
            return append_from(&mut self.rt.reader(), most, bytes);
        }
        if is_first {
            self.open = Some(fs::open(self.rt, path)?);
        }
        match &mut self.open {
            Some(file) => append_from(file, most, bytes),
            None => Err(io::Error::from(ErrorKind::NotFound)),
        }
    }

    fn fault_of(&mut self, cause: Cause) -> FileFault {
        self.cause = Some(cause);
        fault_of(cause.kind)
    }
}

impl<'a, R: Files + Input + RandomSource + AllocGlobal> Folder for Disk<'a, R> {
    type Draft = BufWriter<Replacement<'a, R>>;

    // The offset only says whether to open the file: an open file continues after its last read.
    fn read_on(
        &mut self,
        _alloc: Global,
        path: &str,
        from: u64,
        most: u64,
        bytes: &mut Vec<u8>,
    ) -> Result<(), FileFault> {
        let most = most.min(LONGEST.saturating_sub(from));
        match self.append_next(path, from == 0, most, bytes) {
            Ok(()) => Ok(()),
            Err(error) => Err(self.fault_of(Cause::from(error))),
        }
    }

    fn begin(&mut self, path: &str) -> Result<BufWriter<Replacement<'a, R>>, AllocError> {
        let replacement = Replacement::new(self.rt, path)?;
        match BufWriter::new(self.rt.alloc(), replacement) {
            Ok(draft) => Ok(draft),
            Err(_) => Err(AllocError),
        }
    }

    fn replace(
        &mut self,
        _path: &str,
        mut draft: BufWriter<Replacement<'a, R>>,
    ) -> Result<(), FileFault> {
        // `finish` reports whether a write failed, this one too.
        let _ = draft.flush();
        let (replacement, _) = draft.into_parts();
        match replacement.finish() {
            Ok(()) => Ok(()),
            Err(cause) => Err(self.fault_of(cause)),
        }
    }

    fn abandon(&mut self, draft: BufWriter<Replacement<'a, R>>) -> FileFault {
        let (replacement, _) = draft.into_parts();
        match replacement.abandon() {
            Some(cause) => self.fault_of(cause),
            None => FileFault::Failed,
        }
    }

    fn cause(&self) -> Option<Cause> {
        self.cause
    }
}

// The number of bytes per read. They are copied to the buffer: to read into it directly, its space
// would have to be filled first.
const PART: usize = 16 * 1024;

/// Appends the next bytes of a reader, at most this number.
pub fn append_from<S: Read>(source: &mut S, most: u64, bytes: &mut Vec<u8>) -> io::Result<()>
    ensures few { IsAppended most bytes.old.items bytes.new.items }
    ensures given { OnOk result (IfSome (S.remaining source.old)
        (λ input. bytes.new.items ≡ bytes.old.items ++ take most input)) }
    ensures rest { OnOk result (IfSome (S.remaining source.old)
        (λ input. S.remaining source.new ≡ Some (drop most input))) }
    ensures cut_short { IfErr result (λ error. IsCutShort (error_kind error)
        (S.remaining source.old) (S.remaining source.new) bytes.old.items bytes.new.items) }
    ensures retried { IfErr result (λ error. error_kind error ≢ ErrorKind.Interrupted) }
{
    let mut part = [0; PART];
    let mut left = most;
    'reads: for _ in 0..u64::MAX {
        if left == 0 {
            return Ok(());
        }
        let wanted = left.min(PART as u64) as usize;
        match source.read(&mut part[..wanted]) {
            Ok(0) => return Ok(()),
            Ok(count) => {
                bytes.extend_from_slice(&part[..count])?;
                left -= count as u64;
            }
            Err(error) if error.kind() == ErrorKind::Interrupted => {}
            Err(error) => return Err(error),
        }
    }
    // Each read was interrupted.
    Err(io::Error::from(ErrorKind::TimedOut))
}

fn fault_of(kind: ErrorKind) -> FileFault
    ensures memory { kind ≡ ErrorKind.OutOfMemory → result ≡ FileFault.Memory }
    ensures failed { kind ≢ ErrorKind.OutOfMemory → result ≡ FileFault.Failed }
{
    if kind == ErrorKind::OutOfMemory {
        FileFault::Memory
    } else {
        FileFault::Failed
    }
}
