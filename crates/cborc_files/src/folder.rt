//! Reading and writing files.

ghost use Rattle.std.specs.Prelude.{◌≡◌, ◌++◌, take, drop, Option, None, OnOk, OnErr, IfOk, IfErr, IfSome, false};
ghost use Rattle.std.specs.Borrow.{GName};
ghost use Rattle.std.specs.IoError.{error_kind, raw_os_error};
ghost use Rattle.cborc_files.specs.Folder.{Files, is_stream, ReadsOn, IsWithin, KeepsFiles};
ghost use Rattle.cborc_files.specs.Folder.{IsBlank, IsThere, IsMissing, ReplacesFile, WritesFile};

use crate::hex_text::DigitsFault;
use std::alloc::{AllocError, Global};
use std::io::{self, ErrorKind, Write};

/// Why a file could not be read or written.
#[derive(Clone, Copy, Debug, PartialEq, Eq)]
pub enum FileFault {
    /// The file is missing, or the folder failed.
    Failed,
    /// Memory was refused.
    Memory,
}

/// The cause of a failure.
#[derive(Clone, Copy, Debug, PartialEq, Eq)]
pub struct Cause {
    /// The kind of its error.
    pub kind: ErrorKind,
    /// The system's number of the error, if it is a system error.
    pub code: Option<i32>,
    /// Whether the error is that of the new file next to the file to write, which was to replace it.
    pub beside: bool,
}

impl From<io::Error> for Cause {
    ghost from_gives = { λ error cause. cause
        ≡ record { kind = error_kind error; code = raw_os_error error; beside = false } };

    fn from(error: io::Error) -> Cause {
        Cause {
            kind: error.kind(),
            code: error.raw_os_error(),
            beside: false,
        }
    }
}

/// Files by their paths. The path `-` is standard input for reading, and is never written.
pub trait Folder {
    /// A file that is being written, and is to replace another.
    type Draft: Write + Drop;

    // What each path holds, if the folder says so.
    ghost held: { Self → Option Files } = { λ _. None };

    // The reference to the folder that this one forwards to, if it does.
    ghost forwards_to: { Self → Option GName } = { λ _. None };

    /// Begins a file that is to replace the one at this path. If it cannot be created, its first
    /// write or `replace` reports that. The only error here is out of memory.
    fn begin(&mut self, path: &str) -> Result<Self::Draft, AllocError>
        ensures blank { IfOk result
            (λ draft. IsBlank (held self.old) (Self.Draft.contents draft)) }
        ensures keeps { KeepsFiles (held self.old) (held self.new) }
        ensures same { forwards_to self.new ≡ forwards_to self.old };

    /// Replaces the file at this path with the one that was begun for it, or leaves all files
    /// unchanged.
    fn replace(&mut self, path: &str, draft: Self::Draft) -> Result<(), FileFault>
        ensures replaces { OnOk result (IfSome (Self.Draft.contents draft)
            (ReplacesFile (held self.old) (held self.new) path.now)) }
        ensures untouched { OnErr result (KeepsFiles (held self.old) (held self.new)) }
        ensures same { forwards_to self.new ≡ forwards_to self.old };

    /// Removes the file that was begun, and returns why a write of it failed, if one did.
    fn abandon(&mut self, draft: Self::Draft) -> FileFault
        ensures keeps { KeepsFiles (held self.old) (held self.new) }
        ensures same { forwards_to self.new ≡ forwards_to self.old };

    /// Replaces the content of a file, or leaves all files unchanged.
    fn write(&mut self, path: &str, bytes: &[u8]) -> Result<(), FileFault>
        ensures writes { WritesFile (held self.old) (held self.new) result path.now bytes.now }
        ensures same { forwards_to self.new ≡ forwards_to self.old }
    {
        let mut draft = match self.begin(path) {
            Ok(draft) => draft,
            Err(_) => return Err(FileFault::Memory),
        };
        match draft.write_all(bytes) {
            Ok(()) => self.replace(path, draft),
            Err(_) => Err(self.abandon(draft)),
        }
    }

    /// Appends `most` bytes of a file after its first `from`: fewer only if the file ends. Each call
    /// continues where the last call for the file ended. A folder that can read a file in parts reads
    /// no more than requested, and nothing twice. Memory is refused only for a file that exists. A folder
    /// that says what it holds fails only for a file that is missing.
    fn read_on(
        &mut self,
        alloc: Global,
        path: &str,
        from: u64,
        most: u64,
        bytes: &mut Vec<u8>,
    ) -> Result<(), FileFault>
        ensures gives { OnOk result
            (ReadsOn (held self.old) path.now from most bytes.old.items bytes.new.items) }
        ensures within { OnOk result (IsWithin from bytes.old.items bytes.new.items) }
        ensures memory { IfErr result
            (λ fault. fault ≡ FileFault.Memory → IsThere (held self.old) path.now) }
        ensures missing { IfErr result
            (λ fault. fault ≡ FileFault.Failed → IsMissing (held self.old) path.now) }
        ensures keeps { KeepsFiles (held self.old) (held self.new) }
        ensures same { forwards_to self.new ≡ forwards_to self.old };

    /// Receives the bytes that a result is about, which were read from the file that was opened
    /// last. A folder may store them for an explanation.
    fn remember(&mut self, _alloc: Global, _bytes: &[u8])
        ensures holds { held self.new ≡ held self.old }
        ensures same { forwards_to self.new ≡ forwards_to self.old }
    {}

    /// Receives why hex text cannot be decoded. A folder may store it for an explanation.
    fn remember_fault(&mut self, _fault: DigitsFault)
        ensures holds { held self.new ≡ held self.old }
        ensures same { forwards_to self.new ≡ forwards_to self.old }
    {}

    /// The cause of the last failure, if the folder stores it.
    fn cause(&self) -> Option<Cause> {
        None
    }
}

/// Appends `most` bytes of a file after its first `from`: fewer only if the file ends. With this
/// function, a folder that has a file whole implements `read_on`. The only error is out of memory.
pub fn append_part(whole: &[u8], from: u64, most: u64, bytes: &mut Vec<u8>) -> Result<(), FileFault>
    ensures part { OnOk result (bytes.new.items ≡ bytes.old.items ++ take most (drop from whole.now)) }
    ensures within { OnOk result (IsWithin from bytes.old.items bytes.new.items) }
    ensures fault { IfErr result (λ fault. fault ≡ FileFault.Memory) }
{
    let from = from.min(whole.len() as u64) as usize;
    let following = &whole[from..];
    let most = most.min(following.len() as u64) as usize;
    match bytes.extend_from_slice(&following[..most]) {
        Ok(()) => Ok(()),
        Err(_) => Err(FileFault::Memory),
    }
}

/// Whether a path is `-`: standard input for reading, standard output for writing.
pub fn is_stream(path: &str) -> bool
    ensures { result ≡ is_stream path.now }
{
    path == "-"
}
