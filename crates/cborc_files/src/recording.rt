//! Records what was read, for an explanation of the result.

ghost use Rattle.std.specs.Prelude.{◌≡◌, Some, IfOk, IfSome, OnOk, MatchResult, option_map};
ghost use Rattle.cborc_files.specs.Folder.{Holds, ReadsOn, IsWithin, KeepsFiles, WritesFile};
ghost use Rattle.cborc_files.specs.Recording.{last_of, earlier_of, hex_error_of, IsRecorded};

use crate::folder::{Cause, FileFault, Folder};
use crate::hex_text::{DigitsFault, HexError};
use std::alloc::{AllocError, Global};

/// The bytes that results were about in the last two files, and where hex text was wrong.
#[derive(Drop)]
pub struct Recording {
    last: Option<Vec<u8>>,
    earlier: Option<Vec<u8>>,
    // Where the text is not hex text.
    hex_error: Option<HexError>,
}

impl Recording {
    /// Nothing yet.
    pub fn new() -> Recording {
        Recording {
            last: None,
            earlier: None,
            hex_error: None,
        }
    }
}

/// A folder that stores what it receives about the last two files.
#[derive(Drop)]
pub struct RecordingFolder<'a, F: Folder> {
    files: &'a mut F,
    // A reference, so that contracts know the files after this folder is dropped.
    kept: &'a mut Recording,
}

impl<'a, F: Folder> RecordingFolder<'a, F> {
    /// A folder over `files` that records what it reads in `kept`.
    pub fn new(files: &'a mut F, kept: &'a mut Recording) -> RecordingFolder<'a, F>
        ensures same_reference { result.files.ghost_name ≡ files.entry.ghost_name }
        ensures files { result.files.now ≡ files.old }
    {
        RecordingFolder { files, kept }
    }

    /// The bytes that the result was about in the last file, if they are known.
    pub fn last(&self) -> Option<&[u8]>
        ensures { option_map (λ bytes. bytes.now) result ≡ last_of self.now }
    {
        let bytes = self.kept.last.as_ref()?;
        Some(bytes.as_slice())
    }

    /// Where the text is not hex text, if it is not.
    pub fn hex_error(&self) -> Option<HexError>
        ensures { result ≡ hex_error_of self.now }
    {
        self.kept.hex_error
    }

    /// The same for the file before that.
    pub fn earlier(&self) -> Option<&[u8]>
        ensures { option_map (λ bytes. bytes.now) result ≡ earlier_of self.now }
    {
        let bytes = self.kept.earlier.as_ref()?;
        Some(bytes.as_slice())
    }
}

impl<'a, F: Folder> Folder for RecordingFolder<'a, F> {
    type Draft = F::Draft;

    ghost held = { λ memory. F.held memory.files.now };

    ghost forwards_to = { λ memory. Some memory.files.ghost_name };

    fn read_on(
        &mut self,
        alloc: Global,
        path: &str,
        from: u64,
        most: u64,
        bytes: &mut Vec<u8>,
    ) -> Result<(), FileFault> {
        self.files.read_on(alloc, path, from, most, bytes)
    }

    fn remember(&mut self, alloc: Global, bytes: &[u8])
        ensures holds { F.held self.new.files.now ≡ F.held self.old.files.now }
        ensures same { self.new.files.ghost_name ≡ self.old.files.ghost_name }
        ensures last { IfSome (last_of self.new) (λ kept. kept ≡ bytes.now) }
        ensures earlier { earlier_of self.new ≡ last_of self.old }
    {
        self.kept.earlier = self.kept.last.take();
        self.kept.last = Vec::from_slice(alloc, bytes).ok();
    }

    fn remember_fault(&mut self, fault: DigitsFault)
        ensures holds { F.held self.new.files.now ≡ F.held self.old.files.now }
        ensures same { self.new.files.ghost_name ≡ self.old.files.ghost_name }
        ensures kept { IsRecorded fault (hex_error_of self.old) (hex_error_of self.new) }
    {
        if let DigitsFault::NotHex(hex_error) = fault {
            self.kept.hex_error = Some(hex_error);
        }
    }

    fn begin(&mut self, path: &str) -> Result<F::Draft, AllocError> {
        self.files.begin(path)
    }

    fn replace(&mut self, path: &str, draft: F::Draft) -> Result<(), FileFault> {
        self.files.replace(path, draft)
    }

    fn abandon(&mut self, draft: F::Draft) -> FileFault {
        self.files.abandon(draft)
    }

    fn cause(&self) -> Option<Cause> {
        self.files.cause()
    }
}
