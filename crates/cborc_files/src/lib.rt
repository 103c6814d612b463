//! The files of the program `cborc`: a [`Folder`] of files, on a disk or in memory, and hex text.
//!
//! `cborc_commands` and the program call it. [`Disk`] reads the machine's files in parts and replaces them whole.
//! [`FilesInMemory`] is a folder for tests, whose contracts say everything. [`Digits`] decodes hex text as it arrives.
#![tactic(auto)]

mod disk;
mod files_in_memory;
mod folder;
mod hex_text;
mod recording;
mod replacement;
mod visible;

pub use disk::{Disk, LONGEST, append_from};
pub use files_in_memory::FilesInMemory;
pub use folder::{Cause, FileFault, Folder, append_part, is_stream};
pub use hex_text::{Digits, DigitsFault, HexError};
pub use recording::{Recording, RecordingFolder};
pub use visible::Visible;
