//! `canon` over files in memory.

ghost use Rattle.std.specs.Prelude.{◌≡◌, ◌≢◌, ℕ, List, OnOk, OnErr, IfErr, false};
ghost use Rattle.cborc_commands.specs.Canon.{HoldsCanonical, IsNotHeld};
ghost use Rattle.cborc_files.specs.Folder.{is_stream};
ghost use Rattle.cborc_files.specs.InMemory.{files_of};

use crate::canon::canon;
use crate::fault::Fault;
use cbor_head::{KeyOrder, Limits};
use cborc_files::FilesInMemory;
use cborc_words::{Form, Options, Output};
use std::alloc::Global;
use std::io;

/// Creates the file `target`, or replaces it, with the canonical bytes of the item in the file
/// `source`. Both may be the same file.
pub fn canon_in_memory<'a>(
    alloc: Global,
    files: &mut FilesInMemory,
    source: &'a str,
    target: &'a str,
    order: KeyOrder,
    limits: Limits,
) -> Result<(), Fault<'a>>
    ensures written { OnOk result (is_stream target.now ≡ false
        → HoldsCanonical limits order (files_of files.old source.now) (files_of files.new target.now)) }
    ensures others { OnOk result ((other : List ℕ) → other ≢ target.now
        → files_of files.new other ≡ files_of files.old other) }
    ensures fault { IfErr result (IsNotHeld limits order (files_of files.old) source.now target.now) }
    ensures untouched { OnErr result ((path : List ℕ) → files_of files.new path ≡ files_of files.old path) }
{
    let output = Output {
        path: target,
        form: Form::Raw,
    };
    let options = Options { limits, hex: false };
    canon(
        alloc,
        files,
        &mut io::sink(),
        source,
        output,
        order,
        options,
    )
}
