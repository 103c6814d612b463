//! The subcommand `show`: the diagnostic text of an item.

ghost use Rattle.std.specs.Prelude.{◌≡◌, ◌≢◌, OnOk, IfErr};
ghost use Rattle.std.specs.Io.KnownBytes.{Appends};
ghost use Rattle.cborc_commands.specs.Show.{IsShownOf, IsNotShown};
ghost use Rattle.cborc_files.specs.Folder.{KeepsFiles};

use crate::check::size_of_item;
use crate::fault::Fault;
use crate::first_item::Scratch;
use crate::input::{Judge, read_item};
use cborc_files::Folder;
use cborc_words::{Accepted, Options, TextStyle};
use std::alloc::Global;
use std::io::Write;

/// Writes the diagnostic text of the item in the file `source` to `out`, and a line feed.
pub fn show<'a, F: Folder, O: Write>(
    alloc: Global,
    files: &mut F,
    out: &mut O,
    source: &'a str,
    text_style: TextStyle,
    options: Options,
) -> Result<(), Fault<'a>>
    ensures shown { OnOk result (IsShownOf text_style options source.now
        (F.held files.old) (Appends (O.contents out.old) (O.contents out.new))) }
    ensures fault { IfErr result (IsNotShown text_style options source.now
        (F.held files.old) (O.contents out.old) (O.contents out.new)) }
    ensures silent { IfErr result (λ fault. fault ≢ Fault.CannotPrint → out.new ≡ out.old) }
    ensures keeps { KeepsFiles (F.held files.old) (F.held files.new) }
    ensures same { F.forwards_to files.new ≡ F.forwards_to files.old }
{
    let limits = options.limits;
    let bytes = read_item(alloc, files, source, Judge::Item(Accepted::Valid), options)?;
    let prefix = bytes.as_slice();
    let mut scratch = Scratch::new(alloc);
    size_of_item(&mut scratch, prefix, Accepted::Valid, limits)?;
    scratch.print_prefix(prefix, limits, text_style, out)
}
