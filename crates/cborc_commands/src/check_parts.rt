//! The strict check of an input as it is read.

ghost use Rattle.std.specs.Prelude.{◌≡◌, IfOk, IfErr};
ghost use Rattle.cbor_head.specs.Complaint.{strict};
ghost use Rattle.cborc_commands.specs.Check.{IsNoWholeInput};
ghost use Rattle.cborc_commands.specs.inner.WholeInput.{IsWholeInput, IsWholeFrom, IsNoWholeFrom};
ghost use Rattle.cborc_files.specs.Folder.{KeepsFiles};

use crate::check::{all_of, size_of_item};
use crate::fault::Fault;
use crate::first_item::Scratch;
use crate::input::first;
use crate::input_parts::Parts;
use cbor_head::{KeyOrder, Reason, Refusal};
use cbor_stream::{Out, StrictMachine};
use cborc_files::Folder;
use cborc_words::{Accepted, Options};
use std::alloc::Global;

/// The number of bytes of the item whose canonical bytes the input at this path is. An input that is
/// longer than the first read is checked as it is read, so an item may be larger than the memory.
pub fn strict_size<'a, F: Folder>(
    alloc: Global,
    files: &mut F,
    path: &'a str,
    order: KeyOrder,
    options: Options,
) -> Result<u64, Fault<'a>>
    ensures whole { IfOk result
        (IsWholeInput (strict order) options path.now (F.held files.old)) }
    ensures fault { IfErr result
        (IsNoWholeInput (strict order) options path.now (F.held files.old)) }
    ensures keeps { KeepsFiles (F.held files.old) (F.held files.new) }
    ensures same { F.forwards_to files.new ≡ F.forwards_to files.old }
{
    let limits = options.limits;
    let least = first(options.hex, limits);
    let parts = Parts::open(alloc, files, path, options.hex, least)?;
    if parts.goes_on() {
        return size_in_parts(alloc, files, path, parts, order, options);
    }
    let mut scratch = Scratch::new(alloc);
    let accepted = Accepted::Canonical(order);
    let size = size_of_item(&mut scratch, parts.rest(), accepted, limits)?;
    Ok(size)
}

// The same of an input whose first part was read. This is a function of its own so that the machine
// is not on the stack while a short input is checked.
#[inline(never)]
fn size_in_parts<'a, F: Folder>(
    alloc: Global,
    files: &mut F,
    path: &'a str,
    parts: Parts,
    order: KeyOrder,
    options: Options,
) -> Result<u64, Fault<'a>>
    ensures whole { IfOk result
        (IsWholeFrom (strict order) options path.now (F.held files.old) parts) }
    ensures fault { IfErr result
        (IsNoWholeFrom (strict order) options path.now (F.held files.old) parts) }
    ensures keeps { KeepsFiles (F.held files.old) (F.held files.new) }
    ensures same { F.forwards_to files.new ≡ F.forwards_to files.old }
{
    let mut parts = parts;
    let mut machine = StrictMachine::new(alloc, options.limits, order);
    'parts: loop {
        let step = machine.check(parts.rest());
        parts.take(step.used);
        match step.out {
            Out::Refused(refusal) => {
                parts.finish(alloc, files, path)?;
                return Err(Fault::from(refusal));
            }
            Out::Done => {
                if !parts.is_spent() {
                    let size = parts.start() as u64;
                    let rest = parts.finish(alloc, files, path)?;
                    let size = all_of(size, rest.is_empty())?;
                    return Ok(size);
                }
            }
            Out::More | Out::Event(_) => {
                if !parts.goes_on() {
                    let cut = Refusal::at(Reason::Truncated, machine.taken());
                    return Err(Fault::from(cut));
                }
            }
        }
        parts.read_on(alloc, files, path)?;
    }
}
