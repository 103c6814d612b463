//! An input that is read in parts.

ghost use Rattle.std.specs.Prelude.{◌≡◌, ◌+◌, ◌^◌, ◌<◌, ◌≤◌, [], length, drop, vec_len, not, true, false, OnOk, IfOk, IfErr};
ghost use Rattle.cborc_files.specs.Folder.{KeepsFiles};
ghost use Rattle.cborc_commands.specs.NoInput.{IsNoInput};
ghost use Rattle.cborc_commands.specs.inner.Parts.{PartsView, IsReadTo, IsNextPart};
ghost use Rattle.cborc_commands.specs.inner.Sources.{IsFresh, IsNoPart, HasInput, HasNoInput};

use crate::fault::Fault;
use crate::source::Source;
use cborc_files::Folder;
use std::alloc::Global;
use std::marker::Model;

/// An input: its bytes that were read and not consumed yet.
#[derive(Drop)]
pub(crate) struct Parts {
    bytes: Vec<u8>,
    // The number of these that were consumed.
    taken: usize,
    // The offset of the next byte in the input.
    start: usize,
    // The file that they are read from.
    source: Source,
    // The number of bytes per read, unless an item needs more.
    least: u64,
}

impl Model for Parts {
    ghost Value = { PartsView };

    ghost view = { λ p. record { rest = drop p.taken p.bytes.items; start = p.start; source = p.source } };

    ghost invariant = { λ p. (p.taken ≤ vec_len p.bytes)
        × (p.start + vec_len p.bytes ≤ p.source.size + p.taken) × (p.source.size < 2 ^ 63)
        × (0 < p.least) × (p.least < 2 ^ 63) };
}

impl Parts {
    /// Opens the input at this path, and reads its first part. Only the last part may be shorter
    /// than `least`.
    pub(crate) fn open<'a, F: Folder>(
        alloc: Global,
        files: &mut F,
        path: &'a str,
        hex: bool,
        least: u64,
    ) -> Result<Parts, Fault<'a>>
        requires some { 0 < least }
        requires range { least < 2 ^ 63 }
        ensures begins { IfOk result (IsReadTo (F.held files.old) path.now hex []) }
        ensures fault { IfErr result (IsNoInput (F.held files.old) path.now hex) }
        ensures keeps { KeepsFiles (F.held files.old) (F.held files.new) }
        ensures same { F.forwards_to files.new ≡ F.forwards_to files.old }
    {
        let mut parts = Parts::unread(alloc, hex, least);
        parts.read_on(alloc, files, path)?;
        Ok(parts)
    }

    // An input that was not read yet.
    fn unread(alloc: Global, hex: bool, least: u64) -> Parts
        requires some { 0 < least }
        requires range { least < 2 ^ 63 }
        ensures rest { result.rest ≡ [] }
        ensures start { result.start ≡ 0 }
        ensures source { IsFresh hex result.source }
    {
        Parts {
            bytes: Vec::new(alloc),
            taken: 0,
            start: 0,
            source: Source::new(hex),
            least,
        }
    }

    /// The bytes that were read and not consumed yet.
    pub(crate) fn rest(&self) -> &[u8]
        ensures { result.now ≡ self.now.rest }
    {
        &self.bytes[self.taken..]
    }

    /// Their offset in the input.
    pub(crate) fn start(&self) -> usize
        ensures is { result ≡ self.now.start }
        ensures range { result < 2 ^ 63 }
    {
        self.start
    }

    /// Whether the input may continue after them.
    pub(crate) fn goes_on(&self) -> bool
        ensures { result ≡ not self.now.source.ended }
    {
        !self.source.ended
    }

    /// Whether there are none, and the input may continue.
    pub(crate) fn is_spent(&self) -> bool
        ensures yes { result ≡ true → self.now.source.ended ≡ false }
        ensures no { result ≡ false → self.now.rest ≡ [] → self.now.source.ended ≡ true }
    {
        self.goes_on() && self.rest().is_empty()
    }

    /// Consumes this number of them.
    pub(crate) fn take(&mut self, size: usize)
        requires { size ≤ length self.old.rest }
        ensures rest { self.new.rest ≡ drop size self.old.rest }
        ensures start { self.new.start ≡ self.old.start + size }
        ensures source { self.new.source ≡ self.old.source }
    {
        self.taken += size;
        self.start += size;
    }

    /// Reads the next part of an input that continues: as many bytes of its file as are not consumed
    /// yet. So the bytes of an item double with each read, or grow by half in hex text.
    pub(crate) fn read_on<'a, F: Folder>(
        &mut self,
        alloc: Global,
        files: &mut F,
        path: &'a str,
    ) -> Result<(), Fault<'a>>
        ensures read { OnOk result (IsNextPart (F.held files.old) path.now self.old self.new) }
        ensures doubles { OnOk result (self.new.source.ended ≡ false
            → self.old.source.size + length self.old.rest ≤ self.new.source.size) }
        ensures fault { IfErr result (IsNoPart (F.held files.old) path.now self.old.source) }
        ensures keeps { KeepsFiles (F.held files.old) (F.held files.new) }
        ensures same { F.forwards_to files.new ≡ F.forwards_to files.old }
    {
        remove_prefix(&mut self.bytes, self.taken);
        self.taken = 0;
        let most = (self.bytes.len() as u64).max(self.least);
        match self
            .source
            .append(alloc, files, path, most, &mut self.bytes)
        {
            Ok(()) => Ok(()),
            Err(fault) => {
                self.bytes.clear();
                Err(fault)
            }
        }
    }

    /// The bytes that were read and not consumed yet, once a result is about them. Hex text is read to
    /// its end first.
    pub(crate) fn finish<'a, F: Folder>(
        self,
        alloc: Global,
        files: &mut F,
        path: &'a str,
    ) -> Result<Vec<u8>, Fault<'a>>
        ensures rest { IfOk result (λ v. v.items ≡ self.rest) }
        ensures input { IfOk result (λ _. HasInput (F.held files.old) path.now self.source) }
        ensures fault { IfErr result (HasNoInput (F.held files.old) path.now self.source) }
        ensures keeps { KeepsFiles (F.held files.old) (F.held files.new) }
        ensures same { F.forwards_to files.new ≡ F.forwards_to files.old }
    {
        let mut bytes = self.bytes;
        let mut source = self.source;
        remove_prefix(&mut bytes, self.taken);
        files.remember(alloc, bytes.as_slice());
        source.read_out(alloc, files, path)?;
        Ok(bytes)
    }
}

// Removes this number of bytes at the start, and moves the rest there.
fn remove_prefix(bytes: &mut Vec<u8>, count: usize)
    requires { count ≤ vec_len bytes.old }
    ensures { bytes.new.items ≡ drop count bytes.old.items }
{
    // Without any, moving the bytes would only cost time.
    if count > 0 {
        let length = bytes.len();
        bytes.as_mut_slice().copy_within(count..length, 0);
        bytes.truncate(length - count);
    }
}
