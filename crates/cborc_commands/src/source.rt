//! A file that is read in parts, as bytes or as hex text.

ghost use Rattle.std.specs.Prelude.{◌≡◌, ◌⊎◌, ◌+◌, ◌^◌, ◌<◌, ◌≤◌, length, true, false, OnOk, IfOk, IfErr};
ghost use Rattle.cborc_files.specs.Digits.{IsOfText, SpellsOn, IsWhole};
ghost use Rattle.cborc_files.specs.Folder.{KeepsFiles, ReadsOn};
ghost use Rattle.cborc_commands.specs.inner.Sources.{IsFresh, IsPartAdded, IsNoPart, HasInput};
ghost use Rattle.cborc_commands.specs.inner.Sources.{HasNoInput, IsUndecoded};

use crate::fault::Fault;
use cborc_files::{Digits, DigitsFault, Folder};
use std::alloc::Global;

/// The number of bytes per read of a file, unless an item needs more.
pub(crate) const PART: u64 = 65_536;

/// A file, of which a prefix was read.
#[derive(Drop)]
pub(crate) struct Source {
    /// Whether it is hex text.
    pub hex: bool,
    /// The state of its digits, if it is.
    pub digits: Digits,
    /// The number of its bytes that were read.
    pub size: u64,
    /// Whether the file ends after them.
    pub ended: bool,
}

impl Source {
    /// A file that was not read yet.
    pub(crate) fn new(hex: bool) -> Source
        ensures { IsFresh hex result }
    {
        Source {
            hex,
            digits: Digits::new(),
            size: 0,
            ended: false,
        }
    }

    /// Reads the next part, of at most `most` bytes, and appends its bytes, or those that it encodes.
    pub(crate) fn append<'a, F: Folder>(
        &mut self,
        alloc: Global,
        files: &mut F,
        path: &'a str,
        most: u64,
        bytes: &mut Vec<u8>,
    ) -> Result<(), Fault<'a>>
        requires some { 0 < most }
        requires range { self.old.size < 2 ^ 63 }
        ensures added { OnOk result (IsPartAdded (F.held files.old) path.now self.old self.new
            bytes.old.items bytes.new.items) }
        ensures few { OnOk result (length bytes.new.items + self.old.size
            ≤ length bytes.old.items + self.new.size) }
        ensures whole { OnOk result (self.new.ended ≡ false → self.old.size + most ≤ self.new.size) }
        ensures size { (self.old.size ≤ self.new.size) × (self.new.size < 2 ^ 63) }
        ensures fault { IfErr result (IsNoPart (F.held files.old) path.now self.old) }
        ensures keeps { KeepsFiles (F.held files.old) (F.held files.new) }
        ensures same { F.forwards_to files.new ≡ F.forwards_to files.old }
    {
        if !self.hex {
            let count = self.read_part(alloc, files, path, most, bytes)?;
            self.size += count;
            self.ended = count < most;
            return Ok(());
        }
        let mut text = Vec::new(alloc);
        let count = self.read_part(alloc, files, path, most, &mut text)?;
        self.size += count;
        self.ended = count < most;
        match decode(&mut self.digits, text.as_slice(), self.ended, bytes) {
            Ok(()) => Ok(()),
            Err(fault) => {
                files.remember_fault(fault);
                Err(Fault::of_digits(path, fault))
            }
        }
    }

    // Appends the bytes of the next part as they are, and returns their number.
    fn read_part<'a, F: Folder>(
        &self,
        alloc: Global,
        files: &mut F,
        path: &'a str,
        most: u64,
        bytes: &mut Vec<u8>,
    ) -> Result<u64, Fault<'a>>
        requires { self.now.size < 2 ^ 63 }
        ensures read { IfOk result (λ _. ReadsOn (F.held files.old) path.now self.now.size most
            bytes.old.items bytes.new.items) }
        ensures count { IfOk result (λ count.
            length bytes.new.items ≡ length bytes.old.items + count) }
        ensures range { IfOk result (λ count. self.now.size + count < 2 ^ 63) }
        ensures fault { IfErr result (IsNoPart (F.held files.old) path.now self.now) }
        ensures keeps { KeepsFiles (F.held files.old) (F.held files.new) }
        ensures same { F.forwards_to files.new ≡ F.forwards_to files.old }
    {
        let held = bytes.len();
        match files.read_on(alloc, path, self.size, most, bytes) {
            Ok(()) => Ok((bytes.len() - held) as u64),
            Err(fault) => Err(Fault::of_reading(path, fault)),
        }
    }

    /// Reads hex text to its end, because only valid hex text has a verdict. The bytes that it encodes
    /// are dropped.
    pub(crate) fn read_out<'a, F: Folder>(
        &mut self,
        alloc: Global,
        files: &mut F,
        path: &'a str,
    ) -> Result<(), Fault<'a>>
        requires { self.old.size < 2 ^ 63 }
        ensures input { OnOk result (HasInput (F.held files.old) path.now self.old) }
        ensures fault { IfErr result (HasNoInput (F.held files.old) path.now self.old) }
        ensures keeps { KeepsFiles (F.held files.old) (F.held files.new) }
        ensures same { F.forwards_to files.new ≡ F.forwards_to files.old }
    {
        let mut bytes = Vec::new(alloc);
        'parts: while self.may_be_no_hex() {
            self.append(alloc, files, path, PART, &mut bytes)?;
            bytes.clear();
        }
        Ok(())
    }

    // Whether the file is read as hex text and may continue.
    fn may_be_no_hex(&self) -> bool
        ensures yes { result ≡ true → self.now.ended ≡ false }
        ensures no { result ≡ false → (self.now.ended ≡ true) ⊎ (self.now.hex ≡ false) }
    {
        self.hex && !self.ended
    }
}

// Appends the bytes that the next part of a text encodes. `ends` says that it is the last part.
fn decode(
    digits: &mut Digits,
    text: &[u8],
    ended: bool,
    bytes: &mut Vec<u8>,
) -> Result<(), DigitsFault>
    ensures spelled { OnOk result
        (SpellsOn text.now digits.old digits.new bytes.old.items bytes.new.items) }
    ensures whole { OnOk result (ended ≡ true → IsWhole digits.new) }
    ensures not_hex { IfErr result (λ fault. IsOfText fault → IsUndecoded text.now ended digits.old) }
{
    digits.push_all(text, bytes)?;
    if ended { digits.finish() } else { Ok(()) }
}
