//! Collects bytes for a writer, so that one write has many.

ghost use Rattle.std.specs.Prelude.{◌≡◌, ℕ, ◌+◌, ◌<◌, [], length, take, IfOk, MatchResult};
ghost use Rattle.std.specs.Io.KnownBytes.{Appends};
ghost use Rattle.cbor_listing.specs.Written.{capped};
ghost use Rattle.cbor_diag.specs.inner.Outbox.{Puts};

use arrayvec::ArrayVec;
use cbor_item::write_whole;
use std::io::Write;

/// Bytes that wait to be written, and the number of bytes that the writer accepted before them.
#[derive(Drop)]
pub(crate) struct Outbox {
    waiting: ArrayVec<u8, 512>,
    taken: u64,
}

/// The writer failed. The outbox has the number of bytes that the writer accepted.
#[derive(Clone, Copy)]
pub(crate) struct Stopped;

impl Outbox {
    pub(crate) fn new() -> Outbox
        ensures waiting { result.waiting.items ≡ [] }
        ensures taken { result.taken ≡ 0 }
    {
        Outbox {
            waiting: ArrayVec::new(),
            taken: 0,
        }
    }

    // Empties the outbox, and sets the number of accepted bytes to 0.
    pub(crate) fn clear(&mut self)
        ensures { self.new.waiting.items ≡ [] }
    {
        self.waiting.clear();
        self.taken = 0;
    }

    // The bytes that wait.
    pub(crate) fn as_slice(&self) -> &[u8]
        ensures { result.now ≡ self.now.waiting.items }
    {
        self.waiting.as_slice()
    }

    // The number of bytes that the writer accepted.
    pub(crate) fn taken(&self) -> u64
        ensures { result ≡ self.now.taken }
    {
        self.taken
    }

    // Puts the bytes after those that wait, or writes them after those.
    #[inline(always)]
    pub(crate) fn put<W: Write>(&mut self, writer: &mut W, bytes: &[u8]) -> Result<(), Stopped>
        ensures { Puts (W.contents writer.old) (W.contents writer.new) self.old self.new
            bytes.now result }
    {
        if self.waiting.try_extend_from_slice(bytes).is_ok() {
            return Ok(());
        }
        self.make_space(writer, bytes)
    }

    // Puts bytes for which there may be no space: those that wait are written first.
    #[cold]
    #[inline(never)]
    fn make_space<W: Write>(&mut self, writer: &mut W, bytes: &[u8]) -> Result<(), Stopped>
        ensures { Puts (W.contents writer.old) (W.contents writer.new) self.old self.new
            bytes.now result }
    {
        self.flush(writer)?;
        if self.waiting.try_extend_from_slice(bytes).is_ok() {
            return Ok(());
        }
        // These are more than the outbox can hold.
        let (taken, sent) = send(writer, self.taken, bytes);
        self.taken = taken;
        sent
    }

    // Writes the bytes that wait.
    pub(crate) fn flush<W: Write>(&mut self, writer: &mut W) -> Result<(), Stopped>
        ensures done { Puts (W.contents writer.old) (W.contents writer.new) self.old self.new
            [] result }
        ensures empty { IfOk result (λ _. self.new.waiting.items ≡ []) }
    {
        let (taken, sent) = send(writer, self.taken, self.waiting.as_slice());
        self.taken = taken;
        match sent {
            Ok(()) => {
                self.waiting.clear();
                Ok(())
            }
            Err(stopped) => Err(stopped),
        }
    }
}

// Writes the bytes to a writer that accepted `taken` bytes before. Returns how many it has
// accepted now.
fn send<W: Write>(writer: &mut W, taken: u64, bytes: &[u8]) -> (u64, Result<(), Stopped>)
    ensures { MatchResult result.1
        (λ _. (result.0 ≡ capped (taken + length bytes.now))
        × Appends (W.contents writer.old) (W.contents writer.new) bytes.now)
        (λ _. (n : ℕ) × (result.0 ≡ capped (taken + n)) × (n < length bytes.now)
        × Appends (W.contents writer.old) (W.contents writer.new) (take n bytes.now)) }
{
    match write_whole(writer, bytes) {
        Ok(()) => (taken.saturating_add(bytes.len() as u64), Ok(())),
        Err(count) => (taken.saturating_add(count as u64), Err(Stopped)),
    }
}
