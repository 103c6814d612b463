//! Sequences of items (RFC 8742): writes something for each item, one after another.

ghost use Rattle.std.specs.Prelude.{◌≡◌, ◌≢◌, ◌++◌, ◌^◌, ◌<◌, ℕ, List, [], Option, None, MatchOption, IfOk, IfErr, true, false};
ghost use Rattle.cbor_head.specs.Limits.{Bounds};
ghost use Rattle.cbor_head.specs.Spelling.{Spelling};
ghost use Rattle.cbor_head.specs.declared.reason.Reason.TheVariants as reasons;
ghost use Rattle.cbor_reader.specs.Sequence.{EndsBefore};
ghost use Rattle.cborc_files.specs.Folder.{KeepsFiles};
ghost use Rattle.cborc_commands.specs.Fault.{refusal_fault};
ghost use Rattle.cborc_commands.specs.declared.fault.Fault.{Fault};
ghost use Rattle.cborc_commands.specs.inner.Items.{IsWritten, IsPutBack, AreWrittenOf, AreStoppedOf};

use crate::fault::Fault;
use crate::first_item::Scratch;
use crate::input_parts::Parts;
use crate::source::PART;
use cbor_head::{Limits, Reason, Refusal};
use cborc_files::Folder;
use cborc_words::Options;
use std::alloc::Global;
use std::io::Write;

/// Writes something for each item of a sequence.
pub trait ItemWriter {
    // Which items are accepted.
    ghost takes: { Self → Bounds → Spelling → Type 0 };

    // What is written for an item at this offset of the input.
    ghost text: { Self → ℕ → Spelling → List ℕ };

    // Why no item is accepted at the start of these bytes, which are at this offset of the input, with
    // the content of the output before and after.
    ghost stops: { Self → Bounds → ℕ → List ℕ → Fault → Option (List ℕ) → Option (List ℕ) → Type 0 };

    /// Writes what belongs to the item at the start of these bytes, which are at this offset of the
    /// input, and returns its size. It may use the memory of `scratch`. If the input may continue
    /// and the bytes end within the item, it returns `None` and writes nothing. So a fault does not
    /// depend on how the input continues.
    fn write_item<'f, W: Write>(
        &self,
        alloc: Global,
        bytes: &[u8],
        goes_on: bool,
        start: usize,
        limits: Limits,
        scratch: &mut Scratch,
        out: &mut W,
    ) -> Result<Option<usize>, Fault<'f>>
        requires { start < 2 ^ 63 }
        ensures written { IfOk result (λ taken. MatchOption taken
            (IsPutBack goes_on (W.contents out.old) (W.contents out.new))
            (λ size. IsWritten (takes self.now limits) (text self.now start) bytes.now size
            (W.contents out.old) (W.contents out.new))) }
        ensures stopped { IfErr result (λ fault. (following : List ℕ) → (goes_on ≡ false → following ≡ [])
            → stops self.now limits start (bytes.now ++ following) fault
            (W.contents out.old) (W.contents out.new)) };
}

/// Writes what belongs to each item of the sequence in the input at this path, and returns the number
/// of items. The input is read as far as its items are accepted, and hex text to its end: a fault of
/// hex text is reported instead of any other. The fault of a refused item has its number and its
/// offset. What was written for the items before it stays.
pub fn write_items<'a, V: ItemWriter, F: Folder, W: Write>(
    alloc: Global,
    writer: &V,
    files: &mut F,
    source: &'a str,
    options: Options,
    out: &mut W,
) -> Result<usize, Fault<'a>>
    ensures written { IfOk result (AreWrittenOf (V.takes writer.now options.limits) (V.text writer.now)
        options source.now (F.held files.old) (W.contents out.old) (W.contents out.new)) }
    ensures stopped { IfErr result (AreStoppedOf (V.takes writer.now options.limits)
        (V.text writer.now) (V.stops writer.now options.limits) options source.now
        (F.held files.old) (W.contents out.old) (W.contents out.new)) }
    ensures keeps { KeepsFiles (F.held files.old) (F.held files.new) }
    ensures same { F.forwards_to files.new ≡ F.forwards_to files.old }
{
    let limits = options.limits;
    let mut parts = Parts::open(alloc, files, source, options.hex, PART)?;
    let mut scratch = Scratch::new(alloc);
    let mut count = 0;
    'items: loop {
        if parts.is_spent() {
            parts.read_on(alloc, files, source)?;
            continue;
        }
        if ends_before(parts.rest(), limits) {
            return Ok(count);
        }
        let start = parts.start();
        let goes_on = parts.goes_on();
        match writer.write_item(
            alloc,
            parts.rest(),
            goes_on,
            start,
            limits,
            &mut scratch,
            out,
        ) {
            Ok(Some(size)) => {
                parts.take(size);
                count += 1;
            }
            Ok(None) => parts.read_on(alloc, files, source)?,
            Err(fault) => {
                parts.finish(alloc, files, source)?;
                return Err(fault.at_item(count + 1, start));
            }
        }
    }
}

// Whether the bytes end before an item. With a limit of 0 bytes, each item is too long instead.
fn ends_before(bytes: &[u8], limits: Limits) -> bool
    ensures yes { result ≡ true → EndsBefore limits.bytes bytes.now }
    ensures no { result ≡ false → ¬ EndsBefore limits.bytes bytes.now }
{
    bytes.is_empty() && limits.bytes() > 0
}

/// The result for an item that is refused at the start of some bytes: `None` if they end within the item
/// and the input may continue.
pub fn unless_cut<'f>(refusal: Refusal, goes_on: bool) -> Result<Option<usize>, Fault<'f>>
    ensures cut { IfOk result (λ taken. (taken ≡ None) × (goes_on ≡ true)) }
    ensures fault { IfErr result (λ fault. (fault ≡ refusal_fault refusal)
        × (goes_on ≡ true → refusal.reason ≢ reasons.Truncated)) }
{
    if goes_on && refusal.reason == Reason::Truncated {
        Ok(None)
    } else {
        Err(Fault::from(refusal))
    }
}
