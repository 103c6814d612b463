//! The lines of the events of the item at the start of some bytes.

ghost use Rattle.std.specs.Prelude.{◌≡◌, ◌≤◌, ◌<◌, ◌+◌, ◌^◌, true, false, length, IfOk, IfErr};
ghost use Rattle.cbor_listing.specs.Listing.{IsListingReason};
ghost use Rattle.cborc_commands.specs.EventStyles.{AreListed, AreUnlisted};
ghost use Rattle.cbor_head.specs.Complaint.{form};
ghost use Rattle.cborc_commands.specs.inner.Decided.{IsDecided};
ghost use Rattle.cborc_commands.specs.inner.Listed.{IsPrefixNotListed};

use crate::fault::Fault;
use cbor_head::{Limits, Reason, Refusal};
use cbor_listing::{annotated, listing_from};
use cbor_machine::{Machine, Out};
use cborc_words::EventStyle;
use std::io::Write;

/// Writes the lines of the item at the start of the bytes, which are at this offset of the input.
/// Returns the item's number of bytes. The refusal is that of its form.
pub fn list_prefix<'a, W: Write>(
    event_style: EventStyle,
    bytes: &[u8],
    start: usize,
    limits: Limits,
    out: &mut W,
) -> Result<u64, Fault<'a>>
    requires { start < 2 ^ 63 }
    ensures listed { IfOk result (λ size. AreListed event_style start limits bytes.now size
        (W.contents out.old) (W.contents out.new)) }
    ensures within { IfOk result (λ size. size ≤ length bytes.now) }
    ensures fault { IfErr result (IsPrefixNotListed event_style start limits bytes.now
        (W.contents out.old) (W.contents out.new)) }
{
    match write_lines(event_style, bytes, start as u64, limits, out) {
        Ok(size) => Ok(size),
        Err(refusal) => match refusal.reason {
            Reason::Write => Err(Fault::CannotPrint),
            _ => Err(Fault::from(refusal)),
        },
    }
}

// Writes the lines in this style.
fn write_lines<W: Write>(
    event_style: EventStyle,
    bytes: &[u8],
    start: u64,
    limits: Limits,
    out: &mut W,
) -> Result<u64, Refusal>
    requires { start + limits.bytes < 2 ^ 64 }
    ensures listed { IfOk result (λ size. AreListed event_style start limits bytes.now size
        (W.contents out.old) (W.contents out.new)) }
    ensures within { IfOk result (λ size. size ≤ length bytes.now) }
    ensures unlisted { IfErr result (λ f. AreUnlisted event_style start limits bytes.now f
        (W.contents out.old) (W.contents out.new)) }
    ensures reasons { IfErr result (λ f. IsListingReason f.reason) }
    ensures read { IfErr result (λ f. f.read ≤ length bytes.now) }
{
    match event_style {
        EventStyle::Listed => {
            let mut reader = bytes;
            listing_from(&mut reader, start, limits, out)
        }
        EventStyle::Annotated => annotated(bytes, start, limits, out),
    }
}

/// Whether more bytes may change the verdict on the form of the item at the start: the bytes end
/// within it or with it.
pub fn is_undecided(bytes: &[u8], limits: Limits) -> bool
    ensures undecided { result ≡ true → ¬ IsDecided form limits bytes.now }
    ensures decided { result ≡ false → IsDecided form limits bytes.now }
{
    let mut machine = Machine::new(limits);
    'events: loop {
        let step = machine.step(&bytes[machine.taken() as usize..]);
        match step.out {
            Out::Event(_) => {}
            Out::Done => return machine.taken() == bytes.len() as u64,
            Out::More => return true,
            Out::Refused(_) => return false,
        }
    }
}
