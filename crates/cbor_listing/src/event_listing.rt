//! The listing of an item's events.

ghost use Rattle.std.specs.Prelude.{◌+◌, ◌<◌, ◌^◌, IfOk, IfErr, IfSome};
ghost use Rattle.theory_verdicts.specs.Readers.{Loses};
ghost use Rattle.cbor_listing.specs.Listing.{IsListed, IsUnlisted, IsListingReason};

use crate::event_line::line_of;
use cbor_events::ItemEvents;
use cbor_head::{Limits, Reason, Refusal};
use cbor_item::write_whole;
use std::io::{Read, Write};

/// Writes a line for each event of the reader's next item, except for the pieces of payloads, and
/// returns the number of bytes of the item (RFC 8949, section 3).
///
/// A line is the event's offset, name, argument and width, with one space between. Of
/// `82 01 18 64`, the array of 1 and 100:
///
/// ```text
/// 0 array 2 0
/// 1 unsigned 1 0
/// 2 unsigned 100 1
/// ```
///
/// The line of an event is written before the next byte is read, and no byte after the item is read.
/// Only the form is checked, neither UTF-8 nor keys. What was written before a refusal stays: the
/// lines of all events whose bytes were consumed. A write that returns an error, `Interrupted` too,
/// or that accepts no bytes is refused with `Write`. Its `place` is the number of bytes of the lines
/// that the writer accepted, at most 2^64 - 1. Nothing is allocated.
pub fn listing<R: Read, W: Write>(
    reader: &mut R,
    limits: Limits,
    writer: &mut W,
) -> Result<u64, Refusal>
    ensures listed { IfOk result (λ count. IfSome (R.remaining reader.old)
        (λ input. IsListed 0 limits input count
        (W.contents writer.old) (W.contents writer.new))) }
    ensures taken { IfOk result
        (λ count. Loses count (R.remaining reader.old) (R.remaining reader.new)) }
    ensures refused { IfErr result (λ f. IfSome (R.remaining reader.old)
        (λ input. IsUnlisted 0 limits input f
        (W.contents writer.old) (W.contents writer.new))) }
    ensures reasons { IfErr result (λ f. IsListingReason f.reason) }
    ensures read { IfErr result
        (λ f. Loses f.read (R.remaining reader.old) (R.remaining reader.new)) }
{
    listing_from(reader, 0, limits, writer)
}

/// Writes the lines of an item that starts at the offset `start` of an input of several items: the
/// offsets in its lines are counted from the start of that input, and the offsets of a refusal from
/// the start of the item.
pub fn listing_from<R: Read, W: Write>(
    reader: &mut R,
    start: u64,
    limits: Limits,
    writer: &mut W,
) -> Result<u64, Refusal>
    requires { start + limits.bytes < 2 ^ 64 }
    ensures listed { IfOk result (λ count. IfSome (R.remaining reader.old)
        (λ input. IsListed start limits input count
        (W.contents writer.old) (W.contents writer.new))) }
    ensures taken { IfOk result
        (λ count. Loses count (R.remaining reader.old) (R.remaining reader.new)) }
    ensures refused { IfErr result (λ f. IfSome (R.remaining reader.old)
        (λ input. IsUnlisted start limits input f
        (W.contents writer.old) (W.contents writer.new))) }
    ensures reasons { IfErr result (λ f. IsListingReason f.reason) }
    ensures read { IfErr result
        (λ f. Loses f.read (R.remaining reader.old) (R.remaining reader.new)) }
{
    let mut events = ItemEvents::new(limits);
    let mut written: u64 = 0;
    'lines: loop {
        match events.next(reader) {
            Ok(Some(event)) => {
                let line = line_of(start, &event);
                let text = line.as_slice();
                match write_whole(writer, text) {
                    Ok(()) => written = written.saturating_add(text.len() as u64),
                    Err(count) => return Err(Refusal {
                        reason: Reason::Write,
                        place: written.saturating_add(count as u64),
                        read: events.taken(),
                    }),
                }
            }
            Ok(None) => return Ok(events.taken()),
            Err(refusal) => return Err(refusal),
        }
    }
}
