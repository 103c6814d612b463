//! The annotated bytes of an item.

ghost use Rattle.std.specs.Prelude.{◌≤◌, ◌+◌, ◌<◌, ◌^◌, ◌≢◌, length, IfOk, IfErr};
ghost use Rattle.cbor_head.specs.declared.reason.Reason.TheVariants as reasons;
ghost use Rattle.cbor_listing.specs.Annotated.{IsAnnotated, IsUnannotated};
ghost use Rattle.cbor_listing.specs.Listing.{IsListingReason};

use crate::annotated_line::{Context, Rows, set_rows};
use crate::next_event::next_event;
use cbor_head::{Limits, Reason, Refusal};
use cbor_item::write_whole;
use cbor_machine::Machine;
use std::io::Write;

/// Writes a line for each event of the item that the bytes begin with: its offset, its bytes in hex and what they mean, indented by
/// depth. Returns the number of bytes of the item. The item starts at the offset `start` of an input of several items: the offsets in its
/// lines are counted from the start of that input, and the offsets of a refusal from the start of the item.
///
/// Of `bf 63 46 75 6e f5 ff`, the map of "Fun" to true:
///
/// ```text
///        0  bf                                map, indefinite length
///        1  63                                  text string, 3 bytes
///        2  46756e                                "Fun"
///        5  f5                                  true
///        6  ff                                break
/// ```
///
/// A payload has a line for each 16 bytes of it, written once all of it was read. Of more than 512 bytes the first 512 are shown, and a
/// line with `..`. In a text, a byte that is not printable ASCII is shown as a dot. Levels beyond 32 are not indented further.
///
/// Only the form is checked, as by [`listing`](crate::listing). No refusal is `Read`. What was written before a refusal stays. If
/// the writer fails, the refusal is `Write`, and its `place` is the number of bytes that the writer accepted. Nothing is allocated.
pub fn annotated<W: Write>(
    bytes: &[u8],
    start: u64,
    limits: Limits,
    writer: &mut W,
) -> Result<u64, Refusal>
    requires { start + limits.bytes < 2 ^ 64 }
    ensures annotated { IfOk result (λ count. IsAnnotated start limits bytes.now count
        (W.contents writer.old) (W.contents writer.new)) }
    ensures within { IfOk result (λ count. count ≤ length bytes.now) }
    ensures refused { IfErr result (λ f. IsUnannotated start limits bytes.now f
        (W.contents writer.old) (W.contents writer.new)) }
    ensures reasons { IfErr result (λ f. IsListingReason f.reason) }
    ensures no_read { IfErr result (λ f. f.reason ≢ reasons.Read) }
    ensures read { IfErr result (λ f. f.read ≤ length bytes.now) }
{
    let mut machine = Machine::new(limits);
    let mut context = Context::none();
    let mut rows = Rows::new();
    let mut written: u64 = 0;
    'lines: loop {
        let opened = machine.open();
        match next_event(&mut machine, bytes) {
            Ok(Some(event)) => {
                let taken = machine.taken();
                let level = context.level_of(opened, &event.kind);
                set_rows(&mut rows, start, level, context, &event, bytes, taken);
                let text = rows.as_slice();
                match write_whole(writer, text) {
                    Ok(()) => written = written.saturating_add(text.len() as u64),
                    Err(count) => return Err(Refusal {
                        reason: Reason::Write,
                        place: written.saturating_add(count as u64),
                        read: taken,
                    }),
                }
                context = context.after(&event.kind, level, taken);
            }
            Ok(None) => return Ok(machine.taken()),
            Err(refusal) => return Err(refusal),
        }
    }
}
