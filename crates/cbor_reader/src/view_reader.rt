//! The item at the start of a slice, or the one that a whole slice is, as a view.

ghost use Rattle.std.specs.Prelude.{◌≡◌, ◌≢◌, ◌≤◌, IfOk, IfErr};
ghost use Rattle.cbor_head.specs.Complaint.{plain};
ghost use Rattle.cbor_head.specs.Spelling.{Spelling, value_of};
ghost use Rattle.cbor_head.specs.Value.{depth, IsInRange, IsValid};
ghost use Rattle.cbor_head.specs.declared.limits.TheConstants.{MAX_DEPTH};
ghost use Rattle.cbor_head.specs.declared.reason.Reason.TheVariants as reasons;
ghost use Rattle.theory_verdicts.specs.Readers.{IsReadAs, IsUnread, ReportsMemoryAtStart};
ghost use Rattle.theory_verdicts.specs.Refusals.{IsReaderReason};
ghost use Rattle.cbor_reader.specs.Headline.{IsValidItem};
ghost use Rattle.cbor_tree_reader.specs.Size.{size};
ghost use Rattle.cbor_reader.specs.WholeItem.{IsItemRefusal};
ghost use Rattle.cbor_item.specs.ViewValue.{view_value};

use crate::view_sink::ViewSink;
use bumpalo::Bump;
use cbor_head::{Limits, Refusal};
use cbor_item::View;
use cbor_parser::Parser;
use std::alloc::Global;

/// Returns the view of the well-formed, valid item that the slice begins with, and the item's size
/// in bytes (RFC 8949, sections 3 and 5.3.1). The pairs of a map keep their order.
///
/// It returns what [`read_tree`](crate::read_tree) returns for a reader over the slice, with the
/// refusal of the bytes within the limits; or `Memory`, if memory was refused before that or the
/// view could not be stored, with 0 as `place` and `read`. A string in one piece is borrowed from
/// the slice. All else is in the arena, as is what a refused read leaves, and is freed with the
/// arena. The number of a view's items, at every depth, plus the bytes of its strings is at most
/// the number of bytes read.
pub fn read_view<'a>(
    alloc: Global,
    bytes: &'a [u8],
    limits: Limits,
    arena: &'a Bump,
) -> Result<(View<'a>, u64), Refusal>
    ensures accepted { IfOk result (λ outcome.
        IsReadAs limits plain bytes.now (view_value outcome.0) outcome.1) }
    ensures bounded { IfOk result (λ outcome. size (view_value outcome.0) ≤ outcome.1) }
    // `View::to_tree` requires this.
    ensures depth { IfOk result (λ outcome. depth (view_value outcome.0) ≤ MAX_DEPTH) }
    ensures in_range { IfOk result (λ outcome. IsInRange (view_value outcome.0)) }
    ensures valid { IfOk result (λ outcome. IsValid (view_value outcome.0)) }
    ensures refused { IfErr result (λ f. IsUnread limits plain bytes.now f) }
    ensures reason { IfErr result (λ f. IsReaderReason limits plain f.reason) }
    ensures no_read { IfErr result (λ f. f.reason ≢ reasons.Read) }
    ensures memory { IfErr result ReportsMemoryAtStart }
{
    // Calling these gives the prover the bounds that all limits keep.
    let _depth = limits.depth();
    let _bytes = limits.bytes();
    let mut building = Parser::new(ViewSink::new(alloc, arena));
    match building.parse_item(bytes, limits) {
        Ok(size) => Ok((building.sink.finish(), size)),
        Err(refusal) => Err(refusal),
    }
}

/// Returns the view of the one well-formed, valid item that the whole slice is, as [`read_view`]
/// does; if a byte follows the item, the refusal is `Trailing`, with the item's length as `place`
/// and `read`.
pub fn whole_view<'a>(
    alloc: Global,
    bytes: &'a [u8],
    limits: Limits,
    arena: &'a Bump,
) -> Result<View<'a>, Refusal>
    ensures accepted { IfOk result (λ view. (s : Spelling)
        × IsValidItem limits bytes.now s × (view_value view ≡ value_of s)) }
    // `View::to_tree` requires this.
    ensures depth { IfOk result (λ view. depth (view_value view) ≤ MAX_DEPTH) }
    ensures in_range { IfOk result (λ view. IsInRange (view_value view)) }
    ensures valid { IfOk result (λ view. IsValid (view_value view)) }
    ensures refused { IfErr result (IsItemRefusal limits plain bytes.now) }
    ensures memory { IfErr result ReportsMemoryAtStart }
{
    match read_view(alloc, bytes, limits, arena) {
        Ok((view, size)) => {
            if size < bytes.len() as u64 {
                return Err(Refusal::trailing(size));
            }
            Ok(view)
        }
        Err(refusal) => Err(refusal),
    }
}
