//! The items of a sequence, from a reader that is passed to each call.

ghost use Rattle.std.specs.Prelude.{◌≡◌, true, false, None, Some, IfSome};
ghost use Rattle.cbor_head.specs.Complaint.{plain, strict};
ghost use Rattle.cbor_head.specs.declared.reason.Reason.TheVariants as reasons;
ghost use Rattle.cbor_item.specs.View.{view};
ghost use Rattle.theory_verdicts.specs.Readers.{IsRead, IsCanonicalPrefix, Loses};
ghost use Rattle.theory_verdicts.specs.Refusals.{IsReaderReason};
ghost use Rattle.cbor_reader.specs.Sequence.{SequenceItemsView, IfGiven, IfRefused, is_last, IsTaken, IsAtEnd, IsRefused};

use cbor_events::ItemEvents;
use cbor_head::{KeyOrder, Limits, Reason, Refusal};
use cbor_item::Tree;
use cbor_memory::Memory;
use cbor_strict::{StrictEvents, read_strict_by};
use cbor_tree_reader::read_tree_by;
use std::alloc::Global;
use std::io::Read;
use std::marker::Model;

/// The items of a sequence (RFC 8742), one after another, from a reader that is passed to each
/// call.
///
/// The limits hold for each item separately, and the offsets of refusals count from the start of
/// the item. Calls of [`next`](SequenceItems::next) and [`next_strict`](SequenceItems::next_strict)
/// may be mixed: each reads what the reader then holds. After a refusal no further item is read,
/// and each call returns `None`.
#[derive(Drop)]
pub struct SequenceItems {
    alloc: Global,
    limits: Limits,
    // Reused for each item, so that the list of open containers is allocated once.
    events: ItemEvents,
    strict_events: StrictEvents,
    finished: bool,
}

impl Model for SequenceItems {
    ghost use Rattle.std.specs.Prelude.{◌≡◌, false};
    ghost use Rattle.cbor_reader.specs.Sequence.{SequenceItemsView};
    ghost use Rattle.cbor_strict.specs.StrictReader.{limits_of};

    ghost Value = { SequenceItemsView };

    ghost view = { λ s. record { limits = s.limits; finished = s.finished } };

    ghost invariant = { λ s. s.finished ≡ false → (s.events.machine.depth ≡ s.limits.depth)
        × (s.events.machine.bytes ≡ s.limits.bytes) × (limits_of s.strict_events ≡ s.limits) };
}

impl SequenceItems {
    /// A sequence of which no item was read. Allocates nothing.
    pub fn new(alloc: Global, limits: Limits) -> SequenceItems
        ensures limits { result.limits ≡ limits }
        ensures live { result.finished ≡ false }
    {
        SequenceItems {
            alloc,
            limits,
            events: ItemEvents::new(limits),
            strict_events: StrictEvents::new(alloc, limits, KeyOrder::Bytewise),
            finished: false,
        }
    }

    /// Returns the tree of the next item, as [`read_tree`](crate::read_tree) does. None if the
    /// input ends before the item's first byte, and always after that or after a refusal; then
    /// nothing is read.
    pub fn next<R: Read>(&mut self, reader: &mut R) -> Option<Result<Tree, Refusal>>
        ensures item { IfGiven result (λ tree. IsTaken plain self.old.limits
            (R.remaining reader.old) (R.remaining reader.new) (view tree)) }
        ensures end { result ≡ None → self.old.finished ≡ false
            → IsAtEnd self.old.limits.bytes (R.remaining reader.old) (R.remaining reader.new) }
        ensures refused { IfRefused result (IsRefused plain self.old.limits
            (R.remaining reader.old) (R.remaining reader.new)) }
        ensures reason { IfRefused result (λ f. IsReaderReason self.old.limits plain f.reason) }
        ensures limits { self.new.limits ≡ self.old.limits }
        ensures finished { self.new.finished ≡ is_last result }
        ensures again { self.old.finished ≡ true
            → (result ≡ None) × (self.new ≡ self.old) × (reader.new ≡ reader.old) }
    {
        if self.finished {
            return None;
        }
        match read_tree_by(
            &mut Memory::new(),
            self.alloc,
            &mut self.events,
            reader,
            self.limits,
        ) {
            Ok((tree, _count)) => Some(Ok(tree)),
            Err(refusal) => last(&mut self.finished, refusal),
        }
    }

    /// Returns the size in bytes of the next item, if its bytes are canonical in this order, as
    /// [`read_strict`](crate::read_strict) does. None if the input ends before the item's first
    /// byte, and always after that or after a refusal; then nothing is read.
    pub fn next_strict<R: Read>(
        &mut self,
        reader: &mut R,
        order: KeyOrder,
    ) -> Option<Result<u64, Refusal>>
        ensures item { IfGiven result (λ count. IfSome (R.remaining reader.old) (λ input.
            IsRead self.old.limits (strict order) input count)) }
        ensures canonical { IfGiven result (λ count. IfSome (R.remaining reader.old) (λ input.
            IsCanonicalPrefix self.old.limits order input count)) }
        ensures taken { IfGiven result (λ count.
            Loses count (R.remaining reader.old) (R.remaining reader.new)) }
        ensures end { result ≡ None → self.old.finished ≡ false
            → IsAtEnd self.old.limits.bytes (R.remaining reader.old) (R.remaining reader.new) }
        ensures refused { IfRefused result (IsRefused (strict order) self.old.limits
            (R.remaining reader.old) (R.remaining reader.new)) }
        ensures reason { IfRefused result
            (λ f. IsReaderReason self.old.limits (strict order) f.reason) }
        ensures limits { self.new.limits ≡ self.old.limits }
        ensures finished { self.new.finished ≡ is_last result }
        ensures again { self.old.finished ≡ true
            → (result ≡ None) × (self.new ≡ self.old) × (reader.new ≡ reader.old) }
    {
        if self.finished {
            return None;
        }
        match read_strict_by(&mut self.strict_events, reader, order) {
            Ok(count) => Some(Ok(count)),
            Err(refusal) => last(&mut self.finished, refusal),
        }
    }
}

// Ends the sequence. Returns the refusal, or None if the input ended before an item.
fn last<T>(finished: &mut bool, refusal: Refusal) -> Option<Result<T, Refusal>>
    ensures end { result ≡ None → (refusal.reason ≡ reasons.Truncated) × (refusal.read ≡ 0) }
    ensures refused { IfRefused result (λ f. (f ≡ refusal)
        × ¬ ((refusal.reason ≡ reasons.Truncated) × (refusal.read ≡ 0))) }
    ensures last { is_last result ≡ true }
    ensures finished { finished.new ≡ true }
{
    *finished = true;
    match refusal {
        Refusal {
            reason: Reason::Truncated,
            read: 0,
            ..
        } => None,
        _ => Some(Err(refusal)),
    }
}
