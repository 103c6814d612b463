//! A sequence of items together with its reader.

ghost use Rattle.std.specs.Prelude.{◌≡◌, true, false, None, IfSome};
ghost use Rattle.cbor_head.specs.Complaint.{plain, strict};
ghost use Rattle.cbor_item.specs.View.{view};
ghost use Rattle.theory_verdicts.specs.Readers.{IsRead, IsCanonicalPrefix, Loses};
ghost use Rattle.theory_verdicts.specs.Refusals.{IsReaderReason};
ghost use Rattle.cbor_reader.specs.Sequence.{SequenceView, IfGiven, IfRefused, is_last, IsTaken, IsAtEnd, IsRefused};

use crate::sequence_items::SequenceItems;
use cbor_head::{KeyOrder, Limits, Refusal};
use cbor_item::Tree;
use std::alloc::Global;
use std::io::Read;
use std::marker::Model;

/// A sequence of items (RFC 8742) in a reader, as [`SequenceItems`] reads it.
///
/// ```ignore
/// // 0, [1], and a number that is cut off
/// let input: &[u8] = b"\x00\x81\x01\x18";
/// let mut sequence = Sequence::new(alloc, input, limits);
/// sequence.next(); // the tree 0
/// sequence.next_strict(KeyOrder::Bytewise); // two bytes: [1]
/// sequence.next(); // the refusal `Truncated` at 1
/// sequence.next(); // none
/// ```
#[derive(Drop)]
pub struct Sequence<R> {
    reader: R,
    items: SequenceItems,
}

impl<R> Model for Sequence<R> {
    ghost Value = { SequenceView R };

    ghost view = { λ s. record { reader = s.reader; items = s.items } };
}

impl<R: Read> Sequence<R> {
    /// The sequence that begins where the reader is. Allocates and reads nothing.
    pub fn new(alloc: Global, reader: R, limits: Limits) -> Sequence<R>
        ensures limits { result.items.limits ≡ limits }
        ensures live { result.items.finished ≡ false }
        ensures same { result.reader ≡ reader }
    {
        Sequence {
            reader,
            items: SequenceItems::new(alloc, limits),
        }
    }

    /// Returns the tree of the next item, as [`read_tree`](crate::read_tree) does. None if the
    /// input ends before the item's first byte, and always after that or after a refusal.
    pub fn next(&mut self) -> Option<Result<Tree, Refusal>>
        ensures item { IfGiven result (λ tree. IsTaken plain self.old.items.limits
            (R.remaining self.old.reader) (R.remaining self.new.reader) (view tree)) }
        ensures end { result ≡ None → self.old.items.finished ≡ false
            → IsAtEnd self.old.items.limits.bytes
            (R.remaining self.old.reader) (R.remaining self.new.reader) }
        ensures refused { IfRefused result (IsRefused plain self.old.items.limits
            (R.remaining self.old.reader) (R.remaining self.new.reader)) }
        ensures reason { IfRefused result
            (λ f. IsReaderReason self.old.items.limits plain f.reason) }
        ensures limits { self.new.items.limits ≡ self.old.items.limits }
        ensures finished { self.new.items.finished ≡ is_last result }
        ensures again { self.old.items.finished ≡ true
            → (result ≡ None) × (self.new ≡ self.old) }
    {
        self.items.next(&mut self.reader)
    }

    /// Returns the size in bytes of the next item, if its bytes are canonical in this order, as
    /// [`read_strict`](crate::read_strict) does. None if the input ends before the item's first
    /// byte, and always after that or after a refusal.
    pub fn next_strict(&mut self, order: KeyOrder) -> Option<Result<u64, Refusal>>
        ensures item { IfGiven result (λ count. IfSome (R.remaining self.old.reader) (λ input.
            IsRead self.old.items.limits
            (strict order) input count)) }
        ensures canonical { IfGiven result (λ count. IfSome (R.remaining self.old.reader) (λ input.
            IsCanonicalPrefix self.old.items.limits
            order input count)) }
        ensures taken { IfGiven result (λ count.
            Loses count (R.remaining self.old.reader) (R.remaining self.new.reader)) }
        ensures end { result ≡ None → self.old.items.finished ≡ false
            → IsAtEnd self.old.items.limits.bytes
            (R.remaining self.old.reader) (R.remaining self.new.reader) }
        ensures refused { IfRefused result (IsRefused (strict order) self.old.items.limits
            (R.remaining self.old.reader) (R.remaining self.new.reader)) }
        ensures reason { IfRefused result
            (λ f. IsReaderReason self.old.items.limits (strict order) f.reason) }
        ensures limits { self.new.items.limits ≡ self.old.items.limits }
        ensures finished { self.new.items.finished ≡ is_last result }
        ensures again { self.old.items.finished ≡ true
            → (result ≡ None) × (self.new ≡ self.old) }
    {
        self.items.next_strict(&mut self.reader, order)
    }
}
