//! The head of an item, as its event reports it.

ghost use Rattle.std.specs.Prelude.{◌≡◌, ◌≢◌, ℕ, MatchOption};
ghost use Rattle.cbor_head.specs.Head.{IsSimple};
ghost use Rattle.cbor_head.specs.declared.width.Width.{Width};
ghost use Rattle.theory_automaton.specs.{Marks.mark_of, Trace.a_head};

use cbor_head::{EventKind, Major};

/// The major type and the argument of an item's head; the argument is 0 if the length is indefinite.
/// `None` for the head of a chunk, a part of a payload and a break.
#[inline(always)]
pub fn head_of(kind: EventKind) -> Option<(Major, u64)>
    ensures { (w : Width) → MatchOption result
        ((m : Major) (v : Width) (n : ℕ) → mark_of w kind ≢ a_head m v n)
        (λ h. (mark_of w kind ≡ a_head h.0 w h.1) × (h.0 ≡ Major.Simple → IsSimple h.1)) }
{
    match kind {
        EventKind::Unsigned(argument) => Some((Major::Unsigned, argument)),
        EventKind::Negative(argument) => Some((Major::Negative, argument)),
        EventKind::Simple(simple) => Some((Major::Simple, u64::from(simple.number()))),
        EventKind::Bytes(count) => Some((Major::Bytes, count.unwrap_or(0))),
        EventKind::Text(count) => Some((Major::Text, count.unwrap_or(0))),
        EventKind::Array(count) => Some((Major::Array, count.unwrap_or(0))),
        EventKind::Map(count) => Some((Major::Map, count.unwrap_or(0))),
        EventKind::Tag(number) => Some((Major::Tag, number)),
        EventKind::Chunk(_) | EventKind::Piece(_) | EventKind::End => None,
    }
}
