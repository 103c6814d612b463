//! The bytes up to the next event.

ghost use Rattle.std.specs.Prelude.{◌≡◌, ◌≤◌, ◌<◌, ◌+◌, [], take, length, min, true, false};
ghost use Rattle.std.specs.Prelude.{None, IfSome, is_some};
ghost use Rattle.theory_automaton.specs.Marks.{times, IsProper};
ghost use Rattle.cbor_machine.specs.AtOnce.{is_taken_at_once};
ghost use Rattle.cbor_machine.specs.Whole.{IsPrefix};
ghost use Rattle.cbor_machine.specs.State.{state_of, IsFit, IsSettled};
ghost use Rattle.cbor_machine.specs.State.{wanted_at, is_in_payload, is_done};
ghost use Rattle.cbor_machine.specs.declared.frame.TheConstants.{MOST_OPEN};
ghost use Rattle.cbor_machine.specs.Feed.{IsReported, IsEnded, IsWalkedProper, IsWalkedReason};
ghost use Rattle.cbor_machine.specs.Feed.{IsWalked, reported_times};

use crate::container_stack::ContainerStack;
use crate::position::{Position, after};
use crate::take_byte::{Next, head_kind, take_byte};
use crate::token::kind_by;
use crate::whole_event::{whole_argument, whole_head, whole_piece};
use cbor_head::{EventKind, Reason, Width};

/// The result of a walk over some bytes.
#[derive(Clone, Copy)]
pub enum FeedResult {
    /// All were consumed, and no event is complete.
    More,
    /// The last of them completes an event.
    Reported(Width, EventKind),
    /// The last of them is not allowed there.
    Refused(Reason),
}

/// An event whose bytes are complete at the start, and their number.
#[derive(Clone, Copy)]
pub struct WholeEvent {
    pub used: usize,
    pub width: Width,
    pub kind: EventKind,
}

/// The head, the argument of the open head or the part of a payload that is complete at the start.
/// `None` if none is complete, or if no item may have it there.
#[inline(always)]
#[tactic(auto, using(crate::proofs::Frames::settled_fit))]
pub fn walk_whole(
    depth: usize,
    position: &mut Position,
    container_stack: &mut ContainerStack,
    input: &[u8],
) -> Option<WholeEvent>
    requires limit { depth ≤ MOST_OPEN }
    requires within { length container_stack.old ≤ depth }
    requires fits { IsFit depth container_stack.old position.old }
    ensures used { IfSome result (λ e. IsPrefix e.used input.now) }
    ensures wanted { IfSome result
        (λ e. length input.now ≤ wanted_at position.old → e.used ≡ length input.now) }
    ensures payload { is_in_payload position.old ≡ true → IfSome result
        (λ e. e.used ≡ min (length input.now) (wanted_at position.old)) }
    ensures spent { result ≡ None → is_in_payload position.old ≡ true → input.now ≡ [] }
    ensures clear { IfSome result (λ e. IsSettled container_stack.new position.new) }
    ensures proper { IfSome result (λ e. IsProper e.width e.kind) }
    ensures piece { IfSome result (λ e. times e.kind ≤ e.used) }
    ensures ran { IfSome result (λ e. IsWalked (FeedResult.Reported e.width e.kind) depth
        (state_of position.old container_stack.old) (state_of position.new container_stack.new)
        (take e.used input.now)) }
    ensures within { length container_stack.new ≤ depth }
    ensures none { result ≡ None → (container_stack.new ≡ container_stack.old) × (position.new ≡ position.old) }
    ensures exact { 0 < length input.now → length input.now ≤ wanted_at position.old
        → is_some result ≡ is_taken_at_once depth (length container_stack.old) position.old input.now }
{
    match *position {
        Position::Item => {
            let whole = whole_head(depth, position, container_stack, input)?;
            Some(WholeEvent {
                used: whole.used,
                width: whole.width,
                kind: kind_by(whole.token, whole.number),
            })
        }
        Position::Payload(chunk, kind, left) => {
            if input.is_empty() {
                return None;
            }
            let used = whole_piece(chunk, kind, left, depth, position, container_stack, input);
            Some(WholeEvent {
                used,
                width: Width::Direct,
                kind: EventKind::Piece(used),
            })
        }
        Position::Head {
            chunk,
            kind,
            width,
            left,
            argument: 0,
        } => {
            let number = whole_argument(left, input)?;
            *position = after(chunk, kind, number, depth, container_stack);
            Some(WholeEvent {
                used: usize::from(left) + 1,
                width,
                kind: head_kind(chunk, kind, number),
            })
        }
        _ => None,
    }
}

/// Consumes bytes until one completes an event or is refused.
#[inline(always)]
#[tactic(auto, using(crate::proofs::Frames::settled_fit))]
pub fn walk(
    depth: usize,
    position: &mut Position,
    container_stack: &mut ContainerStack,
    input: &[u8],
) -> (usize, FeedResult)
    requires limit { depth ≤ MOST_OPEN }
    requires within { length container_stack.old ≤ depth }
    requires fits { IsFit depth container_stack.old position.old }
    ensures used { result.0 ≤ length input.now }
    ensures wanted { length input.now ≤ wanted_at position.old → result.0 ≡ length input.now }
    ensures payload { is_in_payload position.old ≡ true
        → result.0 ≡ min (length input.now) (wanted_at position.old) }
    ensures reason { is_done position.old ≡ false → IsWalkedReason result.1 }
    ensures clear { IsReported result.1 → IsSettled container_stack.new position.new }
    ensures more { result.1 ≡ FeedResult.More → result.0 ≡ length input.now }
    ensures open { result.1 ≡ FeedResult.More → IsSettled container_stack.new position.new
        → (result.0 ≡ 0) × IsSettled container_stack.old position.old }
    ensures some { IsEnded result.1 → 0 < result.0 }
    ensures proper { IsWalkedProper result.1 }
    ensures piece { reported_times result.1 ≤ result.0 }
    ensures walked { IsWalked result.1 depth (state_of position.old container_stack.old)
        (state_of position.new container_stack.new) (take result.0 input.now) }
    ensures within { length container_stack.new ≤ depth }
    ensures fits { IsFit depth container_stack.new position.new }
{
    if let Some(prefix) = walk_whole(depth, position, container_stack, input) {
        return (prefix.used, FeedResult::Reported(prefix.width, prefix.kind));
    }
    walk_bytes(depth, position, container_stack, input)
}

// Consumes bytes one by one until one completes an event or is refused.
#[tactic(auto, using(crate::proofs::Frames::settled_fit))]
#[inline(never)]
fn walk_bytes(
    depth: usize,
    position: &mut Position,
    container_stack: &mut ContainerStack,
    input: &[u8],
) -> (usize, FeedResult)
    requires limit { depth ≤ MOST_OPEN }
    requires within { length container_stack.old ≤ depth }
    requires fits { IsFit depth container_stack.old position.old }
    requires spent { is_in_payload position.old ≡ true → input.now ≡ [] }
    ensures used { result.0 ≤ length input.now }
    ensures wanted { length input.now ≤ wanted_at position.old → result.0 ≡ length input.now }
    ensures payload { is_in_payload position.old ≡ true
        → result.0 ≡ min (length input.now) (wanted_at position.old) }
    ensures reason { is_done position.old ≡ false → IsWalkedReason result.1 }
    ensures clear { IsReported result.1 → IsSettled container_stack.new position.new }
    ensures more { result.1 ≡ FeedResult.More → result.0 ≡ length input.now }
    ensures open { result.1 ≡ FeedResult.More → IsSettled container_stack.new position.new
        → (result.0 ≡ 0) × IsSettled container_stack.old position.old }
    ensures some { IsEnded result.1 → 0 < result.0 }
    ensures proper { IsWalkedProper result.1 }
    ensures piece { reported_times result.1 ≤ result.0 }
    ensures walked { IsWalked result.1 depth (state_of position.old container_stack.old)
        (state_of position.new container_stack.new) (take result.0 input.now) }
    ensures within { length container_stack.new ≤ depth }
    ensures fits { IsFit depth container_stack.new position.new }
{
    if input.is_empty() {
        return (0, FeedResult::More);
    }
    for (i, c) in input.iter().enumerate() {
        match take_byte(depth, *position, container_stack, *c) {
            Next::Refuses(reason) => return (i + 1, FeedResult::Refused(reason)),
            Next::Goes(next) => *position = next,
            Next::Reports(width, kind, next) => {
                *position = next;
                return (i + 1, FeedResult::Reported(width, kind));
            }
        }
    }
    (input.len(), FeedResult::More)
}
