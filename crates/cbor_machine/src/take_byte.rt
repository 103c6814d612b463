//! The next byte of an item.

ghost use Rattle.std.specs.Prelude.{◌≡◌, ◌≤◌, ◌+◌, ◌-◌, length, false, IfSome, is_some};
ghost use Rattle.cbor_head.specs.declared.width.Width as width;
ghost use Rattle.theory_automaton.specs.Trace.{more_bytes};
ghost use Rattle.theory_automaton.specs.Automaton as automaton;
ghost use Rattle.theory_automaton.specs.Marks.{mark_of, times, IsDefinite, IsProper};
ghost use Rattle.cbor_machine.specs.AtOnce.{begins_long};
ghost use Rattle.cbor_machine.specs.declared.frame.TheConstants.{MOST_OPEN};
ghost use Rattle.cbor_machine.specs.State.{frames_of, state_of, major_of, next_of, IsFit};
ghost use Rattle.cbor_machine.specs.State.{IsNextFit, IsRefusal, IsOnce, IsNextSettled};
ghost use Rattle.cbor_machine.specs.State.{IsReportedSettled, IsNextOpen, IsNextProper};
ghost use Rattle.cbor_machine.specs.State.{IsNextReason, IsSettled, is_done, head_left, next_left};

use crate::container_stack::{ContainerStack, Slot};
use crate::opening::{ArgumentType, Opening, opening_of};
use crate::position::{Position, after, chunk_payload, close, finish_string, has_space};
use cbor_head::{EventKind, FIRST_SIMPLE_IN_TWO_BYTES, Reason, Simple, Width, initial_byte_reason};

/// The result of a byte.
#[derive(Clone, Copy)]
pub enum Next {
    /// It is not allowed here.
    Refuses(Reason),
    /// No event is complete.
    Goes(Position),
    /// An event is complete.
    Reports(Width, EventKind, Position),
}

/// The event of a definite head.
#[inline(always)]
pub(crate) fn head_kind(chunk: bool, kind: ArgumentType, n: u64) -> EventKind
    ensures mark { (w : width.Width) → mark_of w result ≡ automaton.mark chunk (major_of kind) w n }
    ensures once { times result ≡ 1 }
    ensures proper { (w : width.Width) → IsDefinite w → IsProper w result }
{
    if chunk {
        return EventKind::Chunk(n);
    }
    match kind {
        ArgumentType::Unsigned => EventKind::Unsigned(n),
        ArgumentType::Negative => EventKind::Negative(n),
        ArgumentType::Bytes => EventKind::Bytes(Some(n)),
        ArgumentType::Text => EventKind::Text(Some(n)),
        ArgumentType::Array => EventKind::Array(Some(n)),
        ArgumentType::Map => EventKind::Map(Some(n)),
        ArgumentType::Tag => EventKind::Tag(n),
    }
}

// The number of bytes of an argument after the next one.
fn left_of(width: Width) -> u8
    ensures { result ≡ more_bytes width - 1 }
{
    match width {
        Width::Two => 1,
        Width::Four => 3,
        Width::Eight => 7,
        Width::Direct | Width::One | Width::Indefinite => 0,
    }
}

// After the first byte of a head.
fn begun(chunk: bool, kind: ArgumentType, width: Width) -> Position
    ensures { result ≡ Position.Head chunk kind width (more_bytes width - 1) 0 }
{
    Position::Head {
        chunk,
        kind,
        width,
        left: left_of(width),
        argument: 0,
    }
}

/// Where the next byte belongs after the first byte of an item's head, if the head has an argument
/// after that byte. `None` for any other byte, or if no item may have it there.
#[inline(always)]
pub fn long_at(depth: usize, container_stack: &ContainerStack, c: u8) -> Option<Position>
    ensures next { IfSome result (λ to. automaton.take_byte depth
        (automaton.at_item (frames_of container_stack.now)) c ≡ automaton.goes (state_of to container_stack.now)) }
    ensures fits { IfSome result (λ to. IsFit depth container_stack.now to) }
    ensures open { IfSome result (λ to. ¬ (IsSettled container_stack.now to)) }
    ensures exact { is_some result ≡ begins_long depth (length container_stack.now) c }
{
    let Opening::Long(kind, width) = opening_of(c) else {
        return None;
    };
    if !has_space(depth, kind, container_stack) {
        return None;
    }
    Some(begun(false, kind, width))
}

// A break where an item may begin.
#[tactic(auto, using(crate::proofs::Frames::frames_push))]
fn break_at(container_stack: &mut ContainerStack, c: u8) -> Next
    requires { length container_stack.old ≤ MOST_OPEN }
    ensures next { next_of result container_stack.new
        ≡ automaton.break_at (frames_of container_stack.old) c }
    ensures kept { IsRefusal result → container_stack.new ≡ container_stack.old }
    ensures once { IsOnce result }
    ensures proper { IsNextProper result }
    ensures reason { IsNextReason result }
    ensures fewer { length container_stack.new ≤ length container_stack.old }
    ensures settled { IsNextSettled container_stack.new result }
    ensures open { IsNextOpen container_stack.new result }
{
    match container_stack.end() {
        None => Next::Refuses(initial_byte_reason(c)),
        Some(true) => Next::Reports(Width::Indefinite, EventKind::End, Position::Done),
        Some(false) => Next::Reports(Width::Indefinite, EventKind::End, Position::Item),
    }
}

// A byte where an item may begin.
#[tactic(auto, using(crate::proofs::Frames::frames_push, crate::proofs::Frames::settled_fit, crate::proofs::Frames::next_settled_fit))]
fn begin(depth: usize, container_stack: &mut ContainerStack, c: u8) -> Next
    requires limit { depth ≤ MOST_OPEN }
    requires within { length container_stack.old ≤ depth }
    ensures next { next_of result container_stack.new
        ≡ automaton.begin depth (frames_of container_stack.old) c (automaton.opening c) }
    ensures clear { IsReportedSettled container_stack.new result }
    ensures open { IsNextOpen container_stack.new result }
    ensures kept { IsRefusal result → container_stack.new ≡ container_stack.old }
    ensures once { IsOnce result }
    ensures proper { IsNextProper result }
    ensures reason { IsNextReason result }
    ensures within { length container_stack.new ≤ depth }
    ensures fits { IsNextFit depth container_stack.new result }
{
    match opening_of(c) {
        Opening::Direct(kind, n) => {
            if !has_space(depth, kind, container_stack) {
                return Next::Refuses(initial_byte_reason(c));
            }
            let n = u64::from(n);
            Next::Reports(
                Width::Direct,
                head_kind(false, kind, n),
                after(false, kind, n, depth, container_stack),
            )
        }
        Opening::Long(kind, width) => {
            if !has_space(depth, kind, container_stack) {
                return Next::Refuses(initial_byte_reason(c));
            }
            Next::Goes(begun(false, kind, width))
        }
        Opening::IndefiniteBytes => Next::Reports(
            Width::Indefinite,
            EventKind::Bytes(None),
            Position::Chunks(ArgumentType::Bytes),
        ),
        Opening::IndefiniteText => Next::Reports(
            Width::Indefinite,
            EventKind::Text(None),
            Position::Chunks(ArgumentType::Text),
        ),
        Opening::IndefiniteArray => {
            if container_stack.len() >= depth {
                return Next::Refuses(initial_byte_reason(c));
            }
            container_stack.push(Slot::IndefiniteItem, 0);
            Next::Reports(Width::Indefinite, EventKind::Array(None), Position::Item)
        }
        Opening::IndefiniteMap => {
            if container_stack.len() >= depth {
                return Next::Refuses(initial_byte_reason(c));
            }
            container_stack.push(Slot::IndefiniteKey, 0);
            Next::Reports(Width::Indefinite, EventKind::Map(None), Position::Item)
        }
        Opening::Simple(simple) => Next::Reports(
            Width::Direct,
            EventKind::Simple(simple),
            close(container_stack),
        ),
        Opening::LongSimple => Next::Goes(Position::SimpleNumber),
        Opening::Break => break_at(container_stack, c),
        Opening::Bad => Next::Refuses(initial_byte_reason(c)),
    }
}

// Whether both are strings of the same type.
fn is_same_string(a: ArgumentType, b: ArgumentType) -> bool
    ensures { result ≡ automaton.is_major (major_of a) (major_of b) }
{
    matches!(
        (a, b),
        (ArgumentType::Bytes, ArgumentType::Bytes) | (ArgumentType::Text, ArgumentType::Text)
    )
}

// A byte between the chunks of a string.
#[tactic(auto, using(crate::proofs::Frames::settled_fit))]
fn in_string(kind: ArgumentType, depth: usize, container_stack: &mut ContainerStack, c: u8) -> Next
    requires limit { depth ≤ MOST_OPEN }
    requires within { length container_stack.old ≤ depth }
    ensures next { next_of result container_stack.new ≡ automaton.in_string
        (major_of kind) (frames_of container_stack.old) (automaton.opening c) }
    ensures clear { IsReportedSettled container_stack.new result }
    ensures open { IsNextOpen container_stack.new result }
    ensures kept { IsRefusal result → container_stack.new ≡ container_stack.old }
    ensures once { IsOnce result }
    ensures proper { IsNextProper result }
    ensures reason { IsNextReason result }
    ensures within { length container_stack.new ≤ depth }
    ensures fits { IsNextFit depth container_stack.new result }
{
    match opening_of(c) {
        Opening::Direct(other, n) if is_same_string(kind, other) => {
            let n = u64::from(n);
            Next::Reports(
                Width::Direct,
                EventKind::Chunk(n),
                chunk_payload(kind, n, container_stack),
            )
        }
        Opening::Long(other, width) if is_same_string(kind, other) => Next::Goes(begun(
            true, kind, width,
        )),
        Opening::Break => Next::Reports(Width::Indefinite, EventKind::End, close(container_stack)),
        _ => Next::Refuses(Reason::BadChunk),
    }
}

/// The next byte.
#[tactic(auto, using(crate::proofs::Frames::settled_fit))]
pub(crate) fn take_byte(
    depth: usize,
    position: Position,
    container_stack: &mut ContainerStack,
    c: u8,
) -> Next
    requires limit { depth ≤ MOST_OPEN }
    requires within { length container_stack.old ≤ depth }
    requires fits { IsFit depth container_stack.old position }
    ensures next { next_of result container_stack.new
        ≡ automaton.take_byte depth (state_of position container_stack.old) c }
    ensures left { head_left position ≤ 1 + next_left result }
    ensures clear { IsReportedSettled container_stack.new result }
    ensures open { IsNextOpen container_stack.new result }
    ensures kept { IsRefusal result → container_stack.new ≡ container_stack.old }
    ensures once { IsOnce result }
    ensures proper { IsNextProper result }
    ensures reason { is_done position ≡ false → IsNextReason result }
    ensures within { length container_stack.new ≤ depth }
    ensures fits { IsNextFit depth container_stack.new result }
{
    match position {
        Position::Item => begin(depth, container_stack, c),
        Position::Head {
            chunk,
            kind,
            width,
            left,
            argument,
        } => {
            let n = argument * 256 + u64::from(c);
            if left == 0 {
                Next::Reports(
                    width,
                    head_kind(chunk, kind, n),
                    after(chunk, kind, n, depth, container_stack),
                )
            } else {
                Next::Goes(Position::Head {
                    chunk,
                    kind,
                    width,
                    left: left - 1,
                    argument: n,
                })
            }
        }
        Position::SimpleNumber => match Simple::new(c) {
            Some(simple) if u64::from(c) >= FIRST_SIMPLE_IN_TWO_BYTES => Next::Reports(
                Width::One,
                EventKind::Simple(simple),
                close(container_stack),
            ),
            _ => Next::Refuses(Reason::BadSimple),
        },
        Position::Payload(chunk, kind, left) => {
            let mut next = position;
            if left == 0 {
                finish_string(chunk, kind, &mut next, container_stack);
            } else {
                next = Position::Payload(chunk, kind, left - 1);
            }
            Next::Reports(Width::Direct, EventKind::Piece(1), next)
        }
        Position::Chunks(kind) => in_string(kind, depth, container_stack, c),
        Position::Done => Next::Refuses(Reason::Trailing),
    }
}
