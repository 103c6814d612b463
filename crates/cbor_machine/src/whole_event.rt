//! Whole heads and whole payloads, read directly from a slice.

ghost use Rattle.std.specs.Prelude.{◌≡◌, ◌≤◌, ◌<◌, ◌+◌, ◌-◌, ◌^◌, ◌/◌, ◌∷◌, [], List, ℕ, length, take, min};
ghost use Rattle.std.specs.Prelude.{true, false, IfSome, None, is_some, nat_le, nat_lt, ◌&&◌};
ghost use Rattle.cbor_head.specs.Head.{IsSimple};
ghost use Rattle.cbor_head.specs.declared.width.Width as width;
ghost use Rattle.cbor_head.specs.declared.width.Width.TheVariants.{Direct};
ghost use Rattle.theory_automaton.specs.Trace.{a_head};
ghost use Rattle.theory_automaton.specs.Automaton as automaton;
ghost use Rattle.theory_automaton.specs.Marks.{marks_of, times};
ghost use Rattle.cbor_machine.specs.State.{frames_of, state_of, major_of};
ghost use Rattle.theory_automaton.specs.Marks.{IsDefinite, IsProper};
ghost use Rattle.cbor_machine.specs.State.{IsSettled};
ghost use Rattle.cbor_machine.specs.AtOnce.{is_width, begins_short};
ghost use Rattle.cbor_machine.specs.Whole.{IsArgumentLeft, IsEventRun, IsNumberOf};
ghost use Rattle.cbor_machine.specs.Whole.{IsPrefix, IsHeadHere, ReportsPrefix, LeavesPiece};
ghost use Rattle.cbor_machine.specs.Token.{kind_of};
ghost use Rattle.cbor_machine.specs.declared.frame.TheConstants.{MOST_OPEN};
ghost use Rattle.theory_automaton.specs.Pieces.{piece_by};

use crate::container_stack::ContainerStack;
use crate::opening::{ArgumentType, numbered_at};
use crate::position::{Position, enter, finish, finish_string, has_space};
use crate::token::Token;
use cbor_head::{FIRST_SIMPLE_IN_TWO_BYTES, Width, read_argument};

// The low five bits of a first byte whose argument has one byte more than `left`.
fn low_bits(left: u8) -> Option<u8>
    ensures low { IfSome result (λ low. (left + 1 ≡ 2 ^ (low - 24)) × (24 ≤ low) × (low ≤ 27)) }
    ensures width { is_some result ≡ is_width left }
{
    match left {
        0 => Some(24),
        1 => Some(25),
        3 => Some(26),
        7 => Some(27),
        _ => None,
    }
}

/// The argument of the open head, if all its bytes are available: `left` more after the next one.
#[inline(always)]
pub(crate) fn whole_argument(left: u8, rest: &[u8]) -> Option<u64>
    ensures is { IfSome result (λ n. IsArgumentLeft left n rest.now) }
    ensures there { IfSome result (λ n. left < length rest.now) }
    ensures exact { is_some result ≡ (is_width left && nat_lt left (length rest.now)) }
{
    let low = low_bits(left)?;
    let argument = read_argument(low, rest)?;
    Some(argument.number)
}

/// What was consumed from the start of a slice, and the event of it.
#[derive(Clone, Copy)]
pub(crate) struct Whole {
    pub used: usize,
    pub token: Token,
    pub width: Width,
    pub number: u64,
}

// The event of the head of an item of this type.
#[inline(always)]
fn reported_of(kind: ArgumentType) -> Token
    ensures marks { (w : width.Width) (n : ℕ)
        → marks_of w (kind_of result n) ≡ a_head (major_of kind) w n ∷ [] }
    ensures proper { (w : width.Width) (n : ℕ)
        → IsDefinite w → IsProper w (kind_of result n) }
    ensures number { (n : ℕ) → IsNumberOf result n }
    ensures once { (n : ℕ) → times (kind_of result n) ≡ 1 }
    ensures other { (n : ℕ) (kept from : List ℕ)
        → piece_by (kind_of result n) kept from ≡ kept }
{
    match kind {
        ArgumentType::Unsigned => Token::Unsigned,
        ArgumentType::Negative => Token::Negative,
        ArgumentType::Bytes => Token::Bytes,
        ArgumentType::Text => Token::Text,
        ArgumentType::Array => Token::Array,
        ArgumentType::Map => Token::Map,
        ArgumentType::Tag => Token::Tag,
    }
}

/// A definite head that an item may have, and its number of bytes.
#[derive(Clone, Copy)]
pub(crate) struct DefiniteHead {
    pub first: u8,
    pub used: usize,
    pub width: Width,
    pub number: u64,
}

/// The definite head that is complete at the start. `None` if none is, or if no item may have it
/// there.
#[inline(always)]
pub(crate) fn prefix_head(
    depth: usize,
    container_stack: &ContainerStack,
    rest: &[u8],
) -> Option<DefiniteHead>
    ensures here { IfSome result (IsHeadHere depth (frames_of container_stack.now) rest.now) }
    ensures used { IfSome result (λ h. IsPrefix h.used rest.now) }
    ensures width { IfSome result (λ h. IsDefinite h.width) }
    ensures simple { IfSome result (λ h. 224 ≤ h.first → IsSimple h.number) }
    ensures exact { length rest.now ≡ 1
        → is_some result ≡ begins_short depth (length container_stack.now) rest.now }
{
    let (first, following) = rest.split_first()?;
    let c = *first;
    let low = c % 32;
    let argument = read_argument(low, following)?;
    let used = rest.len() - argument.rest.len();
    let (width, number) = (argument.width, argument.number);
    if c >= 0xe0 {
        if low > 24 || low == 24 && number < FIRST_SIMPLE_IN_TWO_BYTES {
            return None;
        }
        return Some(DefiniteHead {
            first: c,
            used,
            width,
            number,
        });
    }
    if !has_space(depth, numbered_at(c / 32), container_stack) {
        return None;
    }
    Some(DefiniteHead {
        first: c,
        used,
        width,
        number,
    })
}

/// Consumes it, and returns its event.
#[inline(always)]
pub(crate) fn take_head(
    head: DefiniteHead,
    depth: usize,
    position: &mut Position,
    container_stack: &mut ContainerStack,
) -> Token
    requires limit { depth ≤ MOST_OPEN }
    requires within { length container_stack.old ≤ depth }
    requires item { position.old ≡ Position.Item }
    requires space { head.first < 224 → automaton.has_space depth (frames_of container_stack.old)
        (automaton.major_at (head.first / 32)) ≡ true }
    ensures reported { (from : List ℕ) → IsHeadHere depth (frames_of container_stack.old) from head
        → IsEventRun depth (automaton.at_item (frames_of container_stack.old))
        (state_of position.new container_stack.new) (take head.used from) head.width
        (kind_of result head.number) }
    ensures settled { IsSettled container_stack.new position.new }
    ensures within { length container_stack.new ≤ depth }
    ensures proper { IsDefinite head.width → IsProper head.width (kind_of result head.number) }
    ensures number { (224 ≤ head.first → IsSimple head.number) → IsNumberOf result head.number }
    ensures once { times (kind_of result head.number) ≡ 1 }
    ensures other { (kept from : List ℕ)
        → piece_by (kind_of result head.number) kept from ≡ kept }
{
    if head.first >= 0xe0 {
        finish(position, container_stack);
        return Token::Simple;
    }
    let kind = numbered_at(head.first / 32);
    enter(kind, head.number, depth, position, container_stack);
    reported_of(kind)
}

/// Consumes a whole head and returns its event, in one call.
#[inline(always)]
pub(crate) fn whole_head(
    depth: usize,
    position: &mut Position,
    container_stack: &mut ContainerStack,
    rest: &[u8],
) -> Option<Whole>
    requires limit { depth ≤ MOST_OPEN }
    requires within { length container_stack.old ≤ depth }
    requires item { position.old ≡ Position.Item }
    ensures reported { IfSome result (λ r. ReportsPrefix depth (automaton.at_item (frames_of container_stack.old))
        (state_of position.new container_stack.new) rest.now r) }
    ensures used { IfSome result (λ r. IsPrefix r.used rest.now) }
    ensures settled { IfSome result (λ r. IsSettled container_stack.new position.new) }
    ensures within { length container_stack.new ≤ depth }
    ensures none { result ≡ None → (container_stack.new ≡ container_stack.old) × (position.new ≡ position.old) }
    ensures number { IfSome result (λ r. IsNumberOf r.token r.number) }
    ensures once { IfSome result (λ r. times (kind_of r.token r.number) ≡ 1) }
    ensures other { IfSome result (λ r. LeavesPiece r) }
    ensures exact { length rest.now ≡ 1
        → is_some result ≡ begins_short depth (length container_stack.old) rest.now }
{
    let head = prefix_head(depth, container_stack, rest)?;
    let token = take_head(head, depth, position, container_stack);
    Some(Whole {
        used: head.used,
        token,
        width: head.width,
        number: head.number,
    })
}

/// The number of bytes of a payload that are available.
#[inline(always)]
pub(crate) fn whole_piece(
    chunk: bool,
    kind: ArgumentType,
    left: u64,
    depth: usize,
    position: &mut Position,
    container_stack: &mut ContainerStack,
    rest: &[u8],
) -> usize
    requires { 0 < length rest.now }
    ensures reported { IsEventRun depth
        (automaton.in_payload chunk (major_of kind) left (frames_of container_stack.old))
        (state_of position.new container_stack.new)
        (take result rest.now) Direct (kind_of Token.Piece result) }
    ensures used { IsPrefix result rest.now }
    ensures most { result ≡ min (left + 1) (length rest.now) }
    ensures settled { IsSettled container_stack.new position.new }
    ensures fewer { length container_stack.new ≤ length container_stack.old }
{
    let n = rest.len() as u64;
    if n <= left {
        *position = Position::Payload(chunk, kind, left - n);
        return rest.len();
    }
    finish_string(chunk, kind, position, container_stack);
    left as usize + 1
}
