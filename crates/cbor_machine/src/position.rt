//! Where the next byte belongs.

ghost use Rattle.std.specs.Prelude.{◌≡◌, ◌≤◌, ◌⊎◌, length, false, true};
ghost use Rattle.theory_automaton.specs.Automaton as automaton;
ghost use Rattle.cbor_machine.specs.declared.frame.TheConstants.{MOST_OPEN};
ghost use Rattle.cbor_machine.specs.State.{frames_of, state_of, major_of, IsSettled};

use crate::container_stack::{ContainerStack, Slot};
use crate::opening::ArgumentType;
use cbor_head::Width;

/// Where the next byte belongs. A flag is true within a chunk.
#[derive(Clone, Copy)]
pub enum Position {
    /// An item may begin.
    Item,
    /// In a head, after its first byte.
    Head {
        chunk: bool,
        kind: ArgumentType,
        width: Width,
        /// This number of bytes of the argument follows the next one.
        left: u8,
        /// The argument so far.
        argument: u64,
    },
    /// The number of a simple value, after `f8`.
    SimpleNumber,
    /// In a payload, with this number of its bytes after the next one.
    Payload(bool, ArgumentType, u64),
    /// A chunk may begin, or the break.
    Chunks(ArgumentType),
    /// After the item.
    Done,
}

/// Completes an item.
#[inline(always)]
pub(crate) fn finish(position: &mut Position, container_stack: &mut ContainerStack)
    requires { position.old ≡ Position.Item }
    ensures state { state_of position.new container_stack.new ≡ automaton.close (frames_of container_stack.old) }
    ensures fewer { length container_stack.new ≤ length container_stack.old }
    ensures settled { IsSettled container_stack.new position.new }
{
    if container_stack.complete() {
        *position = Position::Done;
    }
}

/// Whether an item of this type is within the depth limit.
#[inline(always)]
#[tactic(auto, using(crate::proofs::Frames::length_frames))]
pub fn has_space(depth: usize, kind: ArgumentType, container_stack: &ContainerStack) -> bool
    ensures { result ≡ automaton.has_space depth (frames_of container_stack.now) (major_of kind) }
{
    match kind {
        ArgumentType::Array | ArgumentType::Map | ArgumentType::Tag => container_stack.len()
            < depth,
        ArgumentType::Unsigned
        | ArgumentType::Negative
        | ArgumentType::Bytes
        | ArgumentType::Text => true,
    }
}

/// Completes the head of an item.
#[inline(always)]
#[tactic(auto, using(crate::proofs::Frames::length_frames, crate::proofs::Frames::frames_push))]
pub(crate) fn enter(
    kind: ArgumentType,
    n: u64,
    depth: usize,
    position: &mut Position,
    container_stack: &mut ContainerStack,
)
    requires limit { depth ≤ MOST_OPEN }
    requires within { length container_stack.old ≤ depth }
    requires item { position.old ≡ Position.Item }
    requires space { automaton.has_space depth (frames_of container_stack.old) (major_of kind) ≡ true }
    ensures state { state_of position.new container_stack.new
        ≡ automaton.after false (major_of kind) n (frames_of container_stack.old) }
    ensures within { length container_stack.new ≤ depth }
    ensures settled { IsSettled container_stack.new position.new }
{
    match kind {
        ArgumentType::Unsigned | ArgumentType::Negative => finish(position, container_stack),
        ArgumentType::Bytes | ArgumentType::Text => {
            if n == 0 {
                finish(position, container_stack);
                return;
            }
            *position = Position::Payload(false, kind, n - 1);
        }
        ArgumentType::Array => {
            if n == 0 {
                finish(position, container_stack);
                return;
            }
            container_stack.push(Slot::Item, n - 1);
        }
        ArgumentType::Map => {
            if n == 0 {
                finish(position, container_stack);
                return;
            }
            container_stack.push(Slot::Key, n - 1);
        }
        ArgumentType::Tag => container_stack.push(Slot::Content, 0),
    }
}

/// Completes a string of definite length.
#[inline(always)]
pub(crate) fn finish_string(
    chunk: bool,
    kind: ArgumentType,
    position: &mut Position,
    container_stack: &mut ContainerStack,
)
    ensures state { state_of position.new container_stack.new
        ≡ automaton.close_string chunk (major_of kind) (frames_of container_stack.old) }
    ensures fewer { length container_stack.new ≤ length container_stack.old }
    ensures settled { IsSettled container_stack.new position.new }
{
    if chunk {
        *position = Position::Chunks(kind);
        return;
    }
    *position = Position::Item;
    finish(position, container_stack);
}

/// Where the next byte belongs after an item that was expected.
pub(crate) fn close(container_stack: &mut ContainerStack) -> Position
    ensures state { state_of result container_stack.new ≡ automaton.close (frames_of container_stack.old) }
    ensures fewer { length container_stack.new ≤ length container_stack.old }
    ensures settled { IsSettled container_stack.new result }
{
    let mut position = Position::Item;
    finish(&mut position, container_stack);
    position
}

/// Where the next byte belongs after the head of a chunk.
pub(crate) fn chunk_payload(
    kind: ArgumentType,
    n: u64,
    container_stack: &ContainerStack,
) -> Position
    ensures state { state_of result container_stack.now
        ≡ automaton.payload true (major_of kind) n (frames_of container_stack.now) }
    ensures settled { IsSettled container_stack.now result }
{
    if n == 0 {
        return Position::Chunks(kind);
    }
    Position::Payload(true, kind, n - 1)
}

/// Where the next byte belongs after a definite head.
#[inline(always)]
pub(crate) fn after(
    chunk: bool,
    kind: ArgumentType,
    n: u64,
    depth: usize,
    container_stack: &mut ContainerStack,
) -> Position
    requires limit { depth ≤ MOST_OPEN }
    requires within { length container_stack.old ≤ depth }
    requires space { chunk ≡ true
        ⊎ (automaton.has_space depth (frames_of container_stack.old) (major_of kind) ≡ true) }
    ensures state { state_of result container_stack.new
        ≡ automaton.after chunk (major_of kind) n (frames_of container_stack.old) }
    ensures within { length container_stack.new ≤ depth }
    ensures settled { IsSettled container_stack.new result }
{
    if chunk {
        return chunk_payload(kind, n, container_stack);
    }
    let mut position = Position::Item;
    enter(kind, n, depth, &mut position, container_stack);
    position
}
