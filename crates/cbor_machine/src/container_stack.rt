//! The open containers, with the innermost one in a field of its own.

ghost use Rattle.std.specs.Prelude.{◌≡◌, ◌≤◌, ◌<◌, ◌++◌, ◌∷◌, [], length, false, None, Some, IfSome, slice_get};
ghost use Rattle.theory_automaton.specs.Automaton as automaton;
ghost use Rattle.cbor_machine.specs.State.{frame_of, frames_of, state_of, IsSettled};
ghost use Rattle.cbor_machine.specs.ContainerStack.{expected_frame, level_frame, joined, IsAdvanced, IsEnded};
ghost use Rattle.cbor_machine.specs.ContainerStack.{IsStrayBreak, ends_by_break, position_after};

use crate::frame::{Frame, MOST_OPEN};
use std::marker::Model;

// The open containers and the input itself.
const LEVELS: usize = MOST_OPEN + 1;

// The input, with one item expected.
const ROOT: Level = Level {
    expected: Slot::Content,
    left: 0,
};

/// What is expected in a container.
#[derive(Clone, Copy)]
pub enum Slot {
    /// A member of an array.
    Item,
    /// The content of a tag.
    Content,
    /// A key of a map.
    Key,
    /// A value of a map.
    Value,
    /// A member, key or value of a container of indefinite length.
    IndefiniteItem,
    IndefiniteKey,
    IndefiniteValue,
}

/// An open container: what is expected, and how many members or pairs follow that one.
#[derive(Clone, Copy)]
pub struct Level {
    expected: Slot,
    left: u64,
}

/// The open containers. The first level is the input itself, with one item expected.
#[derive(Drop)]
pub struct ContainerStack {
    // The levels around the innermost, in nine bytes each.
    slots: [Slot; LEVELS],
    lefts: [u64; LEVELS],
    height: usize,
    top: Level,
}

impl Model for ContainerStack {
    ghost use Rattle.std.specs.Prelude.{List, ◌≤◌, ◌∷◌, ◌≡◌};
    ghost use Rattle.cbor_machine.specs.declared.frame.Frame.{Frame};

    ghost Value = { List Frame };

    ghost use Rattle.cbor_machine.specs.ContainerStack.{joined, nested, IsContainerStack};

    ghost view = { λ n. nested (joined n.slots n.lefts) n.height n.top };

    ghost invariant = { λ n. IsContainerStack n.slots n.lefts n.height n.top };
}

impl Level {
    fn frame(self) -> Frame
        ensures { result ≡ level_frame self }
    {
        match self.expected {
            Slot::Item => Frame::Array(self.left),
            Slot::Content => Frame::Tag,
            Slot::Key => Frame::Map(self.left, false),
            Slot::Value => Frame::Map(self.left, true),
            Slot::IndefiniteItem => Frame::IndefiniteArray,
            Slot::IndefiniteKey => Frame::IndefiniteMap(false),
            Slot::IndefiniteValue => Frame::IndefiniteMap(true),
        }
    }
}

// Completes a member of a container. Returns whether another is expected.
#[inline(always)]
fn advance(top: &mut Level) -> bool
    ensures moved { IsAdvanced result
        (frame_of (level_frame top.old)) (frame_of (level_frame top.new)) }
    ensures root { level_frame top.old ≡ Frame.Tag → result ≡ false }
    ensures full { result ≡ false → top.new ≡ top.old }
{
    match top.expected {
        Slot::Item => {
            if top.left == 0 {
                return false;
            }
            top.left -= 1;
            true
        }
        Slot::Content => false,
        Slot::Key => {
            top.expected = Slot::Value;
            true
        }
        Slot::Value => {
            if top.left == 0 {
                return false;
            }
            top.left -= 1;
            top.expected = Slot::Key;
            true
        }
        Slot::IndefiniteItem => true,
        Slot::IndefiniteKey => {
            top.expected = Slot::IndefiniteValue;
            true
        }
        Slot::IndefiniteValue => {
            top.expected = Slot::IndefiniteKey;
            true
        }
    }
}

// Whether a break may come here.
fn is_open(level: Level) -> bool
    ensures { result ≡ ends_by_break (frame_of (level_frame level)) }
{
    matches!(level.expected, Slot::IndefiniteItem | Slot::IndefiniteKey)
}

#[inline(always)]
fn level_at(slots: &[Slot], lefts: &[u64], place: usize) -> Level
    requires slots { place < length slots.now }
    requires lefts { place < length lefts.now }
    ensures { slice_get (joined slots.now lefts.now) place ≡ Some result }
{
    Level {
        expected: slots[place],
        left: lefts[place],
    }
}

impl ContainerStack {
    /// A stack with no open container.
    pub fn new() -> ContainerStack
        ensures { result ≡ [] }
    {
        // All bytes of both arrays are zero, which is fastest to fill in.
        ContainerStack {
            slots: [Slot::Item; LEVELS],
            lefts: [0; LEVELS],
            height: 0,
            top: ROOT,
        }
    }

    /// Closes all containers. The arrays keep their contents, which are not read again.
    pub fn clear(&mut self)
        ensures { self.new ≡ [] }
    {
        self.height = 0;
        self.top = ROOT;
    }

    /// How many are open.
    #[inline(always)]
    pub fn len(&self) -> usize
        ensures { result ≡ length self.now }
    {
        self.height
    }

    /// The open container around which this number of others is open.
    pub fn frame(&self, place: usize) -> Frame
        requires { place < length self.now }
        ensures { slice_get self.now place ≡ Some result }
    {
        if self.len() > place + 1 {
            level_at(&self.slots, &self.lefts, place + 1).frame()
        } else {
            self.top.frame()
        }
    }

    /// Opens a container.
    #[inline(always)]
    pub fn push(&mut self, expected: Slot, left: u64)
        requires { length self.old < MOST_OPEN }
        ensures { self.new ≡ self.old ++ expected_frame expected left ∷ [] }
    {
        self.slots[self.height] = self.top.expected;
        self.lefts[self.height] = self.top.left;
        self.height += 1;
        self.top = Level { expected, left };
    }

    /// Completes an item, and the containers whose last member it is. Returns whether nothing more
    /// is expected.
    #[inline(always)]
    pub fn complete(&mut self) -> bool
        ensures state { state_of (position_after result) self.new
            ≡ automaton.close (frames_of self.old) }
        ensures fewer { length self.new ≤ length self.old }
        ensures settled { IsSettled self.new (position_after result) }
    {
        'levels: loop {
            if advance(&mut self.top) {
                return false;
            }
            if self.height == 0 {
                return true;
            }
            self.height -= 1;
            self.top = level_at(&self.slots, &self.lefts, self.height);
        }
    }

    /// Ends the innermost container by a break, and returns whether nothing more is expected then.
    /// Returns `None`, and changes nothing, if it has a definite length or a value is expected in
    /// it.
    pub fn end(&mut self) -> Option<bool>
        ensures ends { IfSome result (λ done. IsEnded self.old (position_after done) self.new) }
        ensures fewer { length self.new ≤ length self.old }
        ensures settled { IfSome result (λ done. IsSettled self.new (position_after done)) }
        ensures none { result ≡ None → self.new ≡ self.old }
        ensures stray_break { result ≡ None → IsStrayBreak self.old }
    {
        if self.height == 0 || !is_open(self.top) {
            return None;
        }
        self.height -= 1;
        self.top = level_at(&self.slots, &self.lefts, self.height);
        Some(self.complete())
    }
}
