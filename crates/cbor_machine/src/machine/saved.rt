//! A machine as plain numbers, for callers that cannot store a machine.

ghost use Rattle.std.specs.Prelude.{◌≡◌, ◌↔◌, ◌*◌, ◌+◌, ◌^◌, ◌<◌, ◌≤◌, ◌-◌, IfSome, IsTrue, Some};
ghost use Rattle.std.specs.Prelude.{List, drop, false, length, true};
ghost use Rattle.cbor_machine.specs.MachineView.{MachineView};
ghost use Rattle.cbor_machine.specs.Saved.{AreZeros, Holds, Starts};
ghost use Rattle.cbor_machine.specs.State.{IsFit, IsSettled};
ghost use Rattle.cbor_machine.specs.declared.frame.Frame.{Frame};

use crate::frame::MOST_OPEN;
use crate::machine::Machine;
use crate::machine::codes::{
    codes_of, open_frames, position_of, refusal_at, refusal_codes, save_frames,
};
use crate::opening::ArgumentType;
use crate::position::Position;
use cbor_head::{Limits, Width};

/// A machine as plain numbers, in the layout of C.
///
/// `Machine::save` fills it, `Machine::restore` makes a machine from it, and `Machine::resume` sets a
/// machine to it. The owner may read it, and must not write to it. An open container takes nine bytes.
#[repr(C)]
#[derive(Clone, Copy, Debug, PartialEq, Eq)]
pub struct SavedMachine {
    /// The byte limit.
    pub bytes: u64,
    /// The number of bytes consumed.
    pub taken: u64,
    /// The number of those that belong to the events reported.
    pub reported: u64,
    /// For an open head, its argument so far; for an open payload, the number of bytes after the next
    /// one.
    pub number: u64,
    /// The offset of the fault.
    pub place: u64,
    /// The depth limit.
    pub depth: u16,
    /// The number of open containers.
    pub open: u16,
    /// 0 an item is expected, 1 within a head, 2 the number of a simple value is expected, 3 within
    /// a payload, 4 a chunk is expected; another number after the item.
    pub position: u8,
    /// The major type of the head, payload or string; from 6 on, a tag.
    pub kind: u8,
    /// The width of the open head's argument: 1, 2, 3 and 4 mean 1, 2, 4 and 8 bytes.
    pub width: u8,
    /// The number of bytes of the argument after the next one.
    pub left: u8,
    /// 1 if the head or payload is a chunk's, else 0.
    pub chunk: u8,
    /// The number of the reason if the item was refused, 2 to 9, else 0.
    pub reason: u8,
    /// For each open container, the outermost first, how many members or pairs follow the one that is
    /// expected.
    pub lefts: [u64; MOST_OPEN],
    /// The kind of each: 0 an array, 1 one of indefinite length; 2 a map, 3 one whose value is
    /// expected, 4 and 5 the same of indefinite length; another number a tag.
    pub kinds: [u8; MOST_OPEN],
}

// All zeros, so that one fill sets every byte, also those between two fields.
const ZEROS: SavedMachine = SavedMachine {
    bytes: 0,
    taken: 0,
    reported: 0,
    number: 0,
    place: 0,
    depth: 0,
    open: 0,
    position: 0,
    kind: 0,
    width: 0,
    left: 0,
    chunk: 0,
    reason: 0,
    lefts: [0; MOST_OPEN],
    kinds: [0; MOST_OPEN],
};

impl SavedMachine {
    /// Sets the numbers of a machine before an item's first byte, within these limits, with zeros in
    /// both arrays.
    pub fn start(&mut self, limits: Limits)
        ensures starts { Starts self.new limits.depth limits.bytes }
        ensures zeros { AreZeros self.new.lefts × AreZeros self.new.kinds }
    {
        *self = ZEROS;
        self.bytes = limits.bytes();
        self.depth = limits.depth();
    }
}

impl Machine {
    /// The machine as plain numbers, with zeros after the open containers.
    pub fn save(&self) -> SavedMachine
        ensures holds { Holds result self.now }
        ensures zeros { AreZeros (drop self.now.open_count result.lefts)
            × AreZeros (drop self.now.open_count result.kinds) }
    {
        let mut saved = ZEROS;
        self.save_into(&mut saved);
        saved
    }

    /// Saves the machine over an older saved machine. The entries after the open containers are
    /// unchanged.
    pub fn save_into(&self, saved: &mut SavedMachine)
        ensures holds { Holds saved.new self.now }
        ensures lefts { drop self.now.open_count saved.new.lefts
            ≡ drop self.now.open_count saved.old.lefts }
        ensures kinds { drop self.now.open_count saved.new.kinds
            ≡ drop self.now.open_count saved.old.kinds }
    {
        let codes = codes_of(self.position);
        let (reason, place) = refusal_codes(self.refusal);
        saved.bytes = self.limits.bytes();
        saved.taken = self.taken;
        saved.reported = self.reported;
        saved.number = codes.number;
        saved.place = place;
        saved.depth = self.limits.depth();
        saved.open = self.container_stack.len() as u16;
        saved.position = codes.position;
        saved.kind = codes.kind;
        saved.width = codes.width;
        saved.left = codes.left;
        saved.chunk = codes.chunk;
        saved.reason = reason;
        save_frames(&self.container_stack, &mut saved.lefts, &mut saved.kinds);
    }

    /// The machine that was saved in these numbers. `None` if no machine has these numbers.
    ///
    /// Numbers that were not saved by a machine may make a machine too. It is as safe as any other,
    /// and has its limits, but represents no bytes.
    pub fn restore(saved: &SavedMachine) -> Option<Machine>
        ensures held { (m : MachineView) → Holds saved.now m → result ≡ Some m }
        ensures restored { IfSome result (Holds saved.now) }
    {
        let mut machine = Machine::new(Limits::new(saved.depth, saved.bytes)?);
        if machine.resume(saved) {
            Some(machine)
        } else {
            None
        }
    }

    /// Sets this machine, whatever its state, to the one that `restore` makes of these numbers.
    /// Returns false and changes nothing if no machine has these numbers.
    pub fn resume(&mut self, saved: &SavedMachine) -> bool
        ensures held { (m : MachineView) → Holds saved.now m → (result ≡ true) × (self.new ≡ m) }
        ensures resumed { IsTrue result → Holds saved.now self.new }
        ensures kept { result ≡ false → self.new ≡ self.old }
    {
        let Some(limits) = Limits::new(saved.depth, saved.bytes) else {
            return false;
        };
        if saved.open > saved.depth || saved.taken > saved.bytes {
            return false;
        }
        let position = position_of(saved);
        if !is_fit(saved.depth, position, saved.open) {
            return false;
        }
        let refusal = refusal_at(saved.reason, saved.place, saved.taken);
        if refusal.is_none() && saved.reported != saved.taken && is_settled(position, saved.open) {
            return false;
        }
        self.limits = limits;
        self.taken = saved.taken;
        self.reported = saved.reported;
        self.position = position;
        self.refusal = refusal;
        let open = usize::from(saved.open);
        open_frames(
            &mut self.container_stack,
            &saved.lefts[..open],
            &saved.kinds[..open],
        );
        true
    }
}

// Whether the argument has space for the bytes that are left, and the depth limit for one more
// container. After the item nothing is open.
fn is_fit(depth: u16, position: Position, count: u16) -> bool
    ensures { (container_stack : List Frame) → length container_stack ≡ count
        → (IsTrue result ↔ IsFit depth container_stack position) }
{
    match position {
        Position::Head {
            width: Width::Indefinite,
            ..
        } => false,
        Position::Head {
            chunk,
            kind,
            left,
            argument,
            ..
        } => {
            let opens = matches!(
                kind,
                ArgumentType::Array | ArgumentType::Map | ArgumentType::Tag
            );
            has_bytes_left(argument, left) && (chunk || !opens || count < depth)
        }
        Position::Done => count == 0,
        _ => true,
    }
}

// Whether this argument so far has space for the next byte and `left` more.
fn has_bytes_left(argument: u64, left: u8) -> bool
    ensures { IsTrue result ↔ ((argument + 1) * 256 ^ (left + 1) ≤ 2 ^ 64) }
{
    match left {
        0 => argument < 1 << 56,
        1 => argument < 1 << 48,
        2 => argument < 1 << 40,
        3 => argument < 1 << 32,
        4 => argument < 1 << 24,
        5 => argument < 1 << 16,
        6 => argument < 1 << 8,
        7 => argument < 1,
        _ => false,
    }
}

// Whether no head is open, with this number of open containers.
fn is_settled(position: Position, count: u16) -> bool
    ensures { (container_stack : List Frame) → length container_stack ≡ count
        → (IsTrue result ↔ IsSettled container_stack position) }
{
    match position {
        Position::Head { .. } | Position::SimpleNumber => false,
        Position::Done => count == 0,
        _ => true,
    }
}
