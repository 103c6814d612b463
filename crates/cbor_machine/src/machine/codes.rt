//! The parts of a machine as the numbers of a saved machine, and back.

ghost use Rattle.std.specs.Prelude.{◌≡◌, ℕ, ◌≤◌, IfSome, length, take, drop};
ghost use Rattle.theory_automaton.specs.Reasons.{IsMachineReason};
ghost use Rattle.cbor_machine.specs.inner.Saved.{flag_at, frame_by, frames_by, kind_at, position_by, position_in};
ghost use Rattle.cbor_machine.specs.inner.Saved.{refusal_by, width_at};
ghost use Rattle.cbor_machine.specs.ContainerStack.{expected_frame};

use crate::container_stack::{ContainerStack, Slot};
use crate::frame::{Frame, MOST_OPEN};
use crate::machine::saved::SavedMachine;
use crate::opening::ArgumentType;
use crate::position::Position;
use cbor_head::{Reason, Refusal, Width};

// A position as numbers.
#[derive(Clone, Copy)]
pub(crate) struct Codes {
    pub(crate) position: u8,
    pub(crate) kind: u8,
    pub(crate) width: u8,
    pub(crate) left: u8,
    pub(crate) chunk: u8,
    pub(crate) number: u64,
}

pub(crate) fn codes_of(position: Position) -> Codes
    ensures { position_by (flag_at result.chunk) (kind_at result.kind) (width_at result.width)
        result.left result.number result.position ≡ position }
{
    let none = Codes {
        position: 0,
        kind: 0,
        width: 0,
        left: 0,
        chunk: 0,
        number: 0,
    };
    match position {
        Position::Item => none,
        Position::Head {
            chunk,
            kind,
            width,
            left,
            argument,
        } => Codes {
            position: 1,
            kind: kind_code(kind),
            width: width_code(width),
            left,
            chunk: flag_code(chunk),
            number: argument,
        },
        Position::SimpleNumber => Codes {
            position: 2,
            ..none
        },
        Position::Payload(chunk, kind, left) => Codes {
            position: 3,
            kind: kind_code(kind),
            chunk: flag_code(chunk),
            number: left,
            ..none
        },
        Position::Chunks(kind) => Codes {
            position: 4,
            kind: kind_code(kind),
            ..none
        },
        Position::Done => Codes {
            position: 5,
            ..none
        },
    }
}

fn flag_code(flag: bool) -> u8
    ensures { flag_at result ≡ flag }
{
    if flag { 1 } else { 0 }
}

fn kind_code(kind: ArgumentType) -> u8
    ensures { kind_at result ≡ kind }
{
    match kind {
        ArgumentType::Unsigned => 0,
        ArgumentType::Negative => 1,
        ArgumentType::Bytes => 2,
        ArgumentType::Text => 3,
        ArgumentType::Array => 4,
        ArgumentType::Map => 5,
        ArgumentType::Tag => 6,
    }
}

fn width_code(width: Width) -> u8
    ensures { width_at result ≡ width }
{
    match width {
        Width::Direct => 0,
        Width::One => 1,
        Width::Two => 2,
        Width::Four => 3,
        Width::Eight => 4,
        Width::Indefinite => 5,
    }
}

// The number of the reason and the offset; 0 if nothing was refused.
pub(crate) fn refusal_codes(refusal: Option<Refusal>) -> (u8, u64)
    ensures { (read : ℕ) → IfSome refusal (λ r. (r.read ≡ read) × IsMachineReason r.reason)
        → refusal_by result.1 read result.0 ≡ refusal }
{
    match refusal {
        None => (0, 0),
        Some(refusal) => (refusal.reason.number(), refusal.place),
    }
}

// Writes the open containers to the start of these arrays.
pub(crate) fn save_frames(container_stack: &ContainerStack, lefts: &mut [u64], kinds: &mut [u8])
    requires lefts { length container_stack.now ≤ length lefts.old }
    requires kinds { length container_stack.now ≤ length kinds.old }
    ensures held { frames_by (take (length container_stack.now) lefts.new) (take (length container_stack.now) kinds.new)
        ≡ container_stack.now }
    ensures lefts { drop (length container_stack.now) lefts.new ≡ drop (length container_stack.now) lefts.old }
    ensures kinds { drop (length container_stack.now) kinds.new ≡ drop (length container_stack.now) kinds.old }
{
    for i in 0..container_stack.len() {
        let (left, kind) = frame_codes(container_stack.frame(i));
        lefts[i] = left;
        kinds[i] = kind;
    }
}

// How many members or pairs are left of an open container, and its kind.
fn frame_codes(frame: Frame) -> (u64, u8)
    ensures { frame_by result.0 result.1 ≡ frame }
{
    match frame {
        Frame::Array(left) => (left, 0),
        Frame::IndefiniteArray => (0, 1),
        Frame::Map(left, false) => (left, 2),
        Frame::Map(left, true) => (left, 3),
        Frame::IndefiniteMap(false) => (0, 4),
        Frame::IndefiniteMap(true) => (0, 5),
        Frame::Tag => (0, 6),
    }
}

pub(crate) fn position_of(saved: &SavedMachine) -> Position
    ensures { result ≡ position_in saved.now }
{
    let chunk = flag_of(saved.chunk);
    let kind = kind_of(saved.kind);
    match saved.position {
        0 => Position::Item,
        1 => Position::Head {
            chunk,
            kind,
            width: width_of(saved.width),
            left: saved.left,
            argument: saved.number,
        },
        2 => Position::SimpleNumber,
        3 => Position::Payload(chunk, kind, saved.number),
        4 => Position::Chunks(kind),
        _ => Position::Done,
    }
}

fn flag_of(code: u8) -> bool
    ensures { result ≡ flag_at code }
{
    match code {
        1 => true,
        _ => false,
    }
}

fn kind_of(code: u8) -> ArgumentType
    ensures { result ≡ kind_at code }
{
    match code {
        0 => ArgumentType::Unsigned,
        1 => ArgumentType::Negative,
        2 => ArgumentType::Bytes,
        3 => ArgumentType::Text,
        4 => ArgumentType::Array,
        5 => ArgumentType::Map,
        _ => ArgumentType::Tag,
    }
}

fn width_of(code: u8) -> Width
    ensures { result ≡ width_at code }
{
    match code {
        0 => Width::Direct,
        1 => Width::One,
        2 => Width::Two,
        3 => Width::Four,
        4 => Width::Eight,
        _ => Width::Indefinite,
    }
}

pub(crate) fn refusal_at(code: u8, place: u64, read: u64) -> Option<Refusal>
    ensures is { result ≡ refusal_by place read code }
    ensures reason { IfSome result (λ r. (r.read ≡ read) × IsMachineReason r.reason) }
{
    let reason = match code {
        0 => return None,
        2 => Reason::TooLong,
        3 => Reason::Reserved,
        4 => Reason::NoIndefinite,
        5 => Reason::Float,
        6 => Reason::BadSimple,
        7 => Reason::StrayBreak,
        8 => Reason::BadChunk,
        _ => Reason::TooDeep,
    };
    Some(Refusal::new(reason, place, read))
}

// Replaces the open containers with these.
pub(crate) fn open_frames(container_stack: &mut ContainerStack, lefts: &[u64], kinds: &[u8])
    requires open { length lefts.now ≤ MOST_OPEN }
    requires same { length kinds.now ≡ length lefts.now }
    ensures frames { container_stack.new ≡ frames_by lefts.now kinds.now }
    ensures count { length container_stack.new ≡ length lefts.now }
{
    container_stack.clear();
    for i in 0..lefts.len() {
        container_stack.push(expected_of(kinds[i]), lefts[i]);
    }
}

fn expected_of(code: u8) -> Slot
    ensures { (left : ℕ) → expected_frame result left ≡ frame_by left code }
{
    match code {
        0 => Slot::Item,
        1 => Slot::IndefiniteItem,
        2 => Slot::Key,
        3 => Slot::Value,
        4 => Slot::IndefiniteKey,
        5 => Slot::IndefiniteValue,
        _ => Slot::Content,
    }
}
