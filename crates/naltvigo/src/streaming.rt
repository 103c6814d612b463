//! The events of an item whose bytes come in parts.

ghost use Rattle.std.specs.Prelude.{◌≡◌, ◌≢◌, ◌⊎◌, ◌<◌, ◌≤◌, ◌+◌, drop, length, take, IfSome};
ghost use Rattle.cbor_machine.specs.Machine.{IsComplete};
ghost use Rattle.cbor_machine.specs.MachineView.{MachineView};
ghost use Rattle.cbor_machine.specs.Saved.{Holds, Starts};
ghost use Rattle.cbor_head.specs.Limits.{bounds, AreBounds};
ghost use Rattle.naltvigo.specs.Streaming.{IsReportedEvent, StaysSo, ReportsOn};
ghost use Rattle.naltvigo.specs.Streaming.{kind_number, number_of, width_number};
ghost use Rattle.naltvigo.specs.Reported.{IsReported};

use crate::settings::bounds_of;
use crate::status::{
    BAD_LIMITS, BAD_MACHINE, EVENT, MORE, NaltvigoRefusal, OK, REFUSED, reported as of_refusal,
};
use cbor_head::{Event, EventKind, Limits, Width};
use cbor_machine::{Machine, Out, SavedMachine};

/// The kind of a chunk's head; below it are the major types.
pub const CHUNK: u32 = 8;
/// The kind of a piece of a payload.
pub const PIECE: u32 = 9;
/// The kind of a break.
pub const BREAK: u32 = 10;
/// The width of what has no argument: an indefinite length, or a break.
pub const NO_ARGUMENT: u32 = 255;

/// An event.
#[repr(C)]
#[derive(Clone, Copy, Debug, PartialEq, Eq)]
pub struct NaltvigoEvent {
    /// The offset of its first byte.
    pub offset: u64,
    /// The argument or the count, or how many bytes a piece has; 0 where there is none.
    pub number: u64,
    /// The major type 0 to 7; 8 a chunk, 9 a piece of a payload, 10 a break.
    pub kind: u32,
    /// How many bytes the argument has; 255 for an indefinite length and a break.
    pub width: u32,
}

/// Makes `machine` one before an item's first byte. It allocates nothing.
#[unsafe(no_mangle)]
pub extern "C" fn naltvigo_machine_start_raw(
    depth: u32,
    bytes: u64,
    machine: &mut SavedMachine,
) -> u32
    ensures starts { result ≡ OK → Starts machine.new depth bytes }
    ensures bad_limits { result ≡ BAD_LIMITS → ¬ AreBounds (bounds depth bytes) }
    ensures in_range { result ≢ BAD_LIMITS → AreBounds (bounds depth bytes) }
    // OK, BAD_LIMITS
    ensures statuses { (result ≡ 0) ⊎ (result ≡ 5) }
    ensures kept { result ≢ OK → machine.new ≡ machine.old }
{
    match bounds_of(depth, bytes) {
        Some(limits) => {
            machine.start(limits);
            OK
        }
        None => BAD_LIMITS,
    }
}

/// Takes bytes from the prefix of `input` and reports their events, in the first of `events`, until
/// these are full, or a byte is refused, or none is left: `used` says how many bytes, and `reported` how
/// many events. Once the item is complete, or refused, it uses nothing and returns the same. It
/// allocates nothing.
#[unsafe(no_mangle)]
pub extern "C" fn naltvigo_machine_feed_raw(
    machine: &mut SavedMachine,
    input: &[u8],
    used: &mut usize,
    events: &mut [NaltvigoEvent],
    reported: &mut usize,
    refusal: &mut NaltvigoRefusal,
) -> u32
    ensures used { (used.new ≤ length input.now)
        × (machine.new.taken ≡ machine.old.taken + used.new) }
    // An event has at least one byte.
    ensures reported { (reported.new ≤ length events.new) × (reported.new ≤ used.new) }
    // The numbers hold the machine that did so, from a start or from the previous call.
    ensures streams { result ≢ BAD_MACHINE → (m : MachineView) → Holds machine.old m
        → (following : MachineView) × Holds machine.new following
        × ReportsOn m following (take used.new input.now) result (take reported.new events.new) refusal.new }
    ensures held { result ≢ BAD_MACHINE → (m : MachineView) × Holds machine.old m }
    ensures full { result ≡ EVENT → reported.new ≡ length events.new }
    ensures space { result ≢ EVENT → result ≢ BAD_MACHINE → reported.new < length events.new }
    ensures more { result ≡ MORE → (used.new ≡ length input.now)
        × (machine.new.taken < machine.new.bytes) }
    ensures refused { result ≡ REFUSED → (refusal.new.consumed ≡ machine.new.taken)
        × (2 ≤ refusal.new.reason) × (refusal.new.reason ≤ 9) }
    ensures stays { 0 < length events.old
        → StaysSo machine.old machine.new used.new result refusal.new }
    // OK, REFUSED, EVENT, MORE, BAD_MACHINE
    ensures statuses { (result ≡ 0) ⊎ (result ≡ 1) ⊎ (result ≡ 7) ⊎ (result ≡ 8) ⊎ (result ≡ 9) }
    ensures bad_machine { result ≡ BAD_MACHINE → (m : MachineView) → ¬ Holds machine.old m }
    ensures kept { result ≡ BAD_MACHINE → (machine.new ≡ machine.old)
        × (used.new ≡ 0) × (reported.new ≡ 0) }
    ensures unreported { drop reported.new events.new ≡ drop reported.new events.old }
    ensures unrefused { result ≢ REFUSED → refusal.new ≡ refusal.old }
{
    *used = 0;
    *reported = 0;
    let Some(limits) = Limits::new(machine.depth, machine.bytes) else {
        return BAD_MACHINE;
    };
    // In place: a machine has some 9 KiB, and no call copies one.
    let mut taking = Machine::new(limits);
    if !taking.resume(machine) {
        return BAD_MACHINE;
    }
    let taken = take_events(&mut taking, input, events, refusal);
    taking.save_into(machine);
    *used = taken.used;
    *reported = taken.reported;
    taken.status
}

// What came of a part.
#[derive(Clone, Copy)]
struct Taken {
    status: u32,
    // How many bytes of it were used.
    used: usize,
    // How many events were reported.
    reported: usize,
}

impl Taken {
    fn new(status: u32, used: usize, reported: usize) -> Taken
        ensures { result ≡ record { status = status; used = used; reported = reported } }
    {
        Taken {
            status,
            used,
            reported,
        }
    }
}

// Reads events with a resumed machine.
fn take_events(
    machine: &mut Machine,
    input: &[u8],
    events: &mut [NaltvigoEvent],
    refusal: &mut NaltvigoRefusal,
) -> Taken
    ensures used { (result.used ≤ length input.now)
        × (machine.new.taken ≡ machine.old.taken + result.used) }
    ensures reported { (result.reported ≤ length events.new) × (result.reported ≤ result.used) }
    ensures reports { ReportsOn machine.old machine.new (take result.used input.now) result.status
        (take result.reported events.new) refusal.new }
    ensures full { result.status ≡ EVENT → result.reported ≡ length events.new }
    ensures space { result.status ≢ EVENT → result.reported < length events.new }
    ensures more { result.status ≡ MORE → (result.used ≡ length input.now)
        × (machine.new.taken < machine.new.bytes) }
    ensures refused { result.status ≡ REFUSED → (refusal.new.consumed ≡ machine.new.taken)
        × (2 ≤ refusal.new.reason) × (refusal.new.reason ≤ 9) }
    ensures complete { 0 < length events.old → IsComplete machine.old
        → (result.status ≡ OK) × (result.used ≡ 0) × (machine.new ≡ machine.old) }
    ensures again { 0 < length events.old → IfSome machine.old.refusal
        (λ f. (result.status ≡ REFUSED) × IsReported f refusal.new
        × (result.used ≡ 0) × (machine.new ≡ machine.old)) }
    ensures unreported { drop result.reported events.new ≡ drop result.reported events.old }
    ensures unrefused { result.status ≢ REFUSED → refusal.new ≡ refusal.old }
    // OK, REFUSED, EVENT, MORE
    ensures statuses { (result.status ≡ 0) ⊎ (result.status ≡ 1) ⊎ (result.status ≡ 7)
        ⊎ (result.status ≡ 8) }
{
    let mut used = 0;
    let mut reported = 0;
    'events: while reported < events.len() {
        let step = machine.step(&input[used..]);
        used += step.used;
        match step.out {
            Out::Event(next) => {
                events[reported] = event_of(next);
                reported += 1;
            }
            Out::More => return Taken::new(MORE, used, reported),
            Out::Done => return Taken::new(OK, used, reported),
            Out::Refused(why) => {
                *refusal = of_refusal(why);
                return Taken::new(REFUSED, used, reported);
            }
        }
    }
    Taken::new(EVENT, used, reported)
}

// The event as C has it.
fn event_of(event: Event) -> NaltvigoEvent
    ensures { IsReportedEvent event result }
{
    let (kind, number) = numbers_of(event.kind);
    NaltvigoEvent {
        offset: event.place,
        number,
        kind,
        width: width_of(event.width),
    }
}

// The number of the kind, and its own.
fn numbers_of(kind: EventKind) -> (u32, u64)
    ensures { (result.0 ≡ kind_number kind) × (result.1 ≡ number_of kind) }
{
    match kind {
        EventKind::Unsigned(n) => (0, n),
        EventKind::Negative(n) => (1, n),
        EventKind::Bytes(n) => (2, n.unwrap_or(0)),
        EventKind::Text(n) => (3, n.unwrap_or(0)),
        EventKind::Array(n) => (4, n.unwrap_or(0)),
        EventKind::Map(n) => (5, n.unwrap_or(0)),
        EventKind::Tag(n) => (6, n),
        EventKind::Simple(simple) => (7, u64::from(simple.number())),
        EventKind::Chunk(n) => (CHUNK, n),
        EventKind::Piece(n) => (PIECE, n as u64),
        EventKind::End => (BREAK, 0),
    }
}

fn width_of(width: Width) -> u32
    ensures { result ≡ width_number width }
{
    match width {
        Width::Direct => 0,
        Width::One => 1,
        Width::Two => 2,
        Width::Four => 4,
        Width::Eight => 8,
        Width::Indefinite => NO_ARGUMENT,
    }
}
