//! The machine against the tables, and a caller of it.

ghost use Rattle.std.specs.Prelude.{◌≡◌, ◌≤◌, ◌<◌, length};
ghost use Rattle.cbor_machine.specs.Machine.{IsMore};
ghost use Rattle.cbor_machine.specs.Steps.{Goes};

mod parts;
mod reading;
mod rows;
mod saving;
mod tables;
mod text_check;

use self::rows::{Row, rows_of};
use self::saving::report_saved;
use self::tables::{ACCEPTED, NOT_VALID, PREFIXES, REFUSED};
use cbor_events::{Event, EventKind, Machine, Out, Step};
use cbor_head::{Limits, Reason, Refusal, Width};
use std::alloc::{AllocError, Global};
use std::process::Abort;

/// Gives all of these bytes to a machine, whatever events it reports. Returns the last result, with the number of bytes
/// used by all steps.
fn feed(machine: &mut Machine, input: &[u8]) -> Step
    ensures used { result.used ≤ length input.now }
    ensures more { IsMore result.out → Goes machine.old machine.new input.now }
{
    let mut at = 0;
    'all: loop {
        let step = machine.step(&input[at..]);
        at += step.used;
        match step.out {
            Out::Event(_) => {}
            out => return Step { used: at, out },
        }
    }
}

// The events, with neighbouring pieces joined, the last result, and the number of bytes consumed.
#[derive(Debug, Drop, PartialEq)]
struct Reported {
    events: Vec<Event>,
    out: Out,
    taken: u64,
}

fn join(events: &mut Vec<Event>, event: Event) -> Result<(), AllocError> {
    if let EventKind::Piece(more) = event.kind {
        if let Some(last) = events.last_mut() {
            if let EventKind::Piece(n) = last.kind {
                last.kind = EventKind::Piece(n.saturating_add(more));
                return Ok(());
            }
        }
    }
    events.push(event)?;
    Ok(())
}

// Gives the bytes in parts of at most `part` bytes.
fn report(alloc: Global, limits: Limits, bytes: &[u8], part: usize) -> Result<Reported, AllocError>
    requires { 0 < part }
{
    let mut machine = Machine::new(limits);
    let mut events = Vec::new(alloc);
    let mut at = 0;
    'parts: loop {
        let step = machine.step(&bytes[at..at + part.min(bytes.len() - at)]);
        at += step.used;
        match step.out {
            Out::Event(event) => join(&mut events, event)?,
            Out::More if at < bytes.len() => {}
            out => return Ok(Reported {
                events,
                out,
                taken: machine.taken(),
            }),
        }
    }
}

fn limits(rt: &impl Abort, depth: u16, bytes: u64) -> Limits {
    Limits::new(depth, bytes).expect(rt, "limits in range")
}

// Gives the row's bytes at once, one by one, and one by one to a machine that is saved in between. Each time the row's
// events and result are expected.
fn check_row(rt: &impl Abort, alloc: Global, row: &Row) -> Result<(), AllocError> {
    let whole = report(alloc, row.limits, &row.bytes, usize::MAX)?;
    assert!(rt; whole == row.reported, "{}", row.line);
    let single = report(alloc, row.limits, &row.bytes, 1)?;
    assert!(rt; single == row.reported, "cut: {}", row.line);
    let saved = report_saved(rt, alloc, row.limits, &row.bytes)?;
    assert!(rt; saved == row.reported, "saved: {}", row.line);
    Ok(())
}

fn step(used: usize, out: Out) -> Step {
    Step { used, out }
}

fn refusal(reason: Reason, place: u64, read: u64) -> Out {
    Out::Refused(Refusal {
        reason,
        place,
        read,
    })
}

fn event(place: u64, width: Width, kind: EventKind) -> Event {
    Event { place, width, kind }
}

#[test]
fn steps(rt: HostRuntime) {
    let limits = limits(&rt, 256, 1 << 20);
    let mut machine = Machine::new(limits);
    let more = Step {
        used: 1,
        out: Out::More,
    };
    assert!(rt; machine.step(&[0x19]) == more);
    assert!(rt; machine.step(&[0x03]) == more);
    let unsigned = event(0, Width::Two, EventKind::Unsigned(1000));
    assert!(rt; machine.step(&[0xe8]) == step(1, Out::Event(unsigned)));
    let done = Step {
        used: 0,
        out: Out::Done,
    };
    assert!(rt; machine.step(&[0x00]) == done);
    assert!(rt; machine.step(&[]) == done);
    assert!(rt; machine.taken() == 3);

    let mut machine = Machine::new(limits);
    let head = event(0, Width::Direct, EventKind::Bytes(Some(2)));
    assert!(rt; machine.step(&[0x42]) == step(1, Out::Event(head)));
    let piece = event(1, Width::Direct, EventKind::Piece(2));
    assert!(rt; machine.step(&[0x01, 0x02, 0x03]) == step(2, Out::Event(piece)));
    assert!(rt; machine.step(&[0x03]) == done);

    // [[1]]
    let mut machine = Machine::new(limits);
    for (byte, open) in [(0x81, 1), (0x81, 2), (0x01, 0)] {
        machine.step(&[byte]);
        assert!(rt; machine.open() == open);
    }
}

// A refusal is returned again, and nothing more is used. The byte limit is reported whatever follows.
#[test]
fn refusals_are_returned_again(rt: HostRuntime) {
    let mut machine = Machine::new(limits(&rt, 2, 4));
    assert!(rt; machine.step(&[0x81]).used == 1);
    let refused = step(1, refusal(Reason::StrayBreak, 1, 2));
    assert!(rt; machine.step(&[0xff, 0x00]) == refused);
    let again = step(0, refusal(Reason::StrayBreak, 1, 2));
    assert!(rt; machine.step(&[0x00]) == again);
    assert!(rt; machine.taken() == 2);

    // the limit is the first byte of [0]
    let mut machine = Machine::new(limits(&rt, 2, 1));
    let head = event(0, Width::Direct, EventKind::Array(Some(1)));
    assert!(rt; machine.step(&[0x81, 0x00]) == step(1, Out::Event(head)));
    let long = step(0, refusal(Reason::TooLong, 1, 1));
    assert!(rt; machine.step(&[]) == long);
    assert!(rt; machine.step(&[0x00]) == long);
}

#[test]
fn matches_the_tables(rt: HostRuntime) -> Result<(), AllocError> {
    for table in [ACCEPTED, NOT_VALID, REFUSED, PREFIXES] {
        for row in &rows_of(&rt, rt.alloc(), table)? {
            check_row(&rt, rt.alloc(), row)?;
        }
    }
    Ok(())
}

// `feed` uses all bytes, however they are cut.
#[test]
fn feeds(rt: HostRuntime) {
    // [1, [_ 2, 3], [4, 5]]
    let bytes = [0x83, 0x01, 0x9f, 0x02, 0x03, 0xff, 0x82, 0x04, 0x05];
    for cut in 0..9 {
        let mut machine = Machine::new(limits(&rt, 2, 9));
        assert!(rt; feed(&mut machine, &bytes[..cut]).used == cut);
        assert!(rt; feed(&mut machine, &bytes[cut..]) == step(9 - cut, Out::Done));
    }
}
