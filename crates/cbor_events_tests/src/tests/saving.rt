//! A machine that is saved and restored.

use super::{Reported, join, limits};
use cbor_events::{Machine, Out, SavedMachine};
use cbor_head::Limits;
use std::alloc::{AllocError, Global};
use std::process::Abort;

// Gives bytes one by one, each to a machine that was saved and restored.
pub(crate) fn report_saved(
    rt: &impl Abort,
    alloc: Global,
    limits: Limits,
    bytes: &[u8],
) -> Result<Reported, AllocError> {
    let mut saved = Machine::new(limits).save();
    let mut events = Vec::new(alloc);
    for byte in bytes {
        let mut machine = Machine::restore(&saved).expect(rt, "a machine");
        let step = machine.step(&[*byte]);
        saved = machine.save();
        match step.out {
            Out::Event(event) => join(&mut events, event)?,
            Out::More => {}
            out => {
                let taken = saved.taken;
                return Ok(Reported { events, out, taken });
            }
        }
    }
    let mut machine = Machine::restore(&saved).expect(rt, "a machine");
    let out = machine.step(&[]).out;
    let taken = machine.taken();
    Ok(Reported { events, out, taken })
}

// A machine before the item of an array of one item, with a depth limit of 2 and a byte limit
// of 8.
fn within_an_array(rt: &impl Abort) -> SavedMachine {
    let mut machine = Machine::new(limits(rt, 2, 8));
    machine.step(&[0x81]);
    machine.save()
}

#[test]
fn numbers_of_a_machine(rt: HostRuntime) {
    let saved = within_an_array(&rt);
    assert!(rt; (saved.depth, saved.bytes, saved.taken, saved.reported) == (2, 8, 1, 1));
    assert!(rt; (saved.open, saved.position, saved.reason) == (1, 0, 0));
    assert!(rt; (saved.lefts[0], saved.kinds[0]) == (0, 0));
    assert!(rt; Machine::restore(&saved).is_some());
    let mut other = Machine::new(limits(&rt, 1, 4));
    assert!(rt; other.resume(&saved) && other.save() == saved);
    let mut started = saved;
    started.start(limits(&rt, 1, 4));
    assert!(rt; started == Machine::new(limits(&rt, 1, 4)).save());
}

// Numbers that no machine has.
fn broken(mut saved: SavedMachine, way: u8) -> SavedMachine {
    if way > 5 {
        // within a head of nine bytes
        saved.position = 1;
        saved.width = 4;
    }
    match way {
        // more containers open than the depth limit
        0 => saved.open = 3,
        // more bytes consumed than the byte limit
        1 => {
            saved.taken = 9;
            saved.reported = 9;
        }
        // limits out of range
        2 => saved.depth = 1025,
        3 => saved.bytes = (1 << 62) + 1,
        // an open container after the item
        4 => saved.position = 5,
        // bytes that belong to no event
        5 => saved.reported = 0,
        // an argument of nine bytes
        6 => saved.left = 8,
        // an argument without space for the bytes that are left
        7 => {
            saved.left = 7;
            saved.number = 1;
        }
        // a container beyond the depth limit
        _ => {
            saved.open = 2;
            saved.kind = 4;
        }
    }
    saved
}

#[test]
fn numbers_of_no_machine(rt: HostRuntime) {
    let saved = within_an_array(&rt);
    for way in 0..9 {
        let broken = broken(saved, way);
        assert!(rt; Machine::restore(&broken).is_none(), "{broken:?}");
    }
}
