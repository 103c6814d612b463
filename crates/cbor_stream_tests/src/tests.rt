//! The strict machine: items of many levels, long keys, kinds of keys, short inputs, and calls after
//! the end.

use cbor_head::{Keys, Limits, Reason, Refusal};
use cbor_stream::{Event, EventKind, Out, Step, StrictMachine};
use cbor_strict::{KeyOrder, check_canonical};
use std::alloc::{AllocError, Global};
use std::test::Fail;

// What the machine reports, as the check of a slice does: Truncated for an item that is not complete.
pub(crate) fn outcome_of(step: Step, taken: u64) -> Option<Result<u64, Refusal>> {
    match step.out {
        Out::Done => Some(Ok(taken)),
        Out::More => Some(Err(Refusal::new(Reason::Truncated, taken, taken))),
        Out::Refused(refusal) => Some(Err(refusal)),
        Out::Event(_) => None,
    }
}

// Whether the result after a part is that for all bytes so far, and the end is that for all. Of a long
// input the parts are those near its ends, and one of 64.
pub(crate) fn is_alike(
    alloc: Global,
    input: &[u8],
    limits: Limits,
    order: KeyOrder,
    part: usize,
) -> bool {
    let mut machine = StrictMachine::new(alloc, limits, order);
    let all = input.len();
    let mut from = 0;
    for to in 1..=all {
        if part == 0 || from > to {
            return false;
        }
        if to % part != 0 && to != all {
            continue;
        }
        let step = machine.check(&input[from..to]);
        let is_tried = to <= 64 || to % 64 == 0 || all - to <= 4;
        if is_tried || step.out != Out::More {
            let wanted = check_canonical(&input[..to], limits, order);
            if outcome_of(step, machine.taken()) != Some(wanted) {
                return false;
            }
        }
        if step.out != Out::More {
            break;
        }
        if step.used != to - from {
            return false;
        }
        from = to;
    }
    machine.end() == check_canonical(input, limits, order)
}

// Maps within maps' keys: the innermost key is 00, and each value is 00.
fn keys_in_keys(alloc: Global, levels: usize) -> Result<Vec<u8>, AllocError> {
    let mut bytes = [0xa1].repeat(alloc, levels)?;
    for _ in 0..=levels {
        bytes.push(0x00)?;
    }
    Ok(bytes)
}

#[test]
fn takes_keys_of_many_levels(rt: HostRuntime) -> Result<(), Fail> {
    let limits = Limits::new(1024, 1 << 20).ok_or("limits")?;
    let bytes = keys_in_keys(rt.alloc(), 1024)?;
    for part in [1, 2, 3, 512, 1024, 4096] {
        assert!(rt; is_alike(rt.alloc(), &bytes, limits, KeyOrder::Bytewise, part));
    }
    let deeper = keys_in_keys(rt.alloc(), 1025)?;
    assert!(rt; is_alike(rt.alloc(), &deeper, limits, KeyOrder::Bytewise, 1));
    Ok(())
}

// A map of two texts of this head and length as keys, which differ in their last byte.
fn map_of(alloc: Global, head: &[u8], length: u32, last: [u8; 2]) -> Result<Vec<u8>, AllocError> {
    let mut bytes = vec![in alloc; 0xa2]?;
    for end in last {
        bytes.extend_from_slice(head)?;
        for _ in 1..length {
            bytes.push(b'k')?;
        }
        bytes.push(end)?;
        bytes.push(0x01)?;
    }
    Ok(bytes)
}

#[test]
fn compares_keys_longer_than_a_part(rt: HostRuntime) -> Result<(), Fail> {
    let limits = Limits::new(4, 1 << 20).ok_or("limits")?;
    for order in [KeyOrder::Bytewise, KeyOrder::LengthFirst] {
        for last in [[b'a', b'b'], [b'b', b'a'], [b'a', b'a']] {
            let bytes = map_of(rt.alloc(), b"\x79\x0b\xb8", 3000, last)?;
            for part in [7, 500, 3003, 6000] {
                assert!(rt; is_alike(rt.alloc(), &bytes, limits, order, part));
            }
        }
    }
    Ok(())
}

// Of each of these parts but the last one, only a refusal is compared: the check of all bytes so far,
// after each part, takes too long.
#[test]
fn compares_keys_of_a_mebibyte(rt: HostRuntime) -> Result<(), Fail> {
    let limits = Limits::new(1, 1 << 22).ok_or("limits")?;
    for last in [[b'a', b'b'], [b'b', b'a'], [b'a', b'a']] {
        let bytes = map_of(rt.alloc(), b"\x7a\x00\x10\x00\x00", 1 << 20, last)?;
        assert!(rt; is_alike(rt.alloc(), &bytes, limits, KeyOrder::Bytewise, 65_537));
    }
    Ok(())
}

#[test]
fn judges_kinds_of_keys_at_a_cut(rt: HostRuntime) -> Result<(), Fail> {
    let basic = Limits::new(4, 1 << 20)
        .ok_or("limits")?
        .with_keys(Keys::IntegersAndTexts);
    let rows: [&[u8]; 6] = [
        b"\xa1\xf8\x20\x00",
        b"\xa1\x19\x03\xe8\x00",
        b"\xa1\x98\x20",
        b"\xa2\x00\x01\x42ab\x00",
        b"\xa1\xff",
        b"\xa1\x79\x00\x01a\x00",
    ];
    for row in rows {
        for part in 1..=row.len() {
            assert!(rt; is_alike(rt.alloc(), row, basic, KeyOrder::Bytewise, part));
        }
    }
    Ok(())
}

// What begins a number, a long head, a string, a text, an array or a map; and bytes that are no text,
// and that no canonical item has.
static BYTES: [u8; 9] = [0x00, 0x01, 0x18, 0x41, 0x61, 0x80, 0xa1, 0xc3, 0xff];

// Whether each input of these bytes and three more has the same result, one byte a call.
fn are_alike(alloc: Global, first: &[u8], limits: Limits) -> Result<bool, AllocError> {
    for x in BYTES {
        for y in BYTES {
            for z in BYTES {
                let mut input = Vec::new(alloc);
                input.extend_from_slice(first)?;
                input.extend_from_slice(&[x, y, z])?;
                if !is_alike(alloc, &input, limits, KeyOrder::Bytewise, 1) {
                    return Ok(false);
                }
            }
        }
    }
    Ok(true)
}

#[test]
fn takes_short_inputs(rt: HostRuntime) -> Result<(), Fail> {
    let limits = Limits::new(2, 5).ok_or("limits")?;
    assert!(rt; are_alike(rt.alloc(), &[], limits)?);
    assert!(rt; are_alike(rt.alloc(), &[0xa1], limits)?);
    assert!(rt; are_alike(rt.alloc(), &[0xa2, 0x00, 0x00], limits)?);
    Ok(())
}

#[test]
fn takes_short_inputs_by_kinds(rt: HostRuntime) -> Result<(), Fail> {
    let limits = Limits::new(2, 5)
        .ok_or("limits")?
        .with_keys(Keys::IntegersAndTexts);
    assert!(rt; are_alike(rt.alloc(), &[0xa1], limits)?);
    assert!(rt; are_alike(rt.alloc(), &[0xa2, 0x00, 0x00], limits)?);
    Ok(())
}

fn more(used: usize) -> Step {
    Step {
        used,
        out: Out::More,
    }
}

fn done(used: usize) -> Step {
    Step {
        used,
        out: Out::Done,
    }
}

fn refused(used: usize, refusal: Refusal) -> Step {
    Step {
        used,
        out: Out::Refused(refusal),
    }
}

#[test]
fn says_the_same_again(rt: HostRuntime) -> Result<(), Fail> {
    let limits = Limits::new(4, 100).ok_or("limits")?;
    let mut machine = StrictMachine::new(rt.alloc(), limits, KeyOrder::Bytewise);
    // the keys 01 and 00 do not rise: at offset 3, and four bytes are read
    let refusal = Refusal::new(Reason::KeyOrder, 3, 4);
    assert_eq!(rt; machine.check(&[0xa2, 0x01, 0x00]), more(3));
    assert_eq!(rt; machine.check(&[]), more(0));
    assert_eq!(rt; machine.check(&[0x00, 0x00]), refused(1, refusal));
    assert_eq!(rt; machine.check(&[0x00]), refused(0, refusal));
    assert_eq!(rt; machine.end(), Err(refusal));
    assert_eq!(rt; (machine.spans(), machine.kept()), (0, 0));
    Ok(())
}

#[test]
fn goes_on_with_another_item(rt: HostRuntime) -> Result<(), Fail> {
    let limits = Limits::new(4, 100).ok_or("limits")?;
    let mut machine = StrictMachine::new(rt.alloc(), limits, KeyOrder::Bytewise);
    assert_eq!(rt; machine.check(&[0xff]).used, 1);
    machine.restart(KeyOrder::Bytewise);
    assert_eq!(rt; machine.end(), Err(Refusal::new(Reason::Truncated, 0, 0)));
    assert_eq!(rt; machine.check(&[0x19, 0x03]), more(2));
    assert_eq!(rt; machine.end(), Err(Refusal::new(Reason::Truncated, 2, 2)));
    assert_eq!(rt; machine.check(&[0xe8, 0x00]), done(1));
    assert_eq!(rt; machine.check(&[0x00]), done(0));
    assert_eq!(rt; machine.end(), Ok(3));
    Ok(())
}

#[test]
fn reports_events(rt: HostRuntime) -> Result<(), Fail> {
    let limits = Limits::new(4, 100).ok_or("limits")?;
    let mut machine = StrictMachine::new(rt.alloc(), limits, KeyOrder::Bytewise);
    let mut places = Vec::new(rt.alloc());
    // {"ab": 1000}, in two parts
    for part in [&b"\xa1\x62a"[..], b"b\x19", b"\x03\xe8"] {
        let mut at = 0;
        for _ in 0..10 {
            if at > part.len() {
                break;
            }
            let step = machine.step(&part[at..]);
            at += step.used;
            match step.out {
                Out::Event(Event { place, kind, .. }) => places.push((place, kind))?,
                _ => break,
            }
        }
    }
    let wanted = [
        (0, EventKind::Map(Some(1))),
        (1, EventKind::Text(Some(2))),
        (2, EventKind::Piece(1)),
        (3, EventKind::Piece(1)),
        (4, EventKind::Unsigned(1000)),
    ];
    assert_eq!(rt; places.as_slice(), wanted.as_slice());
    assert_eq!(rt; machine.step(&[]), done(0));
    Ok(())
}
