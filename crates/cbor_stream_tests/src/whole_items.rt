//! Items that the strict machine consumes at once: members and values, wherever they are cut.

ghost use Rattle.std.specs.Prelude.{◌<◌};

use crate::tests::{is_alike, outcome_of};
use cbor_head::{Keys, Limits};
use cbor_stream::{Out, StrictMachine};
use cbor_strict::{KeyOrder, check_canonical};
use std::alloc::{AllocError, Global};
use std::test::Fail;

// [1, "ab", h'0102', {1: 1000, "k": [[], 2]}, 3([0, "c"]), 24, true], 26 bytes.
static MEMBER: &[u8] =
    b"\x87\x01\x62ab\x42\x01\x02\xa2\x01\x19\x03\xe8\x61k\x82\x80\x02\xc3\x82\x00\x61c\x18\x18\xf5";

// Arrays, maps and tags in one another.
static NESTED: &[u8] =
    b"\x83\xa2\x01\x82\x00\xa1\x61a\x00\x02\xc1\xc2\x81\x81\x18\x64\x82\xa1\x81\x00\x61b\xa2\x00\x01\x01\x80\xf6";

// The next of some numbers without a pattern.
fn next(seed: u32) -> u32 {
    seed.wrapping_mul(1_664_525).wrapping_add(1_013_904_223)
}

// Whether the result is that of a slice, for the input cut into parts of at most this length, each another.
fn is_alike_cut(alloc: Global, input: &[u8], limits: Limits, most: u32, seed: u32) -> bool {
    let mut machine = StrictMachine::new(alloc, limits, KeyOrder::Bytewise);
    let mut seed = seed;
    let mut from = 0;
    for _ in 0..=input.len() {
        if from >= input.len() || most == 0 {
            break;
        }
        seed = next(seed);
        let length = ((seed / 65_536) % most) as usize + 1;
        let to = input.len().min(from + length);
        let step = machine.check(&input[from..to]);
        let wanted = check_canonical(&input[..to], limits, KeyOrder::Bytewise);
        if outcome_of(step, machine.taken()) != Some(wanted) {
            return false;
        }
        if step.out != Out::More {
            break;
        }
        from = to;
    }
    machine.end() == check_canonical(input, limits, KeyOrder::Bytewise)
}

// The shortest head of this type and number.
fn head(alloc: Global, major: u8, number: u16) -> Result<Vec<u8>, AllocError>
    requires { major < 8 }
{
    let mut bytes = Vec::new(alloc);
    if number < 24 {
        bytes.push(32 * major + number as u8)?;
    } else if number < 256 {
        bytes.extend_from_slice(&[32 * major + 24, number as u8])?;
    } else {
        bytes.push(32 * major + 25)?;
        bytes.extend_from_slice(&number.to_be_bytes())?;
    }
    Ok(bytes)
}

// An array of this number of members.
fn array_of(alloc: Global, count: u16, member: &[u8]) -> Result<Vec<u8>, AllocError> {
    let mut bytes = head(alloc, 4, count)?;
    for _ in 0..count {
        bytes.extend_from_slice(member)?;
    }
    Ok(bytes)
}

// A map of this number of pairs, whose keys are numbers.
fn map_of(alloc: Global, count: u16, value: &[u8]) -> Result<Vec<u8>, AllocError> {
    let mut bytes = head(alloc, 5, count)?;
    for key in 0..count {
        bytes.extend_from_slice(&head(alloc, 0, key)?)?;
        bytes.extend_from_slice(value)?;
    }
    Ok(bytes)
}

#[test]
fn takes_many_members_cut_anywhere(rt: HostRuntime) -> Result<(), Fail> {
    let limits = Limits::new(16, 1 << 20).ok_or("limits")?;
    for (count, most) in [(30, 3), (60, 40), (300, 700), (600, 5000)] {
        let array = array_of(rt.alloc(), count, MEMBER)?;
        let map = map_of(rt.alloc(), count, MEMBER)?;
        for seed in 0..2 {
            assert!(rt; is_alike_cut(rt.alloc(), &array, limits, most, seed));
            assert!(rt; is_alike_cut(rt.alloc(), &map, limits, most, seed));
        }
    }
    Ok(())
}

#[test]
fn takes_members_longer_than_a_part(rt: HostRuntime) -> Result<(), Fail> {
    let limits = Limits::new(16, 1 << 20).ok_or("limits")?;
    let member = array_of(rt.alloc(), 20, MEMBER)?;
    let bytes = array_of(rt.alloc(), 6, &member)?;
    for part in [1, 64, 500, 640, 4096, 10_000] {
        assert!(rt; is_alike(rt.alloc(), &bytes, limits, KeyOrder::Bytewise, part));
    }
    Ok(())
}

#[test]
fn refuses_within_a_member(rt: HostRuntime) -> Result<(), Fail> {
    let basic = Limits::new(16, 1 << 20)
        .ok_or("limits")?
        .with_keys(Keys::IntegersAndTexts);
    let any = basic.with_keys(Keys::Any);
    for fault in [0xff, 0x18, 0x9f, 0x61, 0xa2, 0x00, 0x7b] {
        for at in 0..26 {
            let mut bytes = array_of(rt.alloc(), 9, MEMBER)?;
            // in the second member
            *bytes.get_mut(1 + MEMBER.len() + at).ok_or("a byte")? = fault;
            for part in [1, 20, 50, 300] {
                assert!(rt; is_alike(rt.alloc(), &bytes, any, KeyOrder::Bytewise, part));
            }
            assert!(rt; is_alike(rt.alloc(), &bytes, basic, KeyOrder::LengthFirst, 300));
        }
    }
    Ok(())
}

#[test]
fn reaches_limits_within_a_member(rt: HostRuntime) -> Result<(), Fail> {
    let bytes = array_of(rt.alloc(), 3, NESTED)?;
    for depth in 0..8 {
        for keys in [Keys::Any, Keys::IntegersAndTexts] {
            let limits = Limits::new(depth, 1 << 20).ok_or("limits")?.with_keys(keys);
            for part in [1, 10, 200] {
                assert!(rt; is_alike(rt.alloc(), &bytes, limits, KeyOrder::Bytewise, part));
            }
        }
    }
    for most in 0..=bytes.len() {
        let limits = Limits::new(16, most as u64).ok_or("limits")?;
        for part in [7, 200] {
            assert!(rt; is_alike(rt.alloc(), &bytes, limits, KeyOrder::Bytewise, part));
        }
    }
    Ok(())
}
