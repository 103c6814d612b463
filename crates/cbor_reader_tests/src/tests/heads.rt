//! Heads in the fewest bytes and in nine, and inputs that are made of them.

use std::alloc::{AllocError, Global};

// An input, and its canonical bytes in either order. The functions that fill them borrow both: if
// one owned them, the prover would require at each `?` that they may be dropped there.
#[derive(Drop)]
pub(super) struct Case {
    pub(super) input: Vec<u8>,
    pub(super) canonical: Vec<u8>,
}

impl Case {
    pub(super) fn empty(alloc: Global) -> Case {
        Case {
            input: Vec::new(alloc),
            canonical: Vec::new(alloc),
        }
    }
}

// A head of the type in the fewest bytes: 23, 255 and 65535 are the last numbers of each width.
pub(super) fn push_head(bytes: &mut Vec<u8>, major: u8, number: u32) -> Result<(), AllocError> {
    let [a, b, c, d] = number.to_be_bytes();
    match number {
        0..=23 => bytes.extend_from_slice(&[major | d]),
        24..=255 => bytes.extend_from_slice(&[major | 24, d]),
        256..=65535 => bytes.extend_from_slice(&[major | 25, c, d]),
        _ => bytes.extend_from_slice(&[major | 26, a, b, c, d]),
    }
}

// The head with an argument of eight bytes.
pub(super) fn push_wide_head(
    bytes: &mut Vec<u8>,
    major: u8,
    number: u32,
) -> Result<(), AllocError> {
    bytes.extend_from_slice(&[major | 27, 0, 0, 0, 0])?;
    bytes.extend_from_slice(&number.to_be_bytes())
}

pub(super) fn push_times(bytes: &mut Vec<u8>, byte: u8, times: u32) -> Result<(), AllocError> {
    for _ in 0..times {
        bytes.push(byte)?;
    }
    Ok(())
}

// A string of this number of bytes, or an array of this number of integers of one byte.
pub(super) fn push_string(
    bytes: &mut Vec<u8>,
    major: u8,
    byte: u8,
    size: u32,
) -> Result<(), AllocError> {
    push_head(bytes, major, size)?;
    push_times(bytes, byte, size)
}

fn push_wide_string(bytes: &mut Vec<u8>, major: u8, byte: u8, size: u32) -> Result<(), AllocError> {
    push_wide_head(bytes, major, size)?;
    push_times(bytes, byte, size)
}

// The item with a wide head.
pub(super) fn wide(alloc: Global, major: u8, byte: u8, size: u32) -> Result<Case, AllocError> {
    let mut case = Case::empty(alloc);
    push_wide_string(&mut case.input, major, byte, size)?;
    push_string(&mut case.canonical, major, byte, size)?;
    Ok(case)
}
