//! Arguments of the command line that cannot be read.

ghost use Rattle.std.specs.Prelude.{◌≡◌, ◌≢◌, ◌≤◌, ◌⊎◌, ℕ, length, IfOk, IfSome};
ghost use Rattle.std.specs.IoError.{error_kind};

use cborc_commands::Fault;
use std::alloc::{AllocError, Global};
use std::env::{Env, FillError};
use std::io::{self, ErrorKind};
use std::str;

// The initial space for an argument, in bytes.
const SPACE: usize = 4096;

/// The fault for this error of reading the arguments: one is not UTF-8, or out of memory. No
/// contract can say what the arguments are.
pub fn fault_of_words<'a, E: Env>(alloc: Global, env: &E, error: &io::Error) -> Fault<'a>
    ensures not_text { error_kind error.now ≡ ErrorKind.InvalidData
        → ((number : ℕ) × (result ≡ Fault.NotText number)) ⊎ (result ≡ Fault.Memory) }
    ensures memory { error_kind error.now ≢ ErrorKind.InvalidData → result ≡ Fault.Memory }
{
    match error.kind() {
        ErrorKind::InvalidData => match first_no_text(alloc, env) {
            Ok(number) => Fault::NotText(number),
            Err(_) => Fault::Memory,
        },
        _ => Fault::Memory,
    }
}

// The number of the first argument that is not UTF-8, or of the first that does not exist.
fn first_no_text<E: Env>(alloc: Global, env: &E) -> Result<usize, AllocError> {
    let mut scratch = vec![in alloc; 0u8; SPACE]?;
    for number in 0..usize::MAX {
        let is_text = match size_of_word(env, number, &mut scratch)? {
            Some(size) => str::from_utf8(&scratch.as_slice()[..size]).is_ok(),
            None => false,
        };
        if !is_text {
            return Ok(number);
        }
    }
    Ok(usize::MAX)
}

// Copies the argument with this number to `scratch`, which grows if necessary, and returns its size.
fn size_of_word<E: Env>(
    env: &E,
    number: usize,
    scratch: &mut Vec<u8>,
) -> Result<Option<usize>, AllocError>
    ensures { IfOk result (λ word. IfSome word (λ size. size ≤ length scratch.new.items)) }
{
    for _ in 0..usize::BITS {
        match env.arg(number, scratch.as_mut_slice()) {
            Ok(size) => return Ok(Some(size)),
            Err(FillError::NotPresent) => return Ok(None),
            Err(FillError::TooLong) => {
                let more = scratch.len().saturating_mul(2);
                scratch.resize(more, 0)?;
            }
        }
    }
    Ok(None)
}
