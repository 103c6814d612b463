//! Results in a buffer of the caller's.

ghost use Rattle.std.specs.Prelude.{◌≡◌, ◌⊎◌, ◌<◌, ◌≤◌, length, take, drop};

use crate::status::{OK, TOO_SMALL};

// Writes the result to the start of the buffer, if it fits, and reports its length either way.
pub(crate) fn give(outcome: &[u8], out: &mut [u8], needed: &mut usize) -> u32
    ensures needed { needed.new ≡ length outcome.now }
    ensures status { (result ≡ OK) ⊎ (result ≡ TOO_SMALL) }
    ensures given { result ≡ OK → (take (length outcome.now) out.new ≡ outcome.now)
        × (length outcome.now ≤ length out.old) }
    ensures too_small { result ≡ TOO_SMALL → (length out.old < length outcome.now)
        × (out.new ≡ out.old) }
    ensures following { drop (length outcome.now) out.new ≡ drop (length outcome.now) out.old }
{
    let count = outcome.len();
    *needed = count;
    if count > out.len() {
        return TOO_SMALL;
    }
    out[..count].copy_from_slice(outcome);
    OK
}
