//! What a call returns, as numbers.

ghost use Rattle.std.specs.Prelude.{◌≡◌, ◌≢◌, ◌⊎◌};
ghost use Rattle.cbor_head.specs.declared.reason.Reason.TheVariants as reasons;
ghost use Rattle.theory_verdicts.specs.Readers.{ReportsMemoryAtStart};
ghost use Rattle.naltvigo.specs.Reported.{IsReported, ReportsMemory};

use cbor_head::{Reason, Refusal};

/// The output is in the buffer, or the input is accepted, or two inputs mean the same.
pub const OK: u32 = 0;
/// The input is refused.
pub const REFUSED: u32 = 1;
/// The output has more bytes than the buffer.
pub const TOO_SMALL: u32 = 2;
/// Memory was refused.
pub const NO_MEMORY: u32 = 3;
/// No order has this number.
pub const BAD_ORDER: u32 = 4;
/// A limit is out of range, or no kinds of keys have this number.
pub const BAD_LIMITS: u32 = 5;
/// Two inputs do not mean the same.
pub const DIFFERENT: u32 = 6;
/// An event is reported.
pub const EVENT: u32 = 7;
/// All of the input was used, and no event is complete.
pub const MORE: u32 = 8;
/// The numbers hold no machine.
pub const BAD_MACHINE: u32 = 9;
/// No item begins there, or no pair of the map has the key.
pub const NOT_FOUND: u32 = 10;
/// The item is of another kind.
pub const WRONG_KIND: u32 = 11;
/// No head has this kind and this number.
pub const BAD_HEAD: u32 = 12;
/// A number does not fit its type.
pub const OUT_OF_RANGE: u32 = 13;

/// A refusal: the number of the reason, where, and how far the input was read.
#[repr(C)]
#[derive(Clone, Copy, Debug, PartialEq, Eq)]
pub struct NaltvigoRefusal {
    /// The number of the reason, 1 to 20.
    pub reason: u32,
    /// The offset in bytes of what is wrong.
    pub offset: u64,
    /// The number of bytes read.
    pub consumed: u64,
}

// The refusal as C has it.
pub(crate) fn reported(refusal: Refusal) -> NaltvigoRefusal
    ensures { IsReported refusal result }
{
    NaltvigoRefusal {
        reason: u32::from(refusal.reason.number()),
        offset: refusal.place,
        consumed: refusal.read,
    }
}

// Reports the refusal, and returns whether it is the input's or memory's.
pub(crate) fn report(refusal: Refusal, out: &mut NaltvigoRefusal) -> u32
    ensures reported { IsReported refusal out.new }
    ensures refused { result ≡ REFUSED → refusal.reason ≢ reasons.Memory }
    ensures memory { result ≡ NO_MEMORY → refusal.reason ≡ reasons.Memory }
    ensures no_memory { result ≡ NO_MEMORY → ReportsMemoryAtStart refusal → ReportsMemory 0 out.new }
    ensures statuses { (result ≡ REFUSED) ⊎ (result ≡ NO_MEMORY) }
{
    *out = reported(refusal);
    match refusal.reason {
        Reason::Memory => NO_MEMORY,
        _ => REFUSED,
    }
}
