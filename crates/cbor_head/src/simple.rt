//! Simple values.

ghost use Rattle.std.specs.Prelude.{◌≡◌, ◌↔◌, ℕ, IsTrue, IsSome, IfSome};
ghost use Rattle.cbor_head.specs.Head.{IsSimple};

use std::marker::Model;

/// The first simple value whose number is in a byte of its own (RFC 8949, section 3.3). Those up to
/// 23 are in the initial byte, and 24 to 31 do not exist.
pub const FIRST_SIMPLE_IN_TWO_BYTES: u64 = 32;

/// A simple value: a number from 0 to 23 or from 32 to 255 (RFC 8949, section 3.3).
#[derive(Clone, Copy, Debug, PartialEq, Eq)]
pub struct Simple {
    number: u8,
}

impl Model for Simple {
    ghost Value = { ℕ };

    ghost view = { λ s. s.number };

    ghost inverse = { λ n. record { number = n } };

    ghost invariant = { λ s. IsSimple s.number };
}

impl Simple {
    /// The simple value with this number; none for 24 to 31, which do not exist.
    pub fn new(number: u8) -> Option<Simple>
        ensures exists { IsSome result ↔ IsSimple number }
        ensures value { IfSome result (λ s. s ≡ number) }
    {
        if is_simple(u64::from(number)) {
            Some(Simple { number })
        } else {
            None
        }
    }

    /// The number of the value: 0 to 23, or 32 to 255.
    pub fn number(self) -> u8
        ensures number { result ≡ self }
        ensures simple { IsSimple result }
    {
        self.number
    }
}

/// Whether a simple value has this number.
#[inline(always)]
pub fn is_simple(number: u64) -> bool
    ensures { IsTrue result ↔ IsSimple number }
{
    number < 24 || (number >= FIRST_SIMPLE_IN_TWO_BYTES && number < 256)
}
