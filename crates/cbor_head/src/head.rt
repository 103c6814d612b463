//! Heads.

ghost use Rattle.std.specs.Prelude.{◌≡◌, ◌%◌, ◌<◌, ◌≤◌, ◌⊎◌, ◌↔◌, ◌∷◌, length, ℕ, Some};
ghost use Rattle.std.specs.Prelude.{IsTrue, IfSome};
ghost use Rattle.cbor_head.specs.Head.{Holds, IsHead, IsSimple, HeadParts, head, head_parts, shortest};
ghost use Rattle.cbor_head.specs.declared.major.Major.{Major};
ghost use Rattle.cbor_head.specs.declared.major.Major.TheVariants.{Simple};
ghost use Rattle.cbor_head.specs.declared.width.Width.{Width};

use crate::{FIRST_SIMPLE_IN_TWO_BYTES, Major, Width, read_argument};
use arrayvec::ArrayVec;
use byteorder::{BigEndian, ByteOrder};
use std::marker::Model;

/// A definite head: a type, an argument, and a width that has space for it. A simple value has only
/// its shortest head (RFC 8949, section 3).
#[derive(Clone, Copy, Debug, PartialEq, Eq)]
pub struct Head {
    major: Major,
    width: Width,
    argument: u64,
}

impl Model for Head {
    ghost Value = { HeadParts };

    ghost view = { λ h. head_parts h.major h.width h.argument };

    ghost inverse = { λ h. record { major = h.major; width = h.width; argument = h.argument } };

    ghost invariant = { λ h. IsHead h.major h.width h.argument };
}

impl Head {
    /// The head, if the whole slice is one definite head (RFC 8949, section 3). Returns `None` for
    /// anything else: a part of a head, a head with bytes after it, a head of indefinite length, the
    /// break, additional information 28 to 30, a float, or a simple value below 32 in a second byte.
    pub fn read(bytes: &[u8]) -> Option<Head>
        // These are the bytes of the head that is returned.
        ensures found { IfSome result (λ h. bytes.now ≡ head h.major h.width h.argument) }
        // That is a head.
        ensures head { IfSome result (λ h. IsHead h.major h.width h.argument) }
        // The bytes of a head are read as that head.
        ensures each { (m : Major) (w : Width) (n : ℕ) → IsHead m w n
            → bytes.now ≡ head m w n → result ≡ Some (head_parts m w n) }
    {
        let (first, following) = bytes.split_first()?;
        let major = Major::of_number(*first / 32);
        let argument = read_argument(*first % 32, following)?;
        if argument.rest.is_empty() && is_head(major, argument.width, argument.number) {
            Some(Head {
                major,
                width: argument.width,
                argument: argument.number,
            })
        } else {
            None
        }
    }

    /// The head of fewest bytes. The argument of a simple value is its number.
    pub fn shortest(major: Major, argument: u64) -> Head
        requires { major ≡ Simple → IsSimple argument }
        ensures { result ≡ head_parts major (shortest argument) argument }
    {
        Head {
            major,
            width: Width::shortest(argument),
            argument,
        }
    }

    /// The bytes of the head, one to nine.
    pub fn bytes(&self) -> ArrayVec<u8, 9>
        ensures spelled { result.items ≡ head self.now.major self.now.width self.now.argument }
        ensures head { IsHead self.now.major self.now.width self.now.argument }
    {
        let first = 32 * self.major.number();
        let mut argument = [0; 8];
        BigEndian::write_u64(&mut argument, self.argument);
        match self.width {
            Width::Direct => joined(first + self.argument as u8, &[]),
            Width::One => joined(first + 24, &argument[7..]),
            Width::Two => joined(first + 25, &argument[6..]),
            Width::Four => joined(first + 26, &argument[4..]),
            Width::Eight => joined(first + 27, &argument),
            // No definite head has this width.
            Width::Indefinite => joined(first + 31, &[]),
        }
    }

    /// The type of the item.
    pub fn major(&self) -> Major
        ensures { result ≡ self.now.major }
    {
        self.major
    }

    /// How the argument is encoded.
    pub fn width(&self) -> Width
        ensures { result ≡ self.now.width }
    {
        self.width
    }

    /// The argument.
    pub fn argument(&self) -> u64
        ensures { result ≡ self.now.argument }
    {
        self.argument
    }
}

/// How many bytes of argument follow this first byte of an item: 1, 2, 4 or 8 for additional
/// information 24 to 27, else 0 (RFC 8949, section 3).
pub fn argument_bytes(first: u8) -> u8
    ensures one { first % 32 ≡ 24 → result ≡ 1 }
    ensures two { first % 32 ≡ 25 → result ≡ 2 }
    ensures four { first % 32 ≡ 26 → result ≡ 4 }
    ensures eight { first % 32 ≡ 27 → result ≡ 8 }
    ensures none { (first % 32 < 24) ⊎ (27 < first % 32) → result ≡ 0 }
{
    match first % 32 {
        24 => 1,
        25 => 2,
        26 => 4,
        27 => 8,
        _ => 0,
    }
}

// The first byte of a head, and the argument after it.
fn joined(first: u8, argument: &[u8]) -> ArrayVec<u8, 9>
    requires { length argument.now ≤ 8 }
    ensures { result.items ≡ first ∷ argument.now }
{
    let mut bytes = ArrayVec::new();
    bytes.push(first);
    // Nine bytes have space for all.
    let _ = bytes.try_extend_from_slice(argument);
    bytes
}

// Whether it is a definite head of an item: neither a float nor a simple value below 32 in a second
// byte.
fn is_head(major: Major, width: Width, argument: u64) -> bool
    requires { Holds width argument }
    ensures { IsTrue result ↔ IsHead major width argument }
{
    match (major, width) {
        (Major::Simple, Width::Direct) => true,
        (Major::Simple, Width::One) => argument >= FIRST_SIMPLE_IN_TWO_BYTES,
        (Major::Simple, _) => false,
        _ => true,
    }
}
