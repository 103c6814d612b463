//! The widths of a head.

ghost use Rattle.std.specs.Prelude.{◌≡◌, ◌↔◌, IsTrue};
ghost use Rattle.cbor_head.specs.Head.{shortest};

/// How a head encodes its argument, by its additional information (RFC 8949, section 3).
#[derive(Clone, Copy, Debug, PartialEq, Eq)]
pub enum Width {
    /// In the first byte itself: 0 to 23.
    Direct,
    /// In the next byte.
    One,
    /// In the next two bytes, most significant first, as the wider ones.
    Two,
    /// In the next four bytes.
    Four,
    /// In the next eight bytes.
    Eight,
    /// No argument: a string, array or map of indefinite length, or the break.
    Indefinite,
}

impl Width {
    /// The first width that has space for the argument.
    pub fn shortest(argument: u64) -> Width
        ensures { result ≡ shortest argument }
    {
        match argument {
            0..=23 => Width::Direct,
            24..=0xff => Width::One,
            0x100..=0xffff => Width::Two,
            0x1_0000..=0xffff_ffff => Width::Four,
            _ => Width::Eight,
        }
    }

    /// Whether no other width encodes the argument in fewer bytes (RFC 8949, section 4.2.1).
    pub fn is_shortest(self, argument: u64) -> bool
        ensures { IsTrue result ↔ (self ≡ shortest argument) }
    {
        self == Width::shortest(argument)
    }
}
