//! The major types.

ghost use Rattle.std.specs.Prelude.{◌≡◌, ◌≤◌, ◌<◌};
ghost use Rattle.cbor_head.specs.Head.{major_number};
ghost use Rattle.cbor_head.specs.Read.{major_of};

/// The major type of an item, in the high three bits of its first byte (RFC 8949, section 3.1).
#[derive(Clone, Copy, Debug, PartialEq, Eq)]
pub enum Major {
    /// An unsigned integer.
    Unsigned,
    /// A negative integer. The argument n means the integer -1 - n.
    Negative,
    /// A byte string.
    Bytes,
    /// A text string.
    Text,
    /// An array of items.
    Array,
    /// A map of pairs of items.
    Map,
    /// A tag number, with one content item.
    Tag,
    /// A simple value. Floats, of the same major type, are refused.
    Simple,
}

impl Major {
    /// The type with this number, 0 to 7: the high three bits of an initial byte. It returns `Simple`
    /// for a number above 7, which no type has.
    pub fn of_number(number: u8) -> Major
        ensures major { result ≡ major_of number }
        ensures number { number < 8 → major_number result ≡ number }
    {
        match number {
            0 => Major::Unsigned,
            1 => Major::Negative,
            2 => Major::Bytes,
            3 => Major::Text,
            4 => Major::Array,
            5 => Major::Map,
            6 => Major::Tag,
            _ => Major::Simple,
        }
    }

    /// The high three bits of an initial byte of this type, 0 to 7.
    pub fn number(self) -> u8
        ensures number { result ≡ major_number self }
        ensures few { result ≤ 7 }
    {
        self as u8
    }
}
