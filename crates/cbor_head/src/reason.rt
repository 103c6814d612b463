//! Why bytes are refused, and where.

ghost use Rattle.std.specs.Prelude.{◌≡◌, Some};
ghost use Rattle.cbor_head.specs.Printed.{reason_name, refusal_text};

use std::error::Error;
use std::fmt;

/// Why an item is refused.
#[derive(Clone, Copy, Debug, PartialEq, Eq)]
pub enum Reason {
    /// The input ends within the item.
    Truncated = 1,
    /// The byte limit is reached within the item.
    TooLong = 2,
    /// Additional information 28 to 30 where an item may begin.
    Reserved = 3,
    /// Additional information 31 on an integer or a tag.
    NoIndefinite = 4,
    /// A floating-point number, which this codec does not support.
    Float = 5,
    /// A simple value below 32 in a second byte.
    BadSimple = 6,
    /// A break where an item must begin and nothing may end.
    StrayBreak = 7,
    /// In an indefinite-length string, neither a definite string of its type nor a break.
    BadChunk = 8,
    /// An array, map or tag beyond the depth limit.
    TooDeep = 9,
    /// A text, or a chunk of one, that is not UTF-8.
    InvalidText = 10,
    /// A key that is equal to an earlier key of its map.
    RepeatedKey = 11,
    /// A byte follows the item.
    Trailing = 12,
    /// The canonical bytes are longer than the byte limit.
    CanonicalTooLong = 13,
    /// A head that is not the shortest for its argument.
    NotShortest = 14,
    /// An item of indefinite length.
    Indefinite = 15,
    /// A key that does not come after the one before it.
    KeyOrder = 16,
    /// The reader returned an error.
    Read = 17,
    /// The writer returned an error, or accepted no bytes.
    Write = 18,
    /// Memory ran out.
    Memory = 19,
    /// A key of another kind than the limits allow.
    KeyKind = 20,
}

impl Reason {
    ghost use Rattle.cbor_head.specs.Reason.{reason_number};

    /// The number of the reason, 1 to 20.
    pub fn number(self) -> u8
        ensures { result ≡ reason_number self }
    {
        self as u8
    }
}

/// Writes the reason's name.
impl fmt::Display for Reason {
    ghost output = { λ r. Some (reason_name r) };

    fn fmt<W: fmt::Write>(&self, f: &mut fmt::Formatter<W>) -> fmt::Result {
        f.write_str(match self {
            Reason::Truncated => "Truncated",
            Reason::TooLong => "TooLong",
            Reason::Reserved => "Reserved",
            Reason::NoIndefinite => "NoIndefinite",
            Reason::Float => "Float",
            Reason::BadSimple => "BadSimple",
            Reason::StrayBreak => "StrayBreak",
            Reason::BadChunk => "BadChunk",
            Reason::TooDeep => "TooDeep",
            Reason::InvalidText => "InvalidText",
            Reason::RepeatedKey => "RepeatedKey",
            Reason::Trailing => "Trailing",
            Reason::CanonicalTooLong => "CanonicalTooLong",
            Reason::NotShortest => "NotShortest",
            Reason::Indefinite => "Indefinite",
            Reason::KeyOrder => "KeyOrder",
            Reason::Read => "Read",
            Reason::Write => "Write",
            Reason::Memory => "Memory",
            Reason::KeyKind => "KeyKind",
        })
    }
}

/// A refusal: why, where, and how many bytes were consumed.
#[derive(Clone, Copy, Debug, PartialEq, Eq)]
pub struct Refusal {
    /// Why the item is refused.
    pub reason: Reason,
    /// The offset of the fault, in bytes from the item's first byte.
    pub place: u64,
    /// The number of the item's bytes that were consumed.
    pub read: u64,
}

impl Refusal {
    ghost use Rattle.cbor_head.specs.Verdict.{refusal};

    /// The refusal with this reason, offset and number of bytes consumed.
    pub fn new(reason: Reason, place: u64, read: u64) -> Refusal
        ensures { result ≡ refusal reason place read }
    {
        Refusal {
            reason,
            place,
            read,
        }
    }

    /// The refusal with this reason at the first byte that was not consumed: `read` is
    /// `place` too.
    pub fn at(reason: Reason, place: u64) -> Refusal
        ensures { result ≡ refusal reason place place }
    {
        Refusal::new(reason, place, place)
    }

    /// The refusal of bytes that continue after an item with this number of bytes.
    pub fn trailing(size: u64) -> Refusal
        ensures { result ≡ refusal Reason.Trailing size size }
    {
        Refusal::at(Reason::Trailing, size)
    }
}

/// Writes the reason's number and name, and the offset: `12 Trailing at 1`.
impl fmt::Display for Refusal {
    ghost output = { λ r. Some (refusal_text r) };

    fn fmt<W: fmt::Write>(&self, f: &mut fmt::Formatter<W>) -> fmt::Result {
        write!(
            f,
            "{} {} at {}",
            self.reason.number(),
            self.reason,
            self.place
        )
    }
}

impl Error for Refusal {}
