//! What is reported of an item, apart from numbers, widths and positions.

ghost use Rattle.std.specs.Prelude.{◌≡◌};
ghost use Rattle.cbor_machine.specs.Token.{kind_of};
ghost use Rattle.cbor_machine.specs.Whole.{IsNumberOf};

use cbor_head::{EventKind, Simple};

/// What is complete at the start of an item's rest: a definite head, or bytes of a payload. Its
/// number and its width are separate.
#[derive(Clone, Copy)]
pub(crate) enum Token {
    /// An unsigned integer.
    Unsigned,
    /// A negative integer, by its argument: n means -1 - n.
    Negative,
    /// The head of a byte string of this number of bytes.
    Bytes,
    /// The head of a text string of this number of bytes.
    Text,
    /// The head of an array of this number of items.
    Array,
    /// The head of a map of this number of pairs.
    Map,
    /// A tag number, whose content follows.
    Tag,
    /// A simple value.
    Simple,
    /// This number of bytes of a payload, at least one.
    Piece,
    /// The head of a chunk of this number of bytes.
    Chunk,
}

/// The event of this token, with this number.
#[inline(always)]
pub(crate) fn kind_by(token: Token, number: u64) -> EventKind
    requires { IsNumberOf token number }
    ensures { result ≡ kind_of token number }
{
    match token {
        Token::Unsigned => EventKind::Unsigned(number),
        Token::Negative => EventKind::Negative(number),
        Token::Bytes => EventKind::Bytes(Some(number)),
        Token::Text => EventKind::Text(Some(number)),
        Token::Array => EventKind::Array(Some(number)),
        Token::Map => EventKind::Map(Some(number)),
        Token::Tag => EventKind::Tag(number),
        Token::Simple => EventKind::Simple(Simple::new(number as u8).unwrap()),
        Token::Piece => EventKind::Piece(number as usize),
        Token::Chunk => EventKind::Chunk(number),
    }
}
