//! The sentences about a reason.

ghost use Rattle.std.specs.Prelude.{◌≡◌};
ghost use Rattle.cbor_diag.specs.Sentences.{advice, meaning};

use cbor_head::Reason;

/// What a reason means, in a sentence.
pub(crate) fn meaning(reason: Reason) -> &'static str
    ensures { result.now ≡ meaning reason }
{
    match reason {
        Reason::Truncated => "The input ends within the item.",
        Reason::TooLong => "The item is longer than the byte limit.",
        Reason::Reserved => "No item begins with this byte: its low five bits are reserved.",
        Reason::NoIndefinite => "An integer or a tag cannot have an indefinite length.",
        Reason::Float => "A floating-point number begins here; floats are not accepted.",
        Reason::BadSimple => "A simple value below 32 must not be encoded in two bytes.",
        Reason::StrayBreak => "There is a break (ff) where an item must begin.",
        Reason::BadChunk =>
            "A chunk of a string must be a string of the same type and of definite length.",
        Reason::TooDeep => "An array, map or tag is nested deeper than the limit.",
        Reason::InvalidText => "From here on, a text string or a chunk of one is not UTF-8.",
        Reason::RepeatedKey => "This key equals an earlier key of its map.",
        Reason::Trailing => "The item is complete, and a byte follows it.",
        Reason::CanonicalTooLong => "The canonical bytes are longer than the byte limit.",
        Reason::NotShortest => "A number or a length is encoded in more bytes than necessary.",
        Reason::Indefinite => "An item has an indefinite length, which canonical bytes never have.",
        Reason::KeyOrder => "This key does not sort after the key before it.",
        Reason::Read => "The rest of the input could not be read.",
        Reason::Write => "The output accepted no more bytes.",
        Reason::Memory => "Out of memory.",
        Reason::KeyKind => "The key that begins here is neither an integer nor a text.",
    }
}

/// What to do about a refusal for this reason.
pub(crate) fn advice(reason: Reason) -> &'static str
    ensures { result.now ≡ advice reason }
{
    match reason {
        Reason::Truncated => "Check whether the input was cut off, or a length is too large.",
        Reason::TooLong | Reason::CanonicalTooLong =>
            "Raise the byte limit if such items are expected.",
        Reason::Reserved | Reason::NoIndefinite =>
            "The input may not be CBOR, or an earlier length may be wrong.",
        Reason::Float => "Encode it as an integer, as a text, or as a tag that contains integers.",
        Reason::BadSimple => "Encode 0 to 23 in one byte; the values 24 to 31 do not exist.",
        Reason::StrayBreak => "Check whether a length is wrong, or the value of a key is missing.",
        Reason::BadChunk => "End the string with a break (ff), or fix the type of the chunk.",
        Reason::TooDeep => "Raise the depth limit, which can be at most 1024.",
        Reason::InvalidText => "Encode the text in UTF-8, or encode its bytes as a byte string.",
        Reason::RepeatedKey => "Remove one of the two pairs.",
        Reason::Trailing => "Read several items as a sequence; decode hex text first.",
        Reason::NotShortest | Reason::Indefinite => "If the item is valid, canonicalise it.",
        Reason::KeyOrder =>
            "If the item is valid, canonicalising it sorts its keys. Or choose the other order.",
        Reason::Read | Reason::Write | Reason::Memory => "Try again.",
        Reason::KeyKind => "Encode the key as an integer or a text, or allow keys of any kind.",
    }
}
