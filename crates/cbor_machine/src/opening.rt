//! What a first byte begins.

ghost use Rattle.std.specs.Prelude.{◌≡◌, ◌<◌, ◌/◌, false, nat_le};
ghost use Rattle.theory_automaton.specs.Automaton as automaton;
ghost use Rattle.cbor_machine.specs.State.{major_of, opened, IsOpeningDefinite};
ghost use Rattle.cbor_machine.specs.AtOnce.{IfLong, is_long, is_long_head};

use cbor_head::{Simple, Width};

/// The types of items whose argument may have any width: all but simple values.
#[derive(Clone, Copy)]
pub enum ArgumentType {
    Unsigned,
    Negative,
    Bytes,
    Text,
    Array,
    Map,
    Tag,
}

/// What a byte begins where an item or a chunk may begin.
#[derive(Clone, Copy)]
pub enum Opening {
    /// A head of one byte.
    Direct(ArgumentType, u8),
    /// A head with an argument after its first byte.
    Long(ArgumentType, Width),
    IndefiniteBytes,
    IndefiniteText,
    IndefiniteArray,
    IndefiniteMap,
    /// A simple value in one byte.
    Simple(Simple),
    /// `f8`, followed by the number of a simple value.
    LongSimple,
    Break,
    /// Nothing.
    Bad,
}

/// The type with this number, which is below 7: the high three bits of an initial byte.
pub(crate) fn numbered_at(high: u8) -> ArgumentType
    requires { high < 7 }
    ensures { major_of result ≡ automaton.major_at high }
{
    match high {
        0 => ArgumentType::Unsigned,
        1 => ArgumentType::Negative,
        2 => ArgumentType::Bytes,
        3 => ArgumentType::Text,
        4 => ArgumentType::Array,
        5 => ArgumentType::Map,
        _ => ArgumentType::Tag,
    }
}

fn indefinite_length(kind: ArgumentType) -> Opening
    ensures opens { opened result ≡ automaton.indefinite_length (major_of kind) }
    ensures definite { IsOpeningDefinite result }
    ensures long { is_long result ≡ false }
{
    match kind {
        ArgumentType::Bytes => Opening::IndefiniteBytes,
        ArgumentType::Text => Opening::IndefiniteText,
        ArgumentType::Array => Opening::IndefiniteArray,
        ArgumentType::Map => Opening::IndefiniteMap,
        ArgumentType::Unsigned | ArgumentType::Negative | ArgumentType::Tag => Opening::Bad,
    }
}

// `low` is the additional information less 24.
#[inline(always)]
fn numbered_tail(kind: ArgumentType, low: u8) -> Opening
    ensures opens { opened result ≡ automaton.numbered_tail (major_of kind) low }
    ensures definite { IsOpeningDefinite result }
    ensures long { is_long result ≡ nat_le low 3 }
    ensures kind { IfLong result (λ k. k ≡ kind) }
{
    match low {
        0 => Opening::Long(kind, Width::One),
        1 => Opening::Long(kind, Width::Two),
        2 => Opening::Long(kind, Width::Four),
        3 => Opening::Long(kind, Width::Eight),
        7 => indefinite_length(kind),
        _ => Opening::Bad,
    }
}

fn simple_tail(low: u8) -> Opening
    ensures opens { opened result ≡ automaton.simple_tail low }
    ensures definite { IsOpeningDefinite result }
    ensures long { is_long result ≡ false }
{
    match low {
        0 => Opening::LongSimple,
        7 => Opening::Break,
        _ => Opening::Bad,
    }
}

/// What a first byte begins.
#[inline(always)]
pub(crate) fn opening_of(c: u8) -> Opening
    ensures opens { opened result ≡ automaton.opening c }
    ensures definite { IsOpeningDefinite result }
    ensures long { is_long result ≡ is_long_head c }
    ensures kind { IfLong result (λ k. major_of k ≡ automaton.major_at (c / 32)) }
{
    let low = c % 32;
    if c >= 0xe0 {
        if low >= 24 {
            return simple_tail(low - 24);
        }
        match Simple::new(low) {
            Some(simple) => Opening::Simple(simple),
            None => Opening::Bad,
        }
    } else {
        let kind = numbered_at(c / 32);
        if low < 24 {
            Opening::Direct(kind, low)
        } else {
            numbered_tail(kind, low - 24)
        }
    }
}
