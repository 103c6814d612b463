//! The names of reasons, and the library's version.

ghost use Rattle.std.specs.Prelude.{◌≡◌, ◌≢◌, ◌⊎◌, ◌<◌, ◌≤◌, ◌+◌, ◌++◌, ◌∷◌, []};
ghost use Rattle.std.specs.Prelude.{None, IfSome, length, take, drop};
ghost use Rattle.cbor_head.specs.Reason.{reason_number};
ghost use Rattle.cbor_head.specs.Printed.{reason_name};
ghost use Rattle.cbor_head.specs.declared.reason.Reason.{Reason};

use cbor_head::Reason;

/// The library's version: a byte each for its three numbers.
pub const VERSION: u32 = 0x02_00_00;

/// The version, as in `NALTVIGO_VERSION_NUMBER` of this library's header.
#[unsafe(no_mangle)]
pub extern "C" fn naltvigo_version_raw() -> u32
    ensures { result ≡ 0x02_00_00 }
{
    VERSION
}

/// Writes the name of the reason of this number and a zero byte after it to the start of `out`, if
/// both fit, and returns the name's length. The name is empty for a number that is no
/// reason's.
#[unsafe(no_mangle)]
pub extern "C" fn naltvigo_reason_name_raw(number: u32, out: &mut [u8]) -> usize
    ensures named { result ≢ 0 → (r : Reason) × (number ≡ reason_number r)
        × (result ≡ length (reason_name r))
        × (result < length out.old → take (1 + result) out.new ≡ reason_name r ++ 0 ∷ []) }
    ensures unnamed { result ≡ 0 → ((number ≡ 0) ⊎ (20 < number))
        × (0 < length out.old → take 1 out.new ≡ 0 ∷ []) }
    ensures kept { (length out.old ≤ result → out.new ≡ out.old)
        × (drop (1 + result) out.new ≡ drop (1 + result) out.old) }
{
    match reason_numbered(number) {
        Some(reason) => write_name(name_of(reason), out),
        None => write_name(b"", out),
    }
}

// Writes the name and a zero byte after it, if both fit, and returns the name's length.
fn write_name(name: &[u8], out: &mut [u8]) -> usize
    ensures count { result ≡ length name.now }
    ensures written { result < length out.old → take (1 + result) out.new ≡ name.now ++ 0 ∷ [] }
    ensures kept { (length out.old ≤ result → out.new ≡ out.old)
        × (drop (1 + result) out.new ≡ drop (1 + result) out.old) }
{
    let count = name.len();
    if count < out.len() {
        out[..count].copy_from_slice(name);
        out[count] = 0;
    }
    count
}

// The reason of this number.
pub(crate) fn reason_numbered(number: u32) -> Option<Reason>
    ensures some { IfSome result (λ r. number ≡ reason_number r) }
    ensures none { result ≡ None → (number ≡ 0) ⊎ (20 < number) }
{
    Some(match number {
        1 => Reason::Truncated,
        2 => Reason::TooLong,
        3 => Reason::Reserved,
        4 => Reason::NoIndefinite,
        5 => Reason::Float,
        6 => Reason::BadSimple,
        7 => Reason::StrayBreak,
        8 => Reason::BadChunk,
        9 => Reason::TooDeep,
        10 => Reason::InvalidText,
        11 => Reason::RepeatedKey,
        12 => Reason::Trailing,
        13 => Reason::CanonicalTooLong,
        14 => Reason::NotShortest,
        15 => Reason::Indefinite,
        16 => Reason::KeyOrder,
        17 => Reason::Read,
        18 => Reason::Write,
        19 => Reason::Memory,
        20 => Reason::KeyKind,
        _ => return None,
    })
}

// Its name in ASCII.
fn name_of(reason: Reason) -> &'static [u8]
    ensures name { result.now ≡ reason_name reason }
    ensures some { 0 < length result.now }
{
    match reason {
        Reason::Truncated => b"Truncated",
        Reason::TooLong => b"TooLong",
        Reason::Reserved => b"Reserved",
        Reason::NoIndefinite => b"NoIndefinite",
        Reason::Float => b"Float",
        Reason::BadSimple => b"BadSimple",
        Reason::StrayBreak => b"StrayBreak",
        Reason::BadChunk => b"BadChunk",
        Reason::TooDeep => b"TooDeep",
        Reason::InvalidText => b"InvalidText",
        Reason::RepeatedKey => b"RepeatedKey",
        Reason::Trailing => b"Trailing",
        Reason::CanonicalTooLong => b"CanonicalTooLong",
        Reason::NotShortest => b"NotShortest",
        Reason::Indefinite => b"Indefinite",
        Reason::KeyOrder => b"KeyOrder",
        Reason::Read => b"Read",
        Reason::Write => b"Write",
        Reason::Memory => b"Memory",
        Reason::KeyKind => b"KeyKind",
    }
}
