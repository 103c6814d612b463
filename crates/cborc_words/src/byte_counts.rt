//! Parses numbers of bytes, as `1048576` or `1M`.

ghost use Rattle.std.specs.Prelude.{◌≡◌, unwrap_or};
ghost use Rattle.std.specs.Option.{SomeIff};
ghost use Rattle.cborc_words.specs.ByteCount.{byte_count, last_unit_size, unit_size, without_unit, IsByteCount};

// The greatest number of bytes.
const MOST: u64 = 1 << 62;

/// The number of bytes that an argument gives: digits, and then K, M, G or nothing.
pub fn byte_count(word: &str) -> Option<u64>
    ensures { SomeIff result (IsByteCount word.now) (byte_count word.now) }
{
    let (digits, size) = split_unit(word);
    let Ok(number) = digits.parse::<u64>() else {
        return None;
    };
    match number.checked_mul(size) {
        Some(count) if count <= MOST => Some(count),
        _ => None,
    }
}

// The argument without its unit, and the size of the unit, or 1 without a unit.
fn split_unit(word: &str) -> (&str, u64)
    ensures digits { result.0.now ≡ without_unit word.now }
    ensures size { result.1 ≡ unwrap_or (last_unit_size word.now) 1 }
{
    let Some(last) = word.as_bytes().last() else {
        return (word, 1);
    };
    match unit_size(*last) {
        Some(size) => (&word[..word.len() - 1], size),
        None => (word, 1),
    }
}

// The number of bytes of a unit.
fn unit_size(byte: u8) -> Option<u64>
    ensures { result ≡ unit_size byte }
{
    match byte {
        b'K' | b'k' => Some(1 << 10),
        b'M' | b'm' => Some(1 << 20),
        b'G' | b'g' => Some(1 << 30),
        _ => None,
    }
}
