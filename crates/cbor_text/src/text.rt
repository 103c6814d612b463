//! Whether bytes are texts.

ghost use Rattle.std.specs.Prelude.{◌≡◌, ◌≤◌, ◌↔◌, length, take, true, IsUtf8, MatchResult, IfErr};
ghost use Rattle.std.specs.Str.Lossy.{utf8_valid_len};

use crate::ascii::is_short_ascii;

/// Checks that the bytes are UTF-8. The error is the length in bytes of their longest prefix that
/// is.
pub fn check_text(bytes: &[u8]) -> Result<(), usize>
    ensures checked { MatchResult result
        (λ _. IsUtf8 bytes.now)
        (λ valid. ¬ (IsUtf8 bytes.now) × (valid ≡ utf8_valid_len bytes.now)) }
    ensures within { IfErr result (λ valid. valid ≤ length bytes.now) }
{
    match simdutf8::compat::from_utf8(bytes) {
        Ok(_) => Ok(()),
        Err(error) => Err(error.valid_up_to()),
    }
}

/// Whether the given number of bytes at the start are UTF-8. Up to 32 bytes of ASCII are recognised
/// at once, fastest if the slice has 32 bytes.
#[inline(always)]
pub fn is_text_prefix(prefix: &[u8], count: usize) -> bool
    requires { count ≤ length prefix.now }
    ensures { (result ≡ true) ↔ IsUtf8 (take count prefix.now) }
{
    if is_short_ascii(prefix, count) {
        return true;
    }
    check_text(&prefix[..count]).is_ok()
}
