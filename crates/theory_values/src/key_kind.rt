//! The kind of a key, by its first byte.

ghost use Rattle.std.specs.Prelude.{◌≡◌, ◌≢◌, ◌⊎◌, ◌/◌, true, false, IsTrue};
ghost use Rattle.theory_values.specs.FirstBytes.{is_basic};

/// Whether an item that begins with this byte is neither an integer nor a text. No item begins with a
/// break.
#[inline(always)]
pub fn is_other_kind(first: u8) -> bool
    ensures other { result ≡ true → ¬ IsTrue (is_basic (first / 32)) × (first ≢ 0xff) }
    ensures basic { result ≡ false → IsTrue (is_basic (first / 32)) ⊎ (first ≡ 0xff) }
{
    first != 0xff && !matches!(first / 32, 0 | 1 | 3)
}
