//! Keys of kinds that the limits do not allow.

ghost use Rattle.std.specs.Prelude.{◌≡◌, true, false};
ghost use Rattle.cbor_head.specs.declared.keys.Keys.TheVariants.{IntegersAndTexts};
ghost use Rattle.theory_verdicts.specs.PathKinds.{IsFitPrefix, IsOtherPrefix};

use crate::container::Expected;
use cbor_head::Keys;
use theory_values::is_other_kind;

/// Whether kinds of keys are judged, and a key is expected.
#[inline(always)]
pub(crate) fn is_asked(keys: Keys, expected: Expected) -> bool
    ensures both { result ≡ true → (keys ≡ IntegersAndTexts) × (expected ≡ Expected.Key) }
    ensures none { result ≡ false → keys ≡ IntegersAndTexts → expected ≡ Expected.Key → ⊥ }
{
    matches!(keys, Keys::IntegersAndTexts) && matches!(expected, Expected::Key)
}

/// Whether an item begins there that is neither an integer nor a text. A break is no key.
#[inline(always)]
pub(crate) fn begins_other_kind(rest: &[u8]) -> bool
    ensures fits { result ≡ false → IsFitPrefix rest.now }
    ensures other { result ≡ true → IsOtherPrefix rest.now }
    ensures unfit { result ≡ true → IsFitPrefix rest.now → ⊥ }
{
    match rest.first() {
        Some(first) => is_other_kind(*first),
        None => false,
    }
}

/// Whether kinds of keys are judged, a key is expected, and an item begins there that is neither an
/// integer nor a text.
#[inline(always)]
pub(crate) fn is_other_key(keys: Keys, expected: Expected, rest: &[u8]) -> bool
    ensures fits { result ≡ false → keys ≡ IntegersAndTexts → expected ≡ Expected.Key → IsFitPrefix rest.now }
    ensures other { result ≡ true → (keys ≡ IntegersAndTexts) × (expected ≡ Expected.Key) × IsOtherPrefix rest.now }
    ensures unfit { result ≡ true → IsFitPrefix rest.now → ⊥ }
{
    is_asked(keys, expected) && begins_other_kind(rest)
}
