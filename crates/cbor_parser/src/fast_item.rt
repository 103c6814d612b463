//! Fast recognition of short items and short heads at the start of a slice. If none is recognised,
//! nothing is claimed.

ghost use Rattle.std.specs.Prelude.{◌≡◌, ◌<◌, ◌≤◌, ◌-◌, ◌*◌, ◌/◌, ◌^◌, ◌∷◌, ℕ, List, IfSome};
ghost use Rattle.cbor_head.specs.declared.keys.Keys.TheVariants.{IntegersAndTexts};
ghost use Rattle.theory_verdicts.specs.PathKinds.{IsFitPrefix};
ghost use Rattle.cbor_parser.specs.inner.Leaves.{HasShortestHead};
ghost use Rattle.cbor_parser.specs.inner.Items.{IsShortPrefix, IsShortString, IsSaid};

use crate::container::Expected;
use crate::kinds::is_asked;
use cbor_head::{Keys, argument_bytes};
use cbor_text::is_text_prefix;

/// What the fast functions recognise.
#[derive(Clone, Copy)]
pub(crate) enum FastItem {
    /// An item of this number of bytes.
    Item(usize),
    /// The head of a container: what is expected in it, how many members or pairs follow the first,
    /// and the number of bytes of the head.
    Opens(Expected, u64, usize),
    /// Not recognised; nothing is claimed.
    Other,
}

/// Recognises a short item or head in its shortest form. If kinds of keys are judged and a key is
/// expected, a key that is neither an integer nor a text is not recognised.
#[inline(always)]
pub(crate) fn fast_item(first: u8, rest: &[u8], expected: &Expected, keys: Keys) -> FastItem
    requires { (following : List ℕ) × (rest.now ≡ first ∷ following) }
    ensures prefix { IsShortPrefix result rest.now }
    ensures fits { IsSaid result → keys ≡ IntegersAndTexts → expected.now ≡ Expected.Key → IsFitPrefix rest.now }
{
    match first / 32 {
        0 | 1 => match head_size(first, rest) {
            0 => FastItem::Other,
            size => FastItem::Item(size),
        },
        2 | 3 => string(first, rest, expected, keys),
        // Neither an integer nor a text.
        _ if is_asked(keys, *expected) => FastItem::Other,
        4 | 5 => container(first, rest),
        6 => match head_size(first, rest) {
            0 => FastItem::Other,
            size => FastItem::Opens(Expected::Item, 0, size),
        },
        // A simple value of one byte.
        _ if first < 0xf8 => FastItem::Item(1),
        _ => FastItem::Other,
    }
}

// The number of bytes of a head in its shortest form; 0 claims nothing.
#[inline(always)]
fn head_size(first: u8, rest: &[u8]) -> usize
    requires { (following : List ℕ) × (rest.now ≡ first ∷ following) }
    ensures { 0 < result → HasShortestHead first result rest.now }
{
    let low = first % 32;
    if low < 24 {
        return 1;
    }
    if low > 27 {
        return 0;
    }
    let following = &rest[1..];
    match following.first_chunk::<8>() {
        Some(chunk) => {
            if u64::from_be_bytes(*chunk) < least(low) {
                return 0;
            }
            1 + usize::from(argument_bytes(low))
        }
        // Fewer than eight bytes follow: only an argument of one byte is recognised.
        None if low == 24 && !following.is_empty() && following[0] >= 24 => 2,
        None => 0,
    }
}

// The eight bytes after the first, read as a number, are below this if the argument is not in its
// shortest form.
#[inline(always)]
fn least(low: u8) -> u64
    ensures one { low ≡ 24 → result ≡ 24 * 2 ^ 56 }
    ensures two { low ≡ 25 → result ≡ 2 ^ 56 }
    ensures four { low ≡ 26 → result ≡ 2 ^ 48 }
    ensures eight { low ≡ 27 → result ≡ 2 ^ 32 }
{
    match low {
        24 => 24 << 56,
        25 => 1 << 56,
        26 => 1 << 48,
        _ => 1 << 32,
    }
}

// A string of up to 255 bytes.
#[inline(always)]
fn string(first: u8, rest: &[u8], expected: &Expected, keys: Keys) -> FastItem
    requires prefix { (following : List ℕ) × (rest.now ≡ first ∷ following) }
    requires kind { (64 ≤ first) × (first < 128) }
    ensures prefix { IsShortPrefix result rest.now }
    ensures fits { IsSaid result → keys ≡ IntegersAndTexts → expected.now ≡ Expected.Key → IsFitPrefix rest.now }
{
    let Some((payload, end)) = short_string(first, rest) else {
        return FastItem::Other;
    };
    if first < 0x60 {
        if is_asked(keys, *expected) {
            return FastItem::Other;
        }
        return FastItem::Item(end);
    }
    if is_text_prefix(&rest[payload..], end - payload) {
        return FastItem::Item(end);
    }
    FastItem::Other
}

// Where the payload of a string of up to 255 bytes begins and ends, if it is complete.
#[inline(always)]
fn short_string(first: u8, rest: &[u8]) -> Option<(usize, usize)>
    requires { (following : List ℕ) × (rest.now ≡ first ∷ following) }
    ensures { IfSome result (λ r. IsShortString first rest.now r.0 r.1) }
{
    let low = first % 32;
    let (payload, end) = if low < 24 {
        (1, 1 + usize::from(low))
    } else if low == 24 && rest.len() > 1 && rest[1] >= 24 {
        (2, 2 + usize::from(rest[1]))
    } else {
        return None;
    };
    if end > rest.len() {
        return None;
    }
    Some((payload, end))
}

// An array or map of 1 to 23 members or pairs.
#[inline(always)]
fn container(first: u8, rest: &[u8]) -> FastItem
    requires prefix { (following : List ℕ) × (rest.now ≡ first ∷ following) }
    requires kind { (128 ≤ first) × (first < 192) }
    ensures { IsShortPrefix result rest.now }
{
    let low = first % 32;
    if low == 0 || low > 23 {
        return FastItem::Other;
    }
    let expected = if first < 0xa0 {
        Expected::Item
    } else {
        Expected::Key
    };
    FastItem::Opens(expected, u64::from(low) - 1, 1)
}
