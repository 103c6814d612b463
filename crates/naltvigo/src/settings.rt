//! Orders, kinds of keys and limits, as numbers.

ghost use Rattle.std.specs.Prelude.{◌≡◌, ◌<◌, ◌≤◌, IfSome, None};
ghost use Rattle.cbor_head.specs.Limits.{bounds, AreBounds};
ghost use Rattle.naltvigo.specs.Settings.{key_order, key_kinds, item_limits, AreLimits};

use cbor_head::{KeyOrder, Keys, Limits, MAX_DEPTH};

// The order of this number.
pub(crate) fn order_numbered(number: u32) -> Option<KeyOrder>
    ensures value { IfSome result (λ o. (o ≡ key_order number) × (number ≤ 1)) }
    ensures none { result ≡ None → 1 < number }
{
    match number {
        0 => Some(KeyOrder::Bytewise),
        1 => Some(KeyOrder::LengthFirst),
        _ => None,
    }
}

// The limits of these numbers; none where one is out of range.
pub(crate) fn limits_of(keys: u32, depth: u32, bytes: u64) -> Option<Limits>
    ensures value { IfSome result (λ l. (l ≡ item_limits keys depth bytes) × AreLimits keys depth bytes) }
    ensures none { result ≡ None → ¬ AreLimits keys depth bytes }
{
    let keys = keys_numbered(keys)?;
    Some(bounds_of(depth, bytes)?.with_keys(keys))
}

// The limits for keys of any kind.
pub(crate) fn bounds_of(depth: u32, bytes: u64) -> Option<Limits>
    ensures value { IfSome result (λ l. (l ≡ bounds depth bytes) × AreBounds (bounds depth bytes)) }
    ensures none { result ≡ None → ¬ AreBounds (bounds depth bytes) }
{
    if depth > u32::from(MAX_DEPTH) {
        return None;
    }
    Limits::new(depth as u16, bytes)
}

// The kinds of keys of this number.
fn keys_numbered(number: u32) -> Option<Keys>
    ensures value { IfSome result (λ k. (k ≡ key_kinds number) × (number ≤ 1)) }
    ensures none { result ≡ None → 1 < number }
{
    match number {
        0 => Some(Keys::Any),
        1 => Some(Keys::IntegersAndTexts),
        _ => None,
    }
}
