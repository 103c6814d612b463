//! All items of an input in canonical bytes, in a table of the caller's.

ghost use Rattle.std.specs.Prelude.{◌≡◌, ◌≢◌, ◌↔◌, ◌⊎◌, ◌<◌, ◌≤◌, ◌^◌, List, length, take, drop, IfOk, IfErr, OnErr};
ghost use Rattle.cbor_cursor.specs.declared.placed.PlacedItem.{PlacedItem};
ghost use Rattle.cbor_head.specs.Complaint.{strict};
ghost use Rattle.cbor_reader.specs.Canonicalise.{IsCanonicalOf};
ghost use Rattle.cbor_reader.specs.WholeItem.{IsItemRefusal};
ghost use Rattle.naltvigo.specs.Checking.{HasNoWholePrefix};
ghost use Rattle.naltvigo.specs.Items.{IsTableOf};
ghost use Rattle.naltvigo.specs.Settings.{key_order, item_limits, AreLimits};
ghost use Rattle.naltvigo.specs.Reported.{ReportsOf};
ghost use Rattle.naltvigo.specs.inner.Checking.{IsNotOwn};
ghost use Rattle.naltvigo.specs.inner.Items.{IsIndexed};

use crate::checking::check_own_bytes;
use crate::settings::{limits_of, order_numbered};
use crate::status::{BAD_LIMITS, BAD_ORDER, NaltvigoRefusal, OK, REFUSED, TOO_SMALL, reported};
use cbor_cursor::{MAX_ENTRIES, PlacedItem, fill_table};
use cbor_head::{KeyOrder, Limits, Refusal};
use cbor_reader::laws::valid_items;

/// Whether `input` is exactly one valid item in its canonical bytes, and if so, an entry for it and
/// for each item within it, in the order of their first bytes, at the start of `items`.
///
/// `needed` becomes the number of entries if the status is `OK` or `TOO_SMALL`, else 0. If it is
/// `TOO_SMALL`, the content of `items` is no table: there are more entries than `items` has space
/// for, or than any table has. It allocates nothing.
#[unsafe(no_mangle)]
pub extern "C" fn naltvigo_index_raw(
    input: &[u8],
    order: u32,
    keys: u32,
    depth: u32,
    bytes: u64,
    items: &mut [PlacedItem],
    needed: &mut usize,
    refusal: &mut NaltvigoRefusal,
) -> u32
    ensures table { result ≡ OK
        → IsTableOf (item_limits keys depth bytes) (key_order order) input.now (take needed.new items.new) }
    ensures space { result ≡ OK → (needed.new ≤ length items.old) × (needed.new < 2 ^ 32) }
    ensures too_small { result ≡ TOO_SMALL → (x : List PlacedItem)
        × IsTableOf (item_limits keys depth bytes) (key_order order) input.now x
        × (needed.new ≡ length x) × ((length items.old < length x) ⊎ (2 ^ 32 ≤ length x)) }
    ensures own { (result ≡ OK) ⊎ (result ≡ TOO_SMALL)
        → IsCanonicalOf (item_limits keys depth bytes) (key_order order) input.now input.now }
    ensures refused { result ≡ REFUSED
        → ReportsOf (IsItemRefusal (item_limits keys depth bytes) (strict (key_order order)) input.now)
        refusal.new }
    ensures not_own { result ≡ REFUSED
        → ¬ IsCanonicalOf (item_limits keys depth bytes) (key_order order) input.now input.now }
    ensures prefix { result ≡ REFUSED
        → HasNoWholePrefix (item_limits keys depth bytes) (key_order order) input.now refusal.new.offset }
    ensures bad_order { (result ≡ BAD_ORDER) ↔ (1 < order) }
    ensures bad_limits { result ≡ BAD_LIMITS → ¬ AreLimits keys depth bytes }
    ensures in_range { result ≢ BAD_ORDER → result ≢ BAD_LIMITS
        → (order ≤ 1) × AreLimits keys depth bytes }
    // OK, TOO_SMALL, REFUSED, BAD_ORDER, BAD_LIMITS
    ensures statuses { (result ≡ 0) ⊎ (result ≡ 2) ⊎ (result ≡ 1) ⊎ (result ≡ 4) ⊎ (result ≡ 5) }
    ensures kept { (result ≢ OK → result ≢ TOO_SMALL → items.new ≡ items.old)
        × (drop needed.new items.new ≡ drop needed.new items.old) }
    ensures no_count { result ≢ OK → result ≢ TOO_SMALL → needed.new ≡ 0 }
    ensures unreported { result ≢ REFUSED → refusal.new ≡ refusal.old }
{
    *needed = 0;
    let Some(order) = order_numbered(order) else {
        return BAD_ORDER;
    };
    let Some(limits) = limits_of(keys, depth, bytes) else {
        return BAD_LIMITS;
    };
    match index_own_bytes(input, limits, order, items) {
        Ok(count) => {
            *needed = count;
            if count <= items.len() && count <= MAX_ENTRIES {
                OK
            } else {
                TOO_SMALL
            }
        }
        Err(reason) => {
            *refusal = reported(reason);
            REFUSED
        }
    }
}

// Fills the table of the item in its canonical bytes that the input is, and returns how many entries
// it has; else why the input is none.
fn index_own_bytes(
    input: &[u8],
    limits: Limits,
    order: KeyOrder,
    items: &mut [PlacedItem],
) -> Result<usize, Refusal>
    ensures indexed { IfOk result (IsIndexed limits order input.now items.old items.new) }
    ensures refused { IfErr result (IsNotOwn limits order input.now) }
    ensures kept { OnErr result (items.new ≡ items.old) }
{
    valid_items();
    check_own_bytes(input, limits, order)?;
    Ok(fill_table(input, items))
}
