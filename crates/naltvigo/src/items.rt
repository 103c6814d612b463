//! Items of canonical bytes, by their offsets.

ghost use Rattle.std.specs.Prelude.{◌≡◌, ◌≢◌, ◌↔◌, ◌⊎◌, ◌+◌, ℕ, List, length, drop};
ghost use Rattle.cbor_head.specs.Canonical.{canonical};
ghost use Rattle.cbor_head.specs.Head.{shortest_head};
ghost use Rattle.cbor_head.specs.Value.{Value, Entries, AnyEntry, Same, IsInRange, IsValid, entries_count, map};
ghost use Rattle.cbor_head.specs.declared.major.Major.TheVariants.{Map};
ghost use Rattle.cbor_head.specs.declared.order.KeyOrder.{KeyOrder};
ghost use Rattle.cbor_cursor.specs.Items.{BeginsWith, HasNoKey};
ghost use Rattle.cbor_cursor.specs.Offsets.{IsItemAt, IsWellFormedAt, IsWithin, IsValueAt, HasNoKeyBytes, offsets_of};
ghost use Rattle.cbor_cursor.specs.WellFormed.{BeginsWithHead, BeginsWithItem, HasNoItem};

use crate::status::{NOT_FOUND, OK, WRONG_KIND};
use cbor_cursor::{ItemAt, Lookup, PlacedItem, find, item_at};

/// The item at an offset of any bytes: `OK` exactly if a well-formed item of definite lengths begins
/// there and ends within the bytes. It reads the item once, and allocates nothing.
///
/// If an item begins there in its canonical bytes, it is that item.
#[unsafe(no_mangle)]
pub extern "C" fn naltvigo_item_at_raw(input: &[u8], offset: u64, item: &mut PlacedItem) -> u32
    ensures item { (o : KeyOrder) (v : Value) (rest : List ℕ) → BeginsWith o (drop offset input.now) v rest
        → (result ≡ OK) × IsItemAt o input.now v rest (offsets_of item.new) }
    ensures well_formed { result ≡ OK
        → BeginsWithHead (drop offset input.now) item.new.kind item.new.number (drop item.new.content input.now)
        × BeginsWithItem (drop offset input.now) (drop item.new.end input.now) }
    ensures none { result ≢ OK → HasNoItem (drop offset input.now) }
    ensures offset { result ≡ OK → item.new.offset ≡ offset }
    ensures within { result ≡ OK → IsWithin input.now (offsets_of item.new) }
    ensures entries { result ≡ OK → item.new.entries ≡ 0 }
    // OK, NOT_FOUND
    ensures statuses { (result ≡ 0) ⊎ (result ≡ 10) }
    ensures kept { result ≢ OK → item.new ≡ item.old }
{
    match item_at(input, offset as usize) {
        Some(found) => {
            *item = placed(found);
            OK
        }
        None => NOT_FOUND,
    }
}

/// The value at a key of the map at an offset. It takes any bytes, any offset and any key.
///
/// If a map begins there in its canonical bytes, it returns `OK` exactly if the map has the key of these
/// canonical bytes, and the item is the value of that pair. It reads the pairs once, and
/// allocates nothing.
#[unsafe(no_mangle)]
pub extern "C" fn naltvigo_find_raw(
    input: &[u8],
    offset: u64,
    key: &[u8],
    value: &mut PlacedItem,
) -> u32
    ensures pair { (o : KeyOrder) (es : Entries) (rest : List ℕ) (k : Value)
        → BeginsWith o (drop offset input.now) (map es) rest
        → IsInRange k → IsValid k → key.now ≡ canonical o k
        → ((result ≡ OK) × AnyEntry (Same k)
        (λ v. (after : List ℕ) × IsItemAt o input.now v after (offsets_of value.new)) es)
        ⊎ ((result ≡ NOT_FOUND) × HasNoKey es k) }
    // Other bytes are no key of the map, so it has none of them.
    ensures any_key { (o : KeyOrder) (es : Entries) (rest : List ℕ)
        → BeginsWith o (drop offset input.now) (map es) rest
        → ((result ≡ OK) × IsValueAt o es (offset + length (shortest_head Map (entries_count es))) key.now input.now rest (offsets_of value.new))
        ⊎ ((result ≡ NOT_FOUND) × HasNoKeyBytes o es key.now) }
    ensures wrong_kind { (o : KeyOrder) (v : Value) (rest : List ℕ) → BeginsWith o (drop offset input.now) v rest
        → (result ≡ WRONG_KIND) ↔ ((es : Entries) → v ≡ map es → ⊥) }
    ensures other_kind { (result ≡ WRONG_KIND) ↔ ((kind : ℕ) × (argument : ℕ) × (content : List ℕ)
        × BeginsWithHead (drop offset input.now) kind argument content × (kind ≢ 5)) }
    ensures within { result ≡ OK → IsWithin input.now (offsets_of value.new) }
    ensures well_formed { result ≡ OK → IsWellFormedAt input.now (offsets_of value.new) }
    ensures entries { result ≡ OK → value.new.entries ≡ 0 }
    // OK, NOT_FOUND, WRONG_KIND
    ensures statuses { (result ≡ 0) ⊎ (result ≡ 10) ⊎ (result ≡ 11) }
    ensures kept { result ≢ OK → value.new ≡ value.old }
{
    match find(input, offset as usize, key) {
        Lookup::Found(found) => {
            *value = placed(found);
            OK
        }
        Lookup::NotThere => NOT_FOUND,
        Lookup::NotMap => WRONG_KIND,
    }
}

// The item as C has it.
fn placed(item: ItemAt) -> PlacedItem
    ensures offsets { offsets_of result ≡ item }
    ensures entries { result.entries ≡ 0 }
{
    PlacedItem {
        number: item.argument,
        offset: item.offset as u64,
        content: item.content as u64,
        end: item.end as u64,
        kind: u32::from(item.kind),
        entries: 0,
    }
}
