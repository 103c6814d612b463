//! Values of C out of an item. Each getter is passed the status of the getters before it, and why there is no item, if there is
//! none; a failure among these is returned again. Where it does not return `OK`, the value is 0.

ghost use Rattle.std.specs.Prelude.{◌≡◌, ◌≢◌, ◌⊎◌, ◌<◌, ◌≤◌, ◌-◌, ◌^◌, ℤ, pos, negsuc};
ghost use Rattle.naltvigo.specs.Reading.{earlier};

use crate::status::{OK, OUT_OF_RANGE, WRONG_KIND};
use cbor_cursor::PlacedItem;

// The kinds of items that are not only a number.
const UNSIGNED: u32 = 0;

const NEGATIVE: u32 = 1;

const ARRAY: u32 = 4;

const MAP: u32 = 5;

const SIMPLE: u32 = 7;

// The numbers of two simple values (RFC 8949, section 3.3).
const FALSE: u64 = 20;

const TRUE: u64 = 21;

/// The number of an item of this kind: of an integer (the n of -1 - n if it is negative), a tag or a simple
/// value. `OUT_OF_RANGE` if an integer has the other sign, `WRONG_KIND` if the item is of another kind.
#[unsafe(no_mangle)]
pub extern "C" fn naltvigo_get_number_raw(
    item: &PlacedItem,
    found: u32,
    kind: u32,
    number: &mut u64,
    status: u32,
) -> u32
    ensures earlier { earlier status found ≢ 0 → result ≡ earlier status found }
    ensures number { earlier status found ≡ 0 → item.now.kind ≡ kind
        → (result ≡ OK) × (number.new ≡ item.now.number) }
    ensures other_sign { earlier status found ≡ 0 → item.now.kind ≢ kind → item.now.kind < 2 → kind < 2
        → result ≡ OUT_OF_RANGE }
    ensures wrong_kind { earlier status found ≡ 0 → item.now.kind ≢ kind → (2 ≤ item.now.kind) ⊎ (2 ≤ kind)
        → result ≡ WRONG_KIND }
    // OK, WRONG_KIND, OUT_OF_RANGE
    ensures statuses { earlier status found ≡ 0 → (result ≡ 0) ⊎ (result ≡ 11) ⊎ (result ≡ 13) }
    ensures none { result ≢ OK → number.new ≡ 0 }
{
    *number = 0;
    let status = earlier(status, found);
    if status != OK {
        return status;
    }
    if item.kind == kind {
        *number = item.number;
        return OK;
    }
    if item.kind < 2 && kind < 2 {
        OUT_OF_RANGE
    } else {
        WRONG_KIND
    }
}

/// An integer from -2^63 to 2^63 - 1; `OUT_OF_RANGE` if it is any other integer, `WRONG_KIND` if the item is none.
#[unsafe(no_mangle)]
pub extern "C" fn naltvigo_get_int_raw(
    item: &PlacedItem,
    found: u32,
    number: &mut i64,
    status: u32,
) -> u32
    ensures earlier { earlier status found ≢ 0 → result ≡ earlier status found }
    ensures unsigned { earlier status found ≡ 0 → item.now.kind ≡ 0 → item.now.number < 2 ^ 63
        → (result ≡ OK) × (number.new ≡ pos item.now.number) }
    ensures negative { earlier status found ≡ 0 → item.now.kind ≡ 1 → item.now.number < 2 ^ 63
        → (result ≡ OK) × (number.new ≡ negsuc item.now.number) }
    ensures range { earlier status found ≡ 0 → item.now.kind < 2 → 2 ^ 63 ≤ item.now.number
        → result ≡ OUT_OF_RANGE }
    ensures wrong_kind { earlier status found ≡ 0 → 2 ≤ item.now.kind → result ≡ WRONG_KIND }
    // OK, WRONG_KIND, OUT_OF_RANGE
    ensures statuses { earlier status found ≡ 0 → (result ≡ 0) ⊎ (result ≡ 11) ⊎ (result ≡ 13) }
    ensures none { result ≢ OK → number.new ≡ pos 0 }
{
    *number = 0;
    let status = earlier(status, found);
    if status != OK {
        return status;
    }
    if item.kind > NEGATIVE {
        return WRONG_KIND;
    }
    if item.number >= 1 << 63 {
        return OUT_OF_RANGE;
    }
    *number = if item.kind == UNSIGNED {
        item.number as i64
    } else {
        -1 - item.number as i64
    };
    OK
}

/// How many members an array has, or how many pairs a map has; `WRONG_KIND` if the item is neither.
#[unsafe(no_mangle)]
pub extern "C" fn naltvigo_get_count_raw(
    item: &PlacedItem,
    found: u32,
    count: &mut u64,
    status: u32,
) -> u32
    ensures earlier { earlier status found ≢ 0 → result ≡ earlier status found }
    ensures count { earlier status found ≡ 0 → (item.now.kind ≡ 4) ⊎ (item.now.kind ≡ 5)
        → (result ≡ OK) × (count.new ≡ item.now.number) }
    ensures wrong_kind { earlier status found ≡ 0 → item.now.kind ≢ 4 → item.now.kind ≢ 5 → result ≡ WRONG_KIND }
    // OK, WRONG_KIND
    ensures statuses { earlier status found ≡ 0 → (result ≡ 0) ⊎ (result ≡ 11) }
    ensures none { result ≢ OK → count.new ≡ 0 }
{
    *count = 0;
    let status = earlier(status, found);
    if status != OK {
        return status;
    }
    if item.kind != ARRAY && item.kind != MAP {
        return WRONG_KIND;
    }
    *count = item.number;
    OK
}

/// 1 for true, 0 for false; `WRONG_KIND` for anything else.
#[unsafe(no_mangle)]
pub extern "C" fn naltvigo_get_bool_raw(
    item: &PlacedItem,
    found: u32,
    is_true: &mut u32,
    status: u32,
) -> u32
    ensures earlier { earlier status found ≢ 0 → result ≡ earlier status found }
    ensures value { earlier status found ≡ 0 → item.now.kind ≡ 7 → (item.now.number ≡ 20) ⊎ (item.now.number ≡ 21)
        → (result ≡ OK) × (is_true.new ≡ item.now.number - 20) }
    ensures wrong_kind { earlier status found ≡ 0
        → (item.now.kind ≢ 7) ⊎ ((item.now.number ≢ 20) × (item.now.number ≢ 21)) → result ≡ WRONG_KIND }
    // OK, WRONG_KIND
    ensures statuses { earlier status found ≡ 0 → (result ≡ 0) ⊎ (result ≡ 11) }
    ensures none { result ≢ OK → is_true.new ≡ 0 }
{
    *is_true = 0;
    let status = earlier(status, found);
    if status != OK {
        return status;
    }
    if item.kind != SIMPLE || (item.number != FALSE && item.number != TRUE) {
        return WRONG_KIND;
    }
    *is_true = (item.number == TRUE) as u32;
    OK
}

/// Where the bytes of a string of this kind begin, and how many they are; `WRONG_KIND` if the item is of
/// another kind.
#[unsafe(no_mangle)]
pub extern "C" fn naltvigo_get_string_raw(
    item: &PlacedItem,
    found: u32,
    kind: u32,
    start: &mut u64,
    length: &mut usize,
    status: u32,
) -> u32
    ensures earlier { earlier status found ≢ 0 → result ≡ earlier status found }
    ensures string { earlier status found ≡ 0 → item.now.kind ≡ kind → (result ≡ OK)
        × (start.new ≡ item.now.content) × (length.new ≡ item.now.end - item.now.content) }
    ensures wrong_kind { earlier status found ≡ 0 → item.now.kind ≢ kind → result ≡ WRONG_KIND }
    // OK, WRONG_KIND
    ensures statuses { earlier status found ≡ 0 → (result ≡ 0) ⊎ (result ≡ 11) }
    ensures none { result ≢ OK → (start.new ≡ 0) × (length.new ≡ 0) }
{
    *start = 0;
    *length = 0;
    let status = earlier(status, found);
    if status != OK {
        return status;
    }
    if item.kind != kind {
        return WRONG_KIND;
    }
    *start = item.content;
    *length = item.end.saturating_sub(item.content) as usize;
    OK
}

/// Where the canonical bytes of the item begin, and how many they are.
#[unsafe(no_mangle)]
pub extern "C" fn naltvigo_get_encoded_raw(
    item: &PlacedItem,
    found: u32,
    start: &mut u64,
    length: &mut usize,
    status: u32,
) -> u32
    ensures status { result ≡ earlier status found }
    ensures bytes { earlier status found ≡ 0
        → (start.new ≡ item.now.offset) × (length.new ≡ item.now.end - item.now.offset) }
    ensures none { result ≢ OK → (start.new ≡ 0) × (length.new ≡ 0) }
{
    *start = 0;
    *length = 0;
    let status = earlier(status, found);
    if status == OK {
        *start = item.offset;
        *length = item.end.saturating_sub(item.offset) as usize;
    }
    status
}

// The failure before a getter, or `OK`.
#[inline(always)]
fn earlier(status: u32, found: u32) -> u32
    ensures { result ≡ earlier status found }
{
    if status == OK { found } else { status }
}
