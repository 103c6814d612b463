//! Parts of items that a caller puts one after another. The state of a writer is two numbers of the caller's: `needed`, and the
//! status, which each call is passed and returns.

ghost use Rattle.std.specs.Prelude.{◌≡◌, ◌≢◌, ◌⊎◌, [], IsTrue, IsFalse};
ghost use Rattle.cbor_head.specs.declared.major.Major.TheVariants.{Bytes, Text};
ghost use Rattle.cbor_head.specs.Value.{Value};
ghost use Rattle.cbor_head.specs.declared.order.KeyOrder.{KeyOrder};
ghost use Rattle.cbor_cursor.specs.Items.{BeginsWith};
ghost use Rattle.cbor_cursor.specs.WellFormed.{BeginsWithItem};
ghost use Rattle.cbor_writer.specs.Parts.{a_head, a_string, an_opening, an_end, an_item, an_integer};
ghost use Rattle.cbor_writer.specs.Writing.{Puts, Fails};
ghost use Rattle.naltvigo.specs.Heads.{HasHead};
ghost use Rattle.naltvigo.specs.Writing.{writer, PutsOf, PutsNothing, IsNotItem};

use crate::heads::major_with;
use crate::status::{BAD_HEAD, NOT_FOUND};
use cbor_cursor::item_at;
use cbor_head::Major;
use cbor_writer::Writer;

/// Puts the shortest head of this kind, a major type, and this number: an integer, a tag, a simple value,
/// or the beginning of an array or map with a count. If no head has them, it fails with `BAD_HEAD`.
#[unsafe(no_mangle)]
pub extern "C" fn naltvigo_writer_head_raw(
    kind: u32,
    number: u64,
    out: &mut [u8],
    needed: &mut usize,
    status: u32,
) -> u32
    ensures put { HasHead kind number → PutsOf (λ m. a_head m number) kind out.old out.new
        (writer needed.old status) (writer needed.new result) }
    ensures bad_head { ¬ HasHead kind number
        → PutsNothing BAD_HEAD out.old out.new (writer needed.old status) (writer needed.new result) }
{
    let mut writer = Writer {
        needed: *needed,
        status,
    };
    match major_with(kind, number) {
        Some(major) => writer.put_head(out, major, number),
        None => writer.fail(BAD_HEAD),
    }
    *needed = writer.needed;
    writer.status
}

/// Puts an integer.
#[unsafe(no_mangle)]
pub extern "C" fn naltvigo_writer_int_raw(
    number: i64,
    out: &mut [u8],
    needed: &mut usize,
    status: u32,
) -> u32
    ensures { Puts (an_integer number) out.old out.new (writer needed.old status) (writer needed.new result) }
{
    let mut writer = Writer {
        needed: *needed,
        status,
    };
    writer.put_integer(out, number);
    *needed = writer.needed;
    writer.status
}

/// Puts a string of this kind, 2 of bytes and 3 of text, which is not checked. If the kind is another, it
/// fails with `BAD_HEAD`.
#[unsafe(no_mangle)]
pub extern "C" fn naltvigo_writer_string_raw(
    kind: u32,
    bytes: &[u8],
    out: &mut [u8],
    needed: &mut usize,
    status: u32,
) -> u32
    ensures bytes { kind ≡ 2
        → Puts (a_string Bytes bytes.now) out.old out.new (writer needed.old status) (writer needed.new result) }
    ensures text { kind ≡ 3
        → Puts (a_string Text bytes.now) out.old out.new (writer needed.old status) (writer needed.new result) }
    ensures bad_head { kind ≢ 2 → kind ≢ 3
        → PutsNothing BAD_HEAD out.old out.new (writer needed.old status) (writer needed.new result) }
{
    let mut writer = Writer {
        needed: *needed,
        status,
    };
    match kind {
        2 => writer.put_string(out, Major::Bytes, bytes),
        3 => writer.put_string(out, Major::Text, bytes),
        _ => writer.fail(BAD_HEAD),
    }
    *needed = writer.needed;
    writer.status
}

/// Puts the beginning of an array or map without a count, of kind 4 or 5.
/// If the kind is another, it fails with `BAD_HEAD`.
#[unsafe(no_mangle)]
pub extern "C" fn naltvigo_writer_open_raw(
    kind: u32,
    out: &mut [u8],
    needed: &mut usize,
    status: u32,
) -> u32
    ensures put { (kind ≡ 4) ⊎ (kind ≡ 5) → PutsOf an_opening kind out.old out.new
        (writer needed.old status) (writer needed.new result) }
    ensures bad_head { kind ≢ 4 → kind ≢ 5
        → PutsNothing BAD_HEAD out.old out.new (writer needed.old status) (writer needed.new result) }
{
    let mut writer = Writer {
        needed: *needed,
        status,
    };
    match kind {
        4 => writer.put_opening(out, Major::Array),
        5 => writer.put_opening(out, Major::Map),
        _ => writer.fail(BAD_HEAD),
    }
    *needed = writer.needed;
    writer.status
}

/// Puts the end of an array or map that has no count.
#[unsafe(no_mangle)]
pub extern "C" fn naltvigo_writer_end_raw(out: &mut [u8], needed: &mut usize, status: u32) -> u32
    ensures { Puts an_end out.old out.new (writer needed.old status) (writer needed.new result) }
{
    let mut writer = Writer {
        needed: *needed,
        status,
    };
    writer.put_end(out);
    *needed = writer.needed;
    writer.status
}

/// Puts an item by its bytes. Unless they are exactly one well-formed item of definite lengths, it puts
/// nothing and fails with `NOT_FOUND`: other bytes would change the items after them.
#[unsafe(no_mangle)]
pub extern "C" fn naltvigo_writer_encoded_raw(
    item: &[u8],
    out: &mut [u8],
    needed: &mut usize,
    status: u32,
) -> u32
    ensures either { (BeginsWithItem item.now []
        × Puts (an_item item.now) out.old out.new (writer needed.old status) (writer needed.new result))
        ⊎ (IsNotItem item.now
        × PutsNothing NOT_FOUND out.old out.new (writer needed.old status) (writer needed.new result)) }
    // An item in its canonical bytes is one.
    ensures canonical { (o : KeyOrder) (v : Value) → BeginsWith o item.now v []
        → Puts (an_item item.now) out.old out.new (writer needed.old status) (writer needed.new result) }
{
    let mut writer = Writer {
        needed: *needed,
        status,
    };
    if is_item(item) {
        writer.put_item(out, item);
    } else {
        writer.fail(NOT_FOUND);
    }
    *needed = writer.needed;
    writer.status
}

// Whether these bytes are exactly one well-formed item of definite lengths.
fn is_item(bytes: &[u8]) -> bool
    ensures yes { IsTrue result → BeginsWithItem bytes.now [] }
    ensures no { IsFalse result → IsNotItem bytes.now }
    ensures canonical { (o : KeyOrder) (v : Value) → BeginsWith o bytes.now v [] → IsTrue result }
{
    match item_at(bytes, 0) {
        Some(found) => found.end == bytes.len(),
        None => false,
    }
}
