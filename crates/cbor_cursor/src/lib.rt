//! Reads values out of one CBOR item that is in its canonical bytes, and allocates nothing.
//!
//! A receiver of signed bytes calls [`Cursor::open`], which makes the strict check once and returns a
//! [`Cursor`] over the item. The library for C calls [`head_at`], [`item_end`], [`item_at`], [`find`].
//!
//! ```
//! // {1: "coap://as.example.com", 4: 1444064944}
//! let bytes = b"\xa2\x01\x75coap://as.example.com\x04\x1a\x56\x12\xae\xb0";
//! let claims = Cursor::open_whole(bytes, limits, KeyOrder::Bytewise)?;
//! let issuer = claims.get_integer(1).ok_or("no issuer")?;
//! assert_eq!(rt; issuer.text(), Some("coap://as.example.com"));
//! ```
//!
//! There are two layers:
//!
//! - Offsets. [`head_at`], [`item_end`], [`item_at`] and [`skip_item`] take any bytes and any offset.
//!   They return a head or an item exactly if a well-formed one of definite lengths begins there
//!   (`BeginsWithHead`, `BeginsWithItem`), and `None` otherwise. If the canonical bytes of a value begin
//!   there (`BeginsWith`), it is that value's item. [`find`] takes any bytes too. It returns `NotMap`
//!   exactly if a head of another kind begins there. If the canonical bytes of a map begin there, it
//!   returns the offset of the value in the very pair that has the key, or `NotThere` if no pair has
//!   it. For other bytes its contract says that the offsets are in order and within the bytes.
//! - Cursors. A [`Cursor`], [`Members`] or [`Pairs`] is made only from checked bytes. Its contracts
//!   need no premise: they are about the value that the bytes encode (`value_in`).
//!
//! A look-up compares the bytes of keys, which are equal exactly if the keys are the same. It stops
//! at the first key that comes after the one sought in both orders of keys (RFC 8949, sections 4.2.1
//! and 4.2.3), so the offset layer needs no order. No call recurses.
#![tactic(auto)]

mod array_members;
mod contents;
mod cursor;
mod heads;
mod index;
mod items;
mod keys;
pub mod laws;
mod lookup;
mod map_pairs;
mod members;
mod pairs;
mod placed;
mod skip;

pub use cbor_head::{KeyOrder, Limits, Major, Refusal};
pub use cursor::Cursor;
pub use heads::{HeadAt, head_at};
pub use index::{MAX_ENTRIES, fill_table};
pub use items::{ItemAt, item_at};
pub use lookup::{Lookup, find};
pub use members::Members;
pub use pairs::Pairs;
pub use placed::PlacedItem;
pub use skip::{item_end, skip_item};
