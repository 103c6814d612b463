//! Whole CBOR items: canonical bytes, checks, trees, views, comparison, and sequences of items (RFC 8742).
//!
//! This is the crate that most users call. [`canonicalise`] returns the canonical bytes of an item (RFC 8949, section 4.2),
//! [`check_valid`] checks one, [`read_tree`] reads one from a reader as a [`Tree`], [`read_view`] one from a slice as a
//! [`View`], [`same_meaning`] compares two. [`Sequence`] reads one item after another from a reader; [`ItemCheck`] and
//! [`ItemCanonicaliser`] do so over slices. [`read_strict`], [`check_canonical`] and [`StrictReader`] accept canonical bytes alone.
//!
//! ```
//! // {"Fun": true, "Amt": -2} without a length, as a stream writes it: bf 63 46 75 6e f5 ..
//! let streamed = b"\xbf\x63Fun\xf5\x63Amt\x21\xff";
//! let canonical = canonicalise(alloc, streamed, limits, KeyOrder::Bytewise)?;
//! // {"Amt": -2, "Fun": true}
//! assert_eq!(rt; canonical.as_slice(), b"\xa2\x63Amt\x21\x63Fun\xf5");
//! assert_eq!(rt; check_canonical(&canonical, limits, KeyOrder::Bytewise), Ok(11));
//! // the key "Amt" does not rise: its offset, and the bytes up to its end
//! let turned = b"\xa2\x63Fun\xf5\x63Amt\x21";
//! let refusal = Refusal::new(Reason::KeyOrder, 6, 10);
//! assert_eq!(rt; check_canonical(turned, limits, KeyOrder::Bytewise), Err(refusal));
//! ```
//!
//! A refused input has one refusal, with its offset. [`laws`] and [`sequence_laws`] have no code: their contracts are the laws of
//! these results.
#![tactic(auto)]

mod built_prefix;
mod canonical_probe;
mod canonical_reader;
mod canonicaliser;
mod comparison;
mod item_canonicaliser;
mod item_check;
mod key_bytes;
pub mod laws;
mod sequence;
mod sequence_items;
pub mod sequence_laws;
mod valid_slice;
mod view_reader;
mod view_sink;
mod whole_item;

pub use canonical_reader::{read_canonical, read_canonical_in};
pub use canonicaliser::{canonical_bytes, canonical_bytes_in, canonicalise, canonicalise_in};
pub use cbor_item::{KeyOrder, Tree, View};
pub use cbor_strict::{StrictReader, check_canonical, read_strict, read_strict_in};
pub use cbor_tree_reader::{read_tree, read_tree_in};
pub use comparison::{Side, same_meaning, same_meaning_in};
pub use item_canonicaliser::ItemCanonicaliser;
pub use item_check::ItemCheck;
pub use sequence::Sequence;
pub use sequence_items::SequenceItems;
pub use valid_slice::{check_valid, check_valid_in};
pub use view_reader::{read_view, whole_view};
