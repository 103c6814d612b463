//! Text for people: diagnostic notation (RFC 8949, section 8) and explanations of refusals.
//!
//! Users and the program call it. [`diagnostic`] writes an item on one line, [`diagnostic_indented`] with one member or
//! pair a line. [`explain`] writes what a refusal means, and [`explanation_text`] returns the same as text. It re-exports
//! `cbor_listing`: [`listing`] writes a line for each event of an item, [`annotated`] its bytes and what they mean.
//!
//! ```
//! let item = Item::Tag(1, Box::new(alloc, Item::Unsigned(1363896240))?);
//! if let Ok(tree) = Tree::of(alloc, item) {
//!     let mut shown = Vec::new(alloc);
//!     assert_eq!(rt; diagnostic(&tree, &mut shown), Ok(13));
//!     assert_eq!(rt; shown.as_slice(), b"1(1363896240)");
//! }
//! ```
//!
//! [`TextBuffer`] makes the text of an item that is known to be valid from its bytes. [`explain`] writes, for
//! `a1 61 61 82 00 f9 00 00`, refused as a `Float` at 5:
//!
//! ```text
//!   A floating-point number begins here; floats are not accepted.
//!   Encode it as an integer, as a text, or as a tag that contains integers.
//!   bytes from 0: a1 61 61 82 00 f9 00 00
//!                                ^^
//!   at $."a"[1]
//! ```
//!
//! [`laws`] has no code: its contracts are the laws of the notation.
#![tactic(auto)]

mod explanation;
mod frames;
mod hidden;
mod item_path;
pub mod laws;
mod layout;
mod outbox;
mod path_text;
mod pieces;
mod sentences;
mod surroundings;
mod text;
mod text_buffer;
mod text_sink;
mod walk;

pub use cbor_listing::{annotated, listing, listing_from};
pub use explanation::{explain, explanation_text, write_sentences};
pub use text::{diagnostic, diagnostic_indented, diagnostic_view, diagnostic_view_indented};
pub use text_buffer::TextBuffer;
