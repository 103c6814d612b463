//! CBOR items as values: [`Item`] and [`Tree`], which own their parts, and [`View`], which borrows from the input.
//!
//! Users call it to make items, compare them and encode them. A [`Tree`] holds an item of depth at most
//! [`MAX_DEPTH`](cbor_head::MAX_DEPTH) in which no map has two equal keys, so that it has canonical bytes.
//!
//! ```
//! let item = Item::Array(vec![in alloc; Item::Unsigned(1), Item::Unsigned(100)]?);
//! if let Ok(tree) = Tree::of(alloc, item) {
//!     // [1, 100]
//!     assert_eq!(rt; encode(alloc, &tree, KeyOrder::Bytewise)?.as_slice(), b"\x82\x01\x18\x64");
//! }
//! ```
//!
//! A [`View`] is `Copy`: a string in one piece is a slice of the input; a string in chunks and the members of an array or map
//! are slices of an arena. `cbor_reader::read_view` makes one; [`TreeBuilder`] and [`ViewBuilder`] make items from their parts.
//! Code that handles items and views alike, such as their comparison and their text, uses [`Node`].
#![tactic(auto)]

mod dropping;
mod encoding;
mod item;
mod joined;
mod kinds;
mod lookup;
mod node;
mod parts_law;
mod rest;
mod sameness;
mod to_tree;
mod tree;
mod tree_builder;
mod tree_level;
mod view;
mod view_builder;
mod view_level;
mod within;
mod write;

pub use cbor_builder::{CanonBuilder, Repeat};
pub use cbor_head::KeyOrder;
pub use cbor_memory::Memory;
pub use encoding::{encode, encode_in};
pub use item::Item;
pub use joined::Joined;
pub use node::{Node, NodeKind};
pub use parts_law::parts_make_the_value;
pub use sameness::same;
pub use theory_values::{canonical_laws, compare_keys, key_prefix};
pub use tree::Tree;
pub use tree_builder::TreeBuilder;
pub use view::View;
pub use view_builder::ViewBuilder;
pub use write::{encode_to, encode_to_in, write_whole};
