//! The tree reader: reads the valid item at the start of what a reader gives, event by event, and makes its tree.
//!
//! `cbor_reader` re-exports [`read_tree`] and [`read_tree_in`], and its `Sequence` calls [`read_tree_by`]. No byte after the
//! item, or after its first complaint, is read.
#![tactic(auto)]

mod item_part;
mod item_reader;
mod key_set;
mod payload;
mod strings;
mod tree_items;
mod tree_parts;
mod tree_reader;

pub use tree_reader::{read_tree, read_tree_by, read_tree_in};
