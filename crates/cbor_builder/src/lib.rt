//! The engine that makes canonical bytes from the parts of an item, without a tree.
//!
//! `cbor_reader`, `cbor_tree_reader` and `cbor_item` call it. A [`CanonBuilder`] is given heads, strings and ends in their
//! order, and sorts the pairs of each map when the map ends. [`laws`] has no code: its contracts say which value some parts
//! make.
#![tactic(auto)]

mod builder;
mod canon_builder;
mod copies;
mod frame;
mod head;
mod insertion;
pub mod laws;
mod look_up;
mod member;
mod opening;
mod output_buffer;
mod ranking;
mod repeat;
mod repeats;
mod sort;
mod span;

pub use canon_builder::CanonBuilder;
pub use repeat::Repeat;
