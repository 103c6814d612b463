//! Items put one part after another into a slice: heads, strings, arrays and maps with and without counts, encoded items.
//!
//! It allocates nothing. The library for C calls it.
#![tactic(auto)]

mod writer;

pub use writer::{OK, TOO_SMALL, Writer};

#[cfg(test)]
mod tests;
