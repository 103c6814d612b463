//! The theory of values and encodings (RFC 8949, sections 3, 4.2 and 5.6.1), and the comparison of
//! encoded keys.
//!
//! Proofs of the other crates use its lemmas. [`spelling_laws`] says that some bytes have one
//! encoding and an input one verdict; [`canonical_laws`] says what sameness, canonical bytes and
//! the order of keys are. The definitions are in `cbor_head`. The only calls with code are
//! [`compare_keys`] and [`key_prefix`], which the builder and the strict checks use, and
//! [`is_other_kind`], which the readers and the parser use.
#![tactic(auto)]

pub mod canonical_laws;
mod key_kind;
mod key_order;
mod prefix_number;
pub mod spelling_laws;

pub use key_kind::is_other_kind;
pub use key_order::compare_keys;
pub use prefix_number::{key_prefix, part};
