//! Tests of `cbor_diag` through its public calls.
//!
//! They are a separate crate, so that the library is proved once, and its tests on their own.
#![tactic(auto)]

#[cfg(test)]
mod tests;
