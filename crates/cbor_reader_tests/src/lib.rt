//! Tests of `cbor_reader` and `cbor_strict` through their public calls.
//!
//! They are a separate crate, so that the libraries are not proved again when tests change.
#![tactic(auto)]

#[cfg(test)]
mod strict_tests;
#[cfg(test)]
mod tests;
