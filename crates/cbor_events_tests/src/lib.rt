//! Tests of `cbor_head` and `cbor_events` through their public calls.
//!
//! They are a separate crate, so that each library is proved once, and its tests on their own.
#![tactic(auto)]

#[cfg(test)]
mod head_tests;
#[cfg(test)]
mod tests;
