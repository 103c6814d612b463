//! Tests of `cbor_item`, `cbor_builder` and `theory_values`, of views and of `read_view`, through their public calls.
//!
//! They are a separate crate, so that each library is proved once, and its tests on their own.
#![tactic(auto)]

#[cfg(test)]
mod tests;
#[cfg(test)]
mod view_tests;
