//! Tests of `example`, and of the calls below it if memory is refused.
//!
//! They are a separate crate, so that the library is not proved again when tests change.
#![tactic(auto)]

#[cfg(test)]
mod tests;
