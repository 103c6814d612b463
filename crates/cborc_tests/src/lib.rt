//! Tests of the program `cborc`, through `cborc_program::run` and the public calls of the crates below it.
//!
//! They are a separate crate, so that each library is proved once, without its tests.
#![tactic(auto)]

#[cfg(test)]
mod tests;
