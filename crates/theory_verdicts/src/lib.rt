//! The theory of verdicts: what the bytes of an item so far decide about it, for any rules (RFC
//! 8949, section 5.3).
//!
//! Proofs of every parser and reader use it; its only call is a law, in [`laws`]. `Judged` says
//! what some bytes decide about an item that starts with them: its first complaint, or none so far.
//! `Place` is the position in an item between two events, `Path` the position in a parse of a
//! slice. `Stop` says why a parse stops, and `Refusals` and `Readers` what is returned for the item
//! at the start of an input.
#![tactic(auto)]

pub mod laws;
