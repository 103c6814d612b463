//! The theory of well-formed items as an automaton: which byte may come next, and which event it completes (RFC 8949, section 3).
//!
//! It has no code: proofs of the machine and of the readers cite it. `Automaton` takes a byte from one state to the next. `Trace`
//! and `Marks` say which events the bytes of an item have; the type of an event is `cbor_head::Event`.
#![tactic(auto)]
