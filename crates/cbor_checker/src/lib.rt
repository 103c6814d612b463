//! A strict machine on the heap, as programs in C hold it between two calls.
//!
//! [`Checker`] is a pointer and no more. The library makes the machine, and only the library reads it: C passes the pointer
//! from call to call. So C cannot write to the state, and keys of any length need no memory of the caller's.
#![tactic(auto)]

mod checker;
mod parts;

pub use cbor_stream::{Out, Step, StrictMachine};
pub use checker::Checker;
