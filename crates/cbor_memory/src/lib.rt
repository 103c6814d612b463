//! Requests for memory, and whether one was refused.
//!
//! Each engine that allocates calls the methods of [`Memory`]. A contract above them can then say that a call returns an
//! error for memory only if a request was refused in it.
#![tactic(auto)]

mod memory;

pub use memory::Memory;
