//! The resumable engine: it consumes the bytes of one item in parts of any length and reports its events (RFC 8949, section
//! 3).
//!
//! `cbor_events` and the library for C call it. [`Machine`] reports an [`Event`](cbor_head::Event) for each head, each
//! break and each part of a payload, with its offset and its width. It reports where the item ends, and refuses the first
//! byte that no item can have there. It stores the open containers and no bytes of the item, and no call allocates.
//!
//! ```ignore
//! let mut machine = Machine::new(limits);
//! machine.step(&[0x82, 0x19]); // the array of two items; one byte used
//! machine.step(&[0x19, 0x03]); // more: both bytes used, and the head goes on
//! machine.step(&[0xe8, 0x00]); // 1000, at offset 1; one byte used
//! ```
//!
//! [`SavedMachine`] is a machine as plain numbers, for callers that cannot store a machine. [`take_part`] is a step with a
//! stronger contract, for the crates above. `specs/MachineView` is what contracts see of a machine, `specs/Machine` what it
//! represents after some bytes, `specs/NextEvent` what a call for the next event returns.
#![tactic(auto)]

mod container_stack;
mod feed;
mod frame;
mod machine;
mod opening;
mod position;
mod step;
mod take_byte;
mod token;
mod whole_event;

pub use machine::{Machine, SavedMachine, below_256, take_part};
pub use step::{Out, Step};
