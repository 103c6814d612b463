//! The strict check of an item whose bytes come in parts of any length (RFC 8949, section 4.2).
//!
//! [`StrictMachine`] reads parts. After each it reports what [`check_canonical`](cbor_strict::check_canonical) returns of all
//! bytes so far, however they were cut. It stores the last key of each open map, and all of a key that is not complete.
//!
//! ```ignore
//! // {"a": 1, "b": 2}, in two parts
//! machine.check(&[0xa2, 0x61, 0x61, 0x01, 0x61]); // five bytes used; more
//! machine.check(&[0x62, 0x02]); // two bytes used; done
//! ```
#![tactic(auto)]

mod allowance;
pub mod laws;
mod next_step;
mod strict_machine;
mod whole_item;

pub use cbor_head::{Event, EventKind};
pub use cbor_machine::{Out, Step};
pub use strict_machine::StrictMachine;
