//! Heads of CBOR items, events, limits and refusals (RFC 8949, section 3), with the definitions that every contract cites.
//!
//! Users and all other crates here use it. [`Head`] is a head, [`Event`] is what is reported of an item, [`Limits`] bounds
//! an item, [`Refusal`] says why bytes are not accepted and at which offset.
//!
//! An item begins with a head: the major type in the high three bits of the initial byte, the additional information in its
//! low five bits, and then up to eight bytes of argument:
//!
//! ```text
//!  0x19          0x03 0xe8
//! +-----+-------+-----------+
//! | 000 | 11001 | argument  |    unsigned, width Two, argument 1000
//! +-----+-------+-----------+
//! ```
//!
//! ```
//! // the array head 82, of two items
//! let head = Head::shortest(Major::Array, 2);
//! assert_eq!(rt; head.bytes().as_slice(), b"\x82");
//! ```
//!
//! The laws of heads are in [`head_laws`], those of items and verdicts in `theory_values`.
#![tactic(auto)]

mod argument;
mod event;
mod head;
pub mod head_laws;
mod initial_byte;
mod keys;
mod limits;
mod major;
mod order;
mod reason;
mod simple;
mod width;

pub use argument::{Argument, read_argument};
pub use event::{Event, EventKind};
pub use head::{Head, argument_bytes};
pub use initial_byte::{initial_byte_error, initial_byte_reason};
pub use keys::Keys;
pub use limits::{Limits, MAX_DEPTH};
pub use major::Major;
pub use order::KeyOrder;
pub use reason::{Reason, Refusal};
pub use simple::{FIRST_SIMPLE_IN_TWO_BYTES, Simple, is_simple};
pub use width::Width;
