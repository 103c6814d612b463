//! The events of an item as lines: heads with their arguments, or bytes with what they mean.
//!
//! Users and the program call it through `cbor_diag`, which re-exports it. [`listing`] writes a line for each event of a
//! reader's next item. [`annotated`] writes the bytes of an item in hex and what each of its heads and breaks means.
//!
//! ```
//! // [1, 100]
//! let mut reader = b"\x82\x01\x18\x64".as_slice();
//! let mut shown = Vec::new(alloc);
//! assert_eq!(rt; listing(&mut reader, limits, &mut shown), Ok(4));
//! assert_eq!(rt; shown.as_slice(), b"0 array 2 0\n1 unsigned 1 0\n2 unsigned 100 1\n");
//! ```
//!
//! Only the form of the item is checked. What was written before a refusal stays.
#![tactic(auto)]

mod annotated_line;
mod annotated_listing;
mod event_line;
mod event_listing;
mod event_meaning;
mod line;
mod next_event;

pub use annotated_listing::annotated;
pub use event_listing::{listing, listing_from};
